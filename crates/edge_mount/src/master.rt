//! The master.
ghost use Rattle.std.specs.Prelude.{◌≡◌, ◌≤◌, length, Ok, IfOk, IsTrue};
ghost use Rattle.edge_base.specs.layout.Spelling.{master_in};
ghost use Rattle.edge_cache.specs.Calls.{content_in};
ghost use Rattle.edge_image.specs.Image.{reason_of};
ghost use Rattle.edge_imap.specs.Bitmaps.{IsFit};
ghost use Rattle.edge_imap.specs.Reading.{OnlyReads};
ghost use Rattle.edge_mount.specs.Mounting.{TellsMount, image_of};

use crate::fault::MountFault;
use edge_base::Master;
use edge_cache::Cache;
use edge_disk::Disk;
use edge_nodes::decode_master;

/// Reads the master of a disk of so many blocks of this size, and answers the first of the reasons
/// 1 to 3 that holds. `block` is room for a block.
pub(crate) fn read_master<D: Disk>(
    cache: &mut Cache<D>,
    blocks: u32,
    block_size: u32,
    block: &mut [u8],
) -> Result<Master, MountFault>
    requires blocks { blocks ≡ (D.origin cache.old.disk).blocks }
    requires size { block_size ≡ (D.origin cache.old.disk).block_size }
    requires three { 3 ≤ blocks }
    requires block { length block.old ≡ (D.origin cache.old.disk).block_size }
    ensures master { IsTrue (D.origin cache.old.disk).shows
        → IfOk result (λ m. master_in (content_in D.Disk cache.old 0) ≡ Ok m) }
    ensures fits { IfOk result (λ m. IsFit m.geometry (D.origin cache.old.disk)) }
    ensures reads { OnlyReads D.Disk cache.old cache.new }
    ensures cause { TellsMount D.Disk (reason_of (image_of D.Disk cache.old))
        cache.old cache.new result }
{
    cache.read(0, 0, block)?;
    let Ok(master) = decode_master(block) else {
        return Err(MountFault::NotVolume(1));
    };
    let request = master.geometry.request();
    if request.block_size != block_size {
        return Err(MountFault::NotVolume(2));
    }
    if blocks < request.blocks {
        return Err(MountFault::NotVolume(3));
    }
    Ok(master)
}

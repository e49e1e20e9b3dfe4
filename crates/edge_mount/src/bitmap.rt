//! The bitmap below a live metaroot, and its counts.
ghost use Rattle.std.specs.Prelude.{◌≡◌, ◌≤◌, ◌^◌, ℕ, Bool, false, IfOk, OnOk, IsTrue};
ghost use Rattle.edge_base.specs.declared.geometry.Request.{Request};
ghost use Rattle.edge_base.specs.layout.Bitmap.{used_under};
ghost use Rattle.edge_cache.specs.Calls.{content_in};
ghost use Rattle.edge_image.specs.Image.{free_blocks_of, free_inodes_of, has_bad_imap, reason_of_counts};
ghost use Rattle.edge_imap.specs.Bitmaps.{IsFit, IsRootBits, IsTied, working_use};
ghost use Rattle.edge_imap.specs.Reading.{OnlyReads};
ghost use Rattle.edge_mount.specs.Mounting.{HasCounts, TellsMount, reason_under};

use crate::fault::MountFault;
use edge_base::{Geometry, Metaroot};
use edge_cache::Cache;
use edge_disk::Disk;
use edge_imap::{Imap, Room};

// The reason in the counts of a metaroot, if there is one, where these are free.
fn reason_in_counts(root: &Metaroot, free_blocks: u32, free_inodes: u32) -> Option<u8>
    ensures { (g : Request) (used : ℕ → Bool) → free_blocks ≡ free_blocks_of g used
        → free_inodes ≡ free_inodes_of g used → result ≡ reason_of_counts g root.now used }
{
    if root.free_blocks != free_blocks || root.free_inodes != free_inodes {
        return Some(7);
    }
    if free_blocks < 3 { Some(8) } else { None }
}

/// Loads the bitmap below a live metaroot, of whose bitmap these are the bytes, and answers the
/// first of the reasons 5 to 8 that holds.
pub(crate) fn load_bitmap<D: Disk>(
    cache: &mut Cache<D>,
    room: Room,
    g: Geometry,
    root: &Metaroot,
    bits: &[u8],
) -> Result<Imap, MountFault>
    requires room { room ≡ g.block_size }
    requires bits { IsRootBits g bits.now }
    requires fits { IsFit g (D.origin cache.old.disk) }
    ensures geometry { IfOk result (λ m. m.geometry ≡ g) }
    ensures committed { IfOk result (λ m. m.committed ≡ bits.now) }
    ensures working { IfOk result (λ m. m.working ≡ bits.now) }
    ensures tied { IsTrue (D.origin cache.old.disk).shows
        → IfOk result (λ m. IsTied m (content_in D.Disk cache.new)) }
    ensures sequence { OnOk result (root.now.sequence ≤ 2 ^ 63) }
    ensures nodes { IsTrue (D.origin cache.old.disk).shows → OnOk result
        (has_bad_imap g bits.now (content_in D.Disk cache.old) ≡ false) }
    ensures counts { IsTrue (D.origin cache.old.disk).shows → OnOk result
        (HasCounts g root.now (used_under g bits.now (content_in D.Disk cache.old))) }
    ensures reads { OnlyReads D.Disk cache.old cache.new }
    ensures cause { TellsMount D.Disk
        (reason_under g root.now bits.now (content_in D.Disk cache.old))
        cache.old cache.new result }
{
    if root.sequence > 1 << 63 {
        return Err(MountFault::NotVolume(5));
    }
    let loaded = Imap::load_in(room, g, bits, cache)?;
    match reason_in_counts(root, loaded.imap.counts().free, loaded.numbers) {
        Some(reason) => Err(MountFault::NotVolume(reason)),
        None => Ok(loaded.imap),
    }
}

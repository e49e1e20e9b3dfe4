//! The live metaroot.
ghost use Rattle.std.specs.Prelude.{◌≡◌, ◌<◌, ◌≤◌, length, drop, Some, IfOk, IfSome, IsTrue};
ghost use Rattle.edge_base.specs.layout.Spelling.{metaroot_in, SpellsMetaroot};
ghost use Rattle.edge_cache.specs.Calls.{content_in};
ghost use Rattle.edge_image.specs.Image.{live_among, live_of, reason_of_live};
ghost use Rattle.edge_imap.specs.Bitmaps.{IsFit};
ghost use Rattle.edge_imap.specs.Reading.{OnlyReads};
ghost use Rattle.edge_mount.specs.Live.{FindsLive, FoundRoot};
ghost use Rattle.edge_mount.specs.Mounting.{TellsMount, image_of, live_at};

use crate::fault::MountFault;
use edge_base::{Geometry, Metaroot};
use edge_cache::Cache;
use edge_disk::Disk;
use edge_nodes::decode_metaroot;

/// A metaroot, and the block that spells it.
#[derive(Clone, Copy)]
pub(crate) struct LiveRoot {
    pub place: u32,
    pub root: Metaroot,
}

// Finds the live one of the metaroots in the blocks 1 and 2, and leaves its bytes in the first
// slice.
fn find_live(g: &Geometry, one: &mut [u8], two: &[u8]) -> Option<LiveRoot>
    requires one { length one.old ≡ g.now.block_size }
    requires two { length two.now ≡ g.now.block_size }
    ensures found { FindsLive (live_among (metaroot_in g.now one.old) (metaroot_in g.now two.now))
        one.old two.now result one.new }
    ensures spelled { IfSome result (FoundRoot g.now one.new) }
{
    match (decode_metaroot(g, one), decode_metaroot(g, two)) {
        (Ok(first), Ok(second)) => {
            if first.sequence < second.sequence {
                one.copy_from_slice(two);
                return Some(LiveRoot {
                    place: 2,
                    root: second,
                });
            }
            Some(LiveRoot {
                place: 1,
                root: first,
            })
        }
        (Ok(first), Err(_)) => Some(LiveRoot {
            place: 1,
            root: first,
        }),
        (Err(_), Ok(second)) => {
            one.copy_from_slice(two);
            Some(LiveRoot {
                place: 2,
                root: second,
            })
        }
        (Err(_), Err(_)) => None,
    }
}

/// Reads both metaroots, and answers the live one, or reason 4 where there is none. `one` has the
/// bytes of its block then; `two` is room for a block.
pub(crate) fn read_live<D: Disk>(
    cache: &mut Cache<D>,
    g: &Geometry,
    one: &mut [u8],
    two: &mut [u8],
) -> Result<LiveRoot, MountFault>
    requires fits { IsFit g.now (D.origin cache.old.disk) }
    requires three { 3 ≤ (D.origin cache.old.disk).blocks }
    requires one { length one.old ≡ g.now.block_size }
    requires two { length two.old ≡ g.now.block_size }
    ensures live { IsTrue (D.origin cache.old.disk).shows → IfOk result
        (λ l. live_of g.now (image_of D.Disk cache.old) ≡ Some (live_at l.place l.root)) }
    ensures bytes { IsTrue (D.origin cache.old.disk).shows
        → IfOk result (λ l. one.new ≡ content_in D.Disk cache.old l.place) }
    ensures spelled { IfOk result (FoundRoot g.now one.new) }
    ensures reads { OnlyReads D.Disk cache.old cache.new }
    ensures cause { TellsMount D.Disk (reason_of_live g.now (image_of D.Disk cache.old)
        (live_of g.now (image_of D.Disk cache.old))) cache.old cache.new result }
{
    cache.read(1, 0, one)?;
    cache.read(2, 0, two)?;
    let Some(live) = find_live(g, one, two) else {
        return Err(MountFault::NotVolume(4));
    };
    Ok(live)
}

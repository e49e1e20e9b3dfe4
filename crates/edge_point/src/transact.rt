//! A point of a store.
ghost use Rattle.std.specs.Prelude.{◌≡◌, ◌<◌, ◌+◌, ◌-◌, ◌^◌, OnOk, OnErr, IsTrue};
ghost use Rattle.edge_base.specs.outside.Faults.{HasCause};
ghost use Rattle.edge_cache.specs.Cached.{IsClean};
ghost use Rattle.edge_cache.specs.Calls.{content_in, KeepsOthers};
ghost use Rattle.edge_disk.specs.State.{EachCut, IsTold, disk_of};
ghost use Rattle.edge_store.specs.Calls.{Called, TakesPoint};
ghost use Rattle.edge_store.specs.State.{IsLive};
ghost use Rattle.edge_store.specs.Told.{MeetsNone};
ghost use Rattle.edge_anchor.specs.Medium.{Follows, IsCommitted, medium_of, shown_alone};
ghost use Rattle.edge_phase.specs.Phases.{MayCommit, OpensAsEither, Settles, next_of};
ghost use Rattle.edge_point.specs.Seen.{anchor_of, state_of};
ghost use Rattle.edge_phase.specs.Spared.{block_given};
ghost use Rattle.edge_point.specs.Standing.{IsPoint};
ghost use Rattle.edge_point.specs.Steps.{KeepsRest};

use crate::parts::Parts;
use edge_base::Metaroot;
use edge_disk::{DeviceFault, Disk};
use edge_imap::Counts;
use edge_phase::commit;
use edge_store::StoreFault;

// The metaroot of the next point: with the next sequence number, and what is free then.
fn next_root(root: &Metaroot, counts: Counts, numbers: u32, next: u32) -> Metaroot
    requires { root.now.sequence + 1 < 2 ^ 64 }
    ensures sequence { result.sequence ≡ root.now.sequence + 1 }
    ensures free_blocks { counts.free + counts.almost < 2 ^ 32
        → result.free_blocks ≡ counts.free + counts.almost }
    ensures free_inodes { result.free_inodes ≡ numbers }
{
    Metaroot {
        sequence: root.sequence + 1,
        free_blocks: counts.free.saturating_add(counts.almost),
        free_inodes: numbers,
        next,
    }
}

// Takes a point of the cache and the bitmap of a store, with this metaroot in the other block.
fn commit_parts<D: Disk>(p: &mut Parts<D>, place: u32, root: &Metaroot) -> Result<(), DeviceFault>
    requires stands { IsPoint D.Disk p.old }
    requires place { place ≡ 3 - p.old.place }
    ensures rest { KeepsRest p.old p.new }
    ensures origin { D.origin p.new.cache.disk ≡ D.origin p.old.cache.disk }
    ensures cause { HasCause (D.faults p.old.cache.disk) (D.faults p.new.cache.disk) result }
    ensures contents { KeepsOthers D.Disk place p.old.cache p.new.cache }
    ensures follows { IsTrue (D.origin p.old.cache.disk).shows → Follows (block_given place)
        (medium_of D.Disk p.old.cache) (medium_of D.Disk p.new.cache) }
    ensures clean { OnOk result (IsClean p.new.cache.held) }
    ensures settles { OnOk result (Settles p.old.imap p.new.imap) }
    ensures unsettled { OnErr result (p.new.imap ≡ p.old.imap) }
    ensures cut { MayCommit D.Disk (anchor_of D.Disk p.old) place root.now p.old.imap p.old.cache
        → IsTold (disk_of D.Disk p.old.cache.disk)
        → IsCommitted (anchor_of D.Disk p.old) (medium_of D.Disk p.old.cache)
        → EachCut (disk_of D.Disk p.new.cache.disk) (OpensAsEither (anchor_of D.Disk p.old)
        (next_of (anchor_of D.Disk p.old) root.now p.old.imap.working
        (content_in D.Disk p.old.cache)) (content_in D.Disk p.old.cache)) }
    ensures committed { MayCommit D.Disk (anchor_of D.Disk p.old) place root.now p.old.imap
        p.old.cache → IsTold (disk_of D.Disk p.old.cache.disk)
        → IsCommitted (anchor_of D.Disk p.old) (medium_of D.Disk p.old.cache)
        → OnOk result (IsCommitted (next_of (anchor_of D.Disk p.old) root.now
        p.old.imap.working (content_in D.Disk p.old.cache)) (medium_of D.Disk p.new.cache)) }
    ensures shown { MayCommit D.Disk (anchor_of D.Disk p.old) place root.now p.old.imap
        p.old.cache → IsTrue (D.origin p.old.cache.disk).shows
        → IsCommitted (anchor_of D.Disk p.old) (shown_alone (medium_of D.Disk p.old.cache))
        → OnOk result (IsCommitted (next_of (anchor_of D.Disk p.old) root.now
        p.old.imap.working (content_in D.Disk p.old.cache))
        (shown_alone (medium_of D.Disk p.new.cache))) }
{
    commit(
        &mut p.cache,
        &mut p.imap,
        &p.master.geometry,
        place,
        root,
        &mut p.block,
    )
}

/// Takes a point: the working view becomes that of the last point.
pub(crate) fn transact<D: Disk>(p: &mut Parts<D>) -> Result<(), StoreFault>
    requires stands { IsPoint D.Disk p.old }
    requires live { IsLive (state_of D.Disk p.old) }
    requires points { (state_of D.Disk p.old).points < 2 ^ 63 - 1 }
    ensures stands { IsPoint D.Disk p.new }
    ensures called { Called (state_of D.Disk p.old) (state_of D.Disk p.new) result }
    ensures undamaged { MeetsNone (state_of D.Disk p.old) result }
    ensures takes { TakesPoint (state_of D.Disk p.old) (state_of D.Disk p.new) result }
{
    let place = 3 - p.place;
    let root = next_root(&p.root, p.imap.counts(), p.numbers, p.next);
    match commit_parts(p, place, &root) {
        Ok(()) => {
            p.place = place;
            p.root = root;
            p.points += 1;
            Ok(())
        }
        Err(_) => {
            p.live = false;
            p.torn = true;
            Err(StoreFault::Device)
        }
    }
}

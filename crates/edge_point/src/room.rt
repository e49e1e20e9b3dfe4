//! What a store tells of itself, and its room.
ghost use Rattle.std.specs.Prelude.{◌≡◌};
ghost use Rattle.edge_store.specs.Told.{AreFreeAfter, AreFreeInodes, AreFreeNow};
ghost use Rattle.edge_point.specs.Seen.{state_of};
ghost use Rattle.edge_point.specs.Standing.{IsPoint};

use crate::parts::Parts;
use edge_base::Geometry;
use edge_disk::Disk;
use edge_store::Free;

/// The geometry of the volume.
pub(crate) fn geometry<D: Disk>(p: &Parts<D>) -> Geometry
    ensures { result ≡ (state_of D.Disk p.now).origin.request }
{
    p.master.geometry
}

/// Whether it may be asked: no call has answered a fault.
pub(crate) fn is_live<D: Disk>(p: &Parts<D>) -> bool
    ensures { result ≡ (state_of D.Disk p.now).live }
{
    p.live
}

/// The number of points taken.
pub(crate) fn points<D: Disk>(p: &Parts<D>) -> u64
    ensures { result ≡ (state_of D.Disk p.now).points }
{
    p.points
}

/// The free blocks, now and after the next point.
pub(crate) fn free<D: Disk>(p: &Parts<D>) -> Free
    requires stands { IsPoint D.Disk p.now }
    ensures now { AreFreeNow (state_of D.Disk p.now) result.now }
    ensures after { AreFreeAfter (state_of D.Disk p.now) result.after }
{
    let counts = p.imap.counts();
    Free {
        now: counts.free,
        after: counts.free.saturating_add(counts.almost),
    }
}

/// How many numbers have no inode.
pub(crate) fn free_inodes<D: Disk>(p: &Parts<D>) -> u32
    requires stands { IsPoint D.Disk p.now }
    ensures { AreFreeInodes (state_of D.Disk p.now) result }
{
    p.numbers
}

ghost use Rattle.edge_point.specs.Standing.{IsPoint};
ghost use Rattle.edge_point.specs.StandingLaws.{IsPoint-prop};

use crate::begin::begin;
use crate::parts::Parts;
use edge_disk::Disk;
use edge_mount::MountFault;
use std::alloc::Global;

/// A store over a disk, which takes transaction points.
///
/// Whatever fails, each image that a cut of the power may leave has the view of the last point, or
/// that of the one under way.
#[derive(Drop)]
pub struct Point<D: Disk> {
    pub(crate) parts: Parts<D>,
    ghost stands: { IsPoint D.Disk parts } by { IsPoint-prop D.Disk parts },
}

impl<D: Disk> Point<D> {
    ghost use Rattle.std.specs.Prelude.{◌≡◌, ◌+◌, ◌-◌, ℕ, IfErr, IfOk, IsTrue, true};
    ghost use Rattle.edge_disk.specs.State.{EachCut, disk_of, shown_by};
    ghost use Rattle.edge_mount.specs.Mounted.{Refuses};
    ghost use Rattle.edge_anchor.specs.Opens.{OpensAs};
    ghost use Rattle.edge_point.specs.Mounted.{MountsPoint};
    ghost use Rattle.edge_point.specs.Seen.{IsLeft, anchor_of, last_view, sequence_of, state_of};

    /// Mounts the volume of a disk. It only reads, and takes all its memory before. Where there is
    /// no volume it answers the first reason, and the disk comes back.
    pub fn mount(alloc: Global, disk: D) -> Result<Point<D>, (D, MountFault)>
        ensures mounts { IfOk result (λ p. MountsPoint D.Disk disk p.parts) }
        ensures refuses { IfErr result (λ e. Refuses D.Disk disk e.0 e.1) }
    {
        match edge_mount::mount(alloc, disk) {
            Ok(mounted) => Ok(Point {
                parts: begin(mounted),
            }),
            Err(refused) => Err(refused),
        }
    }

    /// The sequence number of the last point: that which was mounted, and one more for each point
    /// since.
    pub fn sequence(&self) -> u64
        ensures { result ≡ sequence_of self.now.parts }
    {
        self.parts.root.sequence
    }

    /// The disk, as it is. What waits to be written is not.
    pub fn end(self) -> D
        ensures disk { result ≡ self.parts.cache.disk }
        ensures cut { (state_of D.Disk self.parts).guarded
            → EachCut (disk_of D.Disk result) (IsLeft D.Disk self.parts) }
        ensures shown { self.parts.live ≡ true → IsTrue (D.origin result).shows
            → OpensAs (anchor_of D.Disk self.parts) (last_view D.Disk self.parts)
            (shown_by (disk_of D.Disk result)) }
    {
        let Point { parts } = self;
        let Parts {
            cache,
            imap: _,
            master: _,
            place: _,
            root: _,
            points: _,
            numbers: _,
            next: _,
            live: _,
            torn: _,
            damage: _,
            block: _,
        } = parts;
        cache.end()
    }
}

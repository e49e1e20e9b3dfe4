ghost use Rattle.std.specs.Prelude.{◌≡◌, false};
ghost use Rattle.edge_app.specs.Causes.{HasCauses, IsBeforeDisk, has_no_session};
ghost use Rattle.edge_app.specs.Runs.{Runs};
ghost use Rattle.edge_app.specs.World.{world};
ghost use Rattle.edge_point.specs.Mounted.{MountsPoint};
ghost use Rattle.edge_point.specs.Seen.{state_of};
ghost use Rattle.edge_store.specs.State.{IsMade};

use crate::report::{MEMORY, Outcome, Report};
use edge_calls::Volume;
use edge_disk::Disk;
use edge_io::{Clock, Sink, Source};
use edge_model::Ask;
use edge_point::Point;
use edge_session::{Buffers, Limit, session};
use std::alloc::Global;

/// The lines that a session answers at most.
pub const MOST_LINES: u32 = 4_294_967_295;
/// The bytes of a script that it takes up at most.
pub const MOST_BYTES: u64 = 1_099_511_627_776;

/// The limits of a session.
const LIMITS: Limit = Limit {
    lines: MOST_LINES,
    bytes: MOST_BYTES,
};

// Answers the script over a volume that was just mounted.
fn serve<S: Source, K: Sink, C: Clock, D: Disk>(
    point: Point<D>,
    src: &mut S,
    out: &mut K,
    clock: &mut C,
    buffers: &mut Buffers,
) -> Outcome<D>
    requires made { IsMade (state_of D.Disk point.parts) }
    ensures served { (disk : D) → MountsPoint D.Disk disk point.parts
        → HasCauses (world S.Source K.Sink C.Clock D.Disk src.old out.old clock.old disk)
        (world S.Source K.Sink C.Clock D.Disk src.new out.new clock.new result.disk) result.report
        × Runs (world S.Source K.Sink C.Clock D.Disk src.old out.old clock.old disk)
        (world S.Source K.Sink C.Clock D.Disk src.new out.new clock.new result.disk) result.report }
    ensures session { has_no_session result.report.status ≡ false }
{
    let mut volume = Volume::new(point);
    let ended = session(&mut volume, src, out, clock, LIMITS, buffers);
    let points = volume.points();
    Outcome {
        report: Report::served(ended, points),
        disk: volume.end().end(),
    }
}

/// Answers the script of `src`, line by line, into `out`, over the volume of the disk. It takes all
/// its memory before the first device call.
pub fn run_image<S: Source, K: Sink, C: Clock, D: Disk>(
    alloc: Global,
    src: &mut S,
    out: &mut K,
    clock: &mut C,
    disk: D,
) -> Outcome<D>
    ensures causes { HasCauses
        (world S.Source K.Sink C.Clock D.Disk src.old out.old clock.old disk)
        (world S.Source K.Sink C.Clock D.Disk src.new out.new clock.new result.disk)
        result.report }
    ensures runs { Runs
        (world S.Source K.Sink C.Clock D.Disk src.old out.old clock.old disk)
        (world S.Source K.Sink C.Clock D.Disk src.new out.new clock.new result.disk)
        result.report }
    ensures no_call { IsBeforeDisk result.report.status → result.disk ≡ disk }
{
    let Ok(mut buffers) = Buffers::new(alloc) else {
        return Outcome {
            report: Report::unserved(MEMORY),
            disk,
        };
    };
    match Point::mount(alloc, disk) {
        Err((disk, fault)) => Outcome {
            report: Report::unmounted(fault),
            disk,
        },
        Ok(point) => serve(point, src, out, clock, &mut buffers),
    }
}

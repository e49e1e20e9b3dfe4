ghost use Rattle.std.specs.Prelude.{◌≡◌};
ghost use Rattle.edge_words.specs.Words.{words_of};
ghost use Rattle.edge_app.specs.Causes.{IsBeforeDisk};
ghost use Rattle.edge_app.specs.Headline.{KeepsTrees};
ghost use Rattle.edge_app.specs.Orders.{AsksRun, HaveBlockSize};
ghost use Rattle.edge_app.specs.Promise.{Promise};
ghost use Rattle.edge_app.specs.World.{world};

use crate::format_command::format_image;
use crate::report::{Outcome, Report, WORDS};
use crate::run_command::run_image;
use edge_disk::Disk;
use edge_io::{Clock, Sink, Source};
use edge_words::{Order, read_words};
use std::alloc::Global;

/// Runs the command that the words say. `run IMAGE` answers the script of `src`, line by line,
/// into `out`, over the volume of the disk; it takes all its memory before the first device call.
/// `format IMAGE` makes the disk a fresh volume at the clock's next moment. `edge_words::need` says
/// which file the disk is over, and its block size.
pub fn edge<S: Source, K: Sink, C: Clock, D: Disk>(
    alloc: Global,
    words: &[&str],
    src: &mut S,
    out: &mut K,
    clock: &mut C,
    disk: D,
) -> Outcome<D>
    requires size { HaveBlockSize (words_of words.now) (D.origin disk).block_size }

    // `specs/Promise.antt` says which status comes when, and what each command does.
    ensures promise { Promise (words_of words.now)
        (world S.Source K.Sink C.Clock D.Disk src.old out.old clock.old disk)
        (world S.Source K.Sink C.Clock D.Disk src.new out.new clock.new result.disk)
        result.report }

    // The headline: over a sound image the replies to a script are those of a plain tree of files,
    // and whatever failed, each image that the disk may then hold opens to the tree of the last
    // completed point, or of the one under way.
    ensures headline { AsksRun (words_of words.now)
        → KeepsTrees (world S.Source K.Sink C.Clock D.Disk src.old out.old clock.old disk)
        (world S.Source K.Sink C.Clock D.Disk src.new out.new clock.new result.disk)
        result.report }

    // Some statuses come before any call of the disk.
    ensures no_call { IsBeforeDisk result.report.status → result.disk ≡ disk }
{
    let Ok(order) = read_words(words) else {
        return Outcome {
            report: Report::unserved(WORDS),
            disk,
        };
    };
    match order {
        Order::Run { .. } => run_image(alloc, src, out, clock, disk),
        Order::Format { request, .. } => format_image(out, clock, disk, request),
    }
}

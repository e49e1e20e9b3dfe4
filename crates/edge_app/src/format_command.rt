ghost use Rattle.std.specs.Prelude.{◌≡◌, ◌↔◌, None, IfSome};
ghost use Rattle.edge_app.specs.Causes.{HasCauses, IsBeforeDisk};
ghost use Rattle.edge_app.specs.Formats.{Formats, formatted_line};
ghost use Rattle.edge_app.specs.Orders.{IsUnfit};
ghost use Rattle.edge_app.specs.World.{world_with_source};
ghost use Rattle.edge_io.specs.States.{SourceState};

use crate::report::{DEVICE, DONE, GEOMETRY, Outcome, Report, SINK};
use arrayvec::ArrayString;
use edge_base::{Geometry, Request};
use edge_disk::Disk;
use edge_format::format;
use edge_io::{Clock, Sink, write_all};
use itoa::Buffer;

/// The bytes of the largest block.
const MOST: usize = 4096;

// formatted ALLOCABLE
fn formatted_line(g: &Geometry) -> ArrayString<64>
    ensures { result.bytes ≡ formatted_line g.now }
{
    let mut digits = Buffer::new();
    let mut line = ArrayString::new();
    line.push_str("formatted ");
    line.push_str(digits.format(g.allocable()));
    line.push_str("\n");
    line
}

// The geometry of a request that fits a disk of so many blocks.
fn fitting(request: Request, blocks: u32) -> Option<Geometry>
    ensures none { (result ≡ None) ↔ IsUnfit request blocks }
    ensures same { IfSome result (λ g. g ≡ request) }
{
    match Geometry::checked(request) {
        Ok(geometry) if request.blocks <= blocks => Some(geometry),
        _ => None,
    }
}

/// Formats the disk with a geometry at the clock's next moment, and prints `formatted ALLOCABLE`.
/// It takes no memory.
pub fn format_image<K: Sink, C: Clock, D: Disk>(
    out: &mut K,
    clock: &mut C,
    disk: D,
    request: Request,
) -> Outcome<D>
    requires { (D.origin disk).block_size ≡ request.block_size }
    // The source is left alone, whatever it tells.
    ensures causes { (source : SourceState) → HasCauses
        (world_with_source K.Sink C.Clock D.Disk source out.old clock.old disk)
        (world_with_source K.Sink C.Clock D.Disk source out.new clock.new result.disk)
        result.report }
    ensures formats { (source : SourceState) → Formats request
        (world_with_source K.Sink C.Clock D.Disk source out.old clock.old disk)
        (world_with_source K.Sink C.Clock D.Disk source out.new clock.new result.disk)
        result.report }
    ensures no_call { IsBeforeDisk result.report.status → result.disk ≡ disk }
{
    let Some(geometry) = fitting(request, disk.blocks()) else {
        return Outcome {
            report: Report::unserved(GEOMETRY),
            disk,
        };
    };
    let time = clock.now();
    let mut disk = disk;
    let mut buffer = [0; MOST];
    let block = &mut buffer[..request.block_size as usize];
    if format(&mut disk, geometry, time, block).is_err() {
        return Outcome {
            report: Report::unserved(DEVICE),
            disk,
        };
    }
    let line = formatted_line(&geometry);
    let status = match write_all(out, line.as_str().as_bytes()) {
        Ok(()) => DONE,
        Err(_) => SINK,
    };
    Outcome {
        report: Report::unserved(status),
        disk,
    }
}

ghost use Rattle.std.specs.Prelude.{◌≡◌, OnOk};
ghost use Rattle.std.specs.Io.KnownBytes.{Appends};
ghost use Rattle.std.specs.Process.{exit_status};
ghost use Rattle.edge_app.specs.Report.{fault_line_of};

use edge_app::{Report, fault_line};
use std::io;
use std::io::Write;
use std::process::ExitCode;

/// The status of a report, as the program ends with it.
pub fn exit_code(report: &Report) -> ExitCode
    ensures { exit_status result ≡ report.now.status }
{
    ExitCode::from(report.status)
}

/// Writes the fault line of a report, with its line feed, where it has one.
pub fn write_fault_line<W: Write>(errors: &mut W, report: &Report) -> io::Result<()>
    ensures { OnOk result
        (Appends (W.contents errors.old) (W.contents errors.new) (fault_line_of report.now)) }
{
    let mut line = [0; 64];
    let length = fault_line(report, &mut line);
    errors.write_all(&line[..length])
}

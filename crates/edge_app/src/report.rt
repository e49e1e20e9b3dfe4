ghost use Rattle.std.specs.Prelude.{◌≡◌, ◌≤◌, ◌++◌, length, drop};
ghost use Rattle.edge_app.specs.Report.{unserved_by, unmounted_by, served_by, number_of, fault_line_of};

use arrayvec::ArrayString;
use edge_base::{Damage, DamageKind};
use edge_model::AskFault;
use edge_point::MountFault;
use edge_session::{Ended, How};
use itoa::Buffer;

/// How a run has ended. `docs/COMMANDS.md` has the statuses.
#[derive(Clone, Copy, Debug, PartialEq, Eq)]
pub struct Report {
    /// The status that the program ends with.
    pub status: u8,
    /// Why the image is no volume, from 1 to 8, where the status tells it; else 0.
    pub reason: u8,
    /// The lines that were answered.
    pub commands: u32,
    /// The bytes of the script in these lines, and in a line that was taken up and not answered.
    pub taken: u64,
    /// The points that were completed.
    pub points: u64,
    /// The damage that was met, where the status tells it.
    pub damage: Option<Damage>,
}

/// What a run leaves: its report, and the disk that it was given.
#[derive(Debug, Drop)]
pub struct Outcome<D> {
    pub report: Report,
    pub disk: D,
}

/// The command was done.
pub const DONE: u8 = 0;
/// The words are no command.
pub const WORDS: u8 = 2;
/// The source failed.
pub const SOURCE: u8 = 3;
/// The sink failed.
pub const SINK: u8 = 4;
/// The disk failed.
pub const DEVICE: u8 = 5;
/// Damage was met.
pub const DAMAGED: u8 = 6;
/// There was not enough memory.
pub const MEMORY: u8 = 7;
/// The image is no volume.
pub const NOT_A_VOLUME: u8 = 8;
/// The geometry breaks a limit, or has more blocks than the disk.
pub const GEOMETRY: u8 = 10;
/// A limit of the session was reached.
pub const LIMIT: u8 = 11;

impl Report {
    /// The report of a run that answered no line.
    pub const fn unserved(status: u8) -> Report
        ensures { result ≡ unserved_by status 0 }
    {
        Report {
            status,
            reason: 0,
            commands: 0,
            taken: 0,
            points: 0,
            damage: None,
        }
    }

    /// The report of a run over an image that is not mounted.
    pub(crate) fn unmounted(fault: MountFault) -> Report
        ensures { result ≡ unmounted_by fault }
    {
        match fault {
            MountFault::Device => Report::unserved(DEVICE),
            MountFault::NotVolume(reason) => Report {
                reason,
                ..Report::unserved(NOT_A_VOLUME)
            },
            MountFault::Memory => Report::unserved(MEMORY),
        }
    }

    /// The report of a session that has ended, with so many points completed.
    pub(crate) fn served(ended: Ended, points: u64) -> Report
        ensures { result ≡ served_by ended.how ended.commands ended.taken points }
    {
        let (status, damage) = match ended.how {
            How::End => (DONE, None),
            How::Source => (SOURCE, None),
            How::Sink => (SINK, None),
            How::Fault(AskFault::Device) => (DEVICE, None),
            How::Fault(AskFault::Damaged(damage)) => (DAMAGED, Some(damage)),
            How::Limit => (LIMIT, None),
        };
        Report {
            status,
            reason: 0,
            commands: ended.commands,
            taken: ended.taken,
            points,
            damage,
        }
    }
}

// The number that is printed of a kind of damage.
fn number_of(kind: DamageKind) -> u8
    ensures { result ≡ number_of kind }
{
    kind as u8
}

// The text of a fault line.
fn fault_text(r: &Report) -> ArrayString<64>
    ensures { result.bytes ≡ fault_line_of r.now }
{
    let mut digits = Buffer::new();
    let mut text = ArrayString::new();
    if r.status == DONE {
        return text;
    }
    text.push_str("edge: status ");
    text.push_str(digits.format(r.status));
    match r.damage {
        Some(damage) if r.status == DAMAGED => {
            text.push_str(" block ");
            text.push_str(digits.format(damage.block));
            text.push_str(" kind ");
            text.push_str(digits.format(number_of(damage.kind)));
        }
        _ => {}
    }
    if r.status == NOT_A_VOLUME {
        text.push_str(" reason ");
        text.push_str(digits.format(r.reason));
    }
    text.push_str("\n");
    text
}

/// Writes the fault line of a report to the front of `out`, which has at least 64 bytes, and
/// answers its length: `edge: status S`, then ` block B kind K` where damage was met, or ` reason
/// R` where the image is no volume, and a line feed. At status 0 there is none.
pub fn fault_line(r: &Report, out: &mut [u8]) -> usize
    requires { 64 ≤ length out.old }
    ensures length { result ≡ length (fault_line_of r.now) }
    ensures text { out.new ≡ fault_line_of r.now ++ drop result out.old }
{
    let text = fault_text(r);
    let bytes = text.as_str().as_bytes();
    out[..bytes.len()].copy_from_slice(bytes);
    bytes.len()
}

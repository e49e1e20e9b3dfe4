ghost use Rattle.std.specs.Prelude.{◌≡◌, IfOk, IsTrue};
ghost use Rattle.edge_app.specs.Orders.{HaveBlockSize};
ghost use Rattle.edge_base.specs.layout.Sizes.{is_block_size};
ghost use Rattle.edge_disk.specs.Memory.{origin_of};
ghost use Rattle.edge_disk.specs.Sure.{origin_of as sure_origin_of};
ghost use Rattle.edge_words.specs.Words.{words_of};

use crate::pieces::{PieceSink, PieceSource};
use crate::row::Row;
use anyhow::{Result, ensure};
use edge_app::{Report, edge, fault_line};
use edge_disk::{Disk, MemoryDisk, SureDisk};
use edge_io::{Clock, MemoryClock, MemorySink, MemorySource};
use edge_statement::{push_escaped, push_lines};
use edge_words::need;
use std::alloc::{AllocError, Global};

/// What a call of `edge` leaves.
#[derive(Drop)]
pub struct Answer<D> {
    pub report: Report,
    pub disk: D,
    pub sink: MemorySink,
    /// The clock's next moment.
    pub moment: u32,
}

/// A disk of the bytes of an image, of which these calls fail.
pub fn memory_disk(
    alloc: Global,
    block_size: u32,
    row: &Row,
    image: &[u8],
    fails: &[u64],
) -> Result<MemoryDisk>
    requires { IsTrue (is_block_size block_size) }
    ensures { IfOk result (λ d. (origin_of d).block_size ≡ block_size) }
{
    ensure!(image.len() < 1 << 31, "a great image");
    ensure!(row.disk_room < 1 << 31, "much room");
    let room = row.disk_room as u32;
    Ok(MemoryDisk::new(alloc, block_size, image, room, fails)?)
}

/// A disk of the bytes of an image that never fails.
pub fn sure_disk(alloc: Global, block_size: u32, image: &[u8]) -> Result<SureDisk>
    requires { IsTrue (is_block_size block_size) }
    ensures { IfOk result (λ d. (sure_origin_of d).block_size ≡ block_size) }
{
    ensure!(image.len() < 1 << 31, "a great image");
    Ok(SureDisk::new(alloc, block_size, image)?)
}

/// Calls `edge` with words, over a disk of the bytes of an image of which these calls fail.
pub fn order(
    alloc: Global,
    row: &Row,
    words: &[&str],
    image: &[u8],
    fails: &[u64],
) -> Result<Answer<MemoryDisk>> {
    let disk = memory_disk(alloc, need(words).block_size, row, image, fails)?;
    Ok(call(alloc, row, words, disk)?)
}

/// Calls `edge` with words, over a disk of the bytes of an image that never fails.
pub fn sure_order(
    alloc: Global,
    row: &Row,
    words: &[&str],
    image: &[u8],
) -> Result<Answer<SureDisk>> {
    let disk = sure_disk(alloc, need(words).block_size, image)?;
    Ok(call(alloc, row, words, disk)?)
}

fn call<D: Disk + Drop>(
    alloc: Global,
    row: &Row,
    words: &[&str],
    disk: D,
) -> Result<Answer<D>, AllocError>
    requires { HaveBlockSize (words_of words.now) (D.origin disk).block_size }
{
    let source = MemorySource::new(alloc, &row.script, &row.source_fails)?;
    let sink = MemorySink::new(alloc, row.sink_room, &row.sink_fails)?;
    let mut source = PieceSource {
        source,
        most: row.source_piece,
    };
    let mut sink = PieceSink {
        sink,
        most: row.sink_piece,
    };
    let mut clock = clock_of(alloc, &row.moments)?;
    let outcome = edge(alloc, words, &mut source, &mut sink, &mut clock, disk);
    Ok(Answer {
        report: outcome.report,
        disk: outcome.disk,
        sink: sink.sink,
        moment: clock.now(),
    })
}

/// A clock of these moments, or of 0 alone.
pub fn clock_of(alloc: Global, moments: &[u32]) -> Result<MemoryClock, AllocError> {
    if moments.is_empty() {
        return MemoryClock::new(alloc, &[0]);
    }
    MemoryClock::new(alloc, moments)
}

/// Appends what a call of `edge` has answered: its report, the calls of the disk where they are
/// counted, the fault line, and what the sink took.
pub fn push_answer<D>(
    out: &mut String,
    row: &Row,
    answer: &Answer<D>,
    calls: Option<u64>,
) -> Result<()> {
    let report = &answer.report;
    write!(
        out,
        "  status {}, commands {}, taken {}, points {}",
        report.status, report.commands, report.taken, report.points
    )?;
    if let Some(calls) = calls {
        write!(out, ", calls {calls}")?;
    }
    if !row.moments.is_empty() {
        write!(out, ", next moment {}", answer.moment)?;
    }
    if report.status != 0 {
        out.push_str(", ")?;
        push_fault(out, report)?;
    }
    out.push('\n')?;
    push_lines(out, '<', answer.sink.taken())?;
    Ok(())
}

/// Appends the fault line of a report, where it has one.
pub fn push_fault(out: &mut String, report: &Report) -> Result<(), AllocError> {
    let mut line = [0; 64];
    let length = fault_line(report, &mut line);
    push_escaped(out, &line[..length])
}

/// The image in which each block holds the candidate of its number, and none where one is not
/// there.
pub fn permitted(
    alloc: Global,
    disk: &MemoryDisk,
    pick: &[u32],
) -> Result<Option<Vec<u8>>, AllocError> {
    if pick.len() != disk.blocks() as usize {
        return Ok(None);
    }
    for b in 0..pick.len() {
        if pick[b] >= disk.loose(b as u32) {
            return Ok(None);
        }
    }
    Ok(Some(disk.permitted(alloc, pick)?))
}

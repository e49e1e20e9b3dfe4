ghost use Rattle.std.specs.Prelude.{◌≡◌, IfOk, IsTrue};
ghost use Rattle.edge_app.specs.Orders.{HaveBlockSize};
ghost use Rattle.edge_base.specs.layout.Sizes.{is_block_size};
ghost use Rattle.edge_disk.specs.Memory.{origin_of};
ghost use Rattle.edge_words.specs.Words.{words_of};

use anyhow::{Context, Result, ensure};
use edge_app::{Report, edge};
use edge_disk::{Disk, MemoryDisk};
use edge_io::{MemoryClock, MemorySink, MemorySource};
use edge_words::need;
use std::alloc::{AllocError, Global};

/// The candidates that a disk has room for besides one a block, and the bytes of all replies.
const DISK_ROOM: u32 = 4096;

pub(crate) const SINK_ROOM: usize = 1 << 20;

/// What a call of `edge` leaves.
#[derive(Drop)]
pub struct Answer {
    pub report: Report,
    pub disk: MemoryDisk,
    pub sink: MemorySink,
}

// A disk of the bytes of an image.
fn disk_of(alloc: Global, block_size: u32, image: &[u8]) -> Result<MemoryDisk>
    requires { IsTrue (is_block_size block_size) }
    ensures { IfOk result (λ d. (origin_of d).block_size ≡ block_size) }
{
    ensure!(image.len() < 1 << 31, "a great image");
    Ok(MemoryDisk::new(alloc, block_size, image, DISK_ROOM, &[])?)
}

/// Calls `edge` with words and a script, over a disk of the bytes of an image.
pub fn order(alloc: Global, words: &[&str], script: &[u8], image: &[u8]) -> Result<Answer> {
    let disk = disk_of(alloc, need(words).block_size, image)?;
    Ok(call(alloc, words, script, disk)?)
}

fn call(
    alloc: Global,
    words: &[&str],
    script: &[u8],
    disk: MemoryDisk,
) -> Result<Answer, AllocError>
    requires { HaveBlockSize (words_of words.now) (origin_of disk).block_size }
{
    let mut source = MemorySource::new(alloc, script, &[])?;
    let mut sink = MemorySink::new(alloc, SINK_ROOM, &[])?;
    let mut clock = MemoryClock::new(alloc, &[0])?;
    let outcome = edge(alloc, words, &mut source, &mut sink, &mut clock, disk);
    Ok(Answer {
        report: outcome.report,
        disk: outcome.disk,
        sink,
    })
}

/// The image that the disk shows.
pub fn shown(alloc: Global, disk: &MemoryDisk) -> Result<Vec<u8>> {
    let pick = vec![in alloc; 0u32; disk.blocks() as usize]?;
    permitted(alloc, disk, &pick)?.context("no candidate")
}

// The image in which each block holds the candidate of its number, and none where one is not there.
fn permitted(
    alloc: Global,
    disk: &MemoryDisk,
    pick: &[u32],
) -> Result<Option<Vec<u8>>, AllocError> {
    if pick.len() != disk.blocks() as usize {
        return Ok(None);
    }
    for b in 0..pick.len() {
        if pick[b] >= disk.loose(b as u32) {
            return Ok(None);
        }
    }
    Ok(Some(disk.permitted(alloc, pick)?))
}

use crate::image::Image;
use crate::nodes::is_block_size;
use crate::orders::{memory_disk, permitted, sure_disk};
use crate::row::Row;
use anyhow::{Context, Result, ensure};
use edge_disk::{Disk, MemoryDisk};
use edge_statement::byte;
use std::alloc::Global;

/// Makes calls of a disk over an image that fails where the row says so, and tells after each how
/// many calls there were, and the candidates of each block. `pN,N,..` tells the first byte of each
/// block of the image that holds these candidates.
pub fn push_disk(
    alloc: Global,
    out: &mut String,
    row: &Row,
    image: &Image,
    calls: &[&str],
) -> Result<()> {
    ensure!(is_block_size(image.block_size), "no size of a block");
    let size = image.block_size as u32;
    let mut disk = memory_disk(alloc, size, row, &image.bytes, &row.disk_fails)?;
    for call in calls {
        if let Some(picks) = call.strip_prefix("p") {
            push_picked(alloc, out, &disk, picks)?;
            continue;
        }
        push_call(alloc, out, &mut disk, call)?;
        push_counts(out, &disk)?;
    }
    Ok(())
}

/// Makes calls of a disk over an image that never fails.
pub fn push_sure_disk(
    alloc: Global,
    out: &mut String,
    image: &Image,
    calls: &[&str],
) -> Result<()> {
    ensure!(is_block_size(image.block_size), "no size of a block");
    let size = image.block_size as u32;
    let mut disk = sure_disk(alloc, size, &image.bytes)?;
    for call in calls {
        push_call(alloc, out, &mut disk, call)?;
        out.push('\n')?;
    }
    Ok(())
}

/// Makes a call of a disk, `rB` for a read of block B, `wB:HH` for a write of that byte all over
/// it, and `f` for a flush, and appends what it answers: the block's first byte, or its fault.
pub fn push_call<D: Disk>(alloc: Global, out: &mut String, disk: &mut D, call: &str) -> Result<()> {
    let mut block = vec![in alloc; 0u8; disk.block_size() as usize]?;
    let answer = if call == "f" {
        disk.flush()
    } else if let Some(number) = call.strip_prefix("r") {
        let b = number.parse::<u32>()?;
        ensure!(b < disk.blocks(), "no such block");
        disk.read(b, &mut block)
    } else {
        let (number, digits) = call
            .strip_prefix("w")
            .and_then(|rest| rest.split_once(':'))
            .context("no call of a disk")?;
        let b = number.parse::<u32>()?;
        ensure!(b < disk.blocks(), "no such block");
        block.fill(byte(alloc, digits)?);
        disk.write(b, &block)
    };
    match answer {
        Ok(()) => {
            let first = block.first().copied().unwrap_or(0);
            write!(out, "  {call}: {first:02x}")?;
        }
        Err(fault) => write!(out, "  {call}: {fault}")?,
    }
    Ok(())
}

// Appends how many calls there were, and the candidates of each block.
fn push_counts(out: &mut String, disk: &MemoryDisk) -> Result<()> {
    write!(out, ", {} calls, candidates", disk.calls())?;
    for b in 0..disk.blocks() {
        write!(out, " {}", disk.loose(b))?;
    }
    out.push('\n')?;
    Ok(())
}

// Appends the first byte of each block of the image that holds these candidates.
fn push_picked(alloc: Global, out: &mut String, disk: &MemoryDisk, picks: &str) -> Result<()> {
    let mut pick = Vec::new(alloc);
    for word in picks.split(',') {
        pick.push(word.parse::<u32>()?)?;
    }
    write!(out, "  p{picks}:")?;
    match permitted(alloc, disk, &pick)? {
        Some(image) => {
            for block in image.chunks(disk.block_size().max(1) as usize) {
                let first = block.first().copied().unwrap_or(0);
                write!(out, " {first:02x}")?;
            }
        }
        None => write!(out, " none")?,
    }
    out.push('\n')?;
    Ok(())
}

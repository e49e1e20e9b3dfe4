ghost use Rattle.std.specs.Prelude.{◌<◌, ◌^◌, length, IsTrue};
ghost use Rattle.edge_base.specs.layout.Sizes.{is_block_size};
ghost use Rattle.edge_store.specs.State.{IsLive};

use crate::image::disk_of;
use crate::step::head_of;
use anyhow::{Context, Result};
use edge_base::Head;
use edge_disk::Disk;
use edge_file::read_at;
use edge_point::Point;
use edge_store::{Store, StoreFault};
use std::alloc::Global;

// The most bytes of a node that are read.
const READ_MOST: u32 = 65_536;

/// What an image tells that is mounted anew: the sequence number, what is free, and each node with
/// its bytes.
pub fn view_of(alloc: Global, block_size: u32, bytes: &[u8]) -> Result<String>
    requires { IsTrue (is_block_size block_size) }
{
    let mut out = String::new(alloc);
    match Point::mount(alloc, disk_of(alloc, block_size, bytes, 0, &[])?) {
        Ok(mut point) => {
            let sequence = point.sequence();
            writeln!(out, "  sequence number {sequence}")?;
            push_view(alloc, &mut out, &mut point)?;
        }
        Err((_disk, fault)) => writeln!(out, "  {fault:?}")?,
    }
    Ok(out)
}

// Appends what a store tells.
fn push_view<D: Disk>(alloc: Global, out: &mut String, s: &mut Point<D>) -> Result<()> {
    let free = s.free();
    let inodes = s.free_inodes();
    writeln!(
        out,
        "  free: {} blocks, {} after a point, {inodes} inodes",
        free.now, free.after
    )?;
    let end = s.geometry().request().inodes.saturating_add(2);
    for n in 2..end {
        if !s.is_live() {
            break;
        }
        if let Err(fault) = push_node(alloc, out, s, n)? {
            writeln!(out, "  {n}: {fault:?}")?;
        }
    }
    Ok(())
}

// Appends the head of a node, if the number has one, and its bytes.
fn push_node<S: Store>(
    alloc: Global,
    out: &mut String,
    s: &mut S,
    n: u32,
) -> Result<Result<(), StoreFault>>
    requires { IsLive (S.state s.old) }
{
    let mut room = vec![in alloc; 0u8; READ_MOST as usize]?;
    match read_node(s, n, &mut room) {
        Ok(Some((head, count))) => {
            write!(out, "  {n}: {:?} of {} bytes", head.kind, head.size)?;
            push_runs(out, room.get(..count as usize).context("too many bytes")?)?;
            out.push('\n')?;
            Ok(Ok(()))
        }
        Ok(None) => Ok(Ok(())),
        Err(fault) => Ok(Err(fault)),
    }
}

// The head of a node, if the number has one, and how many bytes were read.
fn read_node<S: Store>(
    s: &mut S,
    n: u32,
    room: &mut [u8],
) -> Result<Option<(Head, u32)>, StoreFault>
    requires live { IsLive (S.state s.old) }
    requires room { length room.old < 2 ^ 32 }
{
    let Some(head) = head_of(s, n)? else {
        return Ok(None);
    };
    let count = read_at(s, n, 0, room)?;
    Ok(Some((head, count)))
}

// Appends bytes, each as often as it stands in a row.
fn push_runs(out: &mut String, bytes: &[u8]) -> Result<()> {
    let mut last = None;
    let mut count = 0u32;
    for byte in bytes {
        if last == Some(*byte) {
            count = count.saturating_add(1);
            continue;
        }
        if let Some(byte) = last {
            write!(out, ", {count} x {byte:02x}")?;
        }
        last = Some(*byte);
        count = 1;
    }
    if let Some(byte) = last {
        write!(out, ", {count} x {byte:02x}")?;
    }
    Ok(())
}

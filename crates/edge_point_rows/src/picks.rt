use anyhow::Result;
use edge_disk::{Disk, MemoryDisk};
use std::alloc::Global;

// The most choices in a row.
const MOST: u32 = 64;

/// Some choices of a candidate in each block of a disk: the first of all, in a row; each block's
/// last one alone, all others as reads give them; and the last of all blocks but one.
pub fn picks_of(alloc: Global, disk: &MemoryDisk) -> Result<Vec<Vec<u32>>> {
    let mut picks = Vec::new(alloc);
    let mut pick = vec![in alloc; 0u32; disk.blocks() as usize]?;
    for _ in 0..MOST {
        picks.push(pick.clone()?)?;
        if !next_pick(&mut pick, disk) {
            return Ok(picks);
        }
    }
    for b in 0..disk.blocks() {
        if disk.loose(b) > 1 {
            picks.push(pick_by(alloc, disk, |k| k == b)?)?;
            picks.push(pick_by(alloc, disk, |k| k != b)?)?;
        }
    }
    Ok(picks)
}

// The last candidate of such blocks, and what reads give of the others.
fn pick_by<F: Fn(u32) -> bool>(alloc: Global, disk: &MemoryDisk, is_last: F) -> Result<Vec<u32>>
    requires { F.IsAlwaysCallable is_last }
{
    let mut pick = Vec::new(alloc);
    for b in 0..disk.blocks() {
        let last = disk.loose(b) - 1;
        pick.push(if is_last(b) { last } else { 0 })?;
    }
    Ok(pick)
}

// Goes on to the next choice of a candidate in each block, and answers whether there is one.
fn next_pick(pick: &mut [u32], disk: &MemoryDisk) -> bool {
    for (b, chosen) in pick.iter_mut().enumerate() {
        let next = chosen.saturating_add(1);
        if b < disk.blocks() as usize && next < disk.loose(b as u32) {
            *chosen = next;
            return true;
        }
        *chosen = 0;
    }
    false
}

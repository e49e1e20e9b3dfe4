ghost use Rattle.std.specs.Prelude.{◌≡◌, ◌<◌, ◌≤◌, ◌+◌, ◌*◌, ℕ, length, slice_range, IfOk};
ghost use Rattle.edge_disk.specs.Slots.{block_in, AllBlocksHave, AllSlotsHave};

use crate::slot::Slot;
use std::alloc::{AllocError, Global};

/// The first `count` blocks of an image.
pub fn split(
    alloc: Global,
    image: &[u8],
    size: usize,
    count: usize,
) -> Result<Vec<Vec<u8>>, AllocError>
    requires fits { count * size ≤ length image.now }
    ensures count { IfOk result (λ blocks. length blocks.items ≡ count) }
    ensures whole { IfOk result (λ blocks. AllBlocksHave size blocks.items) }
    ensures blocks { IfOk result
        (λ blocks. (k : ℕ) → k < count
        → block_in blocks.items k ≡ slice_range image.now (k * size) (k * size + size)) }
{
    let mut blocks = Vec::new(alloc);
    for k in 0..count {
        blocks.push(image[k * size..k * size + size].to_vec(alloc)?)?;
    }
    Ok(blocks)
}

/// Slots that nothing was remembered in so far.
pub fn empty_slots(alloc: Global, size: usize, count: usize) -> Result<Vec<Slot>, AllocError>
    ensures count { IfOk result (λ slots. length slots.items ≡ count) }
    ensures whole { IfOk result (λ slots. AllSlotsHave size slots.items) }
{
    let mut slots = Vec::new(alloc);
    for _ in 0..count {
        slots.push(Slot {
            block: 0,
            bytes: vec![in alloc; 0u8; size]?,
        })?;
    }
    Ok(slots)
}

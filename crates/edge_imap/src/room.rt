ghost use Rattle.std.specs.Prelude.{◌≡◌, ◌≤◌, IfOk};

use std::alloc::{AllocError, Global};
use std::marker::Model;

/// The memory of a bitmap of a volume whose blocks have one size: all that it ever takes. It is
/// taken before anything is read. Its meaning is that size.
#[derive(Drop)]
pub struct Room {
    pub(crate) committed: Vec<u8>,
    pub(crate) working: Vec<u8>,
    // For the two nodes of a pair.
    pub(crate) one: Vec<u8>,
    pub(crate) two: Vec<u8>,
}

impl Model for Room {
    ghost use Rattle.std.specs.Prelude.{◌≡◌, ℕ, ◌+◌, length};

    ghost Value = { ℕ };

    ghost view = { λ s. length s.one.items };

    ghost invariant = { λ s.
        (length s.two.items ≡ length s.one.items)
        × (length s.committed.items + 32 ≡ length s.one.items)
        × (length s.working.items + 32 ≡ length s.one.items) };
}

impl Room {
    /// Takes the memory for blocks of this size, in bytes.
    pub fn new(alloc: Global, block_size: u32) -> Result<Room, AllocError>
        requires least { 32 ≤ block_size }
        ensures size { IfOk result (λ room. room ≡ block_size) }
    {
        let size = block_size as usize;
        Ok(Room {
            committed: vec![in alloc; 0u8; size - 32]?,
            working: vec![in alloc; 0u8; size - 32]?,
            one: vec![in alloc; 0u8; size]?,
            two: vec![in alloc; 0u8; size]?,
        })
    }
}

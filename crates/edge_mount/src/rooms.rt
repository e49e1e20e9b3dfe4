//! The memory of a mount.
ghost use Rattle.std.specs.Prelude.{◌≡◌, ◌≤◌, length, IfOk};
ghost use Rattle.edge_mount.specs.Rooms.{IsRoomFor};

use edge_imap::Room;
use std::alloc::{AllocError, Global};

/// Room for two blocks, and for a bitmap.
#[derive(Drop)]
pub(crate) struct Rooms {
    pub one: Vec<u8>,
    pub two: Vec<u8>,
    pub bitmap: Room,
}

/// Takes the memory for blocks of a size.
pub(crate) fn take_rooms(alloc: Global, block_size: u32) -> Result<Rooms, AllocError>
    requires least { 32 ≤ block_size }
    ensures { IfOk result (IsRoomFor block_size) }
{
    let size = block_size as usize;
    Ok(Rooms {
        one: vec![in alloc; 0u8; size]?,
        two: vec![in alloc; 0u8; size]?,
        bitmap: Room::new(alloc, block_size)?,
    })
}

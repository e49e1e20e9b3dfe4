ghost use Rattle.std.specs.Prelude.{◌≡◌, [], IfOk, false, vec_len};
ghost use Rattle.edge_session.specs.Stream.{pending, used_of, ended_of};

use crate::lines::{LONGEST_LINE, LineReader};
use std::alloc::{AllocError, Global};

/// The most bytes that an answer tells.
const MOST_DATA: usize = 4096;

/// The most bytes of the text of an answer.
const LONGEST_REPLY: usize = 8256;

/// All the memory of a session.
#[derive(Drop)]
pub struct Buffers {
    pub(crate) lines: LineReader,
    pub(crate) scratch: Vec<u8>,
    pub(crate) content: Vec<u8>,
    pub(crate) reply: Vec<u8>,
    ghost scratch_room: { vec_len scratch ≡ 8209 },
    ghost content_room: { vec_len content ≡ 4096 },
    ghost reply_room: { vec_len reply ≡ 8256 },
}

impl Buffers {
    /// Takes all the memory that a session needs.
    pub fn new(alloc: Global) -> Result<Buffers, AllocError> {
        Ok(Buffers {
            lines: LineReader::new(alloc)?,
            scratch: vec![in alloc; 0u8; LONGEST_LINE]?,
            content: vec![in alloc; 0u8; MOST_DATA]?,
            reply: vec![in alloc; 0u8; LONGEST_REPLY]?,
        })
    }
}

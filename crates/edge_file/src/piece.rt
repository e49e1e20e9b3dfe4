ghost use Rattle.std.specs.Prelude.{◌≡◌, ◌<◌, ◌≤◌, ◌+◌, ◌-◌, ◌/◌, ◌%◌, ◌≢◌, min, None, IfSome};
ghost use Rattle.edge_base.specs.layout.Places.{max_blocks_of, max_size_of};
ghost use Rattle.edge_base.specs.tree.Slots.{pieces};

use edge_base::Geometry;

/// The bytes of the greatest data block.
pub(crate) const BLOCK_MOST: usize = 4096;

/// A part of a run of bytes that lies in one data block.
#[derive(Clone, Copy, Debug, PartialEq, Eq)]
pub(crate) struct Piece {
    /// The data block, and the first byte there.
    pub(crate) index: u32,
    pub(crate) start: u32,
    /// How many bytes, at least one.
    pub(crate) len: usize,
}

/// The first piece of a run of bytes: up to the end of the run, or of the data block.
pub(crate) fn first_piece(g: Geometry, at: u64, rest: usize) -> Piece
    requires some { 0 < rest }
    requires end { at + rest ≤ max_size_of g }
    ensures index { result.index ≡ at / g.block_size }
    ensures start { result.start ≡ at % g.block_size }
    ensures len { result.len ≡ min rest (g.block_size - at % g.block_size) }
    ensures low { result.index < max_blocks_of g }
    ensures most { result.len ≤ BLOCK_MOST }
{
    let block_size = g.request().block_size;
    let index = at / u64::from(block_size);
    prove!(index < u64::from(g.max_blocks()));
    let start = at % u64::from(block_size);
    let left = (u64::from(block_size) - start) as usize;
    Piece {
        index: index as u32,
        start: start as u32,
        len: rest.min(left),
    }
}

/// The bytes behind the end that a node is to have, up to the end of that data block, if it does
/// not end with one.
pub(crate) fn rest_behind(g: Geometry, size: u64) -> Option<Piece>
    requires most { size ≤ max_size_of g }
    ensures none { result ≡ None → size % g.block_size ≡ 0 }
    ensures part { IfSome result (λ piece. size % g.block_size ≢ 0) }
    ensures index { IfSome result (λ piece. piece.index ≡ size / g.block_size) }
    ensures len { IfSome result (λ piece. piece.len ≡ g.block_size - size % g.block_size) }
    ensures low { IfSome result (λ piece. piece.index < max_blocks_of g) }
    ensures most { IfSome result (λ piece. piece.len ≤ BLOCK_MOST) }
{
    let block_size = u64::from(g.request().block_size);
    let start = size % block_size;
    if start == 0 {
        return None;
    }
    let index = size / block_size;
    prove!(index < u64::from(g.max_blocks()));
    let len = block_size - start;
    Some(Piece {
        index: index as u32,
        start: start as u32,
        len: len as usize,
    })
}

/// How many data blocks have bytes of a node with this size.
pub fn block_count(g: Geometry, size: u64) -> u32
    requires most { size ≤ max_size_of g }
    ensures count { result ≡ pieces g.block_size size }
    ensures low { result ≤ max_blocks_of g }
{
    let block_size = u64::from(g.request().block_size);
    let count = size.div_ceil(block_size);
    prove!(count <= u64::from(g.max_blocks()));
    count as u32
}

/// The place behind a run of bytes.
pub(crate) fn end_of(g: Geometry, at: u64, len: u64) -> u64
    requires { at + len ≤ max_size_of g }
    ensures { result ≡ at + len }
{
    let _most = g.max_size();
    at + len
}

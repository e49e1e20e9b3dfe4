ghost use Rattle.std.specs.Prelude.{◌≡◌, ◌+◌, ◌*◌, ◌/◌, ◌<◌, ◌≤◌, length, drop};
ghost use Rattle.edge_base.specs.layout.Bytes.{number_at, bit_in, clear_from};

use crate::reading::u32_at;

/// The bytes of a bitmap, in place.
pub fn bits_of(b: &[u8], from: u32) -> &[u8]
    requires { from ≤ length b.now }
    ensures { result.now ≡ drop from b.now }
{
    &b[from as usize..]
}

/// Entry i of the numbers of four bytes from a place on.
pub fn entry_of(b: &[u8], from: u32, i: u32) -> u32
    requires { from + 4 * i + 4 ≤ length b.now }
    ensures { result ≡ number_at (from + 4 * i) 4 b.now }
{
    u32_at(b, from as usize + 4 * i as usize)
}

/// Whether bit i of the bitmap that begins at a place is set.
#[tactic(auto, unfolding(edge_base::specs::layout::Bytes::bit_in))]
pub fn bit_of(b: &[u8], from: u32, i: u32) -> bool
    requires { from + i / 8 < length b.now }
    ensures { result ≡ bit_in from b.now i }
{
    let byte = b[from as usize + i as usize / 8];
    (byte >> (i % 8)) & 1 == 1
}

/// Whether the bits of a bitmap from number `count` on to the block's end are clear.
pub(crate) fn are_clear(b: &[u8], from: u32, count: u32) -> bool
    requires inside { from ≤ length b.now }
    requires short { length b.now ≤ 4096 }
    ensures { result ≡ clear_from count from b.now }
{
    let bytes = b.len() as u32 - from;
    for i in count..8 * bytes {
        if bit_of(b, from, i) {
            return false;
        }
    }
    true
}

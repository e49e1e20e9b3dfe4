//! Pairs of clear bits of a bitmap, by words. A pair are an even bit and the one behind it.
ghost use Rattle.std.specs.Prelude.{◌≡◌, ◌<◌, ◌≤◌, ◌*◌, length, count_by, IfSome, IfNone};
ghost use Rattle.std.specs.List.{range_with_len};
ghost use Rattle.edge_bits.specs.Bits.{HasBits, IsLeast, NonePasses};
ghost use Rattle.edge_imap.specs.Inodes.{is_clear_pair};

use edge_bits::words::{WORD_BITS, within, word_at};

// The even bits of a word.
const EVEN_BITS: u64 = 0x5555_5555_5555_5555;

// The pairs of the word w of which both bits are clear, each by its even bit.
fn clear_pairs(bits: &[u8], w: u32) -> u64
    requires { 8 * w < length bits.now }
    ensures { HasBits (is_clear_pair bits.now) w result }
{
    let clear = !word_at(bits, w);
    clear & (clear >> 1) & EVEN_BITS
}

// The even bit of the first pair below `end` of which both bits are clear.
pub(crate) fn first_clear_pair(bits: &[u8], end: u32) -> Option<u32>
    requires { end ≤ 8 * length bits.now }
    ensures found { IfSome result (IsLeast (is_clear_pair bits.now) 0 end) }
    ensures none { IfNone result (NonePasses (is_clear_pair bits.now) 0 end) }
{
    for w in 0..end.div_ceil(WORD_BITS) {
        let pairs = clear_pairs(bits, w) & within(w, 0, end);
        if pairs != 0 {
            return Some(WORD_BITS * w + pairs.trailing_zeros());
        }
    }
    None
}

// How many pairs below `end` have both bits clear.
pub(crate) fn count_clear_pairs(bits: &[u8], end: u32) -> u32
    requires { end ≤ 8 * length bits.now }
    ensures { result ≡ count_by (is_clear_pair bits.now) (range_with_len 0 end) }
{
    let mut total = 0;
    for w in 0..end.div_ceil(WORD_BITS) {
        total += (clear_pairs(bits, w) & within(w, 0, end)).count_ones();
    }
    total
}

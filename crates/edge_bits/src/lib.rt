//! Bitmaps in lists of bytes: bit i is bit i mod 8, the least significant first, of byte i / 8.
#![tactic(auto)]

ghost use Rattle.std.specs.Prelude.{◌≡◌, ◌≢◌, ◌<◌, ◌≤◌, ◌*◌, ◌==◌, ℕ, length, count_by, IfSome, IfNone};
ghost use Rattle.std.specs.List.{range_with_len};
ghost use Rattle.std.specs.Int.{bit_at};
ghost use Rattle.edge_base.specs.layout.Bytes.{bit_in};
ghost use Rattle.edge_bits.specs.Bits.{is_clear, IsLeast, NonePasses};

#[cfg(test)]
mod tests;
pub mod words;

use words::{WORD_BITS, within, word_at};

/// Whether bit i is set.
#[tactic(auto, unfolding(edge_base::specs::layout::Bytes::bit_in))]
pub fn get(bytes: &[u8], i: u32) -> bool
    requires { i < 8 * length bytes.now }
    ensures { result ≡ bit_in 0 bytes.now i }
{
    (bytes[i as usize / 8] >> (i % 8)) & 1 == 1
}

/// Sets bit i, or clears it.
pub fn set(bytes: &mut [u8], i: u32, on: bool)
    requires { i < 8 * length bytes.old }
    ensures here { bit_in 0 bytes.new i ≡ on }
    ensures others { (k : ℕ) → k ≢ i → bit_in 0 bytes.new k ≡ bit_in 0 bytes.old k }
{
    let at = i as usize / 8;
    bytes[at] = with_bit(bytes[at], i % 8, on);
}

// The byte with bit i set, or clear.
fn with_bit(byte: u8, i: u32, on: bool) -> u8
    requires { i < 8 }
    ensures here { bit_at result i == 1 ≡ on }
    ensures others { (k : ℕ) → k < 8 → k ≢ i → bit_at result k ≡ bit_at byte k }
{
    if on {
        byte | (1 << i)
    } else {
        byte & !(1 << i)
    }
}

/// The least clear bit from `from` to `len - 1`; None where there is none.
pub fn first_zero_from(bytes: &[u8], len: u32, from: u32) -> Option<u32>
    requires { len ≤ 8 * length bytes.now }
    ensures found { IfSome result (IsLeast (is_clear bytes.now) from len) }
    ensures none { IfNone result (NonePasses (is_clear bytes.now) from len) }
{
    for w in from / WORD_BITS..len.div_ceil(WORD_BITS) {
        let clear = !word_at(bytes, w) & within(w, from, len);
        if clear != 0 {
            return Some(WORD_BITS * w + clear.trailing_zeros());
        }
    }
    None
}

/// How many of the first `len` bits are set.
pub fn count(bytes: &[u8], len: u32) -> u32
    requires { len ≤ 8 * length bytes.now }
    ensures { result ≡ count_by (bit_in 0 bytes.now) (range_with_len 0 len) }
{
    let mut total = 0;
    for w in 0..len.div_ceil(WORD_BITS) {
        total += (word_at(bytes, w) & within(w, 0, len)).count_ones();
    }
    total
}

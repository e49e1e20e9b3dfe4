//! Words of 64 bits of a bitmap: word w has the bits from 64 * w on, the least significant first.
ghost use Rattle.std.specs.Prelude.{◌≡◌, ◌<◌, ◌*◌, ◌-◌, ◌^◌, length, min};
ghost use Rattle.edge_base.specs.layout.Bytes.{bit_in};
ghost use Rattle.edge_bits.specs.Bits.{HasBits, is_within};

use byteorder::{ByteOrder, LittleEndian};

/// The bits of a word.
pub const WORD_BITS: u32 = 64;

/// The word w, with zeros past the last byte.
#[inline]
pub fn word_at(bytes: &[u8], w: u32) -> u64
    requires { 8 * w < length bytes.now }
    ensures { HasBits (bit_in 0 bytes.now) w result }
{
    let rest = &bytes[8 * w as usize..];
    if rest.len() < 8 {
        LittleEndian::read_uint(rest, rest.len())
    } else {
        LittleEndian::read_u64(rest)
    }
}

/// The word w of the bitmap in which the bits from `from` to `end - 1` are set.
#[inline]
pub fn within(w: u32, from: u32, end: u32) -> u64
    ensures { HasBits (is_within from end) w result }
{
    let first = 64 * u64::from(w);
    let (from, end) = (u64::from(from), u64::from(end));
    if from <= first && first + 64 <= end {
        return u64::MAX;
    }
    !lowest(from.saturating_sub(first)) & lowest(end.saturating_sub(first))
}

// A word with the lowest bits set: so many, or all.
fn lowest(count: u64) -> u64
    ensures { result ≡ 2 ^ min count 64 - 1 }
{
    if count < 64 {
        (1 << count) - 1
    } else {
        u64::MAX
    }
}

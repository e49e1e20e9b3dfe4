//! The search for a free block in two bitmaps, and the counts of free blocks.
#![tactic(auto)]

ghost use Rattle.std.specs.Prelude.{◌≡◌, ◌<◌, ◌≤◌, ◌+◌, ◌*◌, ◌^◌, length, IfSome, IfNone};
ghost use Rattle.edge_alloc.specs.Pairs.{IsLeastFree, NoneIsFree, counts_of};

#[cfg(test)]
mod tests;

use edge_bits::words::{WORD_BITS, within, word_at};

/// The `len` bits from `first` on.
#[derive(Clone, Copy, PartialEq, Eq, Debug)]
pub struct Window {
    pub first: u32,
    pub len: u32,
}

/// How many bits are clear in both bitmaps, and how many are set in the committed one alone.
#[derive(Clone, Copy, PartialEq, Eq, Debug)]
pub struct Counts {
    pub free: u32,
    pub almost: u32,
}

/// The least bit of a window, from `from` on, that is clear in both bitmaps; None where there is
/// none.
pub fn free_in(committed: &[u8], working: &[u8], w: Window, from: u32) -> Option<u32>
    requires small { w.first + w.len < 2 ^ 32 }
    requires committed { w.first + w.len ≤ 8 * length committed.now }
    requires working { w.first + w.len ≤ 8 * length working.now }
    ensures found { IfSome result (IsLeastFree committed.now working.now w from) }
    ensures none { IfNone result (NoneIsFree committed.now working.now w from) }
{
    let start = w.first.max(from);
    let end = w.first + w.len;
    for word in start / WORD_BITS..end.div_ceil(WORD_BITS) {
        let free = !word_at(committed, word) & !word_at(working, word) & within(word, start, end);
        if free != 0 {
            return Some(WORD_BITS * word + free.trailing_zeros());
        }
    }
    None
}

/// The counts of a window.
pub fn counts_in(committed: &[u8], working: &[u8], w: Window) -> Counts
    requires small { w.first + w.len < 2 ^ 32 }
    requires committed { w.first + w.len ≤ 8 * length committed.now }
    requires working { w.first + w.len ≤ 8 * length working.now }
    ensures { result ≡ counts_of committed.now working.now w }
{
    let end = w.first + w.len;
    let mut counts = Counts { free: 0, almost: 0 };
    for word in w.first / WORD_BITS..end.div_ceil(WORD_BITS) {
        let old = word_at(committed, word);
        let new = word_at(working, word);
        let inside = within(word, w.first, end);
        counts.free += (!old & !new & inside).count_ones();
        counts.almost += (old & !new & inside).count_ones();
    }
    counts
}

ghost use Rattle.std.specs.Prelude.{◌≡◌, ◌<◌, ◌≤◌, ◌*◌, ◌^◌, length};

use anyhow::{Result, bail};
use edge_alloc::{Window, counts_in, free_in};
use edge_bits::{count, first_zero_from, set};
use edge_statement::{number32, word};
use edge_word::check_word;
use std::alloc::Global;

/// Appends what a call on a bitmap, all set but for one bit, answers: the last answer of so many
/// calls, each of which begins at another bit or ends there. `bench/bits.sh` takes the time.
pub fn push_bits(alloc: Global, out: &mut String, words: &[&str]) -> Result<()> {
    let len = number32(words, 1)?;
    let clear = number32(words, 2)?;
    let times = number32(words, 3)?;
    let mut bits = vec![in alloc; 0xffu8; len.div_ceil(8) as usize]?;
    if clear < len {
        set(&mut bits, clear, false);
    }
    match word(words, 0)? {
        "first_zero_from" => writeln!(out, "  {:?}", first_zeros(&bits, len, times))?,
        "free_in" => writeln!(out, "  {:?}", frees(&bits, len, times))?,
        "count" => writeln!(out, "  {}", count_all(&bits, len, times))?,
        "counts_in" => writeln!(out, "  {}", counts_all(&bits, len, times))?,
        "check_word" => writeln!(out, "  {:08x}", check_words(&mut bits, times))?,
        other => bail!("no call on bits: {other}"),
    }
    Ok(())
}

// The last of so many searches from a bit that differs.
fn first_zeros(bits: &[u8], len: u32, times: u32) -> Option<u32>
    requires { len ≤ 8 * length bits.now }
{
    let mut last = None;
    for turn in 0..times {
        last = first_zero_from(bits, len, turn % 64);
    }
    last
}

// The same in two bitmaps, which are alike.
fn frees(bits: &[u8], len: u32, times: u32) -> Option<u32>
    requires { len ≤ 8 * length bits.now }
{
    let mut last = None;
    for turn in 0..times {
        last = free_in(bits, bits, Window { first: 0, len }, turn % 64);
    }
    last
}

// The last of so many counts of a length that differs.
fn count_all(bits: &[u8], len: u32, times: u32) -> u32
    requires { len ≤ 8 * length bits.now }
{
    let mut last = 0;
    for turn in 0..times {
        last = count(bits, len.saturating_sub(turn % 64));
    }
    last
}

// The free bits of the last of so many windows of a length that differs.
fn counts_all(bits: &[u8], len: u32, times: u32) -> u32
    requires { len ≤ 8 * length bits.now }
{
    let mut last = 0;
    for turn in 0..times {
        let len = len.saturating_sub(turn % 64);
        last = counts_in(bits, bits, Window { first: 0, len }).free;
    }
    last
}

// The check word of the last of so many blocks that differ in their first byte.
fn check_words(bytes: &mut [u8], times: u32) -> u32 {
    let mut last = 0;
    for turn in 0..times {
        if let Some(first) = bytes.first_mut() {
            *first = (turn % 256) as u8;
        }
        last = check_word(bytes);
    }
    last
}

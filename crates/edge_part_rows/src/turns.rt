use crate::bitmap::bitmap_told;
use crate::cache::cache_told;
use anyhow::{Context, Result};
use edge_statement::word;
use std::alloc::Global;

/// What the calls of a case are made of.
#[derive(Clone, Copy)]
pub enum Part {
    Cache,
    Bitmap,
}

// What the calls of a case answer, each behind a space, where this call of the disk fails.
fn told_by(alloc: Global, part: Part, words: &[&str], failing: Option<u64>) -> Result<String> {
    match part {
        Part::Cache => cache_told(alloc, words, failing),
        Part::Bitmap => bitmap_told(alloc, words, failing),
    }
}

/// Appends what the calls of a case answer. Its first word is the number of the call of the disk
/// that fails, `-` where none does; of a range `FIRST..LAST` each fails in turn, and what is
/// answered alike is said once.
pub fn push_turns(alloc: Global, out: &mut String, part: Part, words: &[&str]) -> Result<()> {
    let rest = words.get(1..).context("no calls")?;
    if let Some((first, last)) = word(words, 0)?.split_once("..") {
        let (first, last) = (first.parse::<u64>()?, last.parse::<u64>()?);
        return push_each(alloc, out, part, rest, first, last);
    }
    let told = told_by(alloc, part, rest, word(words, 0)?.parse::<u64>().ok())?;
    writeln!(out, " {told}")?;
    Ok(())
}

// The same where each call from the first to the last fails in turn.
fn push_each(
    alloc: Global,
    out: &mut String,
    part: Part,
    words: &[&str],
    first: u64,
    last: u64,
) -> Result<()> {
    let mut since = first;
    let mut same = told_by(alloc, part, words, Some(first))?;
    for failing in first..last {
        let next = failing.saturating_add(1);
        let told = told_by(alloc, part, words, Some(next))?;
        if told.as_str() != same.as_str() {
            writeln!(out, "  {since} to {failing}:{same}")?;
            since = next;
            same = told;
        }
    }
    writeln!(out, "  {since} to {last}:{same}")?;
    Ok(())
}

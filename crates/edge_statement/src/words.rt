use anyhow::{Context, Result};

/// The word at a place.
pub fn word<'a>(words: &[&'a str], place: usize) -> Result<&'a str> {
    words.get(place).copied().context("a word is missing")
}

/// The number that the word at a place says.
pub fn number(words: &[&str], place: usize) -> Result<usize> {
    Ok(number32(words, place)? as usize)
}

/// The same of 32 bits.
pub fn number32(words: &[&str], place: usize) -> Result<u32> {
    Ok(word(words, place)?.parse::<u32>()?)
}

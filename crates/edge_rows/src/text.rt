use anyhow::Result;
use edge_disk::DeviceFault;
use edge_format::FormatFault;
use edge_io::{FolderFault, SinkFault, SourceFault};
use edge_words::BadWords;
use std::alloc::Global;

/// The numbers that the words from the second on say.
pub fn numbers(alloc: Global, words: &[&str]) -> Result<Vec<u64>> {
    let mut numbers = Vec::new(alloc);
    for word in words.iter().skip(1) {
        numbers.push(word.parse::<u64>()?)?;
    }
    Ok(numbers)
}

/// The moments that the words say.
pub fn moments(alloc: Global, words: &[&str]) -> Result<Vec<u32>> {
    let mut moments = Vec::new(alloc);
    for word in words {
        moments.push(word.parse::<u32>()?)?;
    }
    Ok(moments)
}

/// Appends the text of each error.
pub fn push_faults(out: &mut String) -> Result<()> {
    writeln!(out, "  edge_words: {BadWords}")?;
    writeln!(out, "  edge_io: {SourceFault} {SinkFault} {FolderFault}")?;
    writeln!(out, "  edge_disk: {DeviceFault}")?;
    writeln!(out, "  edge_format: {}", FormatFault::Device)?;
    Ok(())
}

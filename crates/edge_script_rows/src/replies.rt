use anyhow::Result;
use edge_statement::push_escaped;
use edge_word::check_word;
use std::alloc::Global;

/// Appends each line that was answered with its reply.
pub fn push_replies(alloc: Global, out: &mut String, text: &str, taken: &[u8]) -> Result<()> {
    let lines: Vec<&str> = text.split("; ").collect(alloc)?;
    let mut lines = lines.iter();
    for reply in taken.split_inclusive(|byte| *byte == b'\n') {
        let reply = match reply {
            [whole @ .., b'\n'] => whole,
            part => part,
        };
        match lines.next() {
            Some(line) => write!(out, "  {line}: ")?,
            None => out.push_str("  behind the script: ")?,
        }
        push_escaped(out, reply)?;
        out.push('\n')?;
    }
    Ok(())
}

/// Appends how many replies there are, how many of them are refusals, and the check word of all.
pub fn push_count(out: &mut String, taken: &[u8]) -> Result<()> {
    let mut replies = 0u32;
    let mut refused = 0u32;
    for reply in taken.split_inclusive(|byte| *byte == b'\n') {
        replies = replies.saturating_add(1);
        if reply.starts_with(b"no ") {
            refused = refused.saturating_add(1);
        }
    }
    let word = check_word(taken);
    writeln!(
        out,
        "  {replies} replies, {refused} of them refusals, check word {word:08x}"
    )?;
    Ok(())
}

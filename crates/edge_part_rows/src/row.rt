use crate::bits::push_bits;
use crate::numbers::push_numbers;
use crate::reply::push_reply;
use crate::script::{push_command, push_word};
use crate::search::push_search;
use crate::turns::{Part, push_turns};
use anyhow::{Context, Result, bail};
use edge_statement::unescaped;
use std::alloc::Global;

/// What the statements of a line answer.
pub fn answer_row(alloc: Global, line: &str) -> Result<String> {
    let mut out = String::new(alloc);
    let mut script = Vec::new(alloc);
    for statement in line.split("; ") {
        let (verb, text) = statement.split_once(' ').unwrap_or((statement, ""));
        match verb {
            "text" => script.extend_from_slice(&unescaped(alloc, text)?)?,
            "times" => extend(alloc, &mut script, text)?,
            _ => push_answer(alloc, &mut out, &script, verb, text)?,
        }
    }
    Ok(out)
}

// Appends a text to the script so many times.
fn extend(alloc: Global, script: &mut Vec<u8>, words: &str) -> Result<()> {
    let (times, text) = words.split_once(' ').context("times COUNT TEXT")?;
    let bytes = unescaped(alloc, text)?;
    for _ in 0..times.parse::<u32>()? {
        script.extend_from_slice(&bytes)?;
    }
    Ok(())
}

// Appends what a statement answers.
fn push_answer(
    alloc: Global,
    out: &mut String,
    script: &[u8],
    verb: &str,
    text: &str,
) -> Result<()> {
    let words: Vec<&str> = text.split(' ').collect(alloc)?;
    match verb {
        "command" => push_command(alloc, out, script, text),
        "word" => push_word(alloc, out, text),
        "reply" => push_reply(alloc, out, script, &words),
        "bits" => push_bits(alloc, out, &words),
        "cache" => push_turns(alloc, out, Part::Cache, &words),
        "bitmap" => push_turns(alloc, out, Part::Bitmap, &words),
        "imap_search" => push_search(alloc, out, &words),
        "numbers" => push_numbers(out),
        _ => bail!("no statement: {verb}"),
    }
}

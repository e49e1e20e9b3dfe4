use anyhow::{Context, Result, bail, ensure};
use edge_model::Command;
use edge_script::{read_hex, read_line, read_number, read_path, write_path};
use edge_statement::{push_escaped, unescaped};
use edge_word::check_word;
use std::alloc::Global;

// The most bytes of a line.
const LINE: usize = 8209;

// Of a longer line it is told how long what it spells is, and its check word.
const SHORT: usize = 100;

/// Appends the command that a line spells, or `bad`: the bytes of the script so far, and the text.
pub fn push_command(alloc: Global, out: &mut String, script: &[u8], text: &str) -> Result<()> {
    let mut line = script.to_vec(alloc)?;
    line.extend_from_slice(&unescaped(alloc, text)?)?;
    ensure!(line.len() <= LINE, "a line of {} bytes", line.len());
    let mut scratch = vec![in alloc; 0u8; LINE]?;
    match read_line(&line, &mut scratch) {
        Ok(command) if line.len() <= SHORT => writeln!(out, "  {command:?}")?,
        Ok(command) => push_long(out, &command)?,
        Err(_) => writeln!(out, "  bad")?,
    }
    Ok(())
}

fn push_long(out: &mut String, command: &Command) -> Result<()> {
    let (name, bytes) = match command {
        Command::Stat { path } => ("Stat", *path),
        Command::Write { bytes, .. } => ("Write", *bytes),
        Command::Link { to, .. } => ("Link", *to),
        _ => bail!("a long line of another command"),
    };
    let length = bytes.len();
    writeln!(out, "  {name} of {length} bytes, {:08x}", check_word(bytes))?;
    Ok(())
}

/// Appends what a word is read as, as a number, path or bytes, or how bytes are spelled.
pub fn push_word(alloc: Global, out: &mut String, text: &str) -> Result<()> {
    let (what, word) = text.split_once(' ').unwrap_or((text, ""));
    let bytes = unescaped(alloc, word)?;
    match what {
        "number" => push_number(out, &bytes),
        "path" => push_path(alloc, out, &bytes),
        "hex" => push_hex(alloc, out, &bytes),
        "spell" => push_spelling(alloc, out, &bytes),
        _ => bail!("no word: {what}"),
    }
}

fn push_number(out: &mut String, word: &[u8]) -> Result<()> {
    let read = read_number(word);
    writeln!(out, "  {read:?}")?;
    Ok(())
}

fn push_path(alloc: Global, out: &mut String, word: &[u8]) -> Result<()> {
    let mut room = vec![in alloc; 0u8; word.len()]?;
    let length = read_path(word, &mut room);
    push_read(out, &room, length)
}

fn push_hex(alloc: Global, out: &mut String, word: &[u8]) -> Result<()> {
    let mut room = vec![in alloc; 0u8; word.len()]?;
    let length = read_hex(word, &mut room);
    push_read(out, &room, length)
}

fn push_spelling(alloc: Global, out: &mut String, path: &[u8]) -> Result<()> {
    ensure!(path.len() <= LINE, "a path of {} bytes", path.len());
    let mut room = vec![in alloc; 0u8; 3 * LINE]?;
    let length = write_path(path, &mut room);
    push_read(out, &room, Some(length))
}

fn push_read(out: &mut String, room: &[u8], length: Option<usize>) -> Result<()> {
    out.push_str("  ")?;
    match length {
        Some(length) => push_escaped(out, room.get(..length).context("no room")?)?,
        None => out.push_str("None")?,
    }
    out.push('\n')?;
    Ok(())
}

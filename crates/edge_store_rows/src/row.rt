use crate::answer::push_told;
use crate::blocks::ask_blocks;
use crate::bytes::{ask_bytes, push_read};
use crate::counted::Counted;
use crate::dirs::push_dir;
use crate::exact::ask_change;
use crate::hand::ask_by_hand;
use crate::space::ask_space;
use anyhow::{Context, Result, bail};
use edge_base::{Geometry, Request};
use edge_plain::PlainStore;
use edge_statement::{number32, word};
use edge_store::Store;
use std::alloc::Global;

/// What the statements of a line answer.
pub fn answer_row(
    alloc: Global,
    store: &mut Option<Counted<PlainStore>>,
    line: &str,
) -> Result<String> {
    let mut out = String::new(alloc);
    for statement in line.split("; ") {
        let words: Vec<&str> = statement.split(' ').collect(alloc)?;
        if word(&words, 0)? == "volume" {
            *store = Some(Counted::new(new_store(alloc, &words)?));
            continue;
        }
        write!(out, "  {statement}: ")?;
        let s = store.as_mut().context("no volume")?;
        push_counted(alloc, &mut out, s, &words)?;
        out.push('\n')?;
    }
    Ok(out)
}

// SIZE BLOCKS INODES DIRECT INDIRECT, behind the first word.
fn new_store(alloc: Global, words: &[&str]) -> Result<PlainStore> {
    let request = Request {
        block_size: number32(words, 1)?,
        blocks: number32(words, 2)?,
        inodes: number32(words, 3)?,
        name_max: 28,
        direct: number32(words, 4)?,
        indirect: number32(words, 5)?,
    };
    match Geometry::checked(request) {
        Ok(geometry) => Ok(PlainStore::new(alloc, geometry)?),
        Err(limit) => bail!("no geometry: {limit:?}"),
    }
}

// Appends what a statement answers, and of one behind `calls` how many calls of the store it makes.
fn push_counted<S: Store>(
    alloc: Global,
    out: &mut String,
    s: &mut Counted<S>,
    words: &[&str],
) -> Result<()> {
    let ["calls", rest @ ..] = words else {
        return push_answer(alloc, out, s, words);
    };
    s.count_anew();
    push_answer(alloc, out, s, rest)?;
    write!(out, ", {} calls", s.calls())?;
    Ok(())
}

// Appends what a statement answers.
fn push_answer<S: Store>(alloc: Global, out: &mut String, s: &mut S, words: &[&str]) -> Result<()> {
    if !s.is_live() {
        out.push_str("ended")?;
        return Ok(());
    }
    let told = match word(words, 0)? {
        "read" => return push_read(alloc, out, s, words),
        "dir" => return push_dir(out, s, words),
        "file" | "size" | "place" | "forget" | "inodes" | "free" | "point" => ask_space(s, words)?,
        "take" | "entry" | "pointer" | "drop" => ask_by_hand(s, words)?,
        "fresh" | "fits" => ask_change(s, words)?,
        "write" | "fill" | "grow" | "resize" => ask_bytes(alloc, s, words)?,
        _ => ask_blocks(s, words)?,
    };
    push_told(out, told)?;
    Ok(())
}

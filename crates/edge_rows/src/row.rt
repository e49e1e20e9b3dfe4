use crate::cuts::{push_cuts, shown};
use crate::disks::{push_disk, push_sure_disk};
use crate::host::{
    change_host, push_host_clock, push_host_disk, push_host_folder, push_host_now,
    push_host_streams,
};
use crate::image::Image;
use crate::nodes::{push_block, push_imap, push_node};
use crate::orders::{order, push_answer, sure_order};
use crate::places::{push_geometry, push_words};
use crate::streams::{push_clock, push_folder, push_sink, push_source};
use crate::text::{moments, numbers, push_faults};
use anyhow::{Context, Result, ensure};
use edge_statement::{byte, number, number32, unescaped, word};
use edge_word::check_word;
use std::alloc::{AllocError, Global};
use std::fs;
use std::fs::File;
use std::rt::{Clock, Files};

/// What the statements of a line have set for its calls of `edge`.
#[derive(Drop)]
pub struct Row {
    pub script: Vec<u8>,
    pub disk_fails: Vec<u64>,
    pub source_fails: Vec<u64>,
    pub sink_fails: Vec<u64>,
    pub folder_fails: Vec<u64>,
    /// The most bytes that one call gives or takes.
    pub source_piece: usize,
    pub sink_piece: usize,
    /// The bytes that the sink has room for.
    pub sink_room: usize,
    /// The candidates that the disk has room for besides one a block.
    pub disk_room: usize,
    pub moments: Vec<u32>,
}

impl Row {
    fn new(alloc: Global) -> Row {
        Row {
            script: Vec::new(alloc),
            disk_fails: Vec::new(alloc),
            source_fails: Vec::new(alloc),
            sink_fails: Vec::new(alloc),
            folder_fails: Vec::new(alloc),
            source_piece: usize::MAX,
            sink_piece: usize::MAX,
            sink_room: 4096,
            disk_room: 8,
            moments: Vec::new(alloc),
        }
    }

    // The calls of a thing that fail.
    fn set_fails(&mut self, what: &str, calls: Vec<u64>) {
        match what {
            "disk" => self.disk_fails = calls,
            "source" => self.source_fails = calls,
            "folder" => self.folder_fails = calls,
            _ => self.sink_fails = calls,
        }
    }

    fn set_room(&mut self, what: &str, room: usize) {
        match what {
            "disk" => self.disk_room = room,
            _ => self.sink_room = room,
        }
    }

    /// A script of one line, and nothing else set.
    pub fn of_script(alloc: Global, line: &str) -> Result<Row, AllocError> {
        let mut row = Row::new(alloc);
        row.script.extend_from_slice(line.as_bytes())?;
        Ok(row)
    }
}

/// What the statements of a line answer.
pub fn answer_row<R: Files<File = File> + AllocGlobal + Clock>(
    rt: &R,
    image: &mut Image,
    line: &str,
) -> Result<String> {
    let mut out = String::new(rt.alloc());
    let mut row = Row::new(rt.alloc());
    push_statements(rt, &mut out, &mut row, image, line)?;
    Ok(out)
}

fn push_statements<R: Files<File = File> + AllocGlobal + Clock>(
    rt: &R,
    out: &mut String,
    row: &mut Row,
    image: &mut Image,
    line: &str,
) -> Result<()> {
    for text in line.split("; ") {
        let words: Vec<&str> = text
            .split(' ')
            .map(|word| if word == "''" { "" } else { word })
            .collect(rt.alloc())?;
        push_statement(rt, out, row, image, &words, text)?;
    }
    Ok(())
}

// Does what a statement says, and appends what it answers.
fn push_statement<R: Files<File = File> + AllocGlobal + Clock>(
    rt: &R,
    out: &mut String,
    row: &mut Row,
    image: &mut Image,
    words: &[&str],
    text: &str,
) -> Result<()> {
    let (verb, rest) = words.split_first().context("no word")?;
    let is_done = change(rt, image, verb, rest)?
        || prepare(rt.alloc(), row, verb, rest, text)?
        || tell(rt.alloc(), out, row, image, verb, rest)?
        || answer_host(rt, out, verb, rest)?;
    ensure!(is_done, "no statement: {text}");
    Ok(())
}

// Changes the image, where this is such a statement.
fn change<R: Files + AllocGlobal>(
    rt: &R,
    image: &mut Image,
    verb: &str,
    words: &[&str],
) -> Result<bool> {
    match verb {
        "stored" => image.set(fs::read(rt, word(words, 0)?)?, number(words, 1)?),
        "image" => fill_image(rt.alloc(), image, words)?,
        "length" => image.bytes.resize(number(words, 0)?, 0)?,
        "keep" => image.keep()?,
        "back" => image.back()?,
        _ => return change_block(rt.alloc(), image, verb, words),
    }
    Ok(true)
}

fn fill_image(alloc: Global, image: &mut Image, words: &[&str]) -> Result<()> {
    let block_size = number(words, 0)?;
    let length = block_size.saturating_mul(number(words, 1)?);
    let filled = byte(alloc, word(words, 2)?)?;
    image.set(vec![in alloc; filled; length]?, block_size);
    Ok(())
}

// Changes a block of the image, where this is such a statement.
fn change_block(alloc: Global, image: &mut Image, verb: &str, words: &[&str]) -> Result<bool> {
    match verb {
        "put" => put(alloc, image, words)?,
        "fill" => image.fill(number(words, 0)?, byte(alloc, word(words, 1)?)?)?,
        "copy" => image.copy(alloc, number(words, 0)?, number(words, 1)?)?,
        _ => return Ok(false),
    }
    Ok(true)
}

fn put(alloc: Global, image: &mut Image, words: &[&str]) -> Result<()> {
    let block = number(words, 0)?;
    let bytes = hex::decode(alloc, word(words, 2)?)?;
    image.put(block, number(words, 1)?, &bytes)?;
    if words.get(3).copied() == Some("seal") {
        image.seal(block)?;
    }
    Ok(())
}

// Sets what a call is made with, where this is such a statement.
fn prepare(alloc: Global, row: &mut Row, verb: &str, words: &[&str], text: &str) -> Result<bool> {
    match verb {
        "fail" => row.set_fails(word(words, 0)?, numbers(alloc, words)?),
        "room" => row.set_room(word(words, 0)?, number(words, 1)?),
        "pieces" => {
            row.source_piece = number(words, 0)?;
            row.sink_piece = number(words, 1)?;
        }
        "moments" => row.moments = moments(alloc, words)?,
        _ => return write_script(alloc, row, verb, text),
    }
    Ok(true)
}

// Appends to the script, where this is such a statement.
fn write_script(alloc: Global, row: &mut Row, verb: &str, text: &str) -> Result<bool> {
    let (_, rest) = text.split_once(' ').unwrap_or((text, ""));
    let (times, part) = match verb {
        "line" | "text" => ("1", rest),
        "times" => rest.split_once(' ').context("times COUNT TEXT")?,
        _ => return Ok(false),
    };
    let bytes = unescaped(alloc, part)?;
    for _ in 0..times.parse::<u32>()? {
        row.script.extend_from_slice(&bytes)?;
    }
    if verb == "line" {
        row.script.push(b'\n')?;
    }
    Ok(true)
}

// Appends what a call answers, where this is such a statement.
fn tell(
    alloc: Global,
    out: &mut String,
    row: &Row,
    image: &mut Image,
    verb: &str,
    words: &[&str],
) -> Result<bool> {
    let told = match verb {
        "edge" => push_edge(alloc, out, row, image, words),
        "sure" => push_sure(alloc, out, row, image, words),
        "cuts" => push_cuts(alloc, out, row, words, image),
        "disk" => push_disk(alloc, out, row, image, words),
        "sure_disk" => push_sure_disk(alloc, out, image, words),
        "source" => push_source(alloc, out, row, words),
        "sink" => push_sink(alloc, out, row, words),
        "folder" => push_folder(alloc, out, row, words),
        "clock" => push_clock(alloc, out, row, number(words, 0)?),
        _ => return show(out, row, image, verb, words),
    };
    told?;
    Ok(true)
}

// Calls `edge`. The image is then what the disk shows.
fn push_edge(
    alloc: Global,
    out: &mut String,
    row: &Row,
    image: &mut Image,
    words: &[&str],
) -> Result<()> {
    let answer = order(alloc, row, words, &image.bytes, &row.disk_fails)?;
    push_answer(out, row, &answer, Some(answer.disk.calls()))?;
    image.bytes = shown(alloc, &answer.disk)?;
    Ok(())
}

fn push_sure(
    alloc: Global,
    out: &mut String,
    row: &Row,
    image: &Image,
    words: &[&str],
) -> Result<()> {
    let answer = sure_order(alloc, row, words, &image.bytes)?;
    push_answer(out, row, &answer, None)
}

// Appends how the image or a value looks, where this is such a statement.
fn show(out: &mut String, row: &Row, image: &Image, verb: &str, words: &[&str]) -> Result<bool> {
    let told = match verb {
        "show" => push_block(out, image.block(number(words, 0)?)?),
        "imap" => push_imap(out, image, number(words, 0)?, number32(words, 1)?),
        "master" | "metaroot" | "inode" => push_node(out, image, verb, number(words, 0)?),
        "words" => push_words(out, words),
        "geometry" => push_geometry(out, words),
        "check_word" => push_check_word(out, &row.script),
        "faults" => push_faults(out),
        _ => return Ok(false),
    };
    told?;
    Ok(true)
}

fn push_check_word(out: &mut String, bytes: &[u8]) -> Result<()> {
    writeln!(out, "  {:08x}", check_word(bytes))?;
    Ok(())
}

// Appends what an adapter of the host answers, or changes what lies in its folder, where this is
// such a statement.
fn answer_host<R: Files<File = File> + AllocGlobal + Clock>(
    rt: &R,
    out: &mut String,
    verb: &str,
    words: &[&str],
) -> Result<bool> {
    let told = match verb {
        "host_disk" => push_host_disk(rt, out, words),
        "host_folder" => push_host_folder(rt, out, words),
        "host_streams" => push_host_streams(rt, out, words),
        "host_clock" => push_host_clock(rt, out, words),
        "host_now" => push_host_now(rt, out),
        _ => return change_host(rt, verb, words),
    };
    told?;
    Ok(true)
}

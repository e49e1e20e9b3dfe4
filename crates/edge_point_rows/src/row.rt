use crate::counted::Calls;
use crate::cuts::push_cuts;
use crate::host::push_host_run;
use crate::image::{Image, shown};
use crate::nodes::push_nodes;
use crate::run::{End, run_over};
use crate::step::{Answer, Step, steps_of};
use crate::view::view_of;
use anyhow::{Context, Result, bail};
use edge_base::Request;
use edge_nodes::seal;
use edge_statement::{number, number32, word};
use std::alloc::Global;
use std::fs::File;
use std::rt::Files;

/// What the statements of a line answer.
pub fn answer_row<R: Files<File = File> + AllocGlobal>(
    rt: &R,
    image: &mut Image,
    line: &str,
) -> Result<String> {
    let alloc = rt.alloc();
    let mut out = String::new(alloc);
    for statement in line.split("; ") {
        let (verb, rest) = statement.split_once(' ').unwrap_or((statement, ""));
        match verb {
            "volume" => *image = new_volume(alloc, rest)?,
            "put" => put(alloc, image, rest)?,
            "run" => push_run(alloc, &mut out, image, &steps_of(alloc, rest)?)?,
            "calls" => push_calls(alloc, &mut out, image, &steps_of(alloc, rest)?)?,
            "host" => push_host_run(rt, &mut out, image, rest)?,
            "cuts" => push_cuts(alloc, &mut out, image, &steps_of(alloc, rest)?)?,
            "show" => out.push_str(view_of(alloc, image.block_size, &image.bytes)?.as_str())?,
            "nodes" => push_nodes(&mut out, image)?,
            _ => bail!("no statement: {verb}"),
        }
    }
    Ok(out)
}

// SIZE BLOCKS INODES DIRECT INDIRECT.
fn new_volume(alloc: Global, text: &str) -> Result<Image> {
    let words: Vec<&str> = text.split(' ').collect(alloc)?;
    Image::formatted(
        alloc,
        Request {
            block_size: number32(&words, 0)?,
            blocks: number32(&words, 1)?,
            inodes: number32(&words, 2)?,
            name_max: 28,
            direct: number32(&words, 3)?,
            indirect: number32(&words, 4)?,
        },
    )
}

// BLOCK AT HEX, with `seal` behind it where the check word is put right.
fn put(alloc: Global, image: &mut Image, text: &str) -> Result<()> {
    let words: Vec<&str> = text.split(' ').collect(alloc)?;
    let bytes = hex::decode(alloc, word(&words, 2)?)?;
    let block = image.block_mut(number32(&words, 0)?)?;
    let room = block
        .get_mut(number(&words, 1)?..)
        .context("no such place")?;
    let (place, _rest) = room.split_at_mut_checked(bytes.len()).context("no room")?;
    place.copy_from_slice(&bytes);
    if words.len() > 3 && block.len() >= 8 {
        seal(block);
    }
    Ok(())
}

// Takes steps over the image, and appends what they answer; the image is what the disk shows then.
fn push_run(alloc: Global, out: &mut String, image: &mut Image, steps: &[Step]) -> Result<()> {
    let done = run_over(alloc, image.disk(alloc, &[])?, steps)?;
    for answer in &done.answers {
        match answer {
            Answer::Done => {}
            Answer::Nothing => out.push_str("  nothing to ask\n")?,
            Answer::Number(number) => writeln!(out, "  number {number}")?,
        }
    }
    if !matches!(done.end, End::Done) {
        writeln!(out, "  {:?}", done.end)?;
    }
    image.bytes = shown(alloc, &done.disk.disk)?;
    Ok(())
}

// Appends the calls of the disk in a mount and in each step. The image stays.
fn push_calls(alloc: Global, out: &mut String, image: &Image, steps: &[Step]) -> Result<()> {
    let mut before = Calls::NONE;
    for count in 0..steps.len() + 1 {
        let done = run_over(alloc, image.disk(alloc, &[])?, &steps[..count])?;
        let calls = done.disk.calls.since(before);
        before = done.disk.calls;
        writeln!(
            out,
            "  {} reads, {} writes, {} flushes",
            calls.reads, calls.writes, calls.flushes
        )?;
    }
    Ok(())
}

use crate::orders::{Answer, order, shown};
use crate::plain::replies_in_memory;
use crate::replies::{push_count, push_replies};
use anyhow::{Context, Result, bail};
use edge_app::{Report, fault_line};
use edge_base::Geometry;
use edge_statement::{push_escaped, push_lines};
use edge_words::{Order, need, read_words};
use std::alloc::{AllocError, Global};
use std::fs;
use std::fs::File;
use std::rt::Files;

/// The volume that scripts run on: its image, the bytes of a block, and while no script has run on
/// it its geometry.
#[derive(Drop)]
pub struct Volume {
    image: Vec<u8>,
    block_size: u32,
    fresh: Option<Geometry>,
}

impl Volume {
    /// No volume yet.
    pub fn new(alloc: Global) -> Volume {
        Volume {
            image: Vec::new(alloc),
            block_size: 512,
            fresh: None,
        }
    }
}

/// What the statement of a line answers.
pub fn answer_row<R: Files<File = File> + AllocGlobal>(
    rt: &R,
    volume: &mut Volume,
    line: &str,
) -> Result<String> {
    let alloc = rt.alloc();
    let mut out = String::new(alloc);
    let (verb, rest) = line.split_once(' ').unwrap_or((line, ""));
    match verb {
        "volume" => format_volume(alloc, &mut out, volume, rest)?,
        "run" => {
            let script = script_of(alloc, rest)?;
            let fresh = volume.fresh;
            let answer = run(alloc, volume, &script)?;
            push_replies(alloc, &mut out, rest, answer.sink.taken())?;
            push_end(&mut out, &answer.report)?;
            push_other(alloc, &mut out, fresh, &script, answer.sink.taken())?;
        }
        "file" => {
            let script = fs::read(rt, rest)?;
            let fresh = volume.fresh;
            let answer = run(alloc, volume, &script)?;
            push_count(&mut out, answer.sink.taken())?;
            push_end(&mut out, &answer.report)?;
            push_other(alloc, &mut out, fresh, &script, answer.sink.taken())?;
        }
        _ => bail!("no statement: {verb}"),
    }
    Ok(out)
}

// Formats a volume, with the options of `format`, in as many blocks as it has.
fn format_volume(alloc: Global, out: &mut String, volume: &mut Volume, text: &str) -> Result<()> {
    let mut words: Vec<&str> = Vec::new(alloc);
    words.push("format")?;
    words.push("I")?;
    for word in text.split(' ') {
        words.push(word)?;
    }
    let needed = need(&words);
    let blocks = needed.make_blocks.context("no geometry")?;
    let length = (blocks as usize).saturating_mul(needed.block_size as usize);
    let zeros = vec![in alloc; 0u8; length]?;
    let answer = order(alloc, &words, b"", &zeros)?;
    push_lines(out, '<', answer.sink.taken())?;
    volume.image = shown(alloc, &answer.disk)?;
    volume.block_size = needed.block_size;
    volume.fresh = match read_words(&words) {
        Ok(Order::Format { request, .. }) => Geometry::checked(request).ok(),
        _ => None,
    };
    Ok(())
}

// Runs a script over the volume. The image is what the disk shows then.
fn run(alloc: Global, volume: &mut Volume, script: &[u8]) -> Result<Answer> {
    let size = format!(in alloc; "{}", volume.block_size)?;
    let answer = order(
        alloc,
        &["run", "I", "-b", size.as_str()],
        script,
        &volume.image,
    )?;
    volume.image = shown(alloc, &answer.disk)?;
    volume.fresh = None;
    Ok(answer)
}

// Appends the replies of a store in memory to a script over a fresh volume, where they are others.
fn push_other(
    alloc: Global,
    out: &mut String,
    fresh: Option<Geometry>,
    script: &[u8],
    taken: &[u8],
) -> Result<()> {
    let Some(g) = fresh else {
        return Ok(());
    };
    let other = replies_in_memory(alloc, g, script)?;
    if other.taken() != taken {
        out.push_str("  other replies of the store in memory:\n")?;
        push_lines(out, '<', other.taken())?;
    }
    Ok(())
}

// The lines between `; `, each with a line feed.
fn script_of(alloc: Global, text: &str) -> Result<Vec<u8>, AllocError> {
    let mut script = Vec::new(alloc);
    for line in text.split("; ") {
        script.extend_from_slice(line.as_bytes())?;
        script.push(b'\n')?;
    }
    Ok(script)
}

// How a run has ended, with the fault line where there is one.
fn push_end(out: &mut String, report: &Report) -> Result<()> {
    let mut line = [0; 64];
    let length = fault_line(report, &mut line);
    write!(
        out,
        "  status {}, commands {}, points {}",
        report.status, report.commands, report.points
    )?;
    if length > 0 {
        out.push_str(", ")?;
        push_escaped(out, &line[..length])?;
    }
    out.push('\n')?;
    Ok(())
}

ghost use Rattle.std.specs.Prelude.{◌≤◌, IfOk};

use crate::disks::push_call;
use crate::nodes::is_block_size;
use crate::streams::push_folder_call;
use anyhow::{Context, Result, ensure};
use edge_disk::Disk;
use edge_host::{HostClock, HostDisk, HostFolder, HostSink, HostSource};
use edge_io::{Clock, Sink, Source};
use edge_statement::{byte, number, word};
use std::cell::Cell;
use std::fs::File;
use std::io::{ErrorKind, Read, Write};
use std::os::unix::fs::symlink;
use std::rt::Files;
use std::time::Duration;
use std::{fs, io, rt};

/// Makes a file of so many bytes, as `4096:a5`.
pub fn make_file<R: Files<File = File> + AllocGlobal>(
    rt: &R,
    name: &str,
    text: &str,
) -> Result<()> {
    let (count, digits) = text.split_once(':').context("COUNT:BYTE")?;
    let filled = byte(rt.alloc(), digits)?;
    let bytes = vec![in rt.alloc(); filled; count.parse::<u32>()? as usize]?;
    fs::write(rt, name, bytes.as_slice())?;
    Ok(())
}

/// Makes or removes what lies in the folder of the host that the program runs in, where this is
/// such a statement.
pub fn change_host<R: Files<File = File> + AllocGlobal>(
    rt: &R,
    verb: &str,
    words: &[&str],
) -> Result<bool> {
    match verb {
        "make_folder" => fs::create_dir_all(rt, word(words, 0)?)?,
        "make_file" => make_file(rt, word(words, 0)?, word(words, 1)?)?,
        "make_text" => fs::write(rt, word(words, 0)?, word(words, 1)?)?,
        "make_link" => symlink(rt, word(words, 0)?, word(words, 1)?)?,
        "remove_file" => fs::remove_file(rt, word(words, 0)?)?,
        _ => return Ok(false),
    }
    Ok(true)
}

/// Opens a disk over a file of the host, over none at `-`, which is made with so many blocks, or
/// not where they are `-`, and makes calls of it. `tN:HH` makes the file anew between two calls.
pub fn push_host_disk<R: Files<File = File> + AllocGlobal>(
    rt: &R,
    out: &mut String,
    words: &[&str],
) -> Result<()> {
    let name = word(words, 0)?;
    let size = number(words, 1)?;
    ensure!(is_block_size(size), "no size of a block");
    let path = if name == "-" { None } else { Some(name) };
    let made = match word(words, 2)? {
        "-" => None,
        blocks => Some(blocks.parse::<u32>()?),
    };
    let mut disk = HostDisk::open(rt, path, size as u32, made);
    writeln!(out, "  {} blocks", disk.blocks())?;
    for call in words.iter().skip(3) {
        if let Some(text) = call.strip_prefix("t") {
            make_file(rt, name, text)?;
            continue;
        }
        push_call(rt.alloc(), out, &mut disk, call)?;
        out.push('\n')?;
    }
    Ok(())
}

/// Asks a folder of the host by `next` and `bytes`. `-PATH` removes a file between two calls, and
/// `+PATH` makes one.
pub fn push_host_folder<R: Files<File = File> + AllocGlobal>(
    rt: &R,
    out: &mut String,
    words: &[&str],
) -> Result<()> {
    let mut folder = HostFolder::new(rt, word(words, 0)?)?;
    let mut room = vec![in rt.alloc(); 0u8; 4096]?;
    for call in words.iter().skip(1) {
        if let Some(path) = call.strip_prefix("-") {
            fs::remove_file(rt, path)?;
        } else if let Some(path) = call.strip_prefix("+") {
            fs::write(rt, path, "made anew")?;
        } else {
            push_folder_call(out, &mut folder, &mut room, call)?;
        }
    }
    Ok(())
}

// What the calls of a stream answer in turn, as counts or as errors; then each answers 0.
#[derive(Drop)]
struct Answers<'a>(&'a [Result<usize, ErrorKind>]);

impl Answers<'_> {
    fn next(&mut self, most: usize) -> io::Result<usize>
        ensures { IfOk result (λ n. n ≤ most) }
    {
        let Some((first, rest)) = self.0.split_first() else {
            return Ok(0);
        };
        self.0 = rest;
        match first {
            Ok(count) => Ok(most.min(*count)),
            Err(kind) => Err((*kind).into()),
        }
    }
}

impl Read for Answers<'_> {
    fn read(&mut self, out: &mut [u8]) -> io::Result<usize> {
        self.next(out.len())
    }
}

impl Write for Answers<'_> {
    fn write(&mut self, bytes: &[u8]) -> io::Result<usize> {
        self.next(bytes.len())
    }

    fn flush(&mut self) -> io::Result<()> {
        Ok(())
    }
}

/// Appends what a read and a write of three bytes answer, where the host answers these counts in
/// turn, `i` for an interrupt, and `b` for a broken pipe.
pub fn push_host_streams<R: AllocGlobal>(rt: &R, out: &mut String, words: &[&str]) -> Result<()> {
    let mut answers = Vec::new(rt.alloc());
    for word in words {
        answers.push(match *word {
            "i" => Err(ErrorKind::Interrupted),
            "b" => Err(ErrorKind::BrokenPipe),
            count => Ok(count.parse::<u32>()? as usize),
        })?;
    }
    match HostSource::new(Answers(&answers)).read(&mut [0; 3]) {
        Ok(count) => write!(out, "  read {count}")?,
        Err(fault) => write!(out, "  {fault}")?,
    }
    match HostSink::new(Answers(&answers)).write(&[0; 3]) {
        Ok(count) => writeln!(out, ", written {count}")?,
        Err(fault) => writeln!(out, ", {fault}")?,
    }
    Ok(())
}

// A clock of the host that answers these seconds in turn, or an error; then each answer is one.
#[derive(Drop)]
struct Answered<'a> {
    seconds: &'a [Option<u64>],
    calls: Cell<usize>,
}

impl rt::Clock for Answered<'_> {
    fn monotonic(&self) -> io::Result<Duration> {
        Err(ErrorKind::Unsupported.into())
    }

    fn since_1970(&self) -> io::Result<Duration> {
        let call = self.calls.get();
        self.calls.set(call.saturating_add(1));
        match self.seconds.get(call) {
            Some(Some(seconds)) => Ok(Duration::from_secs(*seconds)),
            _ => Err(ErrorKind::Other.into()),
        }
    }
}

/// Appends the moments of a clock whose host answers these seconds in turn, nothing at `-`, and one
/// moment more.
pub fn push_host_clock<R: AllocGlobal>(rt: &R, out: &mut String, words: &[&str]) -> Result<()> {
    let mut seconds = Vec::new(rt.alloc());
    for word in words {
        seconds.push(if *word == "-" {
            None
        } else {
            Some(word.parse::<u64>()?)
        })?;
    }
    let mut clock = HostClock::new(Answered {
        seconds: &seconds,
        calls: Cell::new(0),
    });
    write!(out, " ")?;
    for _ in 0..=words.len() {
        write!(out, " {}", clock.now())?;
    }
    out.push('\n')?;
    Ok(())
}

/// Appends whether the host's clock gives a moment between two that its runtime tells.
pub fn push_host_now<R: rt::Clock>(rt: &R, out: &mut String) -> Result<()> {
    let before = rt.since_1970()?.as_secs();
    let moment = u64::from(HostClock::new(rt).now());
    let after = rt.since_1970()?.as_secs();
    let is_now = before <= moment && moment <= after;
    writeln!(out, "  now: {is_now}")?;
    Ok(())
}

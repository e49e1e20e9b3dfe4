ghost use Rattle.std.specs.Prelude.{◌≤◌, length};

use crate::numbers::REFUSALS;
use anyhow::{Context, Result, ensure};
use edge_base::{NodeType, Refusal};
use edge_model::{Answer, Room, Status};
use edge_script::{write_bad, write_reply};
use edge_statement::{number32, push_lines, word};
use std::alloc::Global;

// The bytes of the longest reply, and more.
const REPLY: usize = 8256;

/// Appends the text of a reply, whose bytes or name are those of the script.
pub fn push_reply(alloc: Global, out: &mut String, script: &[u8], words: &[&str]) -> Result<()> {
    let mut room = vec![in alloc; 0u8; REPLY]?;
    let length = match word(words, 0)? {
        "bad" => write_bad(&mut room),
        "bytes" => write_bytes(script, &mut room)?,
        "entry" => write_entry(script, number32(words, 1)?, &mut room)?,
        what => write_plain(what, words, &mut room)?,
    };
    push_lines(out, '>', room.get(..length).context("no room")?)?;
    Ok(())
}

fn write_bytes(bytes: &[u8], room: &mut [u8]) -> Result<usize>
    requires { 8256 ≤ length room.old }
{
    ensure!(bytes.len() <= 4096, "{} bytes", bytes.len());
    Ok(write_reply(&Answer::Bytes(bytes.len() as u32), bytes, room))
}

fn write_entry(name: &[u8], number: u32, room: &mut [u8]) -> Result<usize>
    requires { 8256 ≤ length room.old }
{
    ensure!(name.len() <= 252, "a name of {} bytes", name.len());
    let len = name.len() as u32;
    Ok(write_reply(&Answer::Entry { number, len }, name, room))
}

// A reply that tells no bytes.
fn write_plain(what: &str, words: &[&str], room: &mut [u8]) -> Result<usize>
    requires { 8256 ≤ length room.old }
{
    Ok(match what {
        "done" => write_reply(&Answer::Done, &[], room),
        "end" => write_reply(&Answer::End, &[], room),
        "number" => write_reply(&Answer::Number(word(words, 1)?.parse::<u64>()?), &[], room),
        "stat" => write_reply(&Answer::Stat(status_of(words)?), &[], room),
        "space" => write_reply(&Answer::Space(room_of(words)?), &[], room),
        _ => write_reply(&Answer::No(refusal_of(number32(words, 1)?)?), &[], room),
    })
}

// NUMBER KIND SIZE LINKS, behind the first word.
fn status_of(words: &[&str]) -> Result<Status> {
    Ok(Status {
        number: number32(words, 1)?,
        kind: match word(words, 2)? {
            "d" => NodeType::Directory,
            _ => NodeType::File,
        },
        size: word(words, 3)?.parse::<u64>()?,
        links: word(words, 4)?.parse::<u16>()?,
    })
}

// NOW AFTER BLOCKS FREEINODES INODES, behind the first word.
fn room_of(words: &[&str]) -> Result<Room> {
    Ok(Room {
        now: number32(words, 1)?,
        after: number32(words, 2)?,
        blocks: number32(words, 3)?,
        free_inodes: number32(words, 4)?,
        inodes: number32(words, 5)?,
    })
}

// The refusal of a number.
fn refusal_of(number: u32) -> Result<Refusal> {
    let refusal = REFUSALS.iter().find(|refusal| **refusal as u32 == number);
    refusal.copied().context("no refusal has this number")
}

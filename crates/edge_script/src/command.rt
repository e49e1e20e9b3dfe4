ghost use Rattle.std.specs.Prelude.{◌≡◌, ◌≤◌, ◌+◌, ◌==◌, length, position, option_map, option_copied, IfSome, IfOk, OnErr};
ghost use Rattle.std.specs.Result.{result_ok};
ghost use Rattle.edge_model.specs.Asked.{Asked, asked};
ghost use Rattle.edge_script.specs.Bytes.{path_in};
ghost use Rattle.edge_script.specs.Commands.{SpellsCommand, most_line};
ghost use Rattle.edge_script.specs.Reading.{split_at_space, alone, command_of, command_of_bytes, command_in, two_paths_in};

use crate::flags::read_flags;
use crate::hexadecimal::{read_byte, read_hex};
use crate::number::{read_count, read_number, read_u32};
use crate::path::read_path;
use crate::verb::{Verb, verb_of};
use edge_model::Command;

// The most bytes of one read, and of one fill.
const MOST_READ: u32 = 4096;

const MOST_FILLED: u32 = 65536;

/// A line that spells no command.
#[derive(Clone, Copy, Debug, PartialEq, Eq)]
pub struct BadLine;

/// The command that a line spells, without its line feed. Paths and data of the command lie in
/// `scratch`, which has at least 8,209 bytes, and a line at most so many.
pub fn read_line<'a>(line: &[u8], scratch: &'a mut [u8]) -> Result<Command<'a>, BadLine>
    requires line { length line.now ≤ most_line }
    requires scratch { most_line ≤ length scratch.old }
    ensures exact { option_map asked (result_ok result) ≡ command_in line.now }
    ensures spelled { IfOk result (λ c. SpellsCommand line.now (asked c)) }
    ensures refused { OnErr result ((c : Asked) → ¬ (SpellsCommand line.now c)) }
{
    read_command(line, scratch).ok_or(BadLine)
}

#[tactic(auto, unfolding(crate::specs::Reading::command_of_bytes))]
fn read_command<'a>(line: &[u8], scratch: &'a mut [u8]) -> Option<Command<'a>>
    requires { length line.now ≤ length scratch.old }
    ensures { option_map asked result ≡ command_of_bytes line.now }
{
    match split_at_space(line) {
        None => command_alone(verb_of(line)?),
        Some((word, rest)) => command_behind(verb_of(word)?, rest, scratch),
    }
}

// The place of the first space.
fn space_in(text: &[u8]) -> Option<usize>
    ensures { result ≡ position (λ b. b == 32) text.now }
{
    text.iter().position(|b| *b == b' ')
}

// The bytes before the first space, and those behind it.
fn split_at_space(text: &[u8]) -> Option<(&[u8], &[u8])>
    ensures exact { option_map (λ parts. (parts.0.now, parts.1.now)) result
        ≡ split_at_space text.now }
    ensures inside { IfSome result
        (λ parts. length parts.0.now + length parts.1.now + 1 ≡ length text.now) }
{
    let end = space_in(text)?;
    Some((&text[..end], &text[end + 1..]))
}

// The command of a verb with nothing behind it.
fn command_alone<'a>(verb: Verb) -> Option<Command<'a>>
    ensures { option_map asked result ≡ alone (Some verb) }
{
    match verb {
        Verb::Space => Some(Command::Space),
        Verb::Mask => Some(Command::Mask),
        Verb::Transact => Some(Command::Transact),
        _ => None,
    }
}

// The command of a verb and what stands behind it and a space.
fn command_behind<'a>(verb: Verb, text: &[u8], scratch: &'a mut [u8]) -> Option<Command<'a>>
    requires { length text.now ≤ length scratch.old }
    ensures { option_map asked result ≡ command_of verb text.now }
{
    match verb {
        Verb::Open => read_open(text, scratch),
        Verb::Close => Some(Command::Close { h: read_u32(text)? }),
        Verb::Read => read_read(text),
        Verb::Write => read_write(text, scratch),
        Verb::Fill => read_fill(text),
        Verb::Seek => read_seek(text),
        Verb::Truncate => read_truncate(text),
        Verb::Fsync => Some(Command::Fsync { h: read_u32(text)? }),
        Verb::Link => {
            let (path, to) = lend_paths(text, scratch)?;
            Some(Command::Link { path, to })
        }
        Verb::Unlink => Some(Command::Unlink {
            path: lend_path(text, scratch)?,
        }),
        Verb::Rename => {
            let (path, to) = lend_paths(text, scratch)?;
            Some(Command::Rename { path, to })
        }
        Verb::MakeDir => Some(Command::MakeDir {
            path: lend_path(text, scratch)?,
        }),
        Verb::RemoveDir => Some(Command::RemoveDir {
            path: lend_path(text, scratch)?,
        }),
        Verb::OpenDir => Some(Command::OpenDir {
            path: lend_path(text, scratch)?,
        }),
        Verb::ReadDir => Some(Command::ReadDir { h: read_u32(text)? }),
        Verb::Rewind => Some(Command::Rewind { h: read_u32(text)? }),
        Verb::Stat => Some(Command::Stat {
            path: lend_path(text, scratch)?,
        }),
        Verb::Fstat => Some(Command::Fstat { h: read_u32(text)? }),
        Verb::SetMask => Some(Command::SetMask {
            mask: read_u32(text)?,
        }),
        Verb::Space | Verb::Mask | Verb::Transact => None,
    }
}

// The path that a word spells, read into the scratch.
fn lend_path<'a>(word: &[u8], scratch: &'a mut [u8]) -> Option<&'a [u8]>
    requires { length word.now ≤ length scratch.old }
    ensures { option_copied result ≡ path_in word.now }
{
    let len = read_path(word, scratch)?;
    Some(&scratch[..len])
}

// The two paths that a text spells, one behind the other in the scratch.
fn lend_paths<'a>(text: &[u8], scratch: &'a mut [u8]) -> Option<(&'a [u8], &'a [u8])>
    requires { length text.now ≤ length scratch.old }
    ensures { option_map (λ paths. (paths.0.now, paths.1.now)) result ≡ two_paths_in text.now }
{
    let (first, second) = split_at_space(text)?;
    let len = read_path(first, scratch)?;
    let (front, back) = scratch.split_at_mut(len);
    let path = lend_path(second, back)?;
    Some((front, path))
}

fn read_open<'a>(text: &[u8], scratch: &'a mut [u8]) -> Option<Command<'a>>
    requires { length text.now ≤ length scratch.old }
    ensures { option_map asked result ≡ command_of Verb.Open text.now }
{
    let (word, letters) = split_at_space(text)?;
    let path = lend_path(word, scratch)?;
    let flags = read_flags(letters)?;
    Some(Command::OpenFile { path, flags })
}

fn read_read<'a>(text: &[u8]) -> Option<Command<'a>>
    ensures { option_map asked result ≡ command_of Verb.Read text.now }
{
    let (descriptor, count) = split_at_space(text)?;
    let h = read_u32(descriptor)?;
    let count = read_count(count, MOST_READ)?;
    Some(Command::Read { h, count })
}

fn read_write<'a>(text: &[u8], scratch: &'a mut [u8]) -> Option<Command<'a>>
    requires { length text.now ≤ length scratch.old }
    ensures { option_map asked result ≡ command_of Verb.Write text.now }
{
    let (descriptor, digits) = split_at_space(text)?;
    let h = read_u32(descriptor)?;
    let len = read_hex(digits, scratch)?;
    Some(Command::Write {
        h,
        bytes: &scratch[..len],
    })
}

fn read_fill<'a>(text: &[u8]) -> Option<Command<'a>>
    ensures { option_map asked result ≡ command_of Verb.Fill text.now }
{
    let (descriptor, filling) = split_at_space(text)?;
    let (count, digits) = split_at_space(filling)?;
    let h = read_u32(descriptor)?;
    let count = read_count(count, MOST_FILLED)?;
    let byte = read_byte(digits)?;
    Some(Command::Fill { h, count, byte })
}

fn read_seek<'a>(text: &[u8]) -> Option<Command<'a>>
    ensures { option_map asked result ≡ command_of Verb.Seek text.now }
{
    let (descriptor, to) = split_at_space(text)?;
    let h = read_u32(descriptor)?;
    let to = read_number(to)?;
    Some(Command::Seek { h, to })
}

fn read_truncate<'a>(text: &[u8]) -> Option<Command<'a>>
    ensures { option_map asked result ≡ command_of Verb.Truncate text.now }
{
    let (descriptor, size) = split_at_space(text)?;
    let h = read_u32(descriptor)?;
    let size = read_number(size)?;
    Some(Command::Truncate { h, size })
}

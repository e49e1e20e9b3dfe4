ghost use Rattle.std.specs.Prelude.{◌≡◌, true, IfOk, length};
ghost use Rattle.edge_dir.specs.Directory.{IsDirectoryNode};
ghost use Rattle.edge_store.specs.Calls.{Called};
ghost use Rattle.edge_store.specs.State.{IsLive, IsNumber, HasInode};

use crate::answer::{Answer, push_told};
use crate::set::ask_set;
use crate::there::may_have;
use anyhow::{Result as Told, bail};
use edge_base::NodeType;
use edge_dir::{Found, Place, entry_at, find, free_slot, is_empty, look_up, slots};
use edge_statement::{number32, word};
use edge_store::{Store, StoreFault};

// The bytes of the longest name.
const NAME_MOST: usize = 252;

// What a directory answers.
#[derive(Clone, Copy, Debug, PartialEq, Eq)]
enum Said {
    Nothing,
    Slots(u64),
    Empty(bool),
    Found(Option<Found>),
    Place(Place),
    Entry(Option<(u32, u32)>),
}

/// Appends what a store answers to a statement on the slots of a directory: `dir`, a verb, the
/// number of the directory, and more.
pub fn push_dir<S: Store>(out: &mut String, s: &mut S, words: &[&str]) -> Told<()>
    requires { IsLive (S.state s.old) }
{
    let mut name = [0u8; NAME_MOST];
    let d = number32(words, 2)?;
    let told = match word(words, 1)? {
        "slots" | "empty" | "free" | "find" | "look" | "entry" => {
            ask_seen(s, d, words, &mut name)?
        }
        _ => {
            push_told(out, ask_set(s, d, words)?)?;
            return Ok(());
        }
    };
    match told {
        Ok(said) => push_said(out, said, &name),
        Err(fault) => {
            push_told(out, Err(fault))?;
            Ok(())
        }
    }
}

// Whether a number is that of a directory, so that it may be asked.
pub(crate) fn is_dir<S: Store>(s: &mut S, d: u32) -> Result<bool, StoreFault>
    requires live { IsLive (S.state s.old) }
    ensures called { Called (S.state s.old) (S.state s.new) result }
    ensures number { IfOk result (λ there. there ≡ true → IsNumber (S.state s.new) d) }
    ensures inode { IfOk result (λ there. there ≡ true → HasInode (S.state s.new) d) }
    ensures directory { IfOk result (λ there. there ≡ true → IsDirectoryNode (S.state s.new) d) }
{
    if !may_have(s, d) {
        return Ok(false);
    }
    match s.head(d)? {
        Some(head) => Ok(head.kind == NodeType::Directory),
        None => Ok(false),
    }
}

fn ask_seen<S: Store>(
    s: &mut S,
    d: u32,
    words: &[&str],
    name: &mut [u8],
) -> Told<Result<Said, StoreFault>>
    requires live { IsLive (S.state s.old) }
    requires list { length name.old ≡ 252 }
{
    Ok(match word(words, 1)? {
        "slots" | "empty" | "free" => all(s, d, word(words, 1)?),
        "find" => found(s, d, word(words, 3)?.as_bytes()),
        "look" => looked(s, d, word(words, 3)?.as_bytes()),
        "entry" => entry(s, d, word(words, 3)?.parse::<u64>()?, name),
        verb => bail!("no statement: dir {verb}"),
    })
}

fn all<S: Store>(s: &mut S, d: u32, verb: &str) -> Result<Said, StoreFault>
    requires { IsLive (S.state s.old) }
{
    if !is_dir(s, d)? {
        return Ok(Said::Nothing);
    }
    Ok(match verb {
        "slots" => Said::Slots(slots(s, d)?),
        "free" => Said::Slots(free_slot(s, d)?),
        _ => Said::Empty(is_empty(s, d)?),
    })
}

fn found<S: Store>(s: &mut S, d: u32, name: &[u8]) -> Result<Said, StoreFault>
    requires { IsLive (S.state s.old) }
{
    if !is_dir(s, d)? {
        return Ok(Said::Nothing);
    }
    Ok(Said::Found(find(s, d, name)?))
}

fn looked<S: Store>(s: &mut S, d: u32, name: &[u8]) -> Result<Said, StoreFault>
    requires { IsLive (S.state s.old) }
{
    if !is_dir(s, d)? {
        return Ok(Said::Nothing);
    }
    Ok(Said::Place(look_up(s, d, name)?))
}

fn entry<S: Store>(s: &mut S, d: u32, slot: u64, name: &mut [u8]) -> Result<Said, StoreFault>
    requires live { IsLive (S.state s.old) }
    requires list { length name.old ≡ 252 }
{
    if !is_dir(s, d)? {
        return Ok(Said::Nothing);
    }
    Ok(Said::Entry(entry_at(s, d, slot, name)?))
}

fn push_said(out: &mut String, said: Said, name: &[u8]) -> Told<()> {
    match said {
        Said::Nothing => push_told(out, Ok(Answer::Nothing))?,
        Said::Slots(count) => write!(out, "{count}")?,
        Said::Empty(empty) => write!(out, "{empty}")?,
        Said::Found(None) | Said::Entry(None) => out.push_str("none")?,
        Said::Found(Some(found)) => write!(out, "slot {}, number {}", found.slot, found.number)?,
        Said::Place(Place::Taken(found)) => {
            write!(out, "taken: slot {}, number {}", found.slot, found.number)?
        }
        Said::Place(Place::Free(slot)) => write!(out, "free: slot {slot}")?,
        Said::Entry(Some((number, len))) => {
            write!(out, "number {number}, {len}:")?;
            for byte in name.iter().take(len as usize) {
                write!(out, " {byte:02x}")?;
            }
        }
    }
    Ok(())
}

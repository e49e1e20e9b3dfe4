ghost use Rattle.std.specs.Prelude.{◌≡◌, ◌<◌, ◌/◌, true};
ghost use Rattle.edge_base.specs.layout.Places.{max_blocks_of};
ghost use Rattle.edge_base.specs.tree.Slots.{slots_in_block};
ghost use Rattle.edge_store.specs.Calls.{Called};
ghost use Rattle.edge_store.specs.State.{IsLive};

use crate::answer::Answer;
use crate::dirs::is_dir;
use anyhow::{Result as Told, bail};
use edge_base::{Head, NodeType};
use edge_dir::{clear, place, replace};
use edge_slots::slots_in_block;
use edge_statement::{number32, word};
use edge_store::{Store, StoreFault};

/// What a store answers to a statement that sets slots of a directory, or makes one below another.
pub fn ask_set<S: Store>(s: &mut S, d: u32, words: &[&str]) -> Told<Result<Answer, StoreFault>>
    requires { IsLive (S.state s.old) }
{
    let verb = word(words, 1)?;
    if verb == "new" {
        return Ok(new_dir(s, d));
    }
    let slot = word(words, 3)?.parse::<u64>()?;
    Ok(match verb {
        "clear" => cleared(s, d, slot),
        "replace" => replaced(s, d, slot, number32(words, 4)?),
        "place" => placed(s, d, slot, word(words, 4)?.as_bytes(), number32(words, 5)?),
        "fill" => filled(s, d, slot, number32(words, 4)?, number32(words, 5)?),
        _ => bail!("no statement: dir {verb}"),
    })
}

fn new_dir<S: Store>(s: &mut S, parent: u32) -> Result<Answer, StoreFault>
    requires { IsLive (S.state s.old) }
{
    let head = Head {
        size: 0,
        kind: NodeType::Directory,
        links: 1,
        parent,
    };
    Ok(match s.new_inode(head)? {
        Some(n) => Answer::Number(u64::from(n)),
        None => Answer::Nothing,
    })
}

// Whether a slot lies in a block that a directory may have.
fn may_set<S: Store>(s: &S, slot: u64) -> bool
    ensures { result ≡ true → slot / slots_in_block (S.state s.now).origin.request
        < max_blocks_of (S.state s.now).origin.request }
{
    let g = s.geometry();
    slot / u64::from(slots_in_block(&g)) < u64::from(g.max_blocks())
}

fn placed<S: Store>(
    s: &mut S,
    d: u32,
    slot: u64,
    name: &[u8],
    number: u32,
) -> Result<Answer, StoreFault>
    requires { IsLive (S.state s.old) }
    ensures { Called (S.state s.old) (S.state s.new) result }
{
    let most = s.geometry().request().name_max as usize;
    if !is_dir(s, d)? || !may_set(s, slot) || name.len() > most {
        return Ok(Answer::Nothing);
    }
    place(s, d, slot, name, number)?;
    Ok(Answer::Done)
}

// Names `n0000` and on, by the number of their slot, in slots side by side.
fn filled<S: Store>(
    s: &mut S,
    d: u32,
    first: u64,
    count: u32,
    number: u32,
) -> Result<Answer, StoreFault>
    requires { IsLive (S.state s.old) }
{
    let mut told = Answer::Done;
    for slot in first..first.saturating_add(u64::from(count)) {
        told = placed(s, d, slot, &numbered(slot), number)?;
    }
    Ok(told)
}

// `n` and the last four digits of a number.
fn numbered(slot: u64) -> [u8; 5] {
    let digit = |of: u64| b'0' + (slot / of % 10) as u8;
    [b'n', digit(1000), digit(100), digit(10), digit(1)]
}

fn replaced<S: Store>(s: &mut S, d: u32, slot: u64, number: u32) -> Result<Answer, StoreFault>
    requires { IsLive (S.state s.old) }
{
    if !is_dir(s, d)? || !may_set(s, slot) {
        return Ok(Answer::Nothing);
    }
    replace(s, d, slot, number)?;
    Ok(Answer::Done)
}

fn cleared<S: Store>(s: &mut S, d: u32, slot: u64) -> Result<Answer, StoreFault>
    requires { IsLive (S.state s.old) }
{
    if !is_dir(s, d)? || !may_set(s, slot) {
        return Ok(Answer::Nothing);
    }
    clear(s, d, slot)?;
    Ok(Answer::Done)
}

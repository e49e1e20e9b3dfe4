ghost use Rattle.std.specs.Prelude.{◌≡◌, ◌≢◌, true, None, IfOk};
ghost use Rattle.edge_store.specs.Calls.{Called};
ghost use Rattle.edge_store.specs.State.{IsLive, IsNumber, HasInode};
ghost use Rattle.edge_store.specs.View.{is_number};

use anyhow::{Result as Told, bail};
use edge_base::{Head, NodeType};
use edge_file::{fill_at, read_at, set_size};
use edge_statement::{byte, number32, word};
use edge_store::{Store, StoreFault};
use std::alloc::Global;

// More points than a table takes.
const MANY: u64 = 1_000_000;

/// A step of a run.
#[derive(Clone, Copy)]
pub enum Step {
    /// Makes a file.
    File,
    /// Fills bytes of a node with one.
    Fill {
        n: u32,
        at: u64,
        count: u32,
        byte: u8,
    },
    /// Gives a node a size.
    Size {
        n: u32,
        size: u64,
    },
    /// Drops a node and its blocks.
    Drop {
        n: u32,
    },
    /// Looks at the head of a node.
    Head {
        n: u32,
    },
    /// Reads bytes of a node.
    Read {
        n: u32,
        at: u64,
    },
    /// Takes so many points.
    Points {
        count: u32,
    },
    /// So many times fills the first bytes of a node and takes a point.
    Rounds {
        n: u32,
        count: u32,
    },
}

/// What a store answers to a step.
#[derive(Clone, Copy)]
pub enum Answer {
    Done,
    /// There is nothing that the step could be asked of.
    Nothing,
    Number(u32),
}

/// The steps of a text, with `, ` between them.
pub fn steps_of(alloc: Global, text: &str) -> Told<Vec<Step>> {
    let mut steps = Vec::new(alloc);
    for part in text.split(", ") {
        steps.push(step_of(alloc, part)?)?;
    }
    Ok(steps)
}

fn step_of(alloc: Global, text: &str) -> Told<Step> {
    let words: Vec<&str> = text.split(' ').collect(alloc)?;
    Ok(match word(&words, 0)? {
        "file" => Step::File,
        "fill" => Step::Fill {
            n: number32(&words, 1)?,
            at: word(&words, 2)?.parse::<u64>()?,
            count: number32(&words, 3)?,
            byte: byte(alloc, word(&words, 4)?)?,
        },
        "size" => Step::Size {
            n: number32(&words, 1)?,
            size: word(&words, 2)?.parse::<u64>()?,
        },
        "drop" => Step::Drop {
            n: number32(&words, 1)?,
        },
        "head" => Step::Head {
            n: number32(&words, 1)?,
        },
        "read" => Step::Read {
            n: number32(&words, 1)?,
            at: word(&words, 2)?.parse::<u64>()?,
        },
        "rounds" => Step::Rounds {
            n: number32(&words, 1)?,
            count: number32(&words, 2)?,
        },
        "point" => Step::Points { count: 1 },
        "points" => Step::Points {
            count: number32(&words, 1)?,
        },
        verb => bail!("no step: {verb}"),
    })
}

/// Whether a node may have a number.
pub fn may_have<S: Store>(s: &S, n: u32) -> bool
    ensures { result ≡ is_number (S.state s.now).origin.request n }
{
    let r = s.geometry().request();
    n >= 2 && n - 2 < r.inodes
}

/// The head of a number, where it may have one.
pub fn head_of<S: Store>(s: &mut S, n: u32) -> Result<Option<Head>, StoreFault>
    requires live { IsLive (S.state s.old) }
    ensures called { Called (S.state s.old) (S.state s.new) result }
    ensures number { IfOk result (λ head. head ≢ None → IsNumber (S.state s.new) n) }
    ensures inode { IfOk result (λ head. head ≢ None → HasInode (S.state s.new) n) }
{
    if !may_have(s, n) {
        return Ok(None);
    }
    s.head(n)
}

// Whether a number has an inode, so that a store may be asked of it.
fn is_there<S: Store>(s: &mut S, n: u32) -> Result<bool, StoreFault>
    requires live { IsLive (S.state s.old) }
    ensures called { Called (S.state s.old) (S.state s.new) result }
    ensures number { IfOk result (λ there. there ≡ true → IsNumber (S.state s.new) n) }
    ensures inode { IfOk result (λ there. there ≡ true → HasInode (S.state s.new) n) }
{
    if !may_have(s, n) {
        return Ok(false);
    }
    Ok(s.head(n)?.is_some())
}

/// What a store answers to a step.
pub fn take_step<S: Store>(s: &mut S, step: Step) -> Result<Answer, StoreFault>
    requires { IsLive (S.state s.old) }
{
    match step {
        Step::File => new_file(s),
        Step::Fill { n, at, count, byte } => fill(s, n, at, count, byte),
        Step::Size { n, size } => resize(s, n, size),
        Step::Drop { n } => drop_node(s, n),
        Step::Head { n } => head(s, n),
        Step::Read { n, at } => read(s, n, at),
        Step::Points { count } => take_points(s, count),
        Step::Rounds { n, count } => take_rounds(s, n, count),
    }
}

fn new_file<S: Store>(s: &mut S) -> Result<Answer, StoreFault>
    requires { IsLive (S.state s.old) }
{
    let head = Head {
        size: 0,
        kind: NodeType::File,
        links: 1,
        parent: 0,
    };
    Ok(match s.new_inode(head)? {
        Some(n) => Answer::Number(n),
        None => Answer::Nothing,
    })
}

fn fill<S: Store>(s: &mut S, n: u32, at: u64, count: u32, byte: u8) -> Result<Answer, StoreFault>
    requires { IsLive (S.state s.old) }
{
    let most = s.geometry().max_size();
    if at > most || u64::from(count) > most - at || !is_there(s, n)? {
        return Ok(Answer::Nothing);
    }
    fill_at(s, n, at, count, byte)?;
    Ok(Answer::Done)
}

fn resize<S: Store>(s: &mut S, n: u32, size: u64) -> Result<Answer, StoreFault>
    requires { IsLive (S.state s.old) }
{
    if size > s.geometry().max_size() || !is_there(s, n)? {
        return Ok(Answer::Nothing);
    }
    set_size(s, n, size)?;
    Ok(Answer::Done)
}

fn drop_node<S: Store>(s: &mut S, n: u32) -> Result<Answer, StoreFault>
    requires { IsLive (S.state s.old) }
{
    if !is_there(s, n)? {
        return Ok(Answer::Nothing);
    }
    set_size(s, n, 0)?;
    if !is_there(s, n)? {
        return Ok(Answer::Nothing);
    }
    s.drop_inode(n)?;
    Ok(Answer::Done)
}

fn head<S: Store>(s: &mut S, n: u32) -> Result<Answer, StoreFault>
    requires { IsLive (S.state s.old) }
{
    Ok(if is_there(s, n)? {
        Answer::Done
    } else {
        Answer::Nothing
    })
}

fn read<S: Store>(s: &mut S, n: u32, at: u64) -> Result<Answer, StoreFault>
    requires { IsLive (S.state s.old) }
{
    if !is_there(s, n)? {
        return Ok(Answer::Nothing);
    }
    let count = read_at(s, n, at, &mut [0; 8])?;
    Ok(Answer::Number(count))
}

fn take_rounds<S: Store>(s: &mut S, n: u32, count: u32) -> Result<Answer, StoreFault>
    requires { IsLive (S.state s.old) }
{
    for round in 0..count {
        if !s.is_live() {
            return Ok(Answer::Nothing);
        }
        fill(s, n, 0, 64, (round % 256) as u8)?;
        if !s.is_live() {
            return Ok(Answer::Nothing);
        }
        take_points(s, 1)?;
    }
    Ok(Answer::Done)
}

fn take_points<S: Store>(s: &mut S, count: u32) -> Result<Answer, StoreFault>
    requires { IsLive (S.state s.old) }
{
    for _ in 0..count {
        if !s.is_live() || s.points() >= MANY {
            return Ok(Answer::Nothing);
        }
        s.transact()?;
    }
    Ok(Answer::Done)
}

ghost use Rattle.edge_store.specs.State.{IsLive};

use crate::answer::Answer;
use crate::there::{is_there, may_have};
use anyhow::{Result as Told, bail};
use edge_base::{Head, NodeType};
use edge_statement::{number32, word};
use edge_store::{Store, StoreFault};

// More points than a table takes.
const MANY: u64 = 1_000_000;

/// What a store answers to a statement on inodes, free blocks or points.
pub fn ask_space<S: Store>(s: &mut S, words: &[&str]) -> Told<Result<Answer, StoreFault>>
    requires { IsLive (S.state s.old) }
{
    Ok(match word(words, 0)? {
        "file" => new_file(s, word(words, 1)?.parse::<u64>()?),
        "size" => size(s, number32(words, 1)?),
        "place" => place(s, number32(words, 1)?),
        "forget" => forget(s, number32(words, 1)?),
        "inodes" => Ok(Answer::Number(u64::from(s.free_inodes()))),
        "free" => Ok(Answer::Free(s.free())),
        "point" => point(s),
        verb => bail!("no statement: {verb}"),
    })
}

fn new_file<S: Store>(s: &mut S, size: u64) -> Result<Answer, StoreFault>
    requires { IsLive (S.state s.old) }
{
    let head = Head {
        size,
        kind: NodeType::File,
        links: 1,
        parent: 0,
    };
    Ok(match s.new_inode(head)? {
        Some(n) => Answer::Number(u64::from(n)),
        None => Answer::Nothing,
    })
}

fn size<S: Store>(s: &mut S, n: u32) -> Result<Answer, StoreFault>
    requires { IsLive (S.state s.old) }
{
    if !may_have(s, n) {
        return Ok(Answer::Nothing);
    }
    Ok(match s.head(n)? {
        Some(head) => Answer::Number(head.size),
        None => Answer::Nothing,
    })
}

fn place<S: Store>(s: &mut S, n: u32) -> Result<Answer, StoreFault>
    requires { IsLive (S.state s.old) }
{
    if !is_there(s, n)? {
        return Ok(Answer::Nothing);
    }
    Ok(Answer::Number(u64::from(s.inode_block(n)?)))
}

fn forget<S: Store>(s: &mut S, n: u32) -> Result<Answer, StoreFault>
    requires { IsLive (S.state s.old) }
{
    if !is_there(s, n)? {
        return Ok(Answer::Nothing);
    }
    s.drop_inode(n)?;
    Ok(Answer::Done)
}

fn point<S: Store>(s: &mut S) -> Result<Answer, StoreFault>
    requires { IsLive (S.state s.old) }
{
    if s.points() >= MANY {
        return Ok(Answer::Nothing);
    }
    s.transact()?;
    Ok(Answer::Done)
}

ghost use Rattle.edge_store.specs.State.{IsLive};

use crate::answer::Answer;
use crate::there::is_there;
use anyhow::{Result as Told, bail};
use edge_cut::{cut_cost, cut_from};
use edge_statement::{number32, word};
use edge_store::{Store, StoreFault};
use edge_tree::{block_of, chain_of, make_writable};

/// What a store answers to a statement on the data blocks of a node: VERB NUMBER INDEX.
pub fn ask_blocks<S: Store>(s: &mut S, words: &[&str]) -> Told<Result<Answer, StoreFault>>
    requires { IsLive (S.state s.old) }
{
    let n = number32(words, 1)?;
    let i = number32(words, 2)?;
    Ok(match word(words, 0)? {
        "block" => block(s, n, i),
        "chain" => chain(s, n, i),
        "writable" => writable(s, n, i),
        "cost" => cost(s, n, i),
        "cut" => cut(s, n, i),
        verb => bail!("no statement: {verb}"),
    })
}

fn block<S: Store>(s: &mut S, n: u32, i: u32) -> Result<Answer, StoreFault>
    requires { IsLive (S.state s.old) }
{
    if i >= s.geometry().max_blocks() || !is_there(s, n)? {
        return Ok(Answer::Nothing);
    }
    Ok(Answer::Number(u64::from(block_of(s, n, i)?)))
}

fn chain<S: Store>(s: &mut S, n: u32, i: u32) -> Result<Answer, StoreFault>
    requires { IsLive (S.state s.old) }
{
    if i >= s.geometry().max_blocks() || !is_there(s, n)? {
        return Ok(Answer::Nothing);
    }
    Ok(Answer::Chain(chain_of(s, n, i)?))
}

fn writable<S: Store>(s: &mut S, n: u32, i: u32) -> Result<Answer, StoreFault>
    requires { IsLive (S.state s.old) }
{
    if i >= s.geometry().max_blocks() || !is_there(s, n)? {
        return Ok(Answer::Nothing);
    }
    Ok(Answer::Number(u64::from(make_writable(s, n, i)?)))
}

fn cost<S: Store>(s: &mut S, n: u32, i: u32) -> Result<Answer, StoreFault>
    requires { IsLive (S.state s.old) }
{
    if i > s.geometry().max_blocks() || !is_there(s, n)? {
        return Ok(Answer::Nothing);
    }
    Ok(Answer::Number(u64::from(cut_cost(s, n, i)?)))
}

fn cut<S: Store>(s: &mut S, n: u32, i: u32) -> Result<Answer, StoreFault>
    requires { IsLive (S.state s.old) }
{
    if i > s.geometry().max_blocks() || !is_there(s, n)? {
        return Ok(Answer::Nothing);
    }
    cut_from(s, n, i)?;
    Ok(Answer::Done)
}

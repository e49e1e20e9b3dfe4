ghost use Rattle.edge_store.specs.State.{IsLive};
ghost use Rattle.edge_space.specs.Answers.{AreThere};
ghost use Rattle.edge_space.specs.Changes.{IsWithin};

use crate::answer::Answer;
use crate::there::is_there;
use anyhow::{Result as Told, bail};
use edge_space::{Change, fits, fresh_of};
use edge_statement::{number32, word};
use edge_store::{Store, StoreFault};

/// What a store answers to a statement on a change of a node that is not made: `fresh` and the
/// change, or `fits`, the change and a reserve. A change is `bytes NUMBER AT COUNT` or
/// `size NUMBER SIZE`.
pub fn ask_change<S: Store>(s: &mut S, words: &[&str]) -> Told<Result<Answer, StoreFault>>
    requires { IsLive (S.state s.old) }
{
    let n = number32(words, 2)?;
    let at = word(words, 3)?.parse::<u64>()?;
    Ok(match word(words, 1)? {
        "bytes" => bytes(s, n, at, number32(words, 4)?, reserve(words, 5)?),
        "size" => size(s, n, at, reserve(words, 4)?),
        change => bail!("no change: {change}"),
    })
}

// The reserve, which stands behind a change where it is asked whether that fits.
fn reserve(words: &[&str], i: usize) -> Told<Option<u32>> {
    Ok(match word(words, 0)? {
        "fits" => Some(number32(words, i)?),
        _ => None,
    })
}

fn bytes<S: Store>(
    s: &mut S,
    n: u32,
    at: u64,
    len: u32,
    reserve: Option<u32>,
) -> Result<Answer, StoreFault>
    requires { IsLive (S.state s.old) }
{
    let most = s.geometry().max_size();
    if len == 0 || at > most || u64::from(len) > most - at || !is_there(s, n)? {
        return Ok(Answer::Nothing);
    }
    ask(s, &Change::Bytes { n, at, len }, reserve)
}

fn size<S: Store>(s: &mut S, n: u32, size: u64, reserve: Option<u32>) -> Result<Answer, StoreFault>
    requires { IsLive (S.state s.old) }
{
    if size > s.geometry().max_size() || !is_there(s, n)? {
        return Ok(Answer::Nothing);
    }
    ask(s, &Change::Size { n, size }, reserve)
}

fn ask<S: Store>(s: &mut S, change: &Change, reserve: Option<u32>) -> Result<Answer, StoreFault>
    requires live { IsLive (S.state s.old) }
    requires there { AreThere (S.state s.old) change.now }
    requires within { IsWithin (S.state s.old).origin.request change.now }
{
    Ok(match reserve {
        Some(reserve) => Answer::Fits(fits(s, change, reserve)?),
        None => Answer::Number(u64::from(fresh_of(s, change)?)),
    })
}

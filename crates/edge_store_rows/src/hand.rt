ghost use Rattle.edge_store.specs.State.{IsLive};

use crate::answer::Answer;
use crate::there::{entries, is_there, may_have, may_lead, may_use, pointers};
use anyhow::{Result as Told, bail};
use edge_base::Form;
use edge_statement::{number32, word};
use edge_store::{Spot, Store, StoreFault};

/// What a store answers where its pointers are set by hand.
pub fn ask_by_hand<S: Store>(s: &mut S, words: &[&str]) -> Told<Result<Answer, StoreFault>>
    requires { IsLive (S.state s.old) }
{
    Ok(match word(words, 0)? {
        "take" => take(s, form_of(words)?, number32(words, 2)?),
        "entry" => {
            let n = number32(words, 1)?;
            set_entry(s, n, number32(words, 2)?, number32(words, 3)?)
        }
        "pointer" => {
            let at = spot_of(words)?;
            set_pointer(s, at, number32(words, 4)?, number32(words, 5)?)
        }
        "drop" => drop_one(s, spot_of(words)?),
        verb => bail!("no statement: {verb}"),
    })
}

// FORM, behind the first word.
fn form_of(words: &[&str]) -> Told<Form> {
    Ok(match word(words, 1)? {
        "data" => Form::Plain,
        "indirect" => Form::Indirect,
        "double" => Form::Double,
        other => bail!("no form: {other}"),
    })
}

// FORM NUMBER BLOCK, behind the first word.
fn spot_of(words: &[&str]) -> Told<Spot> {
    Ok(Spot {
        form: form_of(words)?,
        owner: number32(words, 2)?,
        block: number32(words, 3)?,
    })
}

fn take<S: Store>(s: &mut S, form: Form, n: u32) -> Result<Answer, StoreFault>
    requires { IsLive (S.state s.old) }
{
    if !may_have(s, n) || s.free().now == 0 {
        return Ok(Answer::Nothing);
    }
    Ok(Answer::Number(u64::from(s.take(form, n)?)))
}

fn set_entry<S: Store>(s: &mut S, n: u32, e: u32, to: u32) -> Result<Answer, StoreFault>
    requires { IsLive (S.state s.old) }
{
    if e >= entries(s) || !may_lead(s, to) || !is_there(s, n)? {
        return Ok(Answer::Nothing);
    }
    s.set_entry(n, e, to)?;
    Ok(Answer::Done)
}

fn set_pointer<S: Store>(s: &mut S, at: Spot, i: u32, to: u32) -> Result<Answer, StoreFault>
    requires { IsLive (S.state s.old) }
{
    if at.form == Form::Plain || i >= pointers(s) || !may_lead(s, to) {
        return Ok(Answer::Nothing);
    }
    if !may_have(s, at.owner) || !may_use(s, at.block) || !s.is_new(at.block)? {
        return Ok(Answer::Nothing);
    }
    s.set_pointer(at, i, to)?;
    Ok(Answer::Done)
}

fn drop_one<S: Store>(s: &mut S, at: Spot) -> Result<Answer, StoreFault>
    requires { IsLive (S.state s.old) }
{
    if !may_have(s, at.owner) || !may_use(s, at.block) {
        return Ok(Answer::Nothing);
    }
    s.drop_block(at)?;
    Ok(Answer::Done)
}

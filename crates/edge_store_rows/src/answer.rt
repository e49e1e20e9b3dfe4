use edge_store::{Free, StoreFault};
use edge_tree::Chain;
use std::alloc::AllocError;

/// What a store answers to a statement.
#[derive(Clone, Copy, Debug, PartialEq, Eq)]
pub enum Answer {
    Done,
    /// There is nothing that the statement could be asked of.
    Nothing,
    Number(u64),
    Fits(bool),
    Chain(Chain),
    Free(Free),
}

/// Appends an answer, or the damage that is told.
pub fn push_told(out: &mut String, told: Result<Answer, StoreFault>) -> Result<(), AllocError> {
    match told {
        Ok(Answer::Done) => out.push_str("done")?,
        Ok(Answer::Nothing) => out.push_str("nothing to ask")?,
        Ok(Answer::Number(number)) => write!(out, "{number}")?,
        Ok(Answer::Fits(true)) => out.push_str("fits")?,
        Ok(Answer::Fits(false)) => out.push_str("does not fit")?,
        Ok(Answer::Chain(chain)) => write!(out, "block {}, fresh {}", chain.block, chain.fresh)?,
        Ok(Answer::Free(free)) => write!(out, "{} now, {} after", free.now, free.after)?,
        Err(StoreFault::Damaged(damage)) => write!(out, "{:?} at {}", damage.kind, damage.block)?,
        Err(StoreFault::Device) => out.push_str("Device")?,
    }
    Ok(())
}

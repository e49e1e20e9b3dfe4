//! A table of cases of what stands over a store: chains, blocks made writable, cuts, bytes and what
//! changes take, over a store in memory. Each line of standard input is printed, and below it what
//! it answers. `docs/TESTING.md` has the statements.
#![tactic(auto)]

mod answer;
mod blocks;
mod bytes;
mod counted;
mod dirs;
mod exact;
mod hand;
mod row;
mod set;
mod space;
mod there;

use crate::counted::Counted;
use crate::row::answer_row;
use anyhow::{Context, Result};
use edge_plain::PlainStore;

fn main(rt: HostRuntime) -> Result<()> {
    let mut store: Option<Counted<PlainStore>> = None;
    for line in rt.lines(rt.alloc()) {
        let line = line?;
        rt.println(line.as_str())?;
        if line.is_empty() || line.starts_with('#') {
            continue;
        }
        let answer = answer_row(rt.alloc(), &mut store, line.as_str()).context("in this line")?;
        rt.print(answer.as_str())?;
    }
    Ok(())
}

//! A table of cases of single parts: the text of scripts and replies, bitmaps, check words and
//! numbers. Each line of standard input is printed, and below it what it answers.
//! `docs/TESTING.md` has the statements.
#![tactic(auto)]

mod bitmap;
mod bits;
mod cache;
mod front;
mod numbers;
mod reply;
mod row;
mod script;
mod search;
mod turns;

use crate::row::answer_row;
use anyhow::{Context, Result};

fn main(rt: HostRuntime) -> Result<()> {
    for line in rt.lines(rt.alloc()) {
        let line = line?;
        rt.println(line.as_str())?;
        if line.is_empty() || line.starts_with('#') {
            continue;
        }
        let answer = answer_row(rt.alloc(), line.as_str()).context("in this line")?;
        rt.print(answer.as_str())?;
    }
    Ok(())
}

//! A table of scripts. Each line of standard input is printed, and below it what its statement
//! answers: the replies to a script over a volume in memory, and how the run has ended.
//! `docs/TESTING.md` has the statements.
#![tactic(auto)]

mod orders;
mod plain;
mod replies;
mod row;

use crate::row::{Volume, answer_row};
use anyhow::{Context, Result};

fn main(rt: HostRuntime) -> Result<()> {
    let mut volume = Volume::new(rt.alloc());
    for line in rt.lines(rt.alloc()) {
        let line = line?;
        rt.println(line.as_str())?;
        if line.is_empty() || line.starts_with('#') {
            continue;
        }
        let answer = answer_row(&rt, &mut volume, line.as_str()).context("in this line")?;
        rt.print(answer.as_str())?;
    }
    Ok(())
}

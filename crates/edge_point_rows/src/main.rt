//! A table of cases of a store over a disk: points, cuts in the middle of them, and calls of the
//! disk. Each line of standard input is printed, and below it what it answers. `docs/TESTING.md`
//! has the statements.
#![tactic(auto)]

mod counted;
mod cuts;
mod host;
mod image;
mod nodes;
mod picks;
mod row;
mod run;
mod step;
mod view;

use crate::image::Image;
use crate::row::answer_row;
use anyhow::{Context, Result};

fn main(rt: HostRuntime) -> Result<()> {
    let mut image = Image::new(rt.alloc());
    for line in rt.lines(rt.alloc()) {
        let line = line?;
        rt.println(line.as_str())?;
        if line.is_empty() || line.starts_with('#') {
            continue;
        }
        let answer = answer_row(&rt, &mut image, line.as_str()).context("in this line")?;
        rt.print(answer.as_str())?;
    }
    Ok(())
}

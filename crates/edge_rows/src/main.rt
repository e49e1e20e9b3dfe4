//! A table of cases. Each line of standard input is printed, and below it what its statements
//! answer over a disk, a source, a sink and a clock in memory. `docs/TESTING.md` has the
//! statements.
#![tactic(auto)]

mod cuts;
mod disks;
mod host;
mod image;
mod nodes;
mod orders;
mod pieces;
mod places;
mod row;
mod streams;
mod text;

use crate::image::Image;
use crate::row::answer_row;
use anyhow::{Context, Result};

fn main(rt: HostRuntime) -> Result<()> {
    let mut image = Image::new(rt.alloc());
    for line in rt.lines(rt.alloc()) {
        let line = line?;
        rt.println(line.as_str())?;
        if line.is_empty() || line.starts_with('#') {
            continue;
        }
        let answer = answer_row(&rt, &mut image, line.as_str()).context("in this line")?;
        rt.print(answer.as_str())?;
    }
    Ok(())
}

use crate::image::Image;
use crate::run::run_over;
use crate::step::steps_of;
use anyhow::{Context, Result};
use edge_host::HostDisk;
use std::fs;
use std::fs::File;
use std::rt::Files;

/// PATH STEPS: writes the image to a file of the host, takes steps over it, and appends how that
/// ended. The image stays.
pub fn push_host_run<R: Files<File = File> + AllocGlobal>(
    rt: &R,
    out: &mut String,
    image: &Image,
    text: &str,
) -> Result<()> {
    let (path, steps) = text.split_once(' ').context("PATH STEPS")?;
    let steps = steps_of(rt.alloc(), steps)?;
    fs::write(rt, path, image.bytes.as_slice())?;
    let disk = HostDisk::open(rt, Some(path), image.block_size, None);
    let done = run_over(rt.alloc(), disk, &steps)?;
    writeln!(out, "  {:?}", done.end)?;
    Ok(())
}

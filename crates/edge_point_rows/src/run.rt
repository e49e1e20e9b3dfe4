use crate::step::{Answer, Step, take_step};
use anyhow::Result;
use edge_disk::Disk;
use edge_mount::MountFault;
use edge_point::Point;
use edge_store::{Store, StoreFault};
use std::alloc::Global;

/// How a run ended.
#[derive(Clone, Copy, Debug)]
pub enum End {
    /// The image was not mounted.
    Refused(MountFault),
    /// A step answered a fault.
    Failed(StoreFault),
    Done,
}

/// What a run leaves.
#[derive(Drop)]
pub struct Run<D> {
    pub disk: D,
    /// What the steps answered, up to the first fault.
    pub answers: Vec<Answer>,
    pub end: End,
}

/// Mounts a disk, and takes steps up to the first fault.
pub fn run_over<D: Disk + Drop>(alloc: Global, disk: D, steps: &[Step]) -> Result<Run<D>> {
    let mut answers = Vec::new(alloc);
    let mut point = match Point::mount(alloc, disk) {
        Ok(point) => point,
        Err((disk, fault)) => {
            return Ok(Run {
                disk,
                answers,
                end: End::Refused(fault),
            });
        }
    };
    let end = take_steps(&mut point, steps, &mut answers)?;
    Ok(Run {
        disk: point.end(),
        answers,
        end,
    })
}

fn take_steps<D: Disk>(
    point: &mut Point<D>,
    steps: &[Step],
    answers: &mut Vec<Answer>,
) -> Result<End> {
    for step in steps {
        if !point.is_live() {
            break;
        }
        match take_step(point, *step) {
            Ok(answer) => answers.push(answer)?,
            Err(fault) => return Ok(End::Failed(fault)),
        }
    }
    Ok(End::Done)
}

use crate::counted::CountedDisk;
use crate::image::{Image, permitted, shown};
use crate::picks::picks_of;
use crate::run::{End, Run, run_over};
use crate::step::Step;
use crate::view::view_of;
use anyhow::{Context, Result, ensure};
use edge_disk::MemoryDisk;
use std::alloc::Global;
use std::collections::BTreeSet;

// The most calls of a disk that are made to fail in turn.
const MOST_CALLS: u64 = 10_000;

/// Takes steps over an image, with each call of the disk failing in turn. It tells what views the
/// images have that a cut of the power may leave then: that of the last point, that of the point
/// which was under way, or another one.
pub fn push_cuts(alloc: Global, out: &mut String, image: &Image, steps: &[Step]) -> Result<()> {
    let judge = Judge {
        image,
        steps,
        views: views_at(alloc, image, steps)?,
    };
    let mut told = BTreeSet::new(alloc);
    for call in 0..MOST_CALLS {
        let cut = run_over(alloc, image.disk(alloc, &[call])?, steps)?;
        if matches!(cut.end, End::Done) {
            break;
        }
        judge.tell(alloc, call, &cut, &mut told)?;
    }
    for text in &told {
        writeln!(out, "  {text}")?;
    }
    Ok(())
}

// The view that is on the disk before the first step, and after each one.
fn views_at(alloc: Global, image: &Image, steps: &[Step]) -> Result<Vec<String>> {
    let mut views = Vec::new(alloc);
    for count in 0..steps.len() + 1 {
        let whole = run_over(alloc, image.disk(alloc, &[])?, &steps[..count])?;
        ensure!(matches!(whole.end, End::Done), "{:?}", whole.end);
        let bytes = shown(alloc, &whole.disk.disk)?;
        views.push(view_of(alloc, image.block_size, &bytes)?)?;
    }
    Ok(views)
}

// How the images behind a failed call are judged: by the views before and after each step.
#[derive(Drop)]
struct Judge<'a> {
    image: &'a Image,
    steps: &'a [Step],
    views: Vec<String>,
}

impl Judge<'_> {
    // Tells what views the images have that the disk permits after a run that a failed call ended.
    fn tell(
        &self,
        alloc: Global,
        call: u64,
        cut: &Run<CountedDisk<MemoryDisk>>,
        told: &mut BTreeSet<String>,
    ) -> Result<()> {
        let at = cut.answers.len();
        let is_point = matches!(self.steps.get(at), Some(Step::Points { .. }));
        let is_point = is_point && matches!(cut.end, End::Failed(_));
        let last = self.views.as_slice().get(at).context("no view")?;
        let next = self.views.as_slice().get(at.saturating_add(1));
        for pick in &picks_of(alloc, &cut.disk.disk)? {
            let bytes = permitted(alloc, &cut.disk.disk, pick)?;
            let view = view_of(alloc, self.image.block_size, &bytes)?;
            let place = if is_point { "in a point" } else { "elsewhere" };
            let text = if view == *last {
                format!(in alloc; "{place}: the last point")?
            } else if is_point && next == Some(&view) {
                format!(in alloc; "{place}: the point under way")?
            } else {
                format!(in alloc; "call {call}, {:?}: another view\n{view}", cut.end)?
            };
            told.insert(text)?;
        }
        Ok(())
    }
}

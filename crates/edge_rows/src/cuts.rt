use crate::image::Image;
use crate::orders::{order, permitted, push_fault};
use crate::row::Row;
use anyhow::{Context, Result};
use edge_disk::{Disk, MemoryDisk};
use edge_statement::push_escaped;
use std::alloc::Global;
use std::collections::BTreeMap;

/// The most images that are judged after one call.
const MOST: u32 = 64;

/// The place of the byte that is another one in a torn block.
const TORN: usize = 100;

/// Calls `edge` with words over an image, with each device call failing in turn. Behind each it
/// tells which blocks have several candidates, and what the images answer that a cut of the power
/// may leave.
pub fn push_cuts(
    alloc: Global,
    out: &mut String,
    row: &Row,
    words: &[&str],
    image: &Image,
) -> Result<()> {
    let whole = order(alloc, row, words, &image.bytes, &[])?;
    let new = shown(alloc, &whole.disk)?;
    let judge = Judge {
        block_size: whole.disk.block_size(),
        old: &image.bytes,
        new: &new,
    };
    for call in 0..whole.disk.calls() {
        let answer = order(alloc, row, words, &image.bytes, &[call])?;
        let status = answer.report.status;
        let calls = answer.disk.calls();
        write!(out, "  call {call} fails: status {status}, calls {calls}")?;
        push_candidates(out, &answer.disk)?;
        for (text, count) in &judge.answers(alloc, &answer.disk)? {
            writeln!(out, "    {count} x {text}")?;
        }
    }
    Ok(())
}

/// What reads of a disk give.
pub fn shown(alloc: Global, disk: &MemoryDisk) -> Result<Vec<u8>> {
    let pick = vec![in alloc; 0u32; disk.blocks() as usize]?;
    permitted(alloc, disk, &pick)?.context("no candidate")
}

// Appends which blocks have several candidates, and how many.
fn push_candidates(out: &mut String, disk: &MemoryDisk) -> Result<()> {
    for b in 0..disk.blocks() {
        let count = disk.loose(b);
        if count > 1 {
            write!(out, ", block {b} has {count}")?;
        }
    }
    out.push('\n')?;
    Ok(())
}

// How images are judged: by their answer to `stat /`, and whether they are the image as it was
// before or as it is made.
#[derive(Clone, Copy)]
struct Judge<'a> {
    block_size: u32,
    old: &'a [u8],
    new: &'a [u8],
}

impl Judge<'_> {
    // How many of the images that the disk permits have each answer.
    fn answers(&self, alloc: Global, disk: &MemoryDisk) -> Result<BTreeMap<String, u32>> {
        let mut answers = BTreeMap::new(alloc);
        let mut pick = vec![in alloc; 0u32; disk.blocks() as usize]?;
        for _ in 0..MOST {
            let image = permitted(alloc, disk, &pick)?.context("no candidate")?;
            count(&mut answers, self.answer(alloc, &image)?)?;
            self.count_torn(alloc, disk, image, &mut answers)?;
            if !next_pick(&mut pick, disk) {
                break;
            }
        }
        Ok(answers)
    }

    // Counts the answers of this image with a torn block, for each that has several candidates.
    fn count_torn(
        &self,
        alloc: Global,
        disk: &MemoryDisk,
        mut image: Vec<u8>,
        answers: &mut BTreeMap<String, u32>,
    ) -> Result<()> {
        for b in 0..disk.blocks() {
            let at = b as usize * self.block_size as usize + TORN;
            if disk.loose(b) > 1 && at < image.len() {
                image[at] ^= 1;
                let answer = self.answer(alloc, &image)?;
                count(answers, format!(in alloc; "torn: {answer}")?)?;
                image[at] ^= 1;
            }
        }
        Ok(())
    }

    // What an image answers.
    fn answer(&self, alloc: Global, image: &[u8]) -> Result<String> {
        let size = format!(in alloc; "{}", self.block_size)?;
        let row = Row::of_script(alloc, "stat /\n")?;
        let answer = order(alloc, &row, &["run", "I", "-b", size.as_str()], image, &[])?;
        let mut text = String::new(alloc);
        if image == self.old {
            text.push_str("old image: ")?;
        } else if image == self.new {
            text.push_str("new image: ")?;
        }
        push_fault(&mut text, &answer.report)?;
        push_escaped(&mut text, answer.sink.taken())?;
        Ok(text)
    }
}

// Counts an answer.
fn count(answers: &mut BTreeMap<String, u32>, answer: String) -> Result<()> {
    let number = answers.entry(answer)?.or_insert(0);
    *number = number.saturating_add(1);
    Ok(())
}

// Goes on to the next choice of a candidate in each block, and answers whether there is one.
fn next_pick(pick: &mut [u32], disk: &MemoryDisk) -> bool {
    for (b, chosen) in pick.iter_mut().enumerate() {
        let next = chosen.saturating_add(1);
        if b < disk.blocks() as usize && next < disk.loose(b as u32) {
            *chosen = next;
            return true;
        }
        *chosen = 0;
    }
    false
}

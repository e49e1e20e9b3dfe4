use anyhow::{Context, Result};
use edge_nodes::seal;
use std::alloc::Global;
use std::ops::Range;

/// The bytes of an image that calls are made over, and the size by which its blocks are counted.
#[derive(Drop)]
pub struct Image {
    pub bytes: Vec<u8>,
    pub block_size: usize,
    kept: Vec<u8>,
}

impl Image {
    /// An image of no bytes.
    pub fn new(alloc: Global) -> Image {
        Image {
            bytes: Vec::new(alloc),
            block_size: 512,
            kept: Vec::new(alloc),
        }
    }

    /// Makes the image of these bytes.
    pub fn set(&mut self, bytes: Vec<u8>, block_size: usize) {
        self.bytes = bytes;
        self.block_size = block_size;
    }

    /// Keeps the bytes that there are now.
    pub fn keep(&mut self) -> Result<()> {
        self.kept = self.bytes.clone()?;
        Ok(())
    }

    /// Makes the image of the bytes that were kept.
    pub fn back(&mut self) -> Result<()> {
        self.bytes = self.kept.clone()?;
        Ok(())
    }

    // The places of so many bytes in a block.
    fn range(&self, block: usize, at: usize, count: usize) -> Option<Range<usize>> {
        let start = block.checked_mul(self.block_size)?.checked_add(at)?;
        let end = start.checked_add(count)?;
        Some(start..end)
    }

    /// The bytes of a block.
    pub fn block(&self, block: usize) -> Result<&[u8]> {
        self.range(block, 0, self.block_size)
            .and_then(|range| self.bytes.as_slice().get(range))
            .context("no such block")
    }

    fn part_mut(&mut self, block: usize, at: usize, count: usize) -> Result<&mut [u8]> {
        let range = self.range(block, at, count).context("no such place")?;
        self.bytes
            .as_mut_slice()
            .get_mut(range)
            .context("no such place")
    }

    /// Puts bytes into a block.
    pub fn put(&mut self, block: usize, at: usize, bytes: &[u8]) -> Result<()> {
        let part = self.part_mut(block, at, bytes.len())?;
        if part.len() == bytes.len() {
            part.copy_from_slice(bytes);
        }
        Ok(())
    }

    /// Puts the check word into a block.
    pub fn seal(&mut self, block: usize) -> Result<()> {
        let size = self.block_size;
        let part = self.part_mut(block, 0, size)?;
        if part.len() >= 8 {
            seal(part);
        }
        Ok(())
    }

    /// Fills a block with a byte.
    pub fn fill(&mut self, block: usize, byte: u8) -> Result<()> {
        let size = self.block_size;
        self.part_mut(block, 0, size)?.fill(byte);
        Ok(())
    }

    /// Puts the bytes of a block into another one.
    pub fn copy(&mut self, alloc: Global, from: usize, to: usize) -> Result<()> {
        let bytes = self.block(from)?.to_vec(alloc)?;
        self.put(to, 0, &bytes)
    }
}

ghost use Rattle.std.specs.Prelude.{◌≡◌, IfOk, IsTrue};
ghost use Rattle.edge_base.specs.layout.Sizes.{is_block_size};
ghost use Rattle.edge_disk.specs.Memory.{origin_of};

use crate::counted::{Calls, CountedDisk};
use anyhow::{Context, Result, bail, ensure};
use edge_base::{Geometry, Request};
use edge_disk::{Disk, MemoryDisk};
use edge_format::format;
use std::alloc::Global;

// How many further candidates a disk remembers.
const ROOM: u32 = 400;

/// The bytes of an image, and the size of its blocks.
#[derive(Drop)]
pub struct Image {
    pub bytes: Vec<u8>,
    pub block_size: u32,
    ghost known_size: { IsTrue (is_block_size block_size) },
}

impl Image {
    /// An image of no bytes.
    pub fn new(alloc: Global) -> Image {
        Image {
            bytes: Vec::new(alloc),
            block_size: 512,
        }
    }

    /// A fresh volume.
    pub fn formatted(alloc: Global, request: Request) -> Result<Image> {
        let geometry = match Geometry::checked(request) {
            Ok(geometry) => geometry,
            Err(limit) => bail!("no geometry: {limit:?}"),
        };
        let request = geometry.request();
        let block_size = request.block_size;
        ensure!(request.blocks < 200_000, "a great volume");
        let size = block_size as usize;
        let bytes = vec![in alloc; 0u8; size * request.blocks as usize]?;
        let mut disk = MemoryDisk::new(alloc, block_size, &bytes, ROOM, &[])?;
        ensure!(disk.blocks() >= request.blocks, "a short disk");
        let mut buffer = vec![in alloc; 0u8; size]?;
        if format(&mut disk, geometry, 0, &mut buffer).is_err() {
            bail!("no format");
        }
        Ok(Image {
            bytes: shown(alloc, &disk)?,
            block_size,
        })
    }

    /// The bytes of a block.
    pub fn block_mut(&mut self, block: u32) -> Result<&mut [u8]> {
        let size = self.block_size as usize;
        let start = size.checked_mul(block as usize).context("no such block")?;
        let end = start.checked_add(size).context("no such block")?;
        self.bytes
            .as_mut_slice()
            .get_mut(start..end)
            .context("no such block")
    }

    /// A disk of the image, of which these calls fail.
    pub fn disk(&self, alloc: Global, fails: &[u64]) -> Result<CountedDisk<MemoryDisk>> {
        disk_of(alloc, self.block_size, &self.bytes, ROOM, fails)
    }
}

/// A disk of the bytes of an image with room for so many further candidates, of which these calls
/// fail.
pub fn disk_of(
    alloc: Global,
    block_size: u32,
    bytes: &[u8],
    room: u32,
    fails: &[u64],
) -> Result<CountedDisk<MemoryDisk>>
    requires { IsTrue (is_block_size block_size) }
{
    ensure!(bytes.len() < 1 << 31, "a great image");
    ensure!(room <= ROOM, "much room");
    Ok(CountedDisk {
        disk: MemoryDisk::new(alloc, block_size, bytes, room, fails)?,
        calls: Calls::NONE,
    })
}

/// What reads of a disk give.
pub fn shown(alloc: Global, disk: &MemoryDisk) -> Result<Vec<u8>> {
    let pick = vec![in alloc; 0u32; disk.blocks() as usize]?;
    permitted(alloc, disk, &pick)
}

/// The image in which each block holds the candidate of its number.
pub fn permitted(alloc: Global, disk: &MemoryDisk, pick: &[u32]) -> Result<Vec<u8>> {
    ensure!(pick.len() == disk.blocks() as usize, "no pick");
    for b in 0..pick.len() {
        ensure!(pick[b] < disk.loose(b as u32), "no candidate");
    }
    Ok(disk.permitted(alloc, pick)?)
}

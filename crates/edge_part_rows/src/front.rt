ghost use Rattle.std.specs.Prelude.{◌≡◌, ◌<◌, ◌^◌, IsTrue};
ghost use Rattle.edge_base.specs.layout.Sizes.{is_block_size};

use edge_disk::{DeviceFault, Disk};
use std::alloc::{AllocError, Global};

// Bytes of a block.
const BLOCK: usize = 512;

/// A disk of which the first blocks alone are kept: the others read as zeros, and what is written
/// there is lost. So a search through the bitmap of a great volume needs no memory for its data.
#[derive(Drop)]
pub struct FrontDisk {
    blocks: u32,
    front: Vec<u8>,
    reads: u64,
    writes: u64,
    ghost few: { blocks < 2 ^ 32 },
    ghost known_size: { IsTrue (is_block_size 512) },
}

impl FrontDisk {
    ghost use Rattle.std.specs.Prelude.{IfOk};
    ghost use Rattle.edge_part_rows.specs.Front.{origin_of};

    /// So many blocks, of which the first `kept` are kept, all zeros.
    pub fn new(alloc: Global, blocks: u32, kept: u32) -> Result<FrontDisk, AllocError>
        ensures blocks { IfOk result (λ d. (origin_of d).blocks ≡ blocks) }
        ensures size { IfOk result (λ d. (origin_of d).block_size ≡ 512) }
    {
        Ok(FrontDisk {
            blocks,
            front: vec![in alloc; 0u8; BLOCK * kept as usize]?,
            reads: 0,
            writes: 0,
        })
    }

    /// The reads and the writes so far.
    pub fn calls(&self) -> (u64, u64) {
        (self.reads, self.writes)
    }
}

impl Disk for FrontDisk {
    ghost use Rattle.std.specs.Prelude.{[]};
    ghost use Rattle.edge_part_rows.specs.Front.{origin_of};

    ghost origin = { origin_of };

    ghost shown = { λ _ _. [] };

    ghost may_hold = { λ _ _ _. ⊥ };

    ghost is_sure = { λ _ _. ⊥ };

    ghost faults = { λ _. 0 };

    ghost few_blocks = { λ d. d.few };

    ghost known_size = { λ d. d.known_size };

    ghost whole_blocks = { λ d b shows. Prim.cc shows };

    ghost whole_candidates = { λ d b c inside may. absurd may };

    ghost shown_bytes = { λ d b shows. Prim.cc shows };

    ghost candidate_bytes = { λ d b c inside may. absurd may };

    ghost shown_is_kept = { λ d b keeps. Prim.cc keeps };

    ghost sure_is_shown = { λ d b c sure may. absurd sure };

    fn blocks(&self) -> u32 {
        self.blocks
    }

    fn block_size(&self) -> u32 {
        BLOCK as u32
    }

    fn read(&mut self, b: u32, out: &mut [u8]) -> Result<(), DeviceFault> {
        self.reads = self.reads.saturating_add(1);
        let start = b as usize * BLOCK;
        if start + BLOCK <= self.front.len() {
            out.copy_from_slice(&self.front[start..start + BLOCK]);
        } else {
            out.fill(0);
        }
        Ok(())
    }

    fn write(&mut self, b: u32, bytes: &[u8]) -> Result<(), DeviceFault> {
        self.writes = self.writes.saturating_add(1);
        let start = b as usize * BLOCK;
        if start + BLOCK <= self.front.len() {
            self.front[start..start + BLOCK].copy_from_slice(bytes);
        }
        Ok(())
    }

    fn flush(&mut self) -> Result<(), DeviceFault> {
        Ok(())
    }
}

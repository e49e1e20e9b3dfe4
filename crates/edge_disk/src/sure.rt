ghost use Rattle.std.specs.Prelude.{◌≡◌, ◌<◌, ◌^◌, length, IsTrue};
ghost use Rattle.edge_base.specs.layout.Sizes.{is_block_size};
ghost use Rattle.edge_disk.specs.Slots.{AllBlocksHave};

use crate::disk::{DeviceFault, Disk};
use crate::make::split;
use crate::slot::set_block;
use std::alloc::{AllocError, Global};

/// A disk in memory of which no call fails.
///
/// It tells the bytes that reads give, and no candidates. All memory is taken when it is made.
#[derive(Drop)]
pub struct SureDisk {
    block_size: u32,
    image: Vec<Vec<u8>>,
    ghost known_size: { IsTrue (is_block_size block_size) },
    ghost few_blocks: { length image.items < 2 ^ 32 },
    ghost whole_blocks: { AllBlocksHave block_size image.items },
}

impl Disk for SureDisk {
    ghost use Rattle.std.specs.Prelude.{◌≢◌, ℕ, OnOk, Ok};
    ghost use Rattle.std.proofs.lemmas.Bool.{false≢true};
    ghost use Rattle.edge_base.specs.outside.Below.{SameBelow};
    ghost use Rattle.edge_base.specs.outside.Faults.{HasCause};
    ghost use Rattle.edge_disk.specs.Disk.{ShownAfterWrite, MayAfterWrite, SureAfterWrite, MayAfterFlush, SureAfterFlush};
    ghost use Rattle.edge_disk.specs.Sure.{origin_of, shown_of, may_hold_of, is_sure_of, faults_of};
    ghost use Rattle.edge_disk.specs.CandidateLaws.{block_bytes};

    ghost origin = { origin_of };

    ghost shown = { shown_of };

    ghost may_hold = { may_hold_of };

    ghost is_sure = { is_sure_of };

    ghost faults = { faults_of };

    fn blocks(&self) -> u32 {
        self.image.len() as u32
    }

    fn block_size(&self) -> u32 {
        self.block_size
    }

    fn read(&mut self, b: u32, out: &mut [u8]) -> Result<(), DeviceFault>
        requires in_range { b < (origin_of self.old).blocks }
        requires whole { length out.old ≡ (origin_of self.old).block_size }
        ensures origin { origin_of self.new ≡ origin_of self.old }
        ensures cause { HasCause (faults_of self.old) (faults_of self.new) result }
        ensures bytes { IsTrue (origin_of self.old).shows
            → OnOk result (out.new ≡ shown_of self.old b) }
        ensures shown { shown_of self.new ≡ shown_of self.old }
        ensures candidates { SameBelow (may_hold_of self.old) (may_hold_of self.new)
            (is_sure_of self.old) (is_sure_of self.new) }

        // Beyond the trait's clauses.
        ensures never_fails { result ≡ Ok tt }
        ensures exact { out.new ≡ shown_of self.old b }
        ensures same { self.new ≡ self.old }
    {
        out.copy_from_slice(&self.image[b as usize]);
        Ok(())
    }

    fn write(&mut self, b: u32, bytes: &[u8]) -> Result<(), DeviceFault>
        requires in_range { b < (origin_of self.old).blocks }
        requires whole { length bytes.now ≡ (origin_of self.old).block_size }
        ensures origin { origin_of self.new ≡ origin_of self.old }
        ensures cause { HasCause (faults_of self.old) (faults_of self.new) result }
        ensures shown { ShownAfterWrite (origin_of self.old) b bytes.now result (shown_of self.old)
            (shown_of self.new) }
        ensures candidates { MayAfterWrite (origin_of self.old) b bytes.now result
            (faults_of self.old) (may_hold_of self.old) (may_hold_of self.new) }
        ensures sure { SureAfterWrite b result (faults_of self.old) (is_sure_of self.old)
            (is_sure_of self.new) }

        // Beyond the trait's clauses.
        ensures never_fails { result ≡ Ok tt }
        ensures here { shown_of self.new b ≡ bytes.now }
        ensures others { (k : ℕ) → k ≢ b → shown_of self.new k ≡ shown_of self.old k }
    {
        set_block(&mut self.image, b as usize, bytes);
        Ok(())
    }

    fn flush(&mut self) -> Result<(), DeviceFault>
        ensures origin { origin_of self.new ≡ origin_of self.old }
        ensures cause { HasCause (faults_of self.old) (faults_of self.new) result }
        ensures shown { shown_of self.new ≡ shown_of self.old }
        ensures candidates { MayAfterFlush result (faults_of self.old) (may_hold_of self.old)
            (may_hold_of self.new) }
        ensures sure { SureAfterFlush (origin_of self.old) result (faults_of self.old)
            (is_sure_of self.old) (is_sure_of self.new) }

        // Beyond the trait's clauses.
        ensures never_fails { result ≡ Ok tt }
        ensures same { self.new ≡ self.old }
    {
        Ok(())
    }

    ghost few_blocks = { λ d. d.few_blocks };

    ghost known_size = { λ d. d.known_size };

    ghost whole_blocks = { λ d b shows in_range. (block_bytes _ _ b in_range d.whole_blocks).0 };

    ghost whole_candidates = { λ d b c in_range may. absurd may };

    ghost shown_bytes = { λ d b shows in_range. (block_bytes _ _ b in_range d.whole_blocks).1 };

    ghost candidate_bytes = { λ d b c in_range may. absurd may };

    ghost shown_is_kept = { λ d b keeps. absurd (false≢true keeps) };

    ghost sure_is_shown = { λ d b c sure may. absurd sure };
}

impl SureDisk {
    ghost use Rattle.std.specs.Prelude.{◌/◌, ◌+◌, ◌*◌, ℕ, [], slice_range, true, false, IfOk};
    ghost use Rattle.edge_disk.specs.Sure.{origin_of, shown_of};

    /// A disk of the whole blocks of an image. A rest that is no whole block is not part of it.
    ///
    /// `block_size` is in bytes: 512, 1024, 2048 or 4096.
    pub fn new(alloc: Global, block_size: u32, image: &[u8]) -> Result<SureDisk, AllocError>
        requires size { IsTrue (is_block_size block_size) }
        requires few_blocks { length image.now / block_size < 2 ^ 32 }
        ensures origin { IfOk result (λ d. origin_of d ≡ record {
          blocks = length image.now / block_size;
          block_size = block_size;
          shows = true;
          keeps = false;
          others = [];
        }) }
        ensures shown { IfOk result (λ d. (k : ℕ) → k < length image.now / block_size →
            shown_of d k ≡ slice_range image.now (k * block_size) (k * block_size + block_size)) }
    {
        let size = block_size as usize;
        let blocks = split(alloc, image, size, image.len() / size)?;
        Ok(SureDisk {
            block_size,
            image: blocks,
        })
    }
}

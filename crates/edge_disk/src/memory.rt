ghost use Rattle.std.specs.Prelude.{◌≡◌, ◌<◌, ◌≤◌, ◌+◌, ◌-◌, ◌^◌, ◌↔◌, min, length, IsTrue, Contains};
ghost use Rattle.edge_base.specs.layout.Sizes.{is_block_size};
ghost use Rattle.edge_disk.specs.Slots.{AllBlocksHave, AllSlotsHave};

use crate::disk::{DeviceFault, Disk};
use crate::make::{empty_slots, split};
use crate::slot::{Slot, count_of, nth_of, remember, set_block};
use std::alloc::{AllocError, Global};

/// A disk in memory, which fails where it was told to, and where it has no room left.
///
/// Its calls of `read`, `write` and `flush` are numbered from 0, and those fail whose numbers it
/// was made with. Each write leaves one candidate more, in the room that the disk was made with,
/// until a flush on a disk that has had no fault: a write that finds no room fails too. All memory
/// is taken when it is made.
#[derive(Drop)]
pub struct MemoryDisk {
    block_size: u32,
    image: Vec<Vec<u8>>,
    // The candidates beyond the shown bytes, in the first `used` slots.
    slots: Vec<Slot>,
    used: usize,
    fails: Vec<u64>,
    calls: u64,
    faults: u64,
    ghost known_size: { IsTrue (is_block_size block_size) },
    ghost few_blocks: { length image.items < 2 ^ 32 },
    ghost whole_blocks: { AllBlocksHave block_size image.items },
    // So the candidates of a block are fewer than 2 ^ 32.
    ghost few_slots: { length slots.items < 2 ^ 32 - 1 },
    ghost whole_slots: { AllSlotsHave block_size slots.items },
    ghost in_room: { used ≤ length slots.items },
}

/// Counts a call, and says whether it is one of those that are to fail.
fn is_to_fail(calls: &mut u64, fails: &[u64]) -> bool
    ensures listed { IsTrue result ↔ Contains fails.now calls.old }
    ensures number { calls.new ≡ min (calls.old + 1) (2 ^ 64 - 1) }
{
    let number = *calls;
    *calls = number.saturating_add(1);
    fails.contains(&number)
}

/// Counts a fault.
fn fault(faults: &mut u64) -> DeviceFault
    ensures count { faults.new ≡ min (faults.old + 1) (2 ^ 64 - 1) }
    ensures later { faults.old ≤ faults.new }
{
    *faults = faults.saturating_add(1);
    DeviceFault
}

impl Disk for MemoryDisk {
    ghost use Rattle.std.specs.Prelude.{◌⊎◌, OnOk, OnErr, IsErr};
    ghost use Rattle.edge_base.specs.outside.Below.{SameBelow};
    ghost use Rattle.edge_base.specs.outside.Faults.{HasCause};
    ghost use Rattle.edge_disk.specs.Disk.{ShownAfterWrite, MayAfterWrite, SureAfterWrite, MayAfterFlush, SureAfterFlush};
    ghost use Rattle.edge_disk.specs.Memory.{origin_of, shown_of, may_hold_of, is_sure_of, faults_of, calls_of, IsListed, IsFull, SameExtra, ExtraAfterWrite, ExtraAfterFlush};
    ghost use Rattle.edge_disk.specs.CandidateLaws.{block_bytes, candidate_bytes, shown_is_candidate, only_shown};

    ghost origin = { origin_of };

    ghost shown = { shown_of };

    ghost may_hold = { may_hold_of };

    ghost is_sure = { is_sure_of };

    ghost faults = { faults_of };

    fn blocks(&self) -> u32 {
        self.image.len() as u32
    }

    fn block_size(&self) -> u32 {
        self.block_size
    }

    fn read(&mut self, b: u32, out: &mut [u8]) -> Result<(), DeviceFault>
        requires in_range { b < (origin_of self.old).blocks }
        requires whole { length out.old ≡ (origin_of self.old).block_size }
        ensures origin { origin_of self.new ≡ origin_of self.old }
        ensures cause { HasCause (faults_of self.old) (faults_of self.new) result }
        ensures bytes { IsTrue (origin_of self.old).shows
            → OnOk result (out.new ≡ shown_of self.old b) }
        ensures shown { shown_of self.new ≡ shown_of self.old }
        ensures candidates { SameBelow (may_hold_of self.old) (may_hold_of self.new)
            (is_sure_of self.old) (is_sure_of self.new) }

        // Beyond the trait's clauses.
        ensures fails { IsErr result ↔ IsListed self.old }
        ensures calls { calls_of self.new ≡ min (calls_of self.old + 1) (2 ^ 64 - 1) }
        ensures extra { SameExtra self.old self.new }
        ensures untouched { OnErr result (out.new ≡ out.old) }
    {
        if is_to_fail(&mut self.calls, &self.fails) {
            return Err(fault(&mut self.faults));
        }
        out.copy_from_slice(&self.image[b as usize]);
        Ok(())
    }

    /// The bytes of each write are remembered, also where it fails because it was to.
    fn write(&mut self, b: u32, bytes: &[u8]) -> Result<(), DeviceFault>
        requires in_range { b < (origin_of self.old).blocks }
        requires whole { length bytes.now ≡ (origin_of self.old).block_size }
        ensures origin { origin_of self.new ≡ origin_of self.old }
        ensures cause { HasCause (faults_of self.old) (faults_of self.new) result }
        ensures shown { ShownAfterWrite (origin_of self.old) b bytes.now result (shown_of self.old)
            (shown_of self.new) }
        ensures candidates { MayAfterWrite (origin_of self.old) b bytes.now result
            (faults_of self.old) (may_hold_of self.old) (may_hold_of self.new) }
        ensures sure { SureAfterWrite b result (faults_of self.old) (is_sure_of self.old)
            (is_sure_of self.new) }

        // Beyond the trait's clauses.
        ensures fails { IsErr result ↔ (IsListed self.old ⊎ IsFull self.old) }
        ensures calls { calls_of self.new ≡ min (calls_of self.old + 1) (2 ^ 64 - 1) }
        ensures still_shown { OnErr result (shown_of self.new ≡ shown_of self.old) }
        ensures extra { ExtraAfterWrite b bytes.now result self.old self.new }
    {
        let fails = is_to_fail(&mut self.calls, &self.fails);
        if self.used == self.slots.len() {
            return Err(fault(&mut self.faults));
        }
        if fails {
            remember(&mut self.slots, self.used, b, bytes);
            self.used += 1;
            return Err(fault(&mut self.faults));
        }
        remember(&mut self.slots, self.used, b, &self.image[b as usize]);
        self.used += 1;
        set_block(&mut self.image, b as usize, bytes);
        Ok(())
    }

    fn flush(&mut self) -> Result<(), DeviceFault>
        ensures origin { origin_of self.new ≡ origin_of self.old }
        ensures cause { HasCause (faults_of self.old) (faults_of self.new) result }
        ensures shown { shown_of self.new ≡ shown_of self.old }
        ensures candidates { MayAfterFlush result (faults_of self.old) (may_hold_of self.old)
            (may_hold_of self.new) }
        ensures sure { SureAfterFlush (origin_of self.old) result (faults_of self.old)
            (is_sure_of self.old) (is_sure_of self.new) }

        // Beyond the trait's clauses.
        ensures fails { IsErr result ↔ IsListed self.old }
        ensures calls { calls_of self.new ≡ min (calls_of self.old + 1) (2 ^ 64 - 1) }
        ensures extra { ExtraAfterFlush result self.old self.new }
    {
        if is_to_fail(&mut self.calls, &self.fails) {
            return Err(fault(&mut self.faults));
        }
        if self.faults == 0 {
            self.used = 0;
        }
        Ok(())
    }

    ghost few_blocks = { λ d. d.few_blocks };

    ghost known_size = { λ d. d.known_size };

    ghost whole_blocks = { λ d b shows in_range. (block_bytes _ _ b in_range d.whole_blocks).0 };

    ghost whole_candidates = { λ d b c in_range may.
        (candidate_bytes _ _ _ _ b c in_range d.whole_blocks d.whole_slots may).0 };

    ghost shown_bytes = { λ d b shows in_range. (block_bytes _ _ b in_range d.whole_blocks).1 };

    ghost candidate_bytes = { λ d b c in_range may.
        (candidate_bytes _ _ _ _ b c in_range d.whole_blocks d.whole_slots may).1 };

    ghost shown_is_kept = { λ d b keeps. shown_is_candidate _ _ };

    ghost sure_is_shown = { λ d b c sure may. only_shown _ _ c sure may };
}

impl MemoryDisk {
    ghost use Rattle.std.specs.Prelude.{◌/◌, ◌*◌, [], ◌∷◌, ℕ, slice_index, slice_index_or, slice_range, true, IfOk};
    ghost use Rattle.edge_disk.specs.Image.{image_in, IsPermitted, IsPlain};
    ghost use Rattle.edge_disk.specs.Memory.{origin_of, shown_of, candidates_of, may_hold_of, is_sure_of, faults_of, fails_of, calls_of, room_of, used_of, picked_of};

    /// A disk of the whole blocks of an image, with one candidate each. The calls whose numbers are
    /// in `fails` will fail. Besides one candidate for each block there is room for `room` more.
    pub fn new(
        alloc: Global,
        block_size: u32,
        image: &[u8],
        room: u32,
        fails: &[u64],
    ) -> Result<MemoryDisk, AllocError>
        requires size { IsTrue (is_block_size block_size) }
        requires few_blocks { length image.now / block_size < 2 ^ 32 }
        requires few_slots { room < 4294967295 }
        ensures origin { IfOk result (λ d. origin_of d ≡ record {
          blocks = length image.now / block_size;
          block_size = block_size;
          shows = true;
          keeps = true;
          others = room ∷ fails.now;
        }) }
        ensures shown { IfOk result (λ d. (k : ℕ) → k < length image.now / block_size →
            shown_of d k ≡ slice_range image.now (k * block_size) (k * block_size + block_size)) }
        ensures sure { IfOk result (λ d. (k : ℕ) → is_sure_of d k) }
        ensures no_fault { IfOk result (λ d. faults_of d ≡ 0) }
        ensures no_call { IfOk result (λ d. calls_of d ≡ 0) }
        ensures fails { IfOk result (λ d. fails_of d ≡ fails.now) }
        ensures room { IfOk result (λ d. room_of d ≡ room) }
        ensures used { IfOk result (λ d. used_of d ≡ 0) }
    {
        let size = block_size as usize;
        let blocks = split(alloc, image, size, image.len() / size)?;
        let slots = empty_slots(alloc, size, room as usize)?;
        let fails = fails.to_vec(alloc)?;
        Ok(MemoryDisk {
            block_size,
            image: blocks,
            slots,
            used: 0,
            fails,
            calls: 0,
            faults: 0,
        })
    }

    /// How many calls of `read`, `write` and `flush` there have been. It stays at 2^64 - 1 once it
    /// is there.
    pub fn calls(&self) -> u64
        ensures { result ≡ calls_of self.now }
    {
        self.calls
    }

    /// The number of candidates of block `b`, 1 at least.
    pub fn loose(&self, b: u32) -> u32
        requires in_range { b < (origin_of self.now).blocks }
        ensures { result ≡ length (candidates_of self.now b) }
    {
        1 + count_of(&self.slots[..self.used], b) as u32
    }

    // Candidate `pick` of block `b`: the shown bytes are candidate 0, and then come the further
    // ones as they joined.
    fn candidate(&self, b: u32, pick: u32) -> &[u8]
        requires in_range { b < (origin_of self.now).blocks }
        ensures { result.now ≡ slice_index_or (candidates_of self.now b) pick [] }
    {
        if pick == 0 {
            return &self.image[b as usize];
        }
        match nth_of(&self.slots[..self.used], b, pick as usize - 1) {
            Some(slot) => &slot.bytes,
            None => &[],
        }
    }

    /// The image in which block `b` holds the candidate whose number is `pick[b]`, below
    /// `loose(b)`.
    ///
    /// Candidate 0 is what reads give, and then come the further ones in the order in which they
    /// joined: the bytes that a write replaced, or those of a write that failed. The blocks stand
    /// end to end.
    pub fn permitted(&self, alloc: Global, pick: &[u32]) -> Result<Vec<u8>, AllocError>
        requires one_each { length pick.now ≡ (origin_of self.now).blocks }
        requires there { (b : ℕ) → b < (origin_of self.now).blocks
            → slice_index pick.now b < length (candidates_of self.now b) }
        ensures length { let origin = origin_of self.now in
            IfOk result (λ bytes. length bytes.items ≡ origin.blocks * origin.block_size) }
        ensures picked { let origin = origin_of self.now in
            IfOk result (λ bytes. (b : ℕ) → b < origin.blocks
            → (image_in origin.block_size bytes.items).block b ≡ picked_of self.now pick.now b) }
        ensures permitted { let origin = origin_of self.now in
            IfOk result (λ bytes. IsPermitted origin (may_hold_of self.now) (is_sure_of self.now)
            (image_in origin.block_size bytes.items)) }
        ensures plain { let origin = origin_of self.now in
            IfOk result (λ bytes. IsPlain origin (may_hold_of self.now)
            (image_in origin.block_size bytes.items)) }
    {
        let mut bytes = Vec::new(alloc);
        for b in 0..pick.len() {
            bytes.extend_from_slice(self.candidate(b as u32, pick[b]))?;
        }
        Ok(bytes)
    }
}

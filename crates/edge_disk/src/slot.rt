ghost use Rattle.std.specs.Prelude.{◌≡◌, ◌≢◌, ◌<◌, ◌≤◌, ◌==◌, ℕ, length, filter, slice_get, option_map};
ghost use Rattle.edge_disk.specs.Slots.{block_in, remembered, AllBlocksHave, AllSlotsHave, Remembers};

/// A candidate that was remembered for a block.
#[derive(Drop)]
pub struct Slot {
    pub block: u32,
    pub bytes: Vec<u8>,
}

/// Writes block `b`.
#[tactic(auto, using(crate::proofs::BlockLemmas::blocks_set))]
pub fn set_block(image: &mut Vec<Vec<u8>>, b: usize, bytes: &[u8])
    requires in_range { b < length image.old.items }
    requires whole { AllBlocksHave (length bytes.now) image.old.items }
    ensures length { length image.new.items ≡ length image.old.items }
    ensures whole { AllBlocksHave (length bytes.now) image.new.items }
    ensures here { block_in image.new.items b ≡ bytes.now }
    ensures others { (k : ℕ) → k ≢ b → block_in image.new.items k ≡ block_in image.old.items k }
{
    image[b].copy_from_slice(bytes);
}

/// Writes a candidate of `block` into the first slot that is not in use.
pub fn remember(slots: &mut Vec<Slot>, used: usize, block: u32, bytes: &[u8])
    requires in_range { used < length slots.old.items }
    requires whole { AllSlotsHave (length bytes.now) slots.old.items }
    ensures length { length slots.new.items ≡ length slots.old.items }
    ensures whole { AllSlotsHave (length bytes.now) slots.new.items }
    ensures remembers { Remembers block bytes.now used slots.old.items slots.new.items }
{
    let slot = &mut slots[used];
    slot.block = block;
    slot.bytes.copy_from_slice(bytes);
}

/// How many of these slots are the block's.
pub fn count_of(slots: &[Slot], block: u32) -> usize
    ensures count { result ≡ length (remembered block slots.now) }
    ensures few { result ≤ length slots.now }
{
    slots.iter().filter(|slot| slot.block == block).count()
}

/// The slot at `index` among those of these that are the block's, as they joined.
pub fn nth_of(slots: &[Slot], block: u32, index: usize) -> Option<&Slot>
    ensures { option_map (λ s. s.now) result
        ≡ slice_get (filter (λ s. s.block == block) slots.now) index }
{
    slots.iter().filter(|slot| slot.block == block).nth(index)
}

ghost use Rattle.std.specs.Prelude.{◌≡◌, ◌≤◌, ◌<◌, length, IfOk, OnErr};
ghost use Rattle.edge_base.specs.tree.Slots.{slots_in_block};
ghost use Rattle.edge_store.specs.Damages.{slot_in};
ghost use Rattle.edge_slots.specs.Slot.{IsSlot, IsWrong};
ghost use Rattle.edge_slots.specs.Block.{Seeks, IsLastFilled, HasWrong};

use crate::slot::{Entry, WrongSlot, read_slot, slot_width};
use edge_base::Geometry;

/// Where a name stands in a block.
#[derive(Clone, Copy, Debug, PartialEq, Eq)]
pub enum Search {
    /// The first slot that has it, and the number there.
    Found { slot: u32, number: u32 },
    /// No slot has it. The first empty one, if there is one.
    Missing { free: Option<u32> },
}

/// The slots of a block, at least 2.
pub fn slots_in_block(g: &Geometry) -> u32
    ensures count { result ≡ slots_in_block g.now }
    ensures least { 2 ≤ result }
    ensures most { result ≤ 256 }
{
    let limits = g.request();
    limits.block_size / (4 + limits.name_max)
}

/// What slot `k` of a block says.
pub fn slot_at<'a>(g: &Geometry, block: &'a [u8], k: u32) -> Result<Option<Entry<'a>>, WrongSlot>
    requires whole { length block.now ≡ g.now.block_size }
    requires slot { k < slots_in_block g.now }
    ensures slot { IfOk result (IsSlot g.now (slot_in g.now block.now k)) }
    ensures wrong { OnErr result (IsWrong g.now (slot_in g.now block.now k)) }
{
    let width = slot_width(g);
    let from = k as usize * width;
    read_slot(g, &block[from..from + width])
}

/// Looks for a name among the slots of a block, in order.
pub fn seek(g: &Geometry, block: &[u8], name: &[u8]) -> Result<Search, WrongSlot>
    requires whole { length block.now ≡ g.now.block_size }
    ensures seeks { IfOk result (Seeks g.now block.now name.now) }
    ensures wrong { OnErr result (HasWrong g.now block.now) }
{
    let mut free = None;
    for slot in 0..slots_in_block(g) {
        match slot_at(g, block, slot)? {
            Some(entry) if entry.name == name => {
                return Ok(Search::Found {
                    slot,
                    number: entry.number,
                });
            }
            None if free.is_none() => free = Some(slot),
            _ => {}
        }
    }
    Ok(Search::Missing { free })
}

/// The last filled slot of a block below a bound, from the end on; None where all are empty.
pub fn last_filled(g: &Geometry, block: &[u8], below: u32) -> Result<Option<u32>, WrongSlot>
    requires whole { length block.now ≡ g.now.block_size }
    requires below { below ≤ slots_in_block g.now }
    ensures last { IfOk result (IsLastFilled g.now block.now below) }
    ensures wrong { OnErr result (HasWrong g.now block.now) }
{
    for slot in (0..below).rev() {
        if slot_at(g, block, slot)?.is_some() {
            return Ok(Some(slot));
        }
    }
    Ok(None)
}

ghost use Rattle.std.specs.Prelude.{◌≡◌, ◌≤◌, ◌==◌, IfOk, OnOk, length};
ghost use Rattle.edge_base.specs.outside.Below.{SameBelow};
ghost use Rattle.edge_store.specs.Calls.{Called, KeepsPoint, Reads};
ghost use Rattle.edge_store.specs.State.{IsLive, IsNumber, HasInode};
ghost use Rattle.edge_tree.specs.Answers.{TellsWhatIs, NeverTangled};
ghost use Rattle.edge_dir.specs.Bounds.{IsSaidWithinAt, max_slots_of};
ghost use Rattle.edge_dir.specs.Directory.{IsDirectoryNode, NeverOnDirectory, OnSlots, IsEntryIn};
ghost use Rattle.edge_dir.specs.Looked.{CountsSlots, SeesNoBlock, SeesEntry};

use crate::block::{BLOCK_MOST, blocks_below_end, entry_in_block, last_in_block, slot_number};
use edge_slots::{SLOT_MOST, slot_width, slots_in_block};
use edge_store::{Store, StoreFault};

/// The slots of a directory, empty ones before the last filled one with them.
pub fn slots<S: Store>(s: &mut S, d: u32) -> Result<u64, StoreFault>
    requires live { IsLive (S.state s.old) }
    requires number { IsNumber (S.state s.old) d }
    requires there { HasInode (S.state s.old) d }
    requires directory { IsDirectoryNode (S.state s.old) d }
    ensures called { Called (S.state s.old) (S.state s.new) result }
    ensures point { KeepsPoint (S.state s.old) (S.state s.new) }
    ensures reads { Reads (S.state s.old) (S.state s.new) result }
    ensures below { S.is_clean s.old → SameBelow
        (S.may_hold s.old) (S.may_hold s.new) (S.is_sure s.old) (S.is_sure s.new) }
    ensures clean { S.is_clean s.old → OnOk result (S.is_clean s.new) }
    ensures damage { TellsWhatIs (S.state s.old) (S.state s.new) result }
    ensures untangled { NeverTangled (S.state s.old) result }
    ensures undamaged { NeverOnDirectory (S.state s.old) d result }
    ensures most { IfOk result (λ count. count ≤ max_slots_of (S.state s.old).origin.request) }
    ensures seen { IfOk result (CountsSlots (S.state s.old) d) }
    ensures count { IfOk result (λ count.
        OnSlots (S.state s.old) d (λ slots. count ≡ length slots)) }
{
    let g = s.geometry();
    let limits = g.request();
    let in_block = slots_in_block(&g);
    let blocks = blocks_below_end(s, d)?;
    if blocks == 0 {
        return Ok(0);
    }
    let mut room = [0; BLOCK_MOST];
    let room = &mut room[..limits.block_size as usize];
    let found = last_in_block(s, d, blocks - 1, in_block, room)?;
    match found {
        Some(last) => Ok(slot_number(blocks - 1, in_block, last) + 1),
        None => Ok(slot_number(blocks - 1, in_block, 0)),
    }
}

/// Whether a directory has no entry.
pub fn is_empty<S: Store>(s: &mut S, d: u32) -> Result<bool, StoreFault>
    requires live { IsLive (S.state s.old) }
    requires number { IsNumber (S.state s.old) d }
    requires there { HasInode (S.state s.old) d }
    requires directory { IsDirectoryNode (S.state s.old) d }
    ensures called { Called (S.state s.old) (S.state s.new) result }
    ensures point { KeepsPoint (S.state s.old) (S.state s.new) }
    ensures reads { Reads (S.state s.old) (S.state s.new) result }
    ensures below { S.is_clean s.old → SameBelow
        (S.may_hold s.old) (S.may_hold s.new) (S.is_sure s.old) (S.is_sure s.new) }
    ensures clean { S.is_clean s.old → OnOk result (S.is_clean s.new) }
    ensures damage { TellsWhatIs (S.state s.old) (S.state s.new) result }
    ensures untangled { NeverTangled (S.state s.old) result }
    ensures undamaged { NeverOnDirectory (S.state s.old) d result }
    ensures seen { IfOk result (SeesNoBlock (S.state s.old) d) }
    ensures empty { IfOk result (λ empty.
        OnSlots (S.state s.old) d (λ slots. empty ≡ (length slots == 0))) }
{
    let _within_limits = s.geometry().request();
    let blocks = blocks_below_end(s, d)?;
    Ok(blocks == 0)
}

/// What a slot of a directory says: the number, and the length of the name, whose bytes are put
/// first into a list of 252. None where the slot is empty or past the last.
pub fn entry_at<S: Store>(
    s: &mut S,
    d: u32,
    slot: u64,
    name: &mut [u8],
) -> Result<Option<(u32, u32)>, StoreFault>
    requires live { IsLive (S.state s.old) }
    requires number { IsNumber (S.state s.old) d }
    requires there { HasInode (S.state s.old) d }
    requires directory { IsDirectoryNode (S.state s.old) d }
    requires room { length name.old ≡ 252 }
    ensures called { Called (S.state s.old) (S.state s.new) result }
    ensures point { KeepsPoint (S.state s.old) (S.state s.new) }
    ensures reads { Reads (S.state s.old) (S.state s.new) result }
    ensures below { S.is_clean s.old → SameBelow
        (S.may_hold s.old) (S.may_hold s.new) (S.is_sure s.old) (S.is_sure s.new) }
    ensures clean { S.is_clean s.old → OnOk result (S.is_clean s.new) }
    ensures damage { TellsWhatIs (S.state s.old) (S.state s.new) result }
    ensures untangled { NeverTangled (S.state s.old) result }
    ensures undamaged { NeverOnDirectory (S.state s.old) d result }
    ensures within { IfOk result
        (IsSaidWithinAt (S.state s.old).origin.request slot name.new) }
    ensures seen { IfOk result (SeesEntry (S.state s.old) d slot name.new) }
    ensures entry { IfOk result (λ entry.
        OnSlots (S.state s.old) d (λ slots. IsEntryIn slots slot name.new entry)) }
{
    let g = s.geometry();
    let _within_limits = g.request();
    let in_block = u64::from(slots_in_block(&g));
    let blocks = blocks_below_end(s, d)?;
    if slot / in_block >= u64::from(blocks) {
        return Ok(None);
    }
    let i = (slot / in_block) as u32;
    let k = (slot % in_block) as u32;
    let mut room = [0; SLOT_MOST];
    let room = &mut room[..slot_width(&g)];
    let entry = entry_in_block(s, d, i, k, room, name)?;
    Ok(entry)
}

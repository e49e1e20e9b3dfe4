ghost use Rattle.std.specs.Prelude.{◌≡◌, ◌<◌, ◌≤◌, ◌+◌, ◌*◌, ◌/◌, length, replicate, IfOk, OnOk, OnErr};
ghost use Rattle.edge_base.specs.layout.Places.{max_blocks_of};
ghost use Rattle.edge_base.specs.outside.Below.{SameBelow};
ghost use Rattle.edge_base.specs.tree.Slots.{slots_in_block};
ghost use Rattle.edge_store.specs.Calls.{Called, KeepsPoint, KeepsPlacesBut, Reads};
ghost use Rattle.edge_store.specs.State.{IsLive, IsNumber, HasInode};
ghost use Rattle.edge_slots.specs.Block.{HasWrong};
ghost use Rattle.edge_tree.specs.Answers.{TellsWhatIs, NeverTangled, IsReadable};
ghost use Rattle.edge_tree.specs.Own.{IsNodeShaped, UndamagedIf, UntangledIf};
ghost use Rattle.edge_cut.specs.Cuts.{RoomForCutAt};
ghost use Rattle.edge_file.specs.Writing.{IsNodeSized, KeepsInodesBut, WritesBytes};
ghost use Rattle.edge_dir.specs.Directory.{IsDirectoryNode, NeverOnDirectory, IsBelowEnd, AreBlocksOf};
ghost use Rattle.edge_dir.specs.Cleared.{HasFilledBut, SeesFilledBut, SeesBlocksLeft, AreBelowEnd, LeavesBlocks, LosesNoOther, ClearsSlot, NeverWithRoomToClear, UntangledWithRoomToClear, EmptiesSlot, EndsBehind, CutsSlots, EmptiesOrEnds};
ghost use Rattle.edge_dir.specs.Written.{place_of_slot, NeverWithRoom, UntangledWithRoom, GrowsToBlock};

use crate::block::{
    BLOCK_MOST, blocks_below_end, last_in_block, read_part, slot_number, wrong_slot,
};
use crate::change::write_slot;
use edge_base::Geometry;
use edge_file::set_size;
use edge_slots::{SLOT_MOST, WrongSlot, last_filled, slot_width, slots_in_block};
use edge_store::{Store, StoreFault};

/// Whether a slot of a block besides one is filled.
fn other_filled(g: &Geometry, block: &[u8], k: u32) -> Result<bool, WrongSlot>
    requires whole { length block.now ≡ g.now.block_size }
    requires slot { k < slots_in_block g.now }
    ensures other { IfOk result (HasFilledBut g.now block.now k) }
    ensures wrong { OnErr result (HasWrong g.now block.now) }
{
    let last = last_filled(g, block, slots_in_block(g))?;
    if last != Some(k) {
        return Ok(last.is_some());
    }
    let before = last_filled(g, block, k)?;
    Ok(before.is_some())
}

/// Whether a slot of a data block of a directory besides one is filled. `room` is for a block.
fn has_other<S: Store>(
    s: &mut S,
    d: u32,
    i: u32,
    k: u32,
    room: &mut [u8],
) -> Result<bool, StoreFault>
    requires live { IsLive (S.state s.old) }
    requires number { IsNumber (S.state s.old) d }
    requires there { HasInode (S.state s.old) d }
    requires index { i < max_blocks_of (S.state s.old).origin.request }
    requires end { IsBelowEnd (S.state s.old) d i }
    requires slot { k < slots_in_block (S.state s.old).origin.request }
    requires whole { length room.old ≡ (S.state s.old).origin.request.block_size }
    ensures called { Called (S.state s.old) (S.state s.new) result }
    ensures point { KeepsPoint (S.state s.old) (S.state s.new) }
    ensures reads { Reads (S.state s.old) (S.state s.new) result }
    ensures below { S.is_clean s.old → SameBelow
        (S.may_hold s.old) (S.may_hold s.new) (S.is_sure s.old) (S.is_sure s.new) }
    ensures clean { S.is_clean s.old → OnOk result (S.is_clean s.new) }
    ensures damage { TellsWhatIs (S.state s.old) (S.state s.new) result }
    ensures untangled { NeverTangled (S.state s.old) result }
    ensures undamaged { NeverOnDirectory (S.state s.old) d result }
    ensures other { IfOk result (SeesFilledBut (S.state s.old) d i k) }
{
    let block = read_part(s, d, i, 0, room)?;
    let g = s.geometry();
    match other_filled(&g, room, k) {
        Ok(other) => Ok(other),
        Err(_) => Err(wrong_slot(s, block)),
    }
}

/// How many of the first data blocks of a directory are left up to the last one that has a filled
/// slot. `room` is for a block.
fn blocks_left<S: Store>(s: &mut S, d: u32, count: u32, room: &mut [u8]) -> Result<u32, StoreFault>
    requires live { IsLive (S.state s.old) }
    requires number { IsNumber (S.state s.old) d }
    requires there { HasInode (S.state s.old) d }
    requires most { count ≤ max_blocks_of (S.state s.old).origin.request }
    requires end { AreBelowEnd (S.state s.old) d count }
    requires whole { length room.old ≡ (S.state s.old).origin.request.block_size }
    ensures called { Called (S.state s.old) (S.state s.new) result }
    ensures point { KeepsPoint (S.state s.old) (S.state s.new) }
    ensures reads { Reads (S.state s.old) (S.state s.new) result }
    ensures below { S.is_clean s.old → SameBelow
        (S.may_hold s.old) (S.may_hold s.new) (S.is_sure s.old) (S.is_sure s.new) }
    ensures clean { S.is_clean s.old → OnOk result (S.is_clean s.new) }
    ensures damage { TellsWhatIs (S.state s.old) (S.state s.new) result }
    ensures untangled { NeverTangled (S.state s.old) result }
    ensures undamaged { NeverOnDirectory (S.state s.old) d result }
    ensures most { IfOk result (λ left. left ≤ count) }
    ensures left { IfOk result (SeesBlocksLeft (S.state s.old) d count) }
{
    let in_block = slots_in_block(&s.geometry());
    let mut left = count;
    while left > 0 {
        let found = last_in_block(s, d, left - 1, in_block, room)?;
        match found {
            Some(_) => return Ok(left),
            None => left -= 1,
        }
    }
    Ok(0)
}

/// How many data blocks a directory has when a filled slot is cleared.
pub fn blocks_when_cleared<S: Store>(s: &mut S, d: u32, slot: u64) -> Result<u32, StoreFault>
    requires live { IsLive (S.state s.old) }
    requires number { IsNumber (S.state s.old) d }
    requires there { HasInode (S.state s.old) d }
    requires directory { IsDirectoryNode (S.state s.old) d }
    ensures called { Called (S.state s.old) (S.state s.new) result }
    ensures point { KeepsPoint (S.state s.old) (S.state s.new) }
    ensures reads { Reads (S.state s.old) (S.state s.new) result }
    ensures below { S.is_clean s.old → SameBelow
        (S.may_hold s.old) (S.may_hold s.new) (S.is_sure s.old) (S.is_sure s.new) }
    ensures clean { S.is_clean s.old → OnOk result (S.is_clean s.new) }
    ensures damage { TellsWhatIs (S.state s.old) (S.state s.new) result }
    ensures untangled { NeverTangled (S.state s.old) result }
    ensures undamaged { NeverOnDirectory (S.state s.old) d result }
    ensures most { IfOk result (λ left. left ≤ max_blocks_of (S.state s.old).origin.request) }
    ensures loses { IfOk result (LosesNoOther (S.state s.old) d slot) }
    ensures left { IfOk result (LeavesBlocks (S.state s.old) d slot) }
{
    let g = s.geometry();
    let limits = g.request();
    let in_block = u64::from(slots_in_block(&g));
    let count = blocks_below_end(s, d)?;
    if slot / in_block + 1 != u64::from(count) {
        return Ok(count);
    }
    let i = (slot / in_block) as u32;
    let k = (slot % in_block) as u32;
    let mut room = [0; BLOCK_MOST];
    let room = &mut room[..limits.block_size as usize];
    let other = has_other(s, d, i, k, room)?;
    if other {
        return Ok(count);
    }
    let left = blocks_left(s, d, i, room)?;
    Ok(left)
}

/// Writes zeros into a slot of a directory.
fn empty_slot<S: Store>(s: &mut S, d: u32, slot: u64) -> Result<(), StoreFault>
    requires live { IsLive (S.state s.old) }
    requires number { IsNumber (S.state s.old) d }
    requires there { HasInode (S.state s.old) d }
    requires block { slot / slots_in_block (S.state s.old).origin.request
        < max_blocks_of (S.state s.old).origin.request }
    ensures called { Called (S.state s.old) (S.state s.new) result }
    ensures point { KeepsPoint (S.state s.old) (S.state s.new) }
    ensures places { OnOk result (KeepsPlacesBut (S.state s.old) (S.state s.new) d) }
    ensures damage { TellsWhatIs (S.state s.old) (S.state s.new) result }
    ensures untangled { UntangledWithRoom (S.state s.old) d slot
        (4 + (S.state s.old).origin.request.name_max) result }
    ensures undamaged { NeverWithRoom (S.state s.old) d slot
        (4 + (S.state s.old).origin.request.name_max) result }
    ensures inodes { OnOk result (KeepsInodesBut (S.state s.old) (S.state s.new) d) }
    ensures readable { OnOk result (IsReadable (S.state s.new) d) }
    ensures size { OnOk result (GrowsToBlock (S.state s.old) (S.state s.new) d slot) }
    ensures bytes { OnOk result (WritesBytes (S.state s.old) (S.state s.new) d
        (place_of_slot (S.state s.old).origin.request slot)
        (replicate (4 + (S.state s.old).origin.request.name_max) 0)) }
    ensures emptied { OnOk result (EmptiesSlot (S.state s.old) (S.state s.new) d slot) }
{
    let g = s.geometry();
    let _within_limits = g.request();
    let zeros = [0; SLOT_MOST];
    write_slot(s, d, slot, &zeros[..slot_width(&g)])
}

/// Ends a directory behind its first blocks, so many.
fn cut_blocks<S: Store>(s: &mut S, d: u32, left: u32) -> Result<(), StoreFault>
    requires live { IsLive (S.state s.old) }
    requires number { IsNumber (S.state s.old) d }
    requires there { HasInode (S.state s.old) d }
    requires most { left ≤ max_blocks_of (S.state s.old).origin.request }
    ensures called { Called (S.state s.old) (S.state s.new) result }
    ensures point { KeepsPoint (S.state s.old) (S.state s.new) }
    ensures places { OnOk result (KeepsPlacesBut (S.state s.old) (S.state s.new) d) }
    ensures damage { TellsWhatIs (S.state s.old) (S.state s.new) result }
    ensures untangled { UntangledIf (S.state s.old) (IsNodeShaped (S.state s.old) d
        × RoomForCutAt (S.state s.old) d left) result }
    ensures undamaged { UndamagedIf (S.state s.old) (IsNodeSized (S.state s.old) d)
        (RoomForCutAt (S.state s.old) d left) result }
    ensures inodes { OnOk result (KeepsInodesBut (S.state s.old) (S.state s.new) d) }
    ensures readable { OnOk result (IsReadable (S.state s.new) d) }
    ensures ends { OnOk result (EndsBehind (S.state s.old) (S.state s.new) d left) }
    ensures cut { OnOk result (CutsSlots (S.state s.old) (S.state s.new) d left) }
{
    let limits = s.geometry().request();
    set_size(s, d, slot_number(left, limits.block_size, 0))
}

/// Clears a filled slot of a directory. Empty slots at the end are cut off, and so are the blocks
/// that have no slot left: then no block is written.
pub fn clear<S: Store>(s: &mut S, d: u32, slot: u64) -> Result<(), StoreFault>
    requires live { IsLive (S.state s.old) }
    requires number { IsNumber (S.state s.old) d }
    requires there { HasInode (S.state s.old) d }
    requires directory { IsDirectoryNode (S.state s.old) d }
    requires block { slot / slots_in_block (S.state s.old).origin.request
        < max_blocks_of (S.state s.old).origin.request }
    ensures called { Called (S.state s.old) (S.state s.new) result }
    ensures point { KeepsPoint (S.state s.old) (S.state s.new) }
    ensures places { OnOk result (KeepsPlacesBut (S.state s.old) (S.state s.new) d) }
    ensures damage { TellsWhatIs (S.state s.old) (S.state s.new) result }
    ensures untangled { UntangledWithRoomToClear (S.state s.old) d slot result }
    ensures undamaged { NeverWithRoomToClear (S.state s.old) d slot result }
    ensures inodes { OnOk result (KeepsInodesBut (S.state s.old) (S.state s.new) d) }
    ensures readable { OnOk result (IsReadable (S.state s.new) d) }
    ensures emptied { OnOk result (EmptiesOrEnds (S.state s.old) (S.state s.new) d slot) }
    ensures cleared { OnOk result (ClearsSlot (S.state s.old) (S.state s.new) d slot) }
{
    let g = s.geometry();
    let _within_limits = g.request();
    let in_block = u64::from(slots_in_block(&g));
    let left = blocks_when_cleared(s, d, slot)?;
    if slot / in_block < u64::from(left) {
        return empty_slot(s, d, slot);
    }
    cut_blocks(s, d, left)
}

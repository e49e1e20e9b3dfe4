ghost use Rattle.std.specs.Prelude.{◌≡◌, ◌<◌, ◌≤◌, ◌+◌, ◌*◌, length, take, IfOk, OnOk, Err};
ghost use Rattle.edge_base.specs.layout.Places.{max_blocks_of};
ghost use Rattle.edge_base.specs.outside.Below.{SameBelow};
ghost use Rattle.edge_base.specs.tree.Slots.{slots_in_block};
ghost use Rattle.edge_store.specs.Calls.{Called, KeepsPoint, Reads};
ghost use Rattle.edge_store.specs.Damages.{HasWrongSlot};
ghost use Rattle.edge_store.specs.State.{Told, IsLive, IsNumber, HasInode};
ghost use Rattle.edge_tree.specs.Answers.{TellsWhatIs, NeverTangled};
ghost use Rattle.edge_dir.specs.Bounds.{IsBelow, IsSearchWithin, IsSaidWithin};
ghost use Rattle.edge_dir.specs.Directory.{IsDirectoryNode, NeverOnDirectory, IsBelowEnd, AreBlocksOf, LacksBlock, ReadsPart, SeeksIn, IsLastIn, IsEntryOfBlock};

use edge_base::{Damage, DamageKind, Form};
use edge_file::{block_count, sized_head};
use edge_slots::{Search, last_filled, read_slot, seek, slot_width};
use edge_store::{Spot, Store, StoreFault};
use edge_tree::block_of;

/// The bytes of the greatest block.
pub(crate) const BLOCK_MOST: usize = 4096;

/// Slot `k` of data block `i`, counted from the first slot of the directory on.
pub(crate) fn slot_number(i: u32, in_block: u32, k: u32) -> u64
    ensures { result ≡ i * in_block + k }
{
    u64::from(i) * u64::from(in_block) + u64::from(k)
}

/// Ends the store, since a directory lacks a data block below its end: its shape is wrong.
fn absent<S: Store>(s: &mut S, d: u32) -> StoreFault
    requires live { IsLive (S.state s.old) }
    requires number { IsNumber (S.state s.old) d }
    requires there { HasInode (S.state s.old) d }
    requires lacks { Told (S.state s.old)
        → LacksBlock (S.state s.old).origin.request (S.state s.old).working d }
    ensures called { Called {T = ⊥} (S.state s.old) (S.state s.new) (Err result) }
    ensures point { KeepsPoint (S.state s.old) (S.state s.new) }
    ensures below { S.is_clean s.old → SameBelow
        (S.may_hold s.old) (S.may_hold s.new) (S.is_sure s.old) (S.is_sure s.new) }
    ensures damage { TellsWhatIs {T = ⊥} (S.state s.old) (S.state s.new) (Err result) }
    ensures untangled { NeverTangled {T = ⊥} (S.state s.old) (Err result) }
{
    match s.inode_block(d) {
        Ok(block) => s.report(Damage {
            block,
            kind: DamageKind::WrongShape,
        }),
        Err(fault) => fault,
    }
}

/// Ends the store, since a block of a directory has a wrong slot.
pub(crate) fn wrong_slot<S: Store>(s: &mut S, block: u32) -> StoreFault
    requires live { IsLive (S.state s.old) }
    requires wrong { Told (S.state s.old)
        → HasWrongSlot (S.state s.old).origin.request (S.state s.old).working block }
    ensures called { Called {T = ⊥} (S.state s.old) (S.state s.new) (Err result) }
    ensures point { KeepsPoint (S.state s.old) (S.state s.new) }
    ensures below { S.is_clean s.old → SameBelow
        (S.may_hold s.old) (S.may_hold s.new) (S.is_sure s.old) (S.is_sure s.new) }
    ensures damage { TellsWhatIs {T = ⊥} (S.state s.old) (S.state s.new) (Err result) }
    ensures untangled { NeverTangled {T = ⊥} (S.state s.old) (Err result) }
{
    s.report(Damage {
        block,
        kind: DamageKind::WrongSlot,
    })
}

/// How many data blocks of a directory lie below its end.
pub(crate) fn blocks_below_end<S: Store>(s: &mut S, d: u32) -> Result<u32, StoreFault>
    requires live { IsLive (S.state s.old) }
    requires number { IsNumber (S.state s.old) d }
    requires there { HasInode (S.state s.old) d }
    requires directory { IsDirectoryNode (S.state s.old) d }
    ensures called { Called (S.state s.old) (S.state s.new) result }
    ensures point { KeepsPoint (S.state s.old) (S.state s.new) }
    ensures reads { Reads (S.state s.old) (S.state s.new) result }
    ensures below { S.is_clean s.old → SameBelow
        (S.may_hold s.old) (S.may_hold s.new) (S.is_sure s.old) (S.is_sure s.new) }
    ensures clean { S.is_clean s.old → OnOk result (S.is_clean s.new) }
    ensures damage { TellsWhatIs (S.state s.old) (S.state s.new) result }
    ensures untangled { NeverTangled (S.state s.old) result }
    ensures undamaged { NeverOnDirectory (S.state s.old) d result }
    ensures most { IfOk result (λ count. count ≤ max_blocks_of (S.state s.old).origin.request) }
    ensures blocks { IfOk result (AreBlocksOf (S.state s.old) d) }
{
    let head = sized_head(s, d)?;
    Ok(block_count(s.geometry(), head.size))
}

/// Reads bytes of a data block of a directory below its end, from byte `at` on, and answers which
/// block it is.
pub(crate) fn read_part<S: Store>(
    s: &mut S,
    d: u32,
    i: u32,
    at: u32,
    out: &mut [u8],
) -> Result<u32, StoreFault>
    requires live { IsLive (S.state s.old) }
    requires number { IsNumber (S.state s.old) d }
    requires there { HasInode (S.state s.old) d }
    requires index { i < max_blocks_of (S.state s.old).origin.request }
    requires end { IsBelowEnd (S.state s.old) d i }
    requires range { at + length out.old ≤ (S.state s.old).origin.request.block_size }
    ensures called { Called (S.state s.old) (S.state s.new) result }
    ensures point { KeepsPoint (S.state s.old) (S.state s.new) }
    ensures reads { Reads (S.state s.old) (S.state s.new) result }
    ensures below { S.is_clean s.old → SameBelow
        (S.may_hold s.old) (S.may_hold s.new) (S.is_sure s.old) (S.is_sure s.new) }
    ensures clean { S.is_clean s.old → OnOk result (S.is_clean s.new) }
    ensures damage { TellsWhatIs (S.state s.old) (S.state s.new) result }
    ensures untangled { NeverTangled (S.state s.old) result }
    ensures undamaged { NeverOnDirectory (S.state s.old) d result }
    ensures part { IfOk result (ReadsPart (S.state s.old) d i at out.new) }
{
    let block = block_of(s, d, i)?;
    if block == 0 {
        return Err(absent(s, d));
    }
    let data = Spot {
        block,
        form: Form::Plain,
        owner: d,
    };
    s.read_block(data, at, out)?;
    Ok(block)
}

/// Looks for a name among the slots of a data block of a directory. `room` is for a block.
pub(crate) fn seek_in_block<S: Store>(
    s: &mut S,
    d: u32,
    i: u32,
    name: &[u8],
    room: &mut [u8],
) -> Result<Search, StoreFault>
    requires live { IsLive (S.state s.old) }
    requires number { IsNumber (S.state s.old) d }
    requires there { HasInode (S.state s.old) d }
    requires index { i < max_blocks_of (S.state s.old).origin.request }
    requires end { IsBelowEnd (S.state s.old) d i }
    requires whole { length room.old ≡ (S.state s.old).origin.request.block_size }
    ensures called { Called (S.state s.old) (S.state s.new) result }
    ensures point { KeepsPoint (S.state s.old) (S.state s.new) }
    ensures reads { Reads (S.state s.old) (S.state s.new) result }
    ensures below { S.is_clean s.old → SameBelow
        (S.may_hold s.old) (S.may_hold s.new) (S.is_sure s.old) (S.is_sure s.new) }
    ensures clean { S.is_clean s.old → OnOk result (S.is_clean s.new) }
    ensures damage { TellsWhatIs (S.state s.old) (S.state s.new) result }
    ensures untangled { NeverTangled (S.state s.old) result }
    ensures undamaged { NeverOnDirectory (S.state s.old) d result }
    ensures within { IfOk result (IsSearchWithin (S.state s.old).origin.request) }
    ensures seeks { IfOk result (SeeksIn (S.state s.old) d i name.now) }
{
    let block = read_part(s, d, i, 0, room)?;
    let g = s.geometry();
    match seek(&g, room, name) {
        Ok(found) => Ok(found),
        Err(_) => Err(wrong_slot(s, block)),
    }
}

/// The last filled slot below a bound of a data block of a directory. `room` is for a block.
pub(crate) fn last_in_block<S: Store>(
    s: &mut S,
    d: u32,
    i: u32,
    bound: u32,
    room: &mut [u8],
) -> Result<Option<u32>, StoreFault>
    requires live { IsLive (S.state s.old) }
    requires number { IsNumber (S.state s.old) d }
    requires there { HasInode (S.state s.old) d }
    requires index { i < max_blocks_of (S.state s.old).origin.request }
    requires end { IsBelowEnd (S.state s.old) d i }
    requires bound { bound ≤ slots_in_block (S.state s.old).origin.request }
    requires whole { length room.old ≡ (S.state s.old).origin.request.block_size }
    ensures called { Called (S.state s.old) (S.state s.new) result }
    ensures point { KeepsPoint (S.state s.old) (S.state s.new) }
    ensures reads { Reads (S.state s.old) (S.state s.new) result }
    ensures below { S.is_clean s.old → SameBelow
        (S.may_hold s.old) (S.may_hold s.new) (S.is_sure s.old) (S.is_sure s.new) }
    ensures clean { S.is_clean s.old → OnOk result (S.is_clean s.new) }
    ensures damage { TellsWhatIs (S.state s.old) (S.state s.new) result }
    ensures untangled { NeverTangled (S.state s.old) result }
    ensures undamaged { NeverOnDirectory (S.state s.old) d result }
    ensures within { IfOk result (IsBelow bound) }
    ensures last { IfOk result (IsLastIn (S.state s.old) d i bound) }
{
    let block = read_part(s, d, i, 0, room)?;
    let g = s.geometry();
    match last_filled(&g, room, bound) {
        Ok(last) => Ok(last),
        Err(_) => Err(wrong_slot(s, block)),
    }
}

/// What slot `k` of a data block of a directory says, as `entry_at` answers it. `room` is for a
/// slot.
pub(crate) fn entry_in_block<S: Store>(
    s: &mut S,
    d: u32,
    i: u32,
    k: u32,
    room: &mut [u8],
    name: &mut [u8],
) -> Result<Option<(u32, u32)>, StoreFault>
    requires live { IsLive (S.state s.old) }
    requires number { IsNumber (S.state s.old) d }
    requires there { HasInode (S.state s.old) d }
    requires index { i < max_blocks_of (S.state s.old).origin.request }
    requires end { IsBelowEnd (S.state s.old) d i }
    requires slot { k < slots_in_block (S.state s.old).origin.request }
    requires width { length room.old ≡ 4 + (S.state s.old).origin.request.name_max }
    requires list { length name.old ≡ 252 }
    ensures called { Called (S.state s.old) (S.state s.new) result }
    ensures point { KeepsPoint (S.state s.old) (S.state s.new) }
    ensures reads { Reads (S.state s.old) (S.state s.new) result }
    ensures below { S.is_clean s.old → SameBelow
        (S.may_hold s.old) (S.may_hold s.new) (S.is_sure s.old) (S.is_sure s.new) }
    ensures clean { S.is_clean s.old → OnOk result (S.is_clean s.new) }
    ensures damage { TellsWhatIs (S.state s.old) (S.state s.new) result }
    ensures untangled { NeverTangled (S.state s.old) result }
    ensures undamaged { NeverOnDirectory (S.state s.old) d result }
    ensures within { IfOk result (IsSaidWithin (S.state s.old).origin.request name.new) }
    ensures entry { IfOk result (IsEntryOfBlock (S.state s.old) d i k name.new) }
{
    let g = s.geometry();
    let _within_limits = g.request();
    let width = slot_width(&g) as u32;
    let at = k * width;
    let block = read_part(s, d, i, at, room)?;
    match read_slot(&g, room) {
        Ok(Some(entry)) => {
            let len = put_first(entry.name, name);
            Ok(Some((entry.number, len)))
        }
        Ok(None) => Ok(None),
        Err(_) => Err(wrong_slot(s, block)),
    }
}

/// Puts the bytes of a name first into a list of 252, and answers how many they are.
fn put_first(name: &[u8], list: &mut [u8]) -> u32
    requires fits { length name.now ≤ length list.old }
    requires list { length list.old ≡ 252 }
    ensures len { result ≡ length name.now }
    ensures bytes { take (length name.now) list.new ≡ name.now }
{
    list[..name.len()].copy_from_slice(name);
    name.len() as u32
}

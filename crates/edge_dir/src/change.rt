ghost use Rattle.std.specs.Prelude.{◌≡◌, ◌<◌, ◌≤◌, ◌+◌, ◌*◌, ◌/◌, length, OnOk, Some};
ghost use Rattle.byteorder.specs.Endian.{little_bytes};
ghost use Rattle.edge_base.specs.layout.Places.{max_blocks_of, max_size_of};
ghost use Rattle.edge_base.specs.tree.Slots.{slot_bytes, slots_in_block};
ghost use Rattle.edge_store.specs.Calls.{Called, KeepsPoint, KeepsPlacesBut};
ghost use Rattle.edge_store.specs.State.{IsLive, IsNumber, HasInode};
ghost use Rattle.edge_slots.specs.Slot.{entry_of};
ghost use Rattle.edge_tree.specs.Answers.{TellsWhatIs, IsReadable};
ghost use Rattle.edge_file.specs.Writing.{KeepsInodesBut, WritesBytes};
ghost use Rattle.edge_dir.specs.Written.{place_of_slot, NeverWithRoom, UntangledWithRoom, GrowsToBlock, WritesSlot, PlacesEntry, ReplacesNumber};

use crate::block::slot_number;
use byteorder::{ByteOrder, LittleEndian};
use edge_base::Geometry;
use edge_file::{grow, write_at};
use edge_slots::{SLOT_MOST, slot_width, slots_in_block, spell_slot};
use edge_store::{Store, StoreFault};

/// The first byte of a slot.
fn slot_place(g: &Geometry, slot: u64) -> u64
    requires block { slot / slots_in_block g.now < max_blocks_of g.now }
    ensures place { result ≡ place_of_slot g.now slot }
    ensures end { result + (4 + g.now.name_max)
        ≤ (slot / slots_in_block g.now + 1) * g.now.block_size }
{
    let _most = g.max_blocks();
    let limits = g.request();
    let in_block = u64::from(slots_in_block(g));
    let i = (slot / in_block) as u32;
    let k = (slot % in_block) as u32;
    let at = k * slot_width(g) as u32;
    slot_number(i, limits.block_size, at)
}

/// The end of the data block that has a slot.
fn block_end(g: &Geometry, slot: u64) -> u64
    requires block { slot / slots_in_block g.now < max_blocks_of g.now }
    ensures end { result ≡ (slot / slots_in_block g.now + 1) * g.now.block_size }
    ensures most { result ≤ max_size_of g.now }
{
    let _most = g.max_blocks();
    let limits = g.request();
    let in_block = u64::from(slots_in_block(g));
    let i = (slot / in_block) as u32;
    slot_number(i, limits.block_size, limits.block_size)
}

/// Writes bytes first into a slot. The directory ends with its block then, if it ended before.
pub(crate) fn write_slot<S: Store>(
    s: &mut S,
    d: u32,
    slot: u64,
    bytes: &[u8],
) -> Result<(), StoreFault>
    requires live { IsLive (S.state s.old) }
    requires number { IsNumber (S.state s.old) d }
    requires there { HasInode (S.state s.old) d }
    requires block { slot / slots_in_block (S.state s.old).origin.request
        < max_blocks_of (S.state s.old).origin.request }
    requires some { 0 < length bytes.now }
    requires short { length bytes.now ≤ 4 + (S.state s.old).origin.request.name_max }
    ensures called { Called (S.state s.old) (S.state s.new) result }
    ensures point { KeepsPoint (S.state s.old) (S.state s.new) }
    ensures places { OnOk result (KeepsPlacesBut (S.state s.old) (S.state s.new) d) }
    ensures damage { TellsWhatIs (S.state s.old) (S.state s.new) result }
    ensures untangled { UntangledWithRoom (S.state s.old) d slot (length bytes.now) result }
    ensures undamaged { NeverWithRoom (S.state s.old) d slot (length bytes.now) result }
    ensures inodes { OnOk result (KeepsInodesBut (S.state s.old) (S.state s.new) d) }
    ensures readable { OnOk result (IsReadable (S.state s.new) d) }
    ensures size { OnOk result (GrowsToBlock (S.state s.old) (S.state s.new) d slot) }
    ensures bytes { OnOk result (WritesBytes (S.state s.old) (S.state s.new) d
        (place_of_slot (S.state s.old).origin.request slot) bytes.now) }
    ensures written { OnOk result
        (WritesSlot (S.state s.old) (S.state s.new) d slot bytes.now) }
{
    let g = s.geometry();
    let _within_limits = g.request();
    let at = slot_place(&g, slot);
    let end = block_end(&g, slot);
    write_at(s, d, at, bytes)?;
    grow(s, d, end)?;
    Ok(())
}

/// Puts an entry into an empty slot of a directory, as `place` does. `room` is for a slot.
fn place_by<S: Store>(
    s: &mut S,
    d: u32,
    slot: u64,
    name: &[u8],
    number: u32,
    room: &mut [u8],
) -> Result<(), StoreFault>
    requires live { IsLive (S.state s.old) }
    requires number { IsNumber (S.state s.old) d }
    requires there { HasInode (S.state s.old) d }
    requires block { slot / slots_in_block (S.state s.old).origin.request
        < max_blocks_of (S.state s.old).origin.request }
    requires width { length room.old ≡ 4 + (S.state s.old).origin.request.name_max }
    requires name { length name.now ≤ (S.state s.old).origin.request.name_max }
    ensures called { Called (S.state s.old) (S.state s.new) result }
    ensures point { KeepsPoint (S.state s.old) (S.state s.new) }
    ensures places { OnOk result (KeepsPlacesBut (S.state s.old) (S.state s.new) d) }
    ensures damage { TellsWhatIs (S.state s.old) (S.state s.new) result }
    ensures untangled { UntangledWithRoom (S.state s.old) d slot
        (4 + (S.state s.old).origin.request.name_max) result }
    ensures undamaged { NeverWithRoom (S.state s.old) d slot
        (4 + (S.state s.old).origin.request.name_max) result }
    ensures inodes { OnOk result (KeepsInodesBut (S.state s.old) (S.state s.new) d) }
    ensures readable { OnOk result (IsReadable (S.state s.new) d) }
    ensures size { OnOk result (GrowsToBlock (S.state s.old) (S.state s.new) d slot) }
    ensures bytes { OnOk result (WritesBytes (S.state s.old) (S.state s.new) d
        (place_of_slot (S.state s.old).origin.request slot)
        (slot_bytes (S.state s.old).origin.request (Some (entry_of name.now number)))) }
    ensures placed { OnOk result
        (PlacesEntry (S.state s.old) (S.state s.new) d slot (entry_of name.now number)) }
{
    let _within_limits = s.geometry().request();
    spell_slot(name, number, room);
    write_slot(s, d, slot, room)
}

/// Puts an entry into an empty slot of a directory, which may be a new one at its end.
pub fn place<S: Store>(
    s: &mut S,
    d: u32,
    slot: u64,
    name: &[u8],
    number: u32,
) -> Result<(), StoreFault>
    requires live { IsLive (S.state s.old) }
    requires number { IsNumber (S.state s.old) d }
    requires there { HasInode (S.state s.old) d }
    requires block { slot / slots_in_block (S.state s.old).origin.request
        < max_blocks_of (S.state s.old).origin.request }
    requires name { length name.now ≤ (S.state s.old).origin.request.name_max }
    ensures called { Called (S.state s.old) (S.state s.new) result }
    ensures point { KeepsPoint (S.state s.old) (S.state s.new) }
    ensures places { OnOk result (KeepsPlacesBut (S.state s.old) (S.state s.new) d) }
    ensures damage { TellsWhatIs (S.state s.old) (S.state s.new) result }
    ensures untangled { UntangledWithRoom (S.state s.old) d slot
        (4 + (S.state s.old).origin.request.name_max) result }
    ensures undamaged { NeverWithRoom (S.state s.old) d slot
        (4 + (S.state s.old).origin.request.name_max) result }
    ensures inodes { OnOk result (KeepsInodesBut (S.state s.old) (S.state s.new) d) }
    ensures readable { OnOk result (IsReadable (S.state s.new) d) }
    ensures size { OnOk result (GrowsToBlock (S.state s.old) (S.state s.new) d slot) }
    ensures bytes { OnOk result (WritesBytes (S.state s.old) (S.state s.new) d
        (place_of_slot (S.state s.old).origin.request slot)
        (slot_bytes (S.state s.old).origin.request (Some (entry_of name.now number)))) }
    ensures placed { OnOk result
        (PlacesEntry (S.state s.old) (S.state s.new) d slot (entry_of name.now number)) }
{
    let g = s.geometry();
    let mut room = [0; SLOT_MOST];
    let room = &mut room[..slot_width(&g)];
    place_by(s, d, slot, name, number, room)
}

/// Gives a filled slot of a directory the number of another node. Its name stays.
pub fn replace<S: Store>(s: &mut S, d: u32, slot: u64, number: u32) -> Result<(), StoreFault>
    requires live { IsLive (S.state s.old) }
    requires number { IsNumber (S.state s.old) d }
    requires there { HasInode (S.state s.old) d }
    requires block { slot / slots_in_block (S.state s.old).origin.request
        < max_blocks_of (S.state s.old).origin.request }
    ensures called { Called (S.state s.old) (S.state s.new) result }
    ensures point { KeepsPoint (S.state s.old) (S.state s.new) }
    ensures places { OnOk result (KeepsPlacesBut (S.state s.old) (S.state s.new) d) }
    ensures damage { TellsWhatIs (S.state s.old) (S.state s.new) result }
    ensures untangled { UntangledWithRoom (S.state s.old) d slot 4 result }
    ensures undamaged { NeverWithRoom (S.state s.old) d slot 4 result }
    ensures inodes { OnOk result (KeepsInodesBut (S.state s.old) (S.state s.new) d) }
    ensures readable { OnOk result (IsReadable (S.state s.new) d) }
    ensures size { OnOk result (GrowsToBlock (S.state s.old) (S.state s.new) d slot) }
    ensures bytes { OnOk result (WritesBytes (S.state s.old) (S.state s.new) d
        (place_of_slot (S.state s.old).origin.request slot) (little_bytes 4 number)) }
    ensures replaced { OnOk result
        (ReplacesNumber (S.state s.old) (S.state s.new) d slot number) }
{
    let _within_limits = s.geometry().request();
    let mut bytes = [0; 4];
    LittleEndian::write_u32(&mut bytes, number);
    write_slot(s, d, slot, &bytes)
}

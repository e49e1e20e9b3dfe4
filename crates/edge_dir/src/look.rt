ghost use Rattle.std.specs.Prelude.{◌≡◌, ◌≤◌, ◌*◌, IfOk, OnOk};
ghost use Rattle.edge_base.specs.commands.Descriptors.{first_empty};
ghost use Rattle.edge_base.specs.outside.Below.{SameBelow};
ghost use Rattle.edge_store.specs.Calls.{Called, KeepsPoint, Reads};
ghost use Rattle.edge_store.specs.State.{IsLive, IsNumber, HasInode};
ghost use Rattle.edge_tree.specs.Answers.{TellsWhatIs, NeverTangled};
ghost use Rattle.edge_dir.specs.Bounds.{IsFoundWithin, IsPlaceWithin, max_slots_of};
ghost use Rattle.edge_dir.specs.Directory.{IsDirectoryNode, NeverOnDirectory, OnSlots, IsFoundIn, IsPlaceIn, earlier, free_in};
ghost use Rattle.edge_dir.specs.Looked.{SeesPlace, SeesName, SeesFree};

use crate::block::{BLOCK_MOST, blocks_below_end, seek_in_block, slot_number};
use edge_slots::{Search, slots_in_block};
use edge_store::{Store, StoreFault};

/// A slot that has a name, and the number of the node that it names.
#[derive(Clone, Copy, Debug, PartialEq, Eq)]
pub struct Found {
    pub slot: u64,
    pub number: u32,
}

/// Where a name stands in a directory, or where it would go.
#[derive(Clone, Copy, Debug, PartialEq, Eq)]
pub enum Place {
    /// A slot has it.
    Taken(Found),
    /// No slot has it. The first empty slot, which may be a new one at the end.
    Free(u64),
}

/// Looks for a name, and for the first empty slot, in one pass: each data block is looked up and
/// read once, up to the one that has the name.
pub fn look_up<S: Store>(s: &mut S, d: u32, name: &[u8]) -> Result<Place, StoreFault>
    requires live { IsLive (S.state s.old) }
    requires number { IsNumber (S.state s.old) d }
    requires there { HasInode (S.state s.old) d }
    requires directory { IsDirectoryNode (S.state s.old) d }
    ensures called { Called (S.state s.old) (S.state s.new) result }
    ensures point { KeepsPoint (S.state s.old) (S.state s.new) }
    ensures reads { Reads (S.state s.old) (S.state s.new) result }
    ensures below { S.is_clean s.old → SameBelow
        (S.may_hold s.old) (S.may_hold s.new) (S.is_sure s.old) (S.is_sure s.new) }
    ensures clean { S.is_clean s.old → OnOk result (S.is_clean s.new) }
    ensures damage { TellsWhatIs (S.state s.old) (S.state s.new) result }
    ensures untangled { NeverTangled (S.state s.old) result }
    ensures undamaged { NeverOnDirectory (S.state s.old) d result }
    ensures within { IfOk result (IsPlaceWithin (S.state s.old).origin.request) }
    ensures seen { IfOk result (SeesPlace (S.state s.old) d name.now) }
    ensures place { IfOk result (λ place.
        OnSlots (S.state s.old) d (λ slots. IsPlaceIn slots name.now place)) }
{
    let g = s.geometry();
    let limits = g.request();
    let in_block = slots_in_block(&g);
    let blocks = blocks_below_end(s, d)?;
    let mut room = [0; BLOCK_MOST];
    let room = &mut room[..limits.block_size as usize];
    let mut free = None;
    for i in 0..blocks {
        let found = seek_in_block(s, d, i, name, room)?;
        match found {
            Search::Found { slot, number } => {
                let slot = slot_number(i, in_block, slot);
                return Ok(Place::Taken(Found { slot, number }));
            }
            Search::Missing { free: here } => free = earlier(free, i, in_block, here),
        }
    }
    match free {
        Some(slot) => Ok(Place::Free(slot)),
        None => Ok(Place::Free(slot_number(blocks, in_block, 0))),
    }
}

/// The first of two empty slots, the second of which is one of data block `i`.
fn earlier(free: Option<u64>, i: u32, in_block: u32, here: Option<u32>) -> Option<u64>
    ensures slot { result ≡ earlier free (i * in_block) here }
{
    match (free, here) {
        (Some(slot), _) => Some(slot),
        (None, Some(slot)) => Some(slot_number(i, in_block, slot)),
        (None, None) => None,
    }
}

/// The slot of a directory that has a name. None where no slot has it.
pub fn find<S: Store>(s: &mut S, d: u32, name: &[u8]) -> Result<Option<Found>, StoreFault>
    requires live { IsLive (S.state s.old) }
    requires number { IsNumber (S.state s.old) d }
    requires there { HasInode (S.state s.old) d }
    requires directory { IsDirectoryNode (S.state s.old) d }
    ensures called { Called (S.state s.old) (S.state s.new) result }
    ensures point { KeepsPoint (S.state s.old) (S.state s.new) }
    ensures reads { Reads (S.state s.old) (S.state s.new) result }
    ensures below { S.is_clean s.old → SameBelow
        (S.may_hold s.old) (S.may_hold s.new) (S.is_sure s.old) (S.is_sure s.new) }
    ensures clean { S.is_clean s.old → OnOk result (S.is_clean s.new) }
    ensures damage { TellsWhatIs (S.state s.old) (S.state s.new) result }
    ensures untangled { NeverTangled (S.state s.old) result }
    ensures undamaged { NeverOnDirectory (S.state s.old) d result }
    ensures within { IfOk result (IsFoundWithin (S.state s.old).origin.request) }
    ensures seen { IfOk result (SeesName (S.state s.old) d name.now) }
    ensures found { IfOk result (λ found.
        OnSlots (S.state s.old) d (λ slots. IsFoundIn slots name.now found)) }
{
    let place = look_up(s, d, name)?;
    match place {
        Place::Taken(found) => Ok(Some(found)),
        Place::Free(_) => Ok(None),
    }
}

/// The first empty slot of a directory, or a new one at its end. No block behind that slot's is
/// read.
pub fn free_slot<S: Store>(s: &mut S, d: u32) -> Result<u64, StoreFault>
    requires live { IsLive (S.state s.old) }
    requires number { IsNumber (S.state s.old) d }
    requires there { HasInode (S.state s.old) d }
    requires directory { IsDirectoryNode (S.state s.old) d }
    ensures called { Called (S.state s.old) (S.state s.new) result }
    ensures point { KeepsPoint (S.state s.old) (S.state s.new) }
    ensures reads { Reads (S.state s.old) (S.state s.new) result }
    ensures below { S.is_clean s.old → SameBelow
        (S.may_hold s.old) (S.may_hold s.new) (S.is_sure s.old) (S.is_sure s.new) }
    ensures clean { S.is_clean s.old → OnOk result (S.is_clean s.new) }
    ensures damage { TellsWhatIs (S.state s.old) (S.state s.new) result }
    ensures untangled { NeverTangled (S.state s.old) result }
    ensures undamaged { NeverOnDirectory (S.state s.old) d result }
    ensures most { IfOk result (λ slot. slot ≤ max_slots_of (S.state s.old).origin.request) }
    ensures seen { IfOk result (SeesFree (S.state s.old) d) }
    ensures slot { IfOk result (λ slot.
        OnSlots (S.state s.old) d (λ slots. slot ≡ first_empty slots)) }
{
    let g = s.geometry();
    let limits = g.request();
    let in_block = slots_in_block(&g);
    let blocks = blocks_below_end(s, d)?;
    let mut room = [0; BLOCK_MOST];
    let room = &mut room[..limits.block_size as usize];
    for i in 0..blocks {
        let found = seek_in_block(s, d, i, b"", room)?;
        match free_in(found) {
            Some(slot) => return Ok(slot_number(i, in_block, slot)),
            None => {}
        }
    }
    Ok(slot_number(blocks, in_block, 0))
}

/// The empty slot that a search found.
fn free_in(found: Search) -> Option<u32>
    ensures { result ≡ free_in found }
{
    match found {
        Search::Found { .. } => None,
        Search::Missing { free } => free,
    }
}

ghost use Rattle.std.specs.Prelude.{◌≡◌, ◌<◌, ◌≤◌, IfSome, Some, IfOk, OnOk};
ghost use Rattle.edge_base.specs.layout.Places.{max_blocks_of};
ghost use Rattle.edge_base.specs.outside.Below.{SameBelow};
ghost use Rattle.edge_store.specs.Calls.{Called, KeepsPoint, Reads};
ghost use Rattle.edge_store.specs.State.{IsLive, IsNumber, HasInode};
ghost use Rattle.edge_tree.specs.Answers.{TellsWhatIs, NeverTangled, NeverOnShaped};
ghost use Rattle.edge_tree.specs.Chains.{IsFreshOnChain};
ghost use Rattle.edge_space.specs.Answers.{AreThere, AreBlocksAfter, IsClearNeed, IsPutNeed, IsNeedOf, NeverOnNamed};
ghost use Rattle.edge_space.specs.Changes.{IsWithin};
ghost use Rattle.edge_space.specs.Slots.{IsSlotWithin, block_of_slot, blocks_with};
ghost use Rattle.edge_space.specs.declared.change.Change.TheVariants.{Slots};

use crate::beside::fresh_beside;
use crate::change::SlotAt;
use edge_base::Geometry;
use edge_cut::cut_cost;
use edge_dir::blocks_when_cleared;
use edge_slots::slots_in_block;
use edge_store::{Store, StoreFault};
use edge_tree::chain_of;

/// The data block of a slot.
fn block_of_slot(g: Geometry, at: SlotAt) -> u32
    requires { IsSlotWithin g at }
    ensures block { result ≡ block_of_slot g at }
    ensures low { result < max_blocks_of g }
{
    let _most = g.max_blocks();
    (at.slot / u64::from(slots_in_block(&g))) as u32
}

/// How many data blocks a directory with so many has when an entry is put into a slot, which may be
/// one of another directory.
fn blocks_with(g: Geometry, put: Option<SlotAt>, d: u32, blocks: u32) -> u32
    requires slot { IfSome put (IsSlotWithin g) }
    requires most { blocks ≤ max_blocks_of g }
    ensures count { result ≡ blocks_with g put d blocks }
    ensures most { result ≤ max_blocks_of g }
{
    let _most = g.max_blocks();
    match put {
        Some(at) => {
            if at.dir != d {
                return blocks;
            }
            blocks.max(block_of_slot(g, at) + 1)
        }
        None => blocks,
    }
}

/// How many data blocks of a directory are left when a slot of it is cleared, and an entry was put
/// into another before.
fn blocks_after<S: Store>(s: &mut S, put: Option<SlotAt>, clear: SlotAt) -> Result<u32, StoreFault>
    requires live { IsLive (S.state s.old) }
    requires there { AreThere (S.state s.old) (Slots put (Some clear)) }
    requires within { IsWithin (S.state s.old).origin.request (Slots put (Some clear)) }
    ensures called { Called (S.state s.old) (S.state s.new) result }
    ensures point { KeepsPoint (S.state s.old) (S.state s.new) }
    ensures reads { Reads (S.state s.old) (S.state s.new) result }
    ensures below { S.is_clean s.old → SameBelow
        (S.may_hold s.old) (S.may_hold s.new) (S.is_sure s.old) (S.is_sure s.new) }
    ensures clean { S.is_clean s.old → OnOk result (S.is_clean s.new) }
    ensures damage { TellsWhatIs (S.state s.old) (S.state s.new) result }
    ensures untangled { NeverTangled (S.state s.old) result }
    ensures undamaged { NeverOnNamed (S.state s.old) (Slots put (Some clear)) result }
    ensures most { IfOk result (λ left. left ≤ max_blocks_of (S.state s.old).origin.request) }
    ensures left { IfOk result (AreBlocksAfter (S.state s.old) put clear) }
{
    let g = s.geometry();
    let _within_limits = g.request();
    let blocks = blocks_when_cleared(s, clear.dir, clear.slot)?;
    Ok(blocks_with(g, put, clear.dir, blocks))
}

/// How many positions of the chain of a data block are fresh.
fn fresh_of_block<S: Store>(s: &mut S, n: u32, i: u32) -> Result<u32, StoreFault>
    requires live { IsLive (S.state s.old) }
    requires number { IsNumber (S.state s.old) n }
    requires there { HasInode (S.state s.old) n }
    requires index { i < max_blocks_of (S.state s.old).origin.request }
    ensures called { Called (S.state s.old) (S.state s.new) result }
    ensures point { KeepsPoint (S.state s.old) (S.state s.new) }
    ensures reads { Reads (S.state s.old) (S.state s.new) result }
    ensures below { S.is_clean s.old → SameBelow
        (S.may_hold s.old) (S.may_hold s.new) (S.is_sure s.old) (S.is_sure s.new) }
    ensures clean { S.is_clean s.old → OnOk result (S.is_clean s.new) }
    ensures damage { TellsWhatIs (S.state s.old) (S.state s.new) result }
    ensures untangled { NeverTangled (S.state s.old) result }
    ensures undamaged { NeverOnShaped (S.state s.old) n result }
    ensures most { IfOk result (λ fresh. fresh ≤ 3) }
    ensures fresh { IfOk result (IsFreshOnChain (S.state s.old) n i) }
{
    let chain = chain_of(s, n, i)?;
    Ok(chain.fresh)
}

/// How many positions are fresh where a slot is cleared and so many data blocks are left: those of
/// the chain of its block, or else those that the cut makes new.
fn fresh_of_clear<S: Store>(s: &mut S, clear: SlotAt, left: u32) -> Result<u32, StoreFault>
    requires live { IsLive (S.state s.old) }
    requires number { IsNumber (S.state s.old) clear.dir }
    requires there { HasInode (S.state s.old) clear.dir }
    requires slot { IsSlotWithin (S.state s.old).origin.request clear }
    requires left { left ≤ max_blocks_of (S.state s.old).origin.request }
    ensures called { Called (S.state s.old) (S.state s.new) result }
    ensures point { KeepsPoint (S.state s.old) (S.state s.new) }
    ensures reads { Reads (S.state s.old) (S.state s.new) result }
    ensures below { S.is_clean s.old → SameBelow
        (S.may_hold s.old) (S.may_hold s.new) (S.is_sure s.old) (S.is_sure s.new) }
    ensures clean { S.is_clean s.old → OnOk result (S.is_clean s.new) }
    ensures damage { TellsWhatIs (S.state s.old) (S.state s.new) result }
    ensures untangled { NeverTangled (S.state s.old) result }
    ensures undamaged { NeverOnShaped (S.state s.old) clear.dir result }
    ensures most { IfOk result (λ fresh. fresh ≤ 3) }
    ensures need { IfOk result (IsClearNeed (S.state s.old) clear left) }
{
    let i = block_of_slot(s.geometry(), clear);
    if i < left {
        return fresh_of_block(s, clear.dir, i);
    }
    cut_cost(s, clear.dir, left)
}

/// How many positions are fresh where an entry is put into a slot, besides those that are counted
/// where another is cleared and so many data blocks are left.
fn fresh_of_put<S: Store>(
    s: &mut S,
    put: SlotAt,
    clear: SlotAt,
    left: u32,
) -> Result<u32, StoreFault>
    requires live { IsLive (S.state s.old) }
    requires number { IsNumber (S.state s.old) put.dir }
    requires there { HasInode (S.state s.old) put.dir }
    requires slot { IsSlotWithin (S.state s.old).origin.request put }
    requires other { IsSlotWithin (S.state s.old).origin.request clear }
    ensures called { Called (S.state s.old) (S.state s.new) result }
    ensures point { KeepsPoint (S.state s.old) (S.state s.new) }
    ensures reads { Reads (S.state s.old) (S.state s.new) result }
    ensures below { S.is_clean s.old → SameBelow
        (S.may_hold s.old) (S.may_hold s.new) (S.is_sure s.old) (S.is_sure s.new) }
    ensures clean { S.is_clean s.old → OnOk result (S.is_clean s.new) }
    ensures damage { TellsWhatIs (S.state s.old) (S.state s.new) result }
    ensures untangled { NeverTangled (S.state s.old) result }
    ensures undamaged { NeverOnShaped (S.state s.old) put.dir result }
    ensures most { IfOk result (λ fresh. fresh ≤ 3) }
    ensures need { IfOk result (IsPutNeed (S.state s.old) put clear left) }
{
    let i = block_of_slot(s.geometry(), put);
    if put.dir != clear.dir {
        return fresh_of_block(s, put.dir, i);
    }
    let k = block_of_slot(s.geometry(), clear);
    fresh_beside(s, put.dir, i, k.min(left))
}

/// How many positions are fresh where a slot is cleared, and an entry was put into another before.
/// A position that both make dirty is counted once.
fn fresh_of_both<S: Store>(s: &mut S, put: Option<SlotAt>, clear: SlotAt) -> Result<u32, StoreFault>
    requires live { IsLive (S.state s.old) }
    requires there { AreThere (S.state s.old) (Slots put (Some clear)) }
    requires within { IsWithin (S.state s.old).origin.request (Slots put (Some clear)) }
    ensures called { Called (S.state s.old) (S.state s.new) result }
    ensures point { KeepsPoint (S.state s.old) (S.state s.new) }
    ensures reads { Reads (S.state s.old) (S.state s.new) result }
    ensures below { S.is_clean s.old → SameBelow
        (S.may_hold s.old) (S.may_hold s.new) (S.is_sure s.old) (S.is_sure s.new) }
    ensures clean { S.is_clean s.old → OnOk result (S.is_clean s.new) }
    ensures damage { TellsWhatIs (S.state s.old) (S.state s.new) result }
    ensures untangled { NeverTangled (S.state s.old) result }
    ensures undamaged { NeverOnNamed (S.state s.old) (Slots put (Some clear)) result }
    ensures need { IfOk result (IsNeedOf (S.state s.old) (Slots put (Some clear))) }
{
    let left = blocks_after(s, put, clear)?;
    let cleared = fresh_of_clear(s, clear, left)?;
    match put {
        Some(at) => {
            let besides = fresh_of_put(s, at, clear, left)?;
            Ok(cleared + besides)
        }
        None => Ok(cleared),
    }
}

/// How many positions an entry that is put and a slot that is cleared make dirty, that are not
/// dirty yet.
pub(crate) fn fresh_of_slots<S: Store>(
    s: &mut S,
    put: Option<SlotAt>,
    clear: Option<SlotAt>,
) -> Result<u32, StoreFault>
    requires live { IsLive (S.state s.old) }
    requires there { AreThere (S.state s.old) (Slots put clear) }
    requires within { IsWithin (S.state s.old).origin.request (Slots put clear) }
    ensures called { Called (S.state s.old) (S.state s.new) result }
    ensures point { KeepsPoint (S.state s.old) (S.state s.new) }
    ensures reads { Reads (S.state s.old) (S.state s.new) result }
    ensures below { S.is_clean s.old → SameBelow
        (S.may_hold s.old) (S.may_hold s.new) (S.is_sure s.old) (S.is_sure s.new) }
    ensures clean { S.is_clean s.old → OnOk result (S.is_clean s.new) }
    ensures damage { TellsWhatIs (S.state s.old) (S.state s.new) result }
    ensures untangled { NeverTangled (S.state s.old) result }
    ensures undamaged { NeverOnNamed (S.state s.old) (Slots put clear) result }
    ensures need { IfOk result (IsNeedOf (S.state s.old) (Slots put clear)) }
{
    if let Some(at) = clear {
        return fresh_of_both(s, put, at);
    }
    match put {
        Some(at) => {
            let i = block_of_slot(s.geometry(), at);
            fresh_of_block(s, at.dir, i)
        }
        None => Ok(0),
    }
}

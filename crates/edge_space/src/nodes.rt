ghost use Rattle.std.specs.Prelude.{◌≡◌, ◌≢◌, ◌<◌, ◌≤◌, ◌+◌, ◌^◌, IfOk, OnOk};
ghost use Rattle.edge_base.specs.declared.form.Form.TheVariants.{Indirect};
ghost use Rattle.edge_base.specs.layout.Places.{pointers_of, max_blocks_of};
ghost use Rattle.edge_base.specs.outside.Below.{SameBelow};
ghost use Rattle.edge_base.specs.tree.Positions.{positions_of_form};
ghost use Rattle.edge_store.specs.Calls.{Called, KeepsPoint, Reads};
ghost use Rattle.edge_store.specs.State.{IsLive, IsNumber, IsLink, HasInode};
ghost use Rattle.edge_count.specs.Runs.{run_first, run_count};
ghost use Rattle.edge_tree.specs.Answers.{TellsWhatIs, NeverTangled, NeverOnSound, NeverOnShaped, IsLinkedTo, IsLinkedSpot};
ghost use Rattle.edge_space.specs.Counts.{IsIndirectNode, IsPlaceCost, AreFreshPlaces, IsFreshRow, AreFreshRows};

use crate::rows::{Run, places_in};
use edge_base::Form;
use edge_store::{Spot, Store, StoreFault};
use edge_tree::{cost_of, entry_link, pointer_link};

/// What making the block in a place of an indirect node new takes.
fn place_cost<S: Store>(s: &mut S, at: Spot, place: u32) -> Result<u32, StoreFault>
    requires live { IsLive (S.state s.old) }
    requires block { IsLink (S.state s.old) at.block }
    requires owner { IsNumber (S.state s.old) at.owner }
    requires form { at.form ≡ Indirect }
    requires place { place < pointers_of (S.state s.old).origin.request }
    requires linked { IsLinkedSpot (S.state s.old) at }
    ensures called { Called (S.state s.old) (S.state s.new) result }
    ensures point { KeepsPoint (S.state s.old) (S.state s.new) }
    ensures reads { Reads (S.state s.old) (S.state s.new) result }
    ensures below { S.is_clean s.old → SameBelow
        (S.may_hold s.old) (S.may_hold s.new) (S.is_sure s.old) (S.is_sure s.new) }
    ensures clean { S.is_clean s.old → OnOk result (S.is_clean s.new) }
    ensures damage { TellsWhatIs (S.state s.old) (S.state s.new) result }
    ensures untangled { NeverTangled (S.state s.old) result }
    ensures undamaged { NeverOnSound (S.state s.old) at.owner result }
    ensures most { IfOk result (λ cost. cost ≤ 1) }
    ensures cost { IfOk result (IsPlaceCost (S.state s.old) at.block place) }
{
    let block = pointer_link(s, at, place)?;
    cost_of(s, block)
}

/// How many of the blocks in places side by side of an indirect node are not new.
fn fresh_places<S: Store>(s: &mut S, at: Spot, places: Run) -> Result<u32, StoreFault>
    requires live { IsLive (S.state s.old) }
    requires block { IsLink (S.state s.old) at.block }
    requires owner { IsNumber (S.state s.old) at.owner }
    requires form { at.form ≡ Indirect }
    requires places { places.first + places.count ≤ pointers_of (S.state s.old).origin.request }
    requires linked { IsLinkedSpot (S.state s.old) at }
    ensures called { Called (S.state s.old) (S.state s.new) result }
    ensures point { KeepsPoint (S.state s.old) (S.state s.new) }
    ensures reads { Reads (S.state s.old) (S.state s.new) result }
    ensures below { S.is_clean s.old → SameBelow
        (S.may_hold s.old) (S.may_hold s.new) (S.is_sure s.old) (S.is_sure s.new) }
    ensures clean { S.is_clean s.old → OnOk result (S.is_clean s.new) }
    ensures damage { TellsWhatIs (S.state s.old) (S.state s.new) result }
    ensures untangled { NeverTangled (S.state s.old) result }
    ensures undamaged { NeverOnSound (S.state s.old) at.owner result }
    ensures most { IfOk result (λ fresh. fresh ≤ places.count) }
    ensures fresh { IfOk result
        (AreFreshPlaces (S.state s.old) at.block places.first places.count) }
{
    let _size = s.geometry().request().block_size;
    let mut fresh = 0;
    for place in places.first..places.first + places.count {
        fresh += place_cost(s, at, place)?;
    }
    Ok(fresh)
}

/// An indirect node, by its number.
fn indirect_node<S: Store>(s: &mut S, n: u32, row: u32) -> Result<u32, StoreFault>
    requires live { IsLive (S.state s.old) }
    requires number { IsNumber (S.state s.old) n }
    requires there { HasInode (S.state s.old) n }
    requires row { row < positions_of_form (S.state s.old).origin.request Indirect }
    ensures called { Called (S.state s.old) (S.state s.new) result }
    ensures point { KeepsPoint (S.state s.old) (S.state s.new) }
    ensures reads { Reads (S.state s.old) (S.state s.new) result }
    ensures below { S.is_clean s.old → SameBelow
        (S.may_hold s.old) (S.may_hold s.new) (S.is_sure s.old) (S.is_sure s.new) }
    ensures clean { S.is_clean s.old → OnOk result (S.is_clean s.new) }
    ensures damage { TellsWhatIs (S.state s.old) (S.state s.new) result }
    ensures untangled { NeverTangled (S.state s.old) result }
    ensures undamaged { NeverOnSound (S.state s.old) n result }
    ensures link { IfOk result (IsLink (S.state s.old)) }
    ensures linked { IfOk result (IsLinkedTo (S.state s.old) n Indirect) }
    ensures node { IfOk result (IsIndirectNode (S.state s.old) n row) }
{
    let r = s.geometry().request();
    if row < r.indirect {
        return entry_link(s, n, r.direct + row);
    }
    let pointers = (r.block_size - 20) / 4;
    let below = row - r.indirect;
    let block = entry_link(s, n, r.direct + r.indirect + below / pointers)?;
    let top = Spot {
        block,
        form: Form::Double,
        owner: n,
    };
    pointer_link(s, top, below % pointers)
}

/// How many positions are fresh of an indirect node and of places side by side in it.
fn fresh_row<S: Store>(s: &mut S, n: u32, row: u32, places: Run) -> Result<u32, StoreFault>
    requires live { IsLive (S.state s.old) }
    requires number { IsNumber (S.state s.old) n }
    requires there { HasInode (S.state s.old) n }
    requires row { row < positions_of_form (S.state s.old).origin.request Indirect }
    requires places { places.first + places.count ≤ pointers_of (S.state s.old).origin.request }
    ensures called { Called (S.state s.old) (S.state s.new) result }
    ensures point { KeepsPoint (S.state s.old) (S.state s.new) }
    ensures reads { Reads (S.state s.old) (S.state s.new) result }
    ensures below { S.is_clean s.old → SameBelow
        (S.may_hold s.old) (S.may_hold s.new) (S.is_sure s.old) (S.is_sure s.new) }
    ensures clean { S.is_clean s.old → OnOk result (S.is_clean s.new) }
    ensures damage { TellsWhatIs (S.state s.old) (S.state s.new) result }
    ensures untangled { NeverTangled (S.state s.old) result }
    ensures undamaged { NeverOnSound (S.state s.old) n result }
    ensures most { IfOk result (λ fresh. fresh ≤ 1 + places.count) }
    ensures fresh { IfOk result
        (IsFreshRow (S.state s.old) n row places.first places.count) }
{
    let _size = s.geometry().request().block_size;
    let block = indirect_node(s, n, row)?;
    let node = cost_of(s, block)?;
    let at = Spot {
        block,
        form: Form::Indirect,
        owner: n,
    };
    let blocks = fresh_places(s, at, places)?;
    Ok(node + blocks)
}

/// How many positions are fresh of the indirect nodes that a run of data blocks goes through, and
/// of the data blocks in them. Each indirect node is looked up once.
pub(crate) fn fresh_rows<S: Store>(
    s: &mut S,
    n: u32,
    run: Run,
    rows: Run,
) -> Result<u32, StoreFault>
    requires live { IsLive (S.state s.old) }
    requires number { IsNumber (S.state s.old) n }
    requires there { HasInode (S.state s.old) n }
    requires few { run.count ≤ 2 ^ 24 }
    requires end { run.first + run.count ≤ max_blocks_of (S.state s.old).origin.request }
    requires fewer { rows.count ≤ run.count }
    requires within { rows.first + rows.count < 2 ^ 32 }
    requires first { rows.first
        ≡ run_first (S.state s.old).origin.request run.first run.count Indirect }
    requires count { rows.count
        ≡ run_count (S.state s.old).origin.request run.first run.count Indirect }
    ensures called { Called (S.state s.old) (S.state s.new) result }
    ensures point { KeepsPoint (S.state s.old) (S.state s.new) }
    ensures reads { Reads (S.state s.old) (S.state s.new) result }
    ensures below { S.is_clean s.old → SameBelow
        (S.may_hold s.old) (S.may_hold s.new) (S.is_sure s.old) (S.is_sure s.new) }
    ensures clean { S.is_clean s.old → OnOk result (S.is_clean s.new) }
    ensures damage { TellsWhatIs (S.state s.old) (S.state s.new) result }
    ensures untangled { NeverTangled (S.state s.old) result }
    ensures undamaged { NeverOnShaped (S.state s.old) n result }
    ensures most { IfOk result (λ fresh. fresh ≤ rows.count + run.count) }
    ensures fresh { IfOk result (AreFreshRows (S.state s.old) n run.first run.count) }
{
    let mut fresh = 0;
    for row in rows.first..rows.first + rows.count {
        let places = places_in(s.geometry(), run, row);
        fresh += fresh_row(s, n, row, places)?;
    }
    Ok(fresh)
}

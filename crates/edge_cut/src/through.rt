ghost use Rattle.std.specs.Prelude.{◌≡◌, ◌≢◌, ◌<◌, ◌≤◌, ◌+◌, ◌^◌, ◌||◌, IfOk, OnOk};
ghost use Rattle.edge_base.specs.declared.form.Form.TheVariants.{Plain, Indirect, Double as DoubleForm};
ghost use Rattle.edge_base.specs.declared.way.Way.TheVariants.{Single, Double};
ghost use Rattle.edge_base.specs.layout.Places.{entries_of, pointers_of, max_blocks_of};
ghost use Rattle.edge_base.specs.outside.Below.{SameBelow};
ghost use Rattle.edge_store.specs.Calls.{Called, KeepsPoint, Reads};
ghost use Rattle.edge_store.specs.Damages.{form_of_entry};
ghost use Rattle.edge_store.specs.State.{IsLive, IsNumber, IsAllocable, IsLink, HasInode};
ghost use Rattle.edge_shape.specs.Where.{through, between_double};
ghost use Rattle.edge_tree.specs.Answers.{TellsWhatIs, NeverTangled, NeverOnShaped, IsLinkedTo, IsLinkedSpot, IsSpotOf, IsReadable};
ghost use Rattle.edge_cut.specs.Through.{IsSomeIn, IsAbsentAt, IsKeptOfInner, IsCutOfInner, IsCutOfWay, IsCutAt, IsInRange, GoesThroughThere, HasSomeAt, HasSomeWithin, IsSomeOnWay, IsSomeOnWayTo};

use crate::drop::{hollow, pointers};
use crate::entries::entries;
use edge_base::{Form, Way};
use edge_shape::Cut;
use edge_store::{Spot, Store, StoreFault};
use edge_tree::{entry_link, pointer_link};

/// Whether something stays of a pointer node that is cut, and whether something goes.
#[derive(Clone, Copy, Debug, PartialEq, Eq)]
struct Sides {
    kept: bool,
    cut: bool,
}

/// Whether some pointer is there in the places of a node from one up to another.
fn has_some<S: Store>(s: &mut S, at: Spot, from: u32, upto: u32) -> Result<bool, StoreFault>
    requires live { IsLive (S.state s.old) }
    requires block { IsAllocable (S.state s.old) at.block }
    requires owner { IsNumber (S.state s.old) at.owner }
    requires form { at.form ≢ Plain }
    requires place { upto ≤ pointers_of (S.state s.old).origin.request }
    requires linked { IsLinkedSpot (S.state s.old) at }
    ensures called { Called (S.state s.old) (S.state s.new) result }
    ensures point { KeepsPoint (S.state s.old) (S.state s.new) }
    ensures reads { Reads (S.state s.old) (S.state s.new) result }
    ensures below { S.is_clean s.old → SameBelow
        (S.may_hold s.old) (S.may_hold s.new) (S.is_sure s.old) (S.is_sure s.new) }
    ensures clean { S.is_clean s.old → OnOk result (S.is_clean s.new) }
    ensures damage { TellsWhatIs (S.state s.old) (S.state s.new) result }
    ensures untangled { NeverTangled (S.state s.old) result }
    ensures undamaged { NeverOnShaped (S.state s.old) at.owner result }
    ensures spot { from < upto → OnOk result (IsSpotOf (S.state s.old) at) }
    ensures some { IfOk result (IsSomeIn (S.state s.old) at from upto) }
{
    for place in from..upto {
        if pointer_link(s, at, place)? != 0 {
            return Ok(true);
        }
    }
    Ok(false)
}

/// What stays of a pointer node and what goes, where it is cut from a place on.
fn sides_of<S: Store>(s: &mut S, at: Spot, place: u32) -> Result<Sides, StoreFault>
    requires live { IsLive (S.state s.old) }
    requires block { IsAllocable (S.state s.old) at.block }
    requires owner { IsNumber (S.state s.old) at.owner }
    requires readable { IsReadable (S.state s.old) at.owner }
    requires form { at.form ≢ Plain }
    requires place { place ≤ pointers_of (S.state s.old).origin.request }
    requires linked { IsLinkedSpot (S.state s.old) at }
    ensures called { Called (S.state s.old) (S.state s.new) result }
    ensures point { KeepsPoint (S.state s.old) (S.state s.new) }
    ensures reads { Reads (S.state s.old) (S.state s.new) result }
    ensures below { S.is_clean s.old → SameBelow
        (S.may_hold s.old) (S.may_hold s.new) (S.is_sure s.old) (S.is_sure s.new) }
    ensures clean { S.is_clean s.old → OnOk result (S.is_clean s.new) }
    ensures damage { TellsWhatIs (S.state s.old) (S.state s.new) result }
    ensures untangled { NeverTangled (S.state s.old) result }
    ensures undamaged { NeverOnShaped (S.state s.old) at.owner result }
    ensures kept { IfOk result (λ sides. IsSomeIn (S.state s.old) at 0 place sides.kept) }
    ensures cut { IfOk result (λ sides. IsSomeIn (S.state s.old) at place
        (pointers_of (S.state s.old).origin.request) sides.cut) }
    ensures some { OnOk result (HasSomeAt (S.state s.old) at) }
{
    let kept = has_some(s, at, 0, place)?;
    let end = pointers(s);
    let cut = has_some(s, at, place, end)?;
    if !kept && !cut {
        return Err(hollow(s, at));
    }
    Ok(Sides { kept, cut })
}

/// Where a cut from a place on of the indirect node of an entry goes through.
fn single<S: Store>(s: &mut S, n: u32, entry: u32, place: u32) -> Result<Cut, StoreFault>
    requires live { IsLive (S.state s.old) }
    requires number { IsNumber (S.state s.old) n }
    requires there { HasInode (S.state s.old) n }
    requires entry { entry < entries_of (S.state s.old).origin.request }
    requires form { form_of_entry (S.state s.old).origin.request entry ≡ Indirect }
    requires place { place < pointers_of (S.state s.old).origin.request }
    ensures called { Called (S.state s.old) (S.state s.new) result }
    ensures point { KeepsPoint (S.state s.old) (S.state s.new) }
    ensures reads { Reads (S.state s.old) (S.state s.new) result }
    ensures below { S.is_clean s.old → SameBelow
        (S.may_hold s.old) (S.may_hold s.new) (S.is_sure s.old) (S.is_sure s.new) }
    ensures clean { S.is_clean s.old → OnOk result (S.is_clean s.new) }
    ensures damage { TellsWhatIs (S.state s.old) (S.state s.new) result }
    ensures untangled { NeverTangled (S.state s.old) result }
    ensures undamaged { NeverOnShaped (S.state s.old) n result }
    ensures range { IfOk result (IsInRange (S.state s.old)) }
    ensures cut { IfOk result (IsCutOfWay (S.state s.old) n (Single entry place)) }
    ensures some { OnOk result (IsSomeOnWay (S.state s.old) n (Single entry place)) }
{
    if place == 0 {
        return Ok(Cut::Whole { entry });
    }
    let block = entry_link(s, n, entry)?;
    if block == 0 {
        return Ok(Cut::Whole { entry: entry + 1 });
    }
    let at = Spot {
        block,
        form: Form::Indirect,
        owner: n,
    };
    let sides = sides_of(s, at, place)?;
    if !sides.cut {
        return Ok(Cut::Whole { entry: entry + 1 });
    }
    if !sides.kept {
        return Ok(Cut::Whole { entry });
    }
    Ok(Cut::Node { entry, place })
}

/// What stays and what goes of the indirect node in a place of a double-indirect node.
fn inner<S: Store>(s: &mut S, n: u32, block: u32, place: u32) -> Result<Sides, StoreFault>
    requires live { IsLive (S.state s.old) }
    requires number { IsNumber (S.state s.old) n }
    requires readable { IsReadable (S.state s.old) n }
    requires link { IsLink (S.state s.old) block }
    requires linked { IsLinkedTo (S.state s.old) n Indirect block }
    requires place { place < pointers_of (S.state s.old).origin.request }
    ensures called { Called (S.state s.old) (S.state s.new) result }
    ensures point { KeepsPoint (S.state s.old) (S.state s.new) }
    ensures reads { Reads (S.state s.old) (S.state s.new) result }
    ensures below { S.is_clean s.old → SameBelow
        (S.may_hold s.old) (S.may_hold s.new) (S.is_sure s.old) (S.is_sure s.new) }
    ensures clean { S.is_clean s.old → OnOk result (S.is_clean s.new) }
    ensures damage { TellsWhatIs (S.state s.old) (S.state s.new) result }
    ensures untangled { NeverTangled (S.state s.old) result }
    ensures undamaged { NeverOnShaped (S.state s.old) n result }
    ensures kept { IfOk result (λ sides. IsKeptOfInner (S.state s.old) block place sides.kept) }
    ensures cut { IfOk result (λ sides. IsCutOfInner (S.state s.old) block place sides.cut) }
    ensures some { OnOk result (HasSomeWithin (S.state s.old) block place) }
{
    if block == 0 {
        return Ok(Sides {
            kept: false,
            cut: false,
        });
    }
    if place == 0 {
        return Ok(Sides {
            kept: false,
            cut: true,
        });
    }
    let at = Spot {
        block,
        form: Form::Indirect,
        owner: n,
    };
    sides_of(s, at, place)
}

/// What stays and what goes of a double-indirect node beside the indirect node in one place of it,
/// which is absent or not.
fn beside<S: Store>(s: &mut S, at: Spot, outer: u32, absent: bool) -> Result<Sides, StoreFault>
    requires live { IsLive (S.state s.old) }
    requires block { IsAllocable (S.state s.old) at.block }
    requires owner { IsNumber (S.state s.old) at.owner }
    requires readable { IsReadable (S.state s.old) at.owner }
    requires form { at.form ≢ Plain }
    requires place { outer < pointers_of (S.state s.old).origin.request }
    requires linked { IsLinkedSpot (S.state s.old) at }
    requires spot { IsSpotOf (S.state s.old) at }
    requires absent { IsAbsentAt (S.state s.old) at outer absent }
    ensures called { Called (S.state s.old) (S.state s.new) result }
    ensures point { KeepsPoint (S.state s.old) (S.state s.new) }
    ensures reads { Reads (S.state s.old) (S.state s.new) result }
    ensures below { S.is_clean s.old → SameBelow
        (S.may_hold s.old) (S.may_hold s.new) (S.is_sure s.old) (S.is_sure s.new) }
    ensures clean { S.is_clean s.old → OnOk result (S.is_clean s.new) }
    ensures damage { TellsWhatIs (S.state s.old) (S.state s.new) result }
    ensures untangled { NeverTangled (S.state s.old) result }
    ensures undamaged { NeverOnShaped (S.state s.old) at.owner result }
    ensures kept { IfOk result (λ sides. IsSomeIn (S.state s.old) at 0 outer sides.kept) }
    ensures cut { IfOk result (λ sides. IsSomeIn (S.state s.old) at (outer + 1)
        (pointers_of (S.state s.old).origin.request) sides.cut) }
    ensures some { OnOk result (HasSomeAt (S.state s.old) at) }
{
    let kept = has_some(s, at, 0, outer)?;
    let end = pointers(s);
    let cut = has_some(s, at, outer + 1, end)?;
    if absent && !kept && !cut {
        return Err(hollow(s, at));
    }
    Ok(Sides { kept, cut })
}

/// Where a cut goes through a double-indirect node, by what stays and what goes of the indirect
/// node in the place `outer` of it, and around that.
fn join(within: Sides, around: Sides, entry: u32, outer: u32, place: u32) -> Cut
    requires entry { entry < 2 ^ 16 }
    requires outer { outer < 2 ^ 16 }
    ensures { result ≡ through (around.kept || within.kept) (around.cut || within.cut) entry
        (between_double within.kept within.cut entry outer place) }
{
    if !around.cut && !within.cut {
        return Cut::Whole { entry: entry + 1 };
    }
    if !around.kept && !within.kept {
        return Cut::Whole { entry };
    }
    if within.kept && within.cut {
        return Cut::Both {
            entry,
            outer,
            place,
        };
    }
    Cut::Top {
        entry,
        place: if within.kept { outer + 1 } else { outer },
    }
}

/// Where a cut goes through the double-indirect node of an entry, from a place on of the indirect
/// node in the place `outer` of it.
fn double<S: Store>(
    s: &mut S,
    n: u32,
    entry: u32,
    outer: u32,
    place: u32,
) -> Result<Cut, StoreFault>
    requires live { IsLive (S.state s.old) }
    requires number { IsNumber (S.state s.old) n }
    requires there { HasInode (S.state s.old) n }
    requires entry { entry < entries_of (S.state s.old).origin.request }
    requires form { form_of_entry (S.state s.old).origin.request entry ≡ DoubleForm }
    requires outer { outer < pointers_of (S.state s.old).origin.request }
    requires place { place < pointers_of (S.state s.old).origin.request }
    ensures called { Called (S.state s.old) (S.state s.new) result }
    ensures point { KeepsPoint (S.state s.old) (S.state s.new) }
    ensures reads { Reads (S.state s.old) (S.state s.new) result }
    ensures below { S.is_clean s.old → SameBelow
        (S.may_hold s.old) (S.may_hold s.new) (S.is_sure s.old) (S.is_sure s.new) }
    ensures clean { S.is_clean s.old → OnOk result (S.is_clean s.new) }
    ensures damage { TellsWhatIs (S.state s.old) (S.state s.new) result }
    ensures untangled { NeverTangled (S.state s.old) result }
    ensures undamaged { NeverOnShaped (S.state s.old) n result }
    ensures range { IfOk result (IsInRange (S.state s.old)) }
    ensures cut { IfOk result (IsCutOfWay (S.state s.old) n (Double entry outer place)) }
    ensures some { OnOk result (IsSomeOnWay (S.state s.old) n (Double entry outer place)) }
{
    let block = entry_link(s, n, entry)?;
    if block == 0 {
        return Ok(Cut::Whole { entry: entry + 1 });
    }
    let at = Spot {
        block,
        form: Form::Double,
        owner: n,
    };
    let node = pointer_link(s, at, outer)?;
    let within = inner(s, n, node, place)?;
    let around = beside(s, at, outer, node == 0)?;
    Ok(join(within, around, entry, outer, place))
}

/// Where a cut of a node at an index goes through. It reads the pointer nodes on the way to the
/// index alone, and of each the places up to the first pointer that stays, and the first that goes.
pub(crate) fn cut_through<S: Store>(s: &mut S, n: u32, i: u32) -> Result<Cut, StoreFault>
    requires live { IsLive (S.state s.old) }
    requires number { IsNumber (S.state s.old) n }
    requires there { HasInode (S.state s.old) n }
    requires index { i ≤ max_blocks_of (S.state s.old).origin.request }
    ensures called { Called (S.state s.old) (S.state s.new) result }
    ensures point { KeepsPoint (S.state s.old) (S.state s.new) }
    ensures reads { Reads (S.state s.old) (S.state s.new) result }
    ensures below { S.is_clean s.old → SameBelow
        (S.may_hold s.old) (S.may_hold s.new) (S.is_sure s.old) (S.is_sure s.new) }
    ensures clean { S.is_clean s.old → OnOk result (S.is_clean s.new) }
    ensures damage { TellsWhatIs (S.state s.old) (S.state s.new) result }
    ensures untangled { NeverTangled (S.state s.old) result }
    ensures undamaged { NeverOnShaped (S.state s.old) n result }
    ensures range { IfOk result (IsInRange (S.state s.old)) }
    ensures cut { IfOk result (IsCutAt (S.state s.old) n i) }
    ensures within { IfOk result (GoesThroughThere (S.state s.old) n) }
    ensures some { OnOk result (IsSomeOnWayTo (S.state s.old) n i) }
{
    let g = s.geometry();
    if i == g.max_blocks() {
        return Ok(Cut::Whole { entry: entries(s) });
    }
    match g.way(i) {
        Way::Direct { entry } => Ok(Cut::Whole { entry }),
        Way::Single { entry, place } => single(s, n, entry, place),
        Way::Double {
            entry,
            outer,
            place,
        } => double(s, n, entry, outer, place),
    }
}

ghost use Rattle.std.specs.Prelude.{◌≡◌, ◌≢◌, ◌<◌, ◌≤◌, OnOk, IfOk};
ghost use Rattle.edge_base.specs.declared.form.Form.TheVariants.{Plain, Double as DoubleForm};
ghost use Rattle.edge_base.specs.layout.Places.{entries_of, pointers_of, max_blocks_of};
ghost use Rattle.edge_store.specs.Calls.{Called, KeepsPoint, KeepsPlacesBut};
ghost use Rattle.edge_store.specs.Damages.{form_of_entry};
ghost use Rattle.edge_store.specs.State.{IsLive, IsNumber, IsAllocable, HasInode, IsNew};
ghost use Rattle.edge_shape.specs.declared.cut.Cut.TheVariants.{Both};
ghost use Rattle.edge_tree.specs.Answers.{TellsWhatIs, IsReadable};
ghost use Rattle.edge_tree.specs.Own.{RoomForUnder, TellsTangleOf, UntangledIf, UndamagedIf, IsNodeTidy, IsNodeShaped, KeepsHeads};
ghost use Rattle.edge_cut.specs.Cuts.{node_cut, IsTopOf, IsTopSpot, StaysUnder, RenewsPair, RoomForCut, RoomForCutAt, NeverOnCut, TakesSteps, TakesStepsAt, CutsFrom};
ghost use Rattle.edge_cut.specs.Through.{IsSomeOnWayTo, IsFullGone};

use crate::entries::cut_entries;
use crate::places::{cut_places, drop_below};
use crate::through::cut_through;
use edge_base::Form;
use edge_shape::Cut;
use edge_store::{Spot, Store, StoreFault};
use edge_tree::{own_entry, own_pointer};

/// Makes the pointer node of an entry new and cuts it from a place on. The entries behind it go.
fn cut_node<S: Store>(
    s: &mut S,
    n: u32,
    entry: u32,
    form: Form,
    place: u32,
) -> Result<(), StoreFault>
    requires live { IsLive (S.state s.old) }
    requires number { IsNumber (S.state s.old) n }
    requires there { HasInode (S.state s.old) n }
    requires entry { entry < entries_of (S.state s.old).origin.request }
    requires form { form ≡ form_of_entry (S.state s.old).origin.request entry }
    requires node { form ≢ Plain }
    requires place { place ≤ pointers_of (S.state s.old).origin.request }
    ensures called { Called (S.state s.old) (S.state s.new) result }
    ensures point { KeepsPoint (S.state s.old) (S.state s.new) }
    ensures places { OnOk result (KeepsPlacesBut (S.state s.old) (S.state s.new) n) }
    ensures damage { TellsWhatIs (S.state s.old) (S.state s.new) result }
    ensures untangled { UntangledIf (S.state s.old)
        (RoomForCut (S.state s.old) n (node_cut form entry place)) result }
    ensures tangled { TellsTangleOf (S.state s.old) (S.state s.new) n result }
    ensures undamaged { NeverOnCut (S.state s.old) n (node_cut form entry place) result }
    ensures heads { OnOk result (KeepsHeads (S.state s.old) (S.state s.new) n) }
    ensures there { OnOk result (HasInode (S.state s.new) n) }
    ensures steps { OnOk result
        (TakesSteps (S.state s.old) (S.state s.new) n (node_cut form entry place)) }
{
    let block = own_entry(s, n, entry, form)?;
    let at = Spot {
        block,
        form,
        owner: n,
    };
    cut_places(s, at, 0, place)?;
    cut_entries(s, n, entry + 1)
}

/// The pointer nodes that a cut goes through: a double-indirect one, and an indirect one in a place
/// of it.
#[derive(Clone, Copy, Debug, PartialEq, Eq)]
struct Pair {
    top: u32,
    node: u32,
}

/// Makes the double-indirect node of an entry new, and the indirect node in a place of it.
fn own_pair<S: Store>(s: &mut S, n: u32, entry: u32, outer: u32) -> Result<Pair, StoreFault>
    requires live { IsLive (S.state s.old) }
    requires number { IsNumber (S.state s.old) n }
    requires there { HasInode (S.state s.old) n }
    requires entry { entry < entries_of (S.state s.old).origin.request }
    requires form { form_of_entry (S.state s.old).origin.request entry ≡ DoubleForm }
    requires outer { outer < pointers_of (S.state s.old).origin.request }
    ensures called { Called (S.state s.old) (S.state s.new) result }
    ensures point { KeepsPoint (S.state s.old) (S.state s.new) }
    ensures places { OnOk result (KeepsPlacesBut (S.state s.old) (S.state s.new) n) }
    ensures damage { TellsWhatIs (S.state s.old) (S.state s.new) result }
    ensures untangled { UntangledIf (S.state s.old)
        (RoomForUnder (S.state s.old) n entry outer) result }
    ensures tangled { TellsTangleOf (S.state s.old) (S.state s.new) n result }
    ensures undamaged { UndamagedIf (S.state s.old)
        (IsNodeTidy (S.state s.old) n) (RoomForUnder (S.state s.old) n entry outer) result }
    ensures top { IfOk result (λ pair. IsAllocable (S.state s.old) pair.top) }
    ensures node { IfOk result (λ pair. IsAllocable (S.state s.old) pair.node) }
    ensures top_new { IfOk result (λ pair. IsNew (S.state s.new) pair.top) }
    ensures node_new { IfOk result (λ pair. IsNew (S.state s.new) pair.node) }
    ensures readable { OnOk result (IsReadable (S.state s.new) n) }
    ensures made { IfOk result (λ pair.
        RenewsPair (S.state s.old) (S.state s.new) n entry outer pair.top pair.node) }
    ensures at_entry { IfOk result (λ pair. IsTopOf (S.state s.new) n pair.top) }
    ensures spot { IfOk result (λ pair. IsTopSpot (S.state s.new) n pair.top) }
    ensures below { IfOk result (λ pair. StaysUnder (S.state s.new) n pair.top pair.node) }
{
    let top = own_entry(s, n, entry, Form::Double)?;
    let at = Spot {
        block: top,
        form: Form::Double,
        owner: n,
    };
    let node = own_pointer(s, at, outer)?;
    Ok(Pair { top, node })
}

/// Cuts an indirect node and the double-indirect node above it, and drops the entries behind.
fn cut_pair<S: Store>(
    s: &mut S,
    n: u32,
    entry: u32,
    outer: u32,
    place: u32,
) -> Result<(), StoreFault>
    requires live { IsLive (S.state s.old) }
    requires number { IsNumber (S.state s.old) n }
    requires there { HasInode (S.state s.old) n }
    requires entry { entry < entries_of (S.state s.old).origin.request }
    requires form { form_of_entry (S.state s.old).origin.request entry ≡ DoubleForm }
    requires outer { outer < pointers_of (S.state s.old).origin.request }
    requires place { place ≤ pointers_of (S.state s.old).origin.request }
    ensures called { Called (S.state s.old) (S.state s.new) result }
    ensures point { KeepsPoint (S.state s.old) (S.state s.new) }
    ensures places { OnOk result (KeepsPlacesBut (S.state s.old) (S.state s.new) n) }
    ensures damage { TellsWhatIs (S.state s.old) (S.state s.new) result }
    ensures untangled { UntangledIf (S.state s.old)
        (RoomForCut (S.state s.old) n (Both entry outer place)) result }
    ensures tangled { TellsTangleOf (S.state s.old) (S.state s.new) n result }
    ensures undamaged { NeverOnCut (S.state s.old) n (Both entry outer place) result }
    ensures heads { OnOk result (KeepsHeads (S.state s.old) (S.state s.new) n) }
    ensures there { OnOk result (HasInode (S.state s.new) n) }
    ensures steps { OnOk result
        (TakesSteps (S.state s.old) (S.state s.new) n (Both entry outer place)) }
{
    let pair = own_pair(s, n, entry, outer)?;
    let top = Spot {
        block: pair.top,
        form: Form::Double,
        owner: n,
    };
    if pair.node == pair.top {
        return drop_below(s, top, 0, pair.node);
    }
    let node = Spot {
        block: pair.node,
        form: Form::Indirect,
        owner: n,
    };
    cut_places(s, node, pair.top, place)?;
    cut_places(s, top, 0, outer + 1)?;
    cut_entries(s, n, entry + 1)
}

/// Removes the data blocks of a node from an index on, and the pointer nodes with nothing left
/// under them.
///
/// It takes as many free blocks as `cut_cost` counts. Where fewer are free, the store ends with a
/// tangled node. Where it meets a pointer node with no pointer, the store ends with a wrong shape.
pub fn cut_from<S: Store>(s: &mut S, n: u32, i: u32) -> Result<(), StoreFault>
    requires live { IsLive (S.state s.old) }
    requires number { IsNumber (S.state s.old) n }
    requires there { HasInode (S.state s.old) n }
    requires index { i ≤ max_blocks_of (S.state s.old).origin.request }
    ensures called { Called (S.state s.old) (S.state s.new) result }
    ensures point { KeepsPoint (S.state s.old) (S.state s.new) }
    ensures places { OnOk result (KeepsPlacesBut (S.state s.old) (S.state s.new) n) }
    ensures damage { TellsWhatIs (S.state s.old) (S.state s.new) result }
    ensures untangled { UntangledIf (S.state s.old) (RoomForCutAt (S.state s.old) n i) result }
    ensures tangled { TellsTangleOf (S.state s.old) (S.state s.new) n result }
    ensures undamaged { UndamagedIf (S.state s.old)
        (IsNodeShaped (S.state s.old) n) (RoomForCutAt (S.state s.old) n i) result }
    ensures heads { OnOk result (KeepsHeads (S.state s.old) (S.state s.new) n) }
    ensures there { OnOk result (HasInode (S.state s.new) n) }
    ensures steps { OnOk result (TakesStepsAt (S.state s.old) (S.state s.new) n i) }
    ensures cut { OnOk result (CutsFrom (S.state s.old) (S.state s.new) n i) }
    ensures some { OnOk result (IsSomeOnWayTo (S.state s.old) n i) }
    ensures full { OnOk result (IsFullGone (S.state s.old) n i) }
{
    match cut_through(s, n, i)? {
        Cut::Whole { entry } => cut_entries(s, n, entry),
        Cut::Node { entry, place } => cut_node(s, n, entry, Form::Indirect, place),
        Cut::Top { entry, place } => cut_node(s, n, entry, Form::Double, place),
        Cut::Both {
            entry,
            outer,
            place,
        } => cut_pair(s, n, entry, outer, place),
    }
}

ghost use Rattle.std.specs.Prelude.{◌≡◌, ◌<◌, IfOk, OnOk};
ghost use Rattle.edge_base.specs.declared.form.Form.TheVariants.{Plain, Indirect, Double as DoubleForm};
ghost use Rattle.edge_base.specs.declared.way.Way.TheVariants.{Single, Double};
ghost use Rattle.edge_base.specs.layout.Places.{entries_of, pointers_of, max_blocks_of};
ghost use Rattle.edge_base.specs.outside.Below.{SameBelow};
ghost use Rattle.edge_store.specs.Calls.{Called, KeepsPoint, Reads};
ghost use Rattle.edge_store.specs.Damages.{form_of_entry};
ghost use Rattle.edge_store.specs.State.{IsLive, IsNumber, IsLink, HasInode};
ghost use Rattle.edge_tree.specs.Answers.{TellsWhatIs, NeverTangled, NeverOnSound, NeverOnShaped, IsLinkedTo, IsDataBlock};
ghost use Rattle.edge_tree.specs.Chains.{IsOnWay};

use crate::link::{entry_link, pointer_link};
use edge_base::{Form, Way};
use edge_store::{Spot, Store, StoreFault};

/// The block in a place of the indirect node of an entry.
fn block_under<S: Store>(s: &mut S, n: u32, i: u32, place: u32) -> Result<u32, StoreFault>
    requires live { IsLive (S.state s.old) }
    requires number { IsNumber (S.state s.old) n }
    requires there { HasInode (S.state s.old) n }
    requires entry { i < entries_of (S.state s.old).origin.request }
    requires form { form_of_entry (S.state s.old).origin.request i ≡ Indirect }
    requires place { place < pointers_of (S.state s.old).origin.request }
    ensures called { Called (S.state s.old) (S.state s.new) result }
    ensures point { KeepsPoint (S.state s.old) (S.state s.new) }
    ensures reads { Reads (S.state s.old) (S.state s.new) result }
    ensures below { S.is_clean s.old → SameBelow
        (S.may_hold s.old) (S.may_hold s.new) (S.is_sure s.old) (S.is_sure s.new) }
    ensures clean { S.is_clean s.old → OnOk result (S.is_clean s.new) }
    ensures damage { TellsWhatIs (S.state s.old) (S.state s.new) result }
    ensures untangled { NeverTangled (S.state s.old) result }
    ensures undamaged { NeverOnSound (S.state s.old) n result }
    ensures link { IfOk result (IsLink (S.state s.old)) }
    ensures block { IfOk result (IsOnWay (S.state s.old) n (Single i place)) }
    ensures linked { IfOk result (IsLinkedTo (S.state s.old) n Plain) }
{
    let node = entry_link(s, n, i)?;
    let at = Spot {
        block: node,
        form: Form::Indirect,
        owner: n,
    };
    pointer_link(s, at, place)
}

/// The block in a place of an indirect node below the double-indirect node of an entry.
fn block_below<S: Store>(
    s: &mut S,
    n: u32,
    i: u32,
    outer: u32,
    place: u32,
) -> Result<u32, StoreFault>
    requires live { IsLive (S.state s.old) }
    requires number { IsNumber (S.state s.old) n }
    requires there { HasInode (S.state s.old) n }
    requires entry { i < entries_of (S.state s.old).origin.request }
    requires form { form_of_entry (S.state s.old).origin.request i ≡ DoubleForm }
    requires outer { outer < pointers_of (S.state s.old).origin.request }
    requires place { place < pointers_of (S.state s.old).origin.request }
    ensures called { Called (S.state s.old) (S.state s.new) result }
    ensures point { KeepsPoint (S.state s.old) (S.state s.new) }
    ensures reads { Reads (S.state s.old) (S.state s.new) result }
    ensures below { S.is_clean s.old → SameBelow
        (S.may_hold s.old) (S.may_hold s.new) (S.is_sure s.old) (S.is_sure s.new) }
    ensures clean { S.is_clean s.old → OnOk result (S.is_clean s.new) }
    ensures damage { TellsWhatIs (S.state s.old) (S.state s.new) result }
    ensures untangled { NeverTangled (S.state s.old) result }
    ensures undamaged { NeverOnSound (S.state s.old) n result }
    ensures link { IfOk result (IsLink (S.state s.old)) }
    ensures block { IfOk result (IsOnWay (S.state s.old) n (Double i outer place)) }
    ensures linked { IfOk result (IsLinkedTo (S.state s.old) n Plain) }
{
    let top = entry_link(s, n, i)?;
    let at = Spot {
        block: top,
        form: Form::Double,
        owner: n,
    };
    let node = pointer_link(s, at, outer)?;
    let at = Spot {
        block: node,
        form: Form::Indirect,
        owner: n,
    };
    pointer_link(s, at, place)
}

/// The data block at an index, 0 where it is absent.
pub fn block_of<S: Store>(s: &mut S, n: u32, i: u32) -> Result<u32, StoreFault>
    requires live { IsLive (S.state s.old) }
    requires number { IsNumber (S.state s.old) n }
    requires there { HasInode (S.state s.old) n }
    requires index { i < max_blocks_of (S.state s.old).origin.request }
    ensures called { Called (S.state s.old) (S.state s.new) result }
    ensures point { KeepsPoint (S.state s.old) (S.state s.new) }
    ensures reads { Reads (S.state s.old) (S.state s.new) result }
    ensures below { S.is_clean s.old → SameBelow
        (S.may_hold s.old) (S.may_hold s.new) (S.is_sure s.old) (S.is_sure s.new) }
    ensures clean { S.is_clean s.old → OnOk result (S.is_clean s.new) }
    ensures damage { TellsWhatIs (S.state s.old) (S.state s.new) result }
    ensures untangled { NeverTangled (S.state s.old) result }
    ensures undamaged { NeverOnShaped (S.state s.old) n result }
    ensures link { IfOk result (IsLink (S.state s.old)) }
    ensures block { IfOk result (IsDataBlock (S.state s.old) n i) }
    ensures linked { IfOk result (IsLinkedTo (S.state s.old) n Plain) }
{
    match s.geometry().way(i) {
        Way::Direct { entry } => entry_link(s, n, entry),
        Way::Single { entry, place } => block_under(s, n, entry, place),
        Way::Double {
            entry,
            outer,
            place,
        } => block_below(s, n, entry, outer, place),
    }
}

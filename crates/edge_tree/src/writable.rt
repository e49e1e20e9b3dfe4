ghost use Rattle.std.specs.Prelude.{◌≡◌, ◌<◌, IfOk, OnOk};
ghost use Rattle.edge_base.specs.declared.form.Form.TheVariants.{Double as DoubleForm};
ghost use Rattle.edge_base.specs.declared.way.Way.TheVariants.{Double};
ghost use Rattle.edge_base.specs.layout.Places.{entries_of, pointers_of, max_blocks_of};
ghost use Rattle.edge_store.specs.Calls.{Called, KeepsPoint, KeepsPlacesBut};
ghost use Rattle.edge_store.specs.Damages.{form_of_entry};
ghost use Rattle.edge_store.specs.State.{IsLive, IsNumber, IsAllocable, HasInode, IsNew};
ghost use Rattle.edge_tree.specs.Answers.{TellsWhatIs, IsReadable};
ghost use Rattle.edge_tree.specs.Own.{RoomForWay, RoomForChain, TellsTangleOf, UntangledIf, UndamagedIf, IsNodeTidy, IsNodeShaped, KeepsHeads, MakesWritable};
ghost use Rattle.edge_tree.specs.Blank.{FillsWay, MakesNew, MakesOverwritable};

use crate::own::{Renewal, own_under, renew_entry, renew_pointer};
use edge_base::{Form, Way};
use edge_store::{Spot, Store, StoreFault};

/// Makes the double-indirect node of an entry new, then the indirect node in a place of it, and
/// then the data block in a place of that one.
fn own_below<S: Store>(
    s: &mut S,
    n: u32,
    i: u32,
    outer: u32,
    place: u32,
    renewal: Renewal,
) -> Result<u32, StoreFault>
    requires live { IsLive (S.state s.old) }
    requires number { IsNumber (S.state s.old) n }
    requires there { HasInode (S.state s.old) n }
    requires entry { i < entries_of (S.state s.old).origin.request }
    requires form { form_of_entry (S.state s.old).origin.request i ≡ DoubleForm }
    requires outer { outer < pointers_of (S.state s.old).origin.request }
    requires place { place < pointers_of (S.state s.old).origin.request }
    ensures called { Called (S.state s.old) (S.state s.new) result }
    ensures point { KeepsPoint (S.state s.old) (S.state s.new) }
    ensures places { OnOk result (KeepsPlacesBut (S.state s.old) (S.state s.new) n) }
    ensures damage { TellsWhatIs (S.state s.old) (S.state s.new) result }
    ensures untangled { UntangledIf (S.state s.old)
        (RoomForWay (S.state s.old) n (Double i outer place)) result }
    ensures tangled { TellsTangleOf (S.state s.old) (S.state s.new) n result }
    ensures undamaged { UndamagedIf (S.state s.old) (IsNodeTidy (S.state s.old) n)
        (RoomForWay (S.state s.old) n (Double i outer place)) result }
    ensures block { IfOk result (IsAllocable (S.state s.old)) }
    ensures was_readable { OnOk result (IsReadable (S.state s.old) n) }
    ensures readable { OnOk result (IsReadable (S.state s.new) n) }
    ensures renewed { IfOk result
        (FillsWay (S.state s.old) (S.state s.new) n (Double i outer place) renewal) }
    ensures is_new { IfOk result (IsNew (S.state s.new)) }
{
    let block = own_under(s, n, i, Form::Double, outer, Renewal::Same)?;
    let node = Spot {
        block,
        form: Form::Indirect,
        owner: n,
    };
    renew_pointer(s, node, place, renewal)
}

/// Makes every position of the chain of a data block new, and answers the block.
fn make_new<S: Store>(s: &mut S, n: u32, i: u32, renewal: Renewal) -> Result<u32, StoreFault>
    requires live { IsLive (S.state s.old) }
    requires number { IsNumber (S.state s.old) n }
    requires there { HasInode (S.state s.old) n }
    requires index { i < max_blocks_of (S.state s.old).origin.request }
    ensures called { Called (S.state s.old) (S.state s.new) result }
    ensures point { KeepsPoint (S.state s.old) (S.state s.new) }
    ensures places { OnOk result (KeepsPlacesBut (S.state s.old) (S.state s.new) n) }
    ensures damage { TellsWhatIs (S.state s.old) (S.state s.new) result }
    ensures untangled { UntangledIf (S.state s.old) (RoomForChain (S.state s.old) n i) result }
    ensures tangled { TellsTangleOf (S.state s.old) (S.state s.new) n result }
    ensures undamaged { UndamagedIf (S.state s.old)
        (IsNodeShaped (S.state s.old) n) (RoomForChain (S.state s.old) n i) result }
    ensures heads { OnOk result (KeepsHeads (S.state s.old) (S.state s.new) n) }
    ensures readable { OnOk result (IsReadable (S.state s.new) n) }
    ensures block { IfOk result (IsAllocable (S.state s.old)) }
    ensures is_new { IfOk result (IsNew (S.state s.new)) }
    ensures made { IfOk result (MakesNew (S.state s.old) (S.state s.new) n i renewal) }
{
    match s.geometry().way(i) {
        Way::Direct { entry } => renew_entry(s, n, entry, Form::Plain, renewal),
        Way::Single { entry, place } => own_under(s, n, entry, Form::Indirect, place, renewal),
        Way::Double {
            entry,
            outer,
            place,
        } => own_below(s, n, entry, outer, place, renewal),
    }
}

/// Makes every position of the chain of a data block new, and answers the block, which may be
/// written then. An absent block is made with nothing in it.
///
/// It takes as many free blocks as `chain_of` counts. Where fewer are free, the store ends with a
/// tangled node.
pub fn make_writable<S: Store>(s: &mut S, n: u32, i: u32) -> Result<u32, StoreFault>
    requires live { IsLive (S.state s.old) }
    requires number { IsNumber (S.state s.old) n }
    requires there { HasInode (S.state s.old) n }
    requires index { i < max_blocks_of (S.state s.old).origin.request }
    ensures called { Called (S.state s.old) (S.state s.new) result }
    ensures point { KeepsPoint (S.state s.old) (S.state s.new) }
    ensures places { OnOk result (KeepsPlacesBut (S.state s.old) (S.state s.new) n) }
    ensures damage { TellsWhatIs (S.state s.old) (S.state s.new) result }
    ensures untangled { UntangledIf (S.state s.old) (RoomForChain (S.state s.old) n i) result }
    ensures tangled { TellsTangleOf (S.state s.old) (S.state s.new) n result }
    ensures undamaged { UndamagedIf (S.state s.old)
        (IsNodeShaped (S.state s.old) n) (RoomForChain (S.state s.old) n i) result }
    ensures heads { OnOk result (KeepsHeads (S.state s.old) (S.state s.new) n) }
    ensures readable { OnOk result (IsReadable (S.state s.new) n) }
    ensures block { IfOk result (IsAllocable (S.state s.old)) }
    ensures is_new { IfOk result (IsNew (S.state s.new)) }
    ensures made { IfOk result (MakesWritable (S.state s.old) (S.state s.new) n i) }
{
    make_new(s, n, i, Renewal::Same)
}

/// The same for a data block that is written whole then: one that takes the place of another has
/// nothing in it, and that one is not read.
pub fn make_overwritable<S: Store>(s: &mut S, n: u32, i: u32) -> Result<u32, StoreFault>
    requires live { IsLive (S.state s.old) }
    requires number { IsNumber (S.state s.old) n }
    requires there { HasInode (S.state s.old) n }
    requires index { i < max_blocks_of (S.state s.old).origin.request }
    ensures called { Called (S.state s.old) (S.state s.new) result }
    ensures point { KeepsPoint (S.state s.old) (S.state s.new) }
    ensures places { OnOk result (KeepsPlacesBut (S.state s.old) (S.state s.new) n) }
    ensures damage { TellsWhatIs (S.state s.old) (S.state s.new) result }
    ensures untangled { UntangledIf (S.state s.old) (RoomForChain (S.state s.old) n i) result }
    ensures tangled { TellsTangleOf (S.state s.old) (S.state s.new) n result }
    ensures undamaged { UndamagedIf (S.state s.old)
        (IsNodeShaped (S.state s.old) n) (RoomForChain (S.state s.old) n i) result }
    ensures heads { OnOk result (KeepsHeads (S.state s.old) (S.state s.new) n) }
    ensures readable { OnOk result (IsReadable (S.state s.new) n) }
    ensures block { IfOk result (IsAllocable (S.state s.old)) }
    ensures is_new { IfOk result (IsNew (S.state s.new)) }
    ensures made { IfOk result (MakesOverwritable (S.state s.old) (S.state s.new) n i) }
{
    make_new(s, n, i, Renewal::Blank)
}

ghost use Rattle.std.specs.Prelude.{◌≡◌, ◌≢◌, ◌≤◌, OnOk};
ghost use Rattle.edge_base.specs.declared.form.Form.TheVariants.{Plain, Double};
ghost use Rattle.edge_base.specs.layout.Places.{pointers_of};
ghost use Rattle.edge_store.specs.Calls.{Called, KeepsPoint, KeepsPlaces};
ghost use Rattle.edge_store.specs.Damages.{form_under};
ghost use Rattle.edge_store.specs.State.{IsLive, IsNumber, IsAllocable};
ghost use Rattle.edge_tree.specs.Answers.{TellsWhatIs, NeverTangled, IsReadable, IsLinkedTo, IsSpotOf};
ghost use Rattle.edge_tree.specs.Own.{KeepsInodes};
ghost use Rattle.edge_cut.specs.Cuts.{HangsBeside, StaysBelow, IsTopOf, IsUncommitted, NeverOnSoundTree, NeverOnSoundBelow, CutsPlaces, DropsBelow, KeepsBlock};

use crate::drop::{drop_tree, form_below, lost, pointers, top_of};
use edge_store::{Spot, Store, StoreFault};
use edge_tree::pointer_link;

/// Drops a block that a pointer node leads to, and all that hangs under it. Where the node itself
/// is dropped with it, or the block `top` above the node, the store ends.
pub(crate) fn drop_below<S: Store>(
    s: &mut S,
    at: Spot,
    top: u32,
    block: u32,
) -> Result<(), StoreFault>
    requires live { IsLive (S.state s.old) }
    requires allocable { IsAllocable (S.state s.old) block }
    requires owner { IsNumber (S.state s.old) at.owner }
    requires readable { IsReadable (S.state s.old) at.owner }
    requires form { at.form ≢ Plain }
    requires linked { IsLinkedTo (S.state s.old) at.owner (form_under at.form) block }
    requires below { StaysBelow (S.state s.old) at top block }
    requires hangs { HangsBeside (S.state s.old) at top }
    requires node { IsSpotOf (S.state s.old) at }
    requires top { IsTopOf (S.state s.old) at.owner top }
    requires highest { at.form ≡ Double → top ≡ 0 }
    ensures called { Called (S.state s.old) (S.state s.new) result }
    ensures point { KeepsPoint (S.state s.old) (S.state s.new) }
    ensures places { OnOk result (KeepsPlaces (S.state s.old) (S.state s.new)) }
    ensures damage { TellsWhatIs (S.state s.old) (S.state s.new) result }
    ensures untangled { NeverTangled (S.state s.old) result }
    ensures undamaged { NeverOnSoundBelow (S.state s.old) at top block result }
    ensures kept { OnOk result (KeepsBlock (S.state s.old) (S.state s.new) at.block) }
    ensures top { OnOk result (KeepsBlock (S.state s.old) (S.state s.new) top) }
    ensures dropped { OnOk result (DropsBelow (S.state s.old) (S.state s.new) at block) }
{
    let below = Spot {
        block,
        form: form_below(at.form),
        owner: at.owner,
    };
    drop_tree(s, below, top_of(at, top))?;
    if block == at.block {
        return Err(lost(s, block));
    }
    Ok(())
}

/// Drops what hangs under a new pointer node from a place on, and sets its pointers there to 0.
///
/// The block `top` is the double-indirect node above the node, 0 where there is none. Where it or
/// the node is dropped too, the store ends.
pub(crate) fn cut_places<S: Store>(
    s: &mut S,
    at: Spot,
    top: u32,
    from: u32,
) -> Result<(), StoreFault>
    requires live { IsLive (S.state s.old) }
    requires block { IsAllocable (S.state s.old) at.block }
    requires owner { IsNumber (S.state s.old) at.owner }
    requires readable { IsReadable (S.state s.old) at.owner }
    requires form { at.form ≢ Plain }
    requires hangs { HangsBeside (S.state s.old) at top }
    requires top { IsTopOf (S.state s.old) at.owner top }
    requires highest { at.form ≡ Double → top ≡ 0 }
    requires apart { at.block ≢ top }
    requires uncommitted { IsUncommitted (S.state s.old) at.block }
    requires place { from ≤ pointers_of (S.state s.old).origin.request }
    ensures called { Called (S.state s.old) (S.state s.new) result }
    ensures point { KeepsPoint (S.state s.old) (S.state s.new) }
    ensures places { OnOk result (KeepsPlaces (S.state s.old) (S.state s.new)) }
    ensures damage { TellsWhatIs (S.state s.old) (S.state s.new) result }
    ensures untangled { NeverTangled (S.state s.old) result }
    ensures undamaged { NeverOnSoundTree (S.state s.old) at top result }
    ensures inodes { OnOk result (KeepsInodes (S.state s.old) (S.state s.new)) }
    ensures top { OnOk result (KeepsBlock (S.state s.old) (S.state s.new) top) }
    ensures cut { OnOk result (CutsPlaces (S.state s.old) (S.state s.new) at from) }
{
    for place in from..pointers(s) {
        let block = pointer_link(s, at, place)?;
        if block != 0 {
            drop_below(s, at, top, block)?;
            s.set_pointer(at, place, 0)?;
        }
    }
    Ok(())
}

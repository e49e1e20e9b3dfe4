ghost use Rattle.std.specs.Prelude.{◌≡◌, ◌≢◌, OnOk, Err};
ghost use Rattle.edge_base.specs.declared.form.Form.TheVariants.{Plain, Double};
ghost use Rattle.edge_base.specs.layout.Places.{pointers_of};
ghost use Rattle.edge_base.specs.outside.Below.{SameBelow};
ghost use Rattle.edge_store.specs.Calls.{Called, KeepsPoint, KeepsPlaces};
ghost use Rattle.edge_store.specs.Damages.{form_under};
ghost use Rattle.edge_store.specs.State.{IsLive, IsNumber, IsAllocable};
ghost use Rattle.edge_store.specs.Told.{DropsBlock};
ghost use Rattle.edge_tree.specs.Answers.{TellsWhatIs, NeverTangled, NeverOnShaped, IsLinkedSpot, IsReadable, IsSpotOf};
ghost use Rattle.edge_cut.specs.Cuts.{NeverOnSpot, HangsBeside, IsTopOf, LosesBlock, IsHollowSpot, NeverOnSoundTree, DropsTree, IsFullSpot, KeepsBlock};
ghost use Rattle.edge_cut.specs.Dropped.{top_below};

use edge_base::{Damage, DamageKind, Form};
use edge_store::{Spot, Store, StoreFault};
use edge_tree::pointer_link;

/// How many pointers a pointer node has.
pub(crate) fn pointers<S: Store>(s: &S) -> u32
    ensures { result ≡ pointers_of (S.state s.now).origin.request }
{
    (s.geometry().request().block_size - 20) / 4
}

/// What a pointer node of a form leads to.
pub(crate) fn form_below(form: Form) -> Form
    ensures { result ≡ form_under form }
{
    match form {
        Form::Double => Form::Indirect,
        Form::Plain | Form::Indirect => Form::Plain,
    }
}

/// The block that has to stay while what a block leads to is dropped.
pub(crate) fn top_of(at: Spot, top: u32) -> u32
    ensures { result ≡ top_below at.form at.block top }
{
    match at.form {
        Form::Double => at.block,
        Form::Plain | Form::Indirect => top,
    }
}

/// Ends the store, since a pointer leads to a block that is not used: it was dropped with something
/// that hangs under it and leads back to it.
pub(crate) fn lost<S: Store>(s: &mut S, block: u32) -> StoreFault
    requires live { IsLive (S.state s.old) }
    requires lost { LosesBlock (S.state s.old) block }
    ensures called { Called {T = ⊥} (S.state s.old) (S.state s.new) (Err result) }
    ensures point { KeepsPoint (S.state s.old) (S.state s.new) }
    ensures damage { TellsWhatIs {T = ⊥} (S.state s.old) (S.state s.new) (Err result) }
    ensures untangled { NeverTangled {T = ⊥} (S.state s.old) (Err result) }
{
    s.report(Damage {
        block,
        kind: DamageKind::NotUsed,
    })
}

/// Ends the store, since a pointer node has no pointer.
pub(crate) fn hollow<S: Store>(s: &mut S, at: Spot) -> StoreFault
    requires live { IsLive (S.state s.old) }
    requires hollow { IsHollowSpot (S.state s.old) at }
    ensures called { Called {T = ⊥} (S.state s.old) (S.state s.new) (Err result) }
    ensures point { KeepsPoint (S.state s.old) (S.state s.new) }
    ensures below { S.is_clean s.old → SameBelow
        (S.may_hold s.old) (S.may_hold s.new) (S.is_sure s.old) (S.is_sure s.new) }
    ensures damage { TellsWhatIs {T = ⊥} (S.state s.old) (S.state s.new) (Err result) }
    ensures untangled { NeverTangled {T = ⊥} (S.state s.old) (Err result) }
    ensures undamaged { NeverOnShaped {T = ⊥} (S.state s.old) at.owner (Err result) }
{
    s.report(Damage {
        block: at.block,
        kind: DamageKind::WrongShape,
    })
}

/// Drops a block. Where it is the block `top`, which has to stay, the store ends.
fn drop_one<S: Store>(s: &mut S, at: Spot, top: u32) -> Result<(), StoreFault>
    requires live { IsLive (S.state s.old) }
    requires block { IsAllocable (S.state s.old) at.block }
    requires owner { IsNumber (S.state s.old) at.owner }
    requires linked { IsLinkedSpot (S.state s.old) at }
    requires top { IsTopOf (S.state s.old) at.owner top }
    ensures called { Called (S.state s.old) (S.state s.new) result }
    ensures point { KeepsPoint (S.state s.old) (S.state s.new) }
    ensures places { OnOk result (KeepsPlaces (S.state s.old) (S.state s.new)) }
    ensures damage { TellsWhatIs (S.state s.old) (S.state s.new) result }
    ensures untangled { NeverTangled (S.state s.old) result }
    ensures undamaged { NeverOnSpot (S.state s.old) at top result }
    ensures spot { OnOk result (IsSpotOf (S.state s.old) at) }
    ensures kept { OnOk result (at.block ≢ top) }
    ensures dropped { OnOk result (DropsBlock (S.state s.old) (S.state s.new) at) }
{
    s.drop_block(at)?;
    if at.block == top {
        return Err(lost(s, top));
    }
    Ok(())
}

/// Drops a block and all that hangs under it. The block `top` has to stay: the double-indirect node
/// above, 0 where there is none. Where it is dropped too, the store ends.
pub(crate) fn drop_tree<S: Store>(s: &mut S, at: Spot, top: u32) -> Result<(), StoreFault>
    requires live { IsLive (S.state s.old) }
    requires block { IsAllocable (S.state s.old) at.block }
    requires owner { IsNumber (S.state s.old) at.owner }
    requires readable { IsReadable (S.state s.old) at.owner }
    requires linked { IsLinkedSpot (S.state s.old) at }
    requires hangs { HangsBeside (S.state s.old) at top }
    requires top { IsTopOf (S.state s.old) at.owner top }
    requires highest { at.form ≡ Double → top ≡ 0 }
    ensures called { Called (S.state s.old) (S.state s.new) result }
    ensures point { KeepsPoint (S.state s.old) (S.state s.new) }
    ensures places { OnOk result (KeepsPlaces (S.state s.old) (S.state s.new)) }
    ensures damage { TellsWhatIs (S.state s.old) (S.state s.new) result }
    ensures untangled { NeverTangled (S.state s.old) result }
    ensures undamaged { NeverOnSoundTree (S.state s.old) at top result }
    ensures spot { OnOk result (IsSpotOf (S.state s.old) at) }
    ensures kept { OnOk result (KeepsBlock (S.state s.old) (S.state s.new) top) }
    ensures dropped { OnOk result (DropsTree (S.state s.old) (S.state s.new) at) }
    ensures full { OnOk result (IsFullSpot (S.state s.old) at) }
{
    if at.form == Form::Plain {
        return drop_one(s, at, top);
    }
    let mut hollow_so_far = true;
    for place in 0..pointers(s) {
        let block = pointer_link(s, at, place)?;
        if block != 0 {
            hollow_so_far = false;
            let below = Spot {
                block,
                form: form_below(at.form),
                owner: at.owner,
            };
            drop_tree(s, below, top_of(at, top))?;
        }
    }
    if hollow_so_far {
        return Err(hollow(s, at));
    }
    drop_one(s, at, top)
}

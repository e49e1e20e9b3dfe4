ghost use Rattle.std.specs.Prelude.{◌≡◌, ◌≢◌, ◌<◌, IfOk, OnOk, Err};
ghost use Rattle.edge_base.specs.declared.form.Form.TheVariants.{Plain, Indirect, Double};
ghost use Rattle.edge_base.specs.layout.Places.{entries_of, pointers_of};
ghost use Rattle.edge_store.specs.Calls.{Called, KeepsPoint, KeepsPlaces, KeepsPlacesBut};
ghost use Rattle.edge_store.specs.Damages.{form_of_entry, form_under};
ghost use Rattle.edge_store.specs.State.{IsLive, IsNumber, IsAllocable, IsLink, HasInode, IsNew};
ghost use Rattle.edge_tree.specs.Answers.{TellsWhatIs, IsLinkedTo, IsLinkedSpot, IsReadable};
ghost use Rattle.edge_tree.specs.Own.{HasFew, IsTangledAt, TellsTangleOf, RoomForBlock, RoomForEntry, RoomForPointer, RoomForUnder, UntangledIf, UndamagedIf, IsSpotSound, IsNodeSound, IsNodeTidy, RenewsEntry, RenewsPointer, KeepsInodes, LeadsTo};
ghost use Rattle.edge_tree.specs.Blank.{FillsBlock, FillsEntry, FillsPointer, FillsUnder};

use crate::link::{entry_link, pointer_link};
use edge_base::{Damage, DamageKind, Form};
use edge_store::{Spot, Store, StoreFault};

/// What a pointer node of a form leads to.
fn form_below(form: Form) -> Form
    ensures { result ≡ form_under form }
{
    match form {
        Form::Double => Form::Indirect,
        Form::Plain | Form::Indirect => Form::Plain,
    }
}

/// Ends the store, since fewer blocks are free than a change of a node needs: at most two.
pub fn tangled<S: Store>(s: &mut S, n: u32) -> StoreFault
    requires live { IsLive (S.state s.old) }
    requires number { IsNumber (S.state s.old) n }
    requires readable { IsReadable (S.state s.old) n }
    requires few { HasFew (S.state s.old) }
    ensures called { Called {T = ⊥} (S.state s.old) (S.state s.new) (Err result) }
    ensures point { KeepsPoint (S.state s.old) (S.state s.new) }
    ensures damage { TellsWhatIs {T = ⊥} (S.state s.old) (S.state s.new) (Err result) }
    ensures told { IsTangledAt (S.state s.old) n result }
    ensures tangled { TellsTangleOf {T = ⊥} (S.state s.old) (S.state s.new) n (Err result) }
{
    match s.inode_block(n) {
        Ok(block) => s.report(Damage {
            block,
            kind: DamageKind::Tangled,
        }),
        Err(fault) => fault,
    }
}

/// What a block holds that takes the place of another.
#[derive(Clone, Copy)]
pub(crate) enum Renewal {
    /// What that one held.
    Same,
    /// Nothing, and that one is not read.
    Blank,
}

/// A new block in place of another, or of none: the block itself where it is new, else one that was
/// free, with nothing in it where there was none.
fn renew<S: Store>(s: &mut S, from: Spot, renewal: Renewal) -> Result<u32, StoreFault>
    requires live { IsLive (S.state s.old) }
    requires link { IsLink (S.state s.old) from.block }
    requires number { IsNumber (S.state s.old) from.owner }
    requires readable { IsReadable (S.state s.old) from.owner }
    requires linked { IsLinkedSpot (S.state s.old) from }
    ensures called { Called (S.state s.old) (S.state s.new) result }
    ensures point { KeepsPoint (S.state s.old) (S.state s.new) }
    ensures places { OnOk result (KeepsPlaces (S.state s.old) (S.state s.new)) }
    ensures damage { TellsWhatIs (S.state s.old) (S.state s.new) result }
    ensures untangled { UntangledIf (S.state s.old)
        (RoomForBlock (S.state s.old) from.block) result }
    ensures tangled { TellsTangleOf (S.state s.old) (S.state s.new) from.owner result }
    ensures undamaged { UndamagedIf (S.state s.old)
        (IsSpotSound (S.state s.old) from) (RoomForBlock (S.state s.old) from.block) result }
    ensures block { IfOk result (IsAllocable (S.state s.old)) }
    ensures renewed { IfOk result (FillsBlock (S.state s.old) (S.state s.new) from renewal) }
{
    if from.block == 0 {
        if s.free().now == 0 {
            return Err(tangled(s, from.owner));
        }
        return Ok(s.take(from.form, from.owner)?);
    }
    if s.is_new(from.block)? {
        return Ok(from.block);
    }
    if s.free().now == 0 {
        return Err(tangled(s, from.owner));
    }
    match renewal {
        Renewal::Same => Ok(s.copy(from)?),
        Renewal::Blank => {
            s.drop_block(from)?;
            Ok(s.take(from.form, from.owner)?)
        }
    }
}

/// Makes the block of an entry new, as a block of the form that the entry leads to, and tells what
/// it holds where it takes the place of another.
pub(crate) fn renew_entry<S: Store>(
    s: &mut S,
    n: u32,
    i: u32,
    form: Form,
    renewal: Renewal,
) -> Result<u32, StoreFault>
    requires live { IsLive (S.state s.old) }
    requires number { IsNumber (S.state s.old) n }
    requires there { HasInode (S.state s.old) n }
    requires entry { i < entries_of (S.state s.old).origin.request }
    requires form { form ≡ form_of_entry (S.state s.old).origin.request i }
    ensures called { Called (S.state s.old) (S.state s.new) result }
    ensures point { KeepsPoint (S.state s.old) (S.state s.new) }
    ensures places { OnOk result (KeepsPlacesBut (S.state s.old) (S.state s.new) n) }
    ensures damage { TellsWhatIs (S.state s.old) (S.state s.new) result }
    ensures untangled { UntangledIf (S.state s.old) (RoomForEntry (S.state s.old) n i) result }
    ensures tangled { TellsTangleOf (S.state s.old) (S.state s.new) n result }
    ensures undamaged { UndamagedIf (S.state s.old)
        (IsNodeSound (S.state s.old) n) (RoomForEntry (S.state s.old) n i) result }
    ensures block { IfOk result (IsAllocable (S.state s.old)) }
    ensures was_readable { OnOk result (IsReadable (S.state s.old) n) }
    ensures readable { OnOk result (IsReadable (S.state s.new) n) }
    ensures renewed { IfOk result (FillsEntry (S.state s.old) (S.state s.new) n i renewal) }
    ensures linked { IfOk result (IsLinkedTo (S.state s.new) n form) }
    ensures is_new { IfOk result (IsNew (S.state s.new)) }
{
    let block = entry_link(s, n, i)?;
    let from = Spot {
        block,
        form,
        owner: n,
    };
    let b = renew(s, from, renewal)?;
    if b != block {
        s.set_entry(n, i, b)?;
    }
    Ok(b)
}

/// Makes the block of an entry new, as a block of the form that the entry leads to.
pub fn own_entry<S: Store>(s: &mut S, n: u32, i: u32, form: Form) -> Result<u32, StoreFault>
    requires live { IsLive (S.state s.old) }
    requires number { IsNumber (S.state s.old) n }
    requires there { HasInode (S.state s.old) n }
    requires entry { i < entries_of (S.state s.old).origin.request }
    requires form { form ≡ form_of_entry (S.state s.old).origin.request i }
    ensures called { Called (S.state s.old) (S.state s.new) result }
    ensures point { KeepsPoint (S.state s.old) (S.state s.new) }
    ensures places { OnOk result (KeepsPlacesBut (S.state s.old) (S.state s.new) n) }
    ensures damage { TellsWhatIs (S.state s.old) (S.state s.new) result }
    ensures untangled { UntangledIf (S.state s.old) (RoomForEntry (S.state s.old) n i) result }
    ensures tangled { TellsTangleOf (S.state s.old) (S.state s.new) n result }
    ensures undamaged { UndamagedIf (S.state s.old)
        (IsNodeSound (S.state s.old) n) (RoomForEntry (S.state s.old) n i) result }
    ensures block { IfOk result (IsAllocable (S.state s.old)) }
    ensures was_readable { OnOk result (IsReadable (S.state s.old) n) }
    ensures readable { OnOk result (IsReadable (S.state s.new) n) }
    ensures renewed { IfOk result (RenewsEntry (S.state s.old) (S.state s.new) n i) }
    ensures linked { IfOk result (IsLinkedTo (S.state s.new) n form) }
    ensures is_new { IfOk result (IsNew (S.state s.new)) }
{
    renew_entry(s, n, i, form, Renewal::Same)
}

/// Makes the block in a place of a pointer node new. The node itself is new.
pub(crate) fn renew_pointer<S: Store>(
    s: &mut S,
    at: Spot,
    i: u32,
    renewal: Renewal,
) -> Result<u32, StoreFault>
    requires live { IsLive (S.state s.old) }
    requires block { IsAllocable (S.state s.old) at.block }
    requires owner { IsNumber (S.state s.old) at.owner }
    requires readable { IsReadable (S.state s.old) at.owner }
    requires form { at.form ≢ Plain }
    requires place { i < pointers_of (S.state s.old).origin.request }
    requires linked { IsLinkedSpot (S.state s.old) at }
    requires is_new { IsNew (S.state s.old) at.block }
    ensures called { Called (S.state s.old) (S.state s.new) result }
    ensures point { KeepsPoint (S.state s.old) (S.state s.new) }
    ensures places { OnOk result (KeepsPlaces (S.state s.old) (S.state s.new)) }
    ensures damage { TellsWhatIs (S.state s.old) (S.state s.new) result }
    ensures untangled { UntangledIf (S.state s.old) (RoomForPointer (S.state s.old) at i) result }
    ensures tangled { TellsTangleOf (S.state s.old) (S.state s.new) at.owner result }
    ensures undamaged { UndamagedIf (S.state s.old)
        (IsNodeSound (S.state s.old) at.owner) (RoomForPointer (S.state s.old) at i) result }
    ensures block { IfOk result (IsAllocable (S.state s.old)) }
    ensures inodes { OnOk result (KeepsInodes (S.state s.old) (S.state s.new)) }
    ensures renewed { IfOk result (FillsPointer (S.state s.old) (S.state s.new) at i renewal) }
    ensures leads { IfOk result (LeadsTo (S.state s.new) at i) }
    ensures is_new { IfOk result (IsNew (S.state s.new)) }
{
    let block = pointer_link(s, at, i)?;
    let from = Spot {
        block,
        form: form_below(at.form),
        owner: at.owner,
    };
    let b = renew(s, from, renewal)?;
    if b != block {
        s.set_pointer(at, i, b)?;
    }
    Ok(b)
}

/// Makes the block in a place of a pointer node new. The node itself is new.
pub fn own_pointer<S: Store>(s: &mut S, at: Spot, i: u32) -> Result<u32, StoreFault>
    requires live { IsLive (S.state s.old) }
    requires block { IsAllocable (S.state s.old) at.block }
    requires owner { IsNumber (S.state s.old) at.owner }
    requires readable { IsReadable (S.state s.old) at.owner }
    requires form { at.form ≢ Plain }
    requires place { i < pointers_of (S.state s.old).origin.request }
    requires linked { IsLinkedSpot (S.state s.old) at }
    requires is_new { IsNew (S.state s.old) at.block }
    ensures called { Called (S.state s.old) (S.state s.new) result }
    ensures point { KeepsPoint (S.state s.old) (S.state s.new) }
    ensures places { OnOk result (KeepsPlaces (S.state s.old) (S.state s.new)) }
    ensures damage { TellsWhatIs (S.state s.old) (S.state s.new) result }
    ensures untangled { UntangledIf (S.state s.old) (RoomForPointer (S.state s.old) at i) result }
    ensures tangled { TellsTangleOf (S.state s.old) (S.state s.new) at.owner result }
    ensures undamaged { UndamagedIf (S.state s.old)
        (IsNodeSound (S.state s.old) at.owner) (RoomForPointer (S.state s.old) at i) result }
    ensures block { IfOk result (IsAllocable (S.state s.old)) }
    ensures inodes { OnOk result (KeepsInodes (S.state s.old) (S.state s.new)) }
    ensures renewed { IfOk result (RenewsPointer (S.state s.old) (S.state s.new) at i) }
    ensures leads { IfOk result (LeadsTo (S.state s.new) at i) }
    ensures is_new { IfOk result (IsNew (S.state s.new)) }
{
    renew_pointer(s, at, i, Renewal::Same)
}

/// Makes the pointer node of an entry new, and then the block in a place of it.
pub(crate) fn own_under<S: Store>(
    s: &mut S,
    n: u32,
    i: u32,
    form: Form,
    place: u32,
    renewal: Renewal,
) -> Result<u32, StoreFault>
    requires live { IsLive (S.state s.old) }
    requires number { IsNumber (S.state s.old) n }
    requires there { HasInode (S.state s.old) n }
    requires entry { i < entries_of (S.state s.old).origin.request }
    requires form { form ≡ form_of_entry (S.state s.old).origin.request i }
    requires node { form ≢ Plain }
    requires place { place < pointers_of (S.state s.old).origin.request }
    ensures called { Called (S.state s.old) (S.state s.new) result }
    ensures point { KeepsPoint (S.state s.old) (S.state s.new) }
    ensures places { OnOk result (KeepsPlacesBut (S.state s.old) (S.state s.new) n) }
    ensures damage { TellsWhatIs (S.state s.old) (S.state s.new) result }
    ensures untangled { UntangledIf (S.state s.old)
        (RoomForUnder (S.state s.old) n i place) result }
    ensures tangled { TellsTangleOf (S.state s.old) (S.state s.new) n result }
    ensures undamaged { UndamagedIf (S.state s.old)
        (IsNodeTidy (S.state s.old) n) (RoomForUnder (S.state s.old) n i place) result }
    ensures block { IfOk result (IsAllocable (S.state s.old)) }
    ensures was_readable { OnOk result (IsReadable (S.state s.old) n) }
    ensures readable { OnOk result (IsReadable (S.state s.new) n) }
    ensures renewed { IfOk result
        (FillsUnder (S.state s.old) (S.state s.new) n i place renewal) }
    ensures linked { IfOk result (IsLinkedTo (S.state s.new) n (form_under form)) }
    ensures is_new { IfOk result (IsNew (S.state s.new)) }
{
    let block = own_entry(s, n, i, form)?;
    let node = Spot {
        block,
        form,
        owner: n,
    };
    renew_pointer(s, node, place, renewal)
}

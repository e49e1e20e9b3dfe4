ghost use Rattle.std.specs.Prelude.{◌≡◌, ◌≢◌, ◌<◌, IfOk, OnOk};
ghost use Rattle.edge_base.specs.declared.form.Form.TheVariants.{Plain};
ghost use Rattle.edge_base.specs.layout.Places.{entries_of, pointers_of};
ghost use Rattle.edge_base.specs.outside.Below.{SameBelow};
ghost use Rattle.edge_store.specs.Calls.{Called, KeepsPoint, Reads};
ghost use Rattle.edge_store.specs.Damages.{form_of_entry, form_under};
ghost use Rattle.edge_store.specs.State.{IsLive, IsNumber, IsLink, HasInode};
ghost use Rattle.edge_store.specs.Told.{IsEntryOf};
ghost use Rattle.edge_store.specs.View.{is_link};
ghost use Rattle.edge_tree.specs.Answers.{TellsWhatIs, NeverTangled, NeverOnSound, NeverOnGoodEntry, NeverOnGoodPointer, IsLinkedTo, IsLinkedSpot, IsReadable, IsSpotOf, IsPointerAt};

use edge_base::{Damage, DamageKind};
use edge_store::{Spot, Store, StoreFault};

/// Whether a pointer is absent or leads to an allocable block.
fn is_good<S: Store>(s: &S, b: u32) -> bool
    ensures { result ≡ is_link (S.state s.now).origin.request b }
{
    let g = s.geometry();
    b == 0 || (b >= g.first_allocable() && b - g.first_allocable() < g.allocable())
}

/// An entry of an inode, absent or allocable. One outside the allocable blocks is damage of the
/// inode's place.
pub fn entry_link<S: Store>(s: &mut S, n: u32, i: u32) -> Result<u32, StoreFault>
    requires live { IsLive (S.state s.old) }
    requires number { IsNumber (S.state s.old) n }
    requires there { HasInode (S.state s.old) n }
    requires entry { i < entries_of (S.state s.old).origin.request }
    ensures called { Called (S.state s.old) (S.state s.new) result }
    ensures point { KeepsPoint (S.state s.old) (S.state s.new) }
    ensures reads { Reads (S.state s.old) (S.state s.new) result }
    ensures below { S.is_clean s.old → SameBelow
        (S.may_hold s.old) (S.may_hold s.new) (S.is_sure s.old) (S.is_sure s.new) }
    ensures clean { S.is_clean s.old → OnOk result (S.is_clean s.new) }
    ensures damage { TellsWhatIs (S.state s.old) (S.state s.new) result }
    ensures untangled { NeverTangled (S.state s.old) result }
    ensures undamaged { NeverOnSound (S.state s.old) n result }
    ensures good { NeverOnGoodEntry (S.state s.old) n i result }
    ensures link { IfOk result (IsLink (S.state s.old)) }
    ensures readable { OnOk result (IsReadable (S.state s.old) n) }
    ensures entry { IfOk result (IsEntryOf (S.state s.old) n i) }
    ensures linked { IfOk result
        (IsLinkedTo (S.state s.old) n (form_of_entry (S.state s.old).origin.request i)) }
{
    let b = s.entry(n, i)?;
    if is_good(s, b) {
        return Ok(b);
    }
    let block = s.inode_block(n)?;
    Err(s.report(Damage {
        block,
        kind: DamageKind::WrongPointer,
    }))
}

/// A pointer of a pointer node, absent or allocable; absent where the node is. One outside the
/// allocable blocks is damage of the node.
pub fn pointer_link<S: Store>(s: &mut S, at: Spot, i: u32) -> Result<u32, StoreFault>
    requires live { IsLive (S.state s.old) }
    requires block { IsLink (S.state s.old) at.block }
    requires owner { IsNumber (S.state s.old) at.owner }
    requires form { at.form ≢ Plain }
    requires place { i < pointers_of (S.state s.old).origin.request }
    requires linked { IsLinkedSpot (S.state s.old) at }
    ensures called { Called (S.state s.old) (S.state s.new) result }
    ensures point { KeepsPoint (S.state s.old) (S.state s.new) }
    ensures reads { Reads (S.state s.old) (S.state s.new) result }
    ensures below { S.is_clean s.old → SameBelow
        (S.may_hold s.old) (S.may_hold s.new) (S.is_sure s.old) (S.is_sure s.new) }
    ensures clean { S.is_clean s.old → OnOk result (S.is_clean s.new) }
    ensures damage { TellsWhatIs (S.state s.old) (S.state s.new) result }
    ensures untangled { NeverTangled (S.state s.old) result }
    ensures undamaged { NeverOnSound (S.state s.old) at.owner result }
    ensures good { NeverOnGoodPointer (S.state s.old) at i result }
    ensures link { IfOk result (IsLink (S.state s.old)) }
    ensures spot { OnOk result (IsSpotOf (S.state s.old) at) }
    ensures pointer { IfOk result (IsPointerAt (S.state s.old) at i) }
    ensures linked { IfOk result (IsLinkedTo (S.state s.old) at.owner (form_under at.form)) }
{
    if at.block == 0 {
        return Ok(0);
    }
    let b = s.pointer(at, i)?;
    if is_good(s, b) {
        return Ok(b);
    }
    Err(s.report(Damage {
        block: at.block,
        kind: DamageKind::WrongPointer,
    }))
}

//! Taking a block with the content of another.
ghost use Rattle.std.specs.Prelude.{◌≡◌, IfOk, OnOk, false, true};
ghost use Rattle.edge_store.specs.Calls.{Called, KeepsPlaces, KeepsPoint};
ghost use Rattle.edge_store.specs.State.{HasRoom, IsAllocable, IsLive, IsNumber};
ghost use Rattle.edge_store.specs.Told.{Copies, MeetsBlock, MeetsNone};
ghost use Rattle.edge_point.specs.Seen.{state_of};
ghost use Rattle.edge_point.specs.Standing.{IsPoint};
ghost use Rattle.edge_point.specs.Uses.{HoldsBytes, HoldsSpot, IsFreeIn, is_node};

use crate::free::{find_free, set_use};
use crate::look::open_block;
use crate::parts::Parts;
use crate::put::put_room;
use edge_base::Form;
use edge_disk::Disk;
use edge_store::{Spot, StoreFault};

// Whether a block of the form is a pointer node.
fn is_pointers(form: Form) -> bool
    ensures { result ≡ is_node form }
{
    match form {
        Form::Plain => false,
        Form::Indirect | Form::Double => true,
    }
}

// Copies a block, whose bytes are in the room for one, to a free one, and drops it.
fn copy_to<D: Disk>(p: &mut Parts<D>, s: Spot, b: u32) -> Result<(), StoreFault>
    requires stands { IsPoint D.Disk p.old }
    requires live { IsLive (state_of D.Disk p.old) }
    requires from { IsAllocable (state_of D.Disk p.old) s.block }
    requires block { IsAllocable (state_of D.Disk p.old) b }
    requires free { IsFreeIn (state_of D.Disk p.old) b }
    requires spot { HoldsSpot (state_of D.Disk p.old) s }
    requires room { HoldsBytes (state_of D.Disk p.old) s.block p.old.block.items }
    ensures stands { IsPoint D.Disk p.new }
    ensures called { Called (state_of D.Disk p.old) (state_of D.Disk p.new) result }
    ensures point { KeepsPoint (state_of D.Disk p.old) (state_of D.Disk p.new) }
    ensures undamaged { MeetsNone (state_of D.Disk p.old) result }
    ensures places { OnOk result (KeepsPlaces (state_of D.Disk p.old) (state_of D.Disk p.new)) }
    ensures copied { OnOk result
        (Copies (state_of D.Disk p.old) (state_of D.Disk p.new) s b) }
{
    let node = is_pointers(s.form);
    set_use(p, b, true)?;
    put_room(p, b, node)?;
    set_use(p, s.block, false)
}

/// Takes a block that neither view uses, with the content of another, and drops that one.
pub(crate) fn copy<D: Disk>(p: &mut Parts<D>, s: Spot) -> Result<u32, StoreFault>
    requires stands { IsPoint D.Disk p.old }
    requires live { IsLive (state_of D.Disk p.old) }
    requires block { IsAllocable (state_of D.Disk p.old) s.block }
    requires owner { IsNumber (state_of D.Disk p.old) s.owner }
    requires room { HasRoom (state_of D.Disk p.old) }
    ensures stands { IsPoint D.Disk p.new }
    ensures called { Called (state_of D.Disk p.old) (state_of D.Disk p.new) result }
    ensures point { KeepsPoint (state_of D.Disk p.old) (state_of D.Disk p.new) }
    ensures damage { MeetsBlock (state_of D.Disk p.old) (state_of D.Disk p.new) s result }
    ensures block { IfOk result (IsAllocable (state_of D.Disk p.old)) }
    ensures places { OnOk result (KeepsPlaces (state_of D.Disk p.old) (state_of D.Disk p.new)) }
    ensures copied { IfOk result (Copies (state_of D.Disk p.old) (state_of D.Disk p.new) s) }
{
    open_block(p, s)?;
    let b = find_free(p)?;
    copy_to(p, s, b)?;
    p.next = b + 1;
    Ok(b)
}

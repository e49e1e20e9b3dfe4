//! Taking a block.
ghost use Rattle.std.specs.Prelude.{IfOk, OnOk, true};
ghost use Rattle.edge_store.specs.Calls.{Called, KeepsPlaces, KeepsPoint};
ghost use Rattle.edge_store.specs.State.{HasRoom, IsAllocable, IsLive, IsNumber};
ghost use Rattle.edge_store.specs.Told.{MeetsNone, Takes};
ghost use Rattle.edge_point.specs.Seen.{state_of};
ghost use Rattle.edge_point.specs.Standing.{IsPoint};
ghost use Rattle.edge_point.specs.Uses.{IsFreeIn};

use crate::free::{find_free, set_use};
use crate::parts::Parts;
use crate::put::put_empty;
use edge_base::Form;
use edge_disk::Disk;
use edge_store::StoreFault;

// Takes a free block.
fn take_at<D: Disk>(p: &mut Parts<D>, b: u32, form: Form, owner: u32) -> Result<(), StoreFault>
    requires stands { IsPoint D.Disk p.old }
    requires live { IsLive (state_of D.Disk p.old) }
    requires block { IsAllocable (state_of D.Disk p.old) b }
    requires owner { IsNumber (state_of D.Disk p.old) owner }
    requires free { IsFreeIn (state_of D.Disk p.old) b }
    ensures stands { IsPoint D.Disk p.new }
    ensures called { Called (state_of D.Disk p.old) (state_of D.Disk p.new) result }
    ensures point { KeepsPoint (state_of D.Disk p.old) (state_of D.Disk p.new) }
    ensures undamaged { MeetsNone (state_of D.Disk p.old) result }
    ensures places { OnOk result (KeepsPlaces (state_of D.Disk p.old) (state_of D.Disk p.new)) }
    ensures taken { OnOk result
        (Takes (state_of D.Disk p.old) (state_of D.Disk p.new) form owner b) }
{
    set_use(p, b, true)?;
    put_empty(p, b, form, owner)
}

/// Takes a block that neither view uses, with nothing in it.
pub(crate) fn take<D: Disk>(p: &mut Parts<D>, form: Form, owner: u32) -> Result<u32, StoreFault>
    requires stands { IsPoint D.Disk p.old }
    requires live { IsLive (state_of D.Disk p.old) }
    requires owner { IsNumber (state_of D.Disk p.old) owner }
    requires room { HasRoom (state_of D.Disk p.old) }
    ensures stands { IsPoint D.Disk p.new }
    ensures called { Called (state_of D.Disk p.old) (state_of D.Disk p.new) result }
    ensures point { KeepsPoint (state_of D.Disk p.old) (state_of D.Disk p.new) }
    ensures undamaged { MeetsNone (state_of D.Disk p.old) result }
    ensures block { IfOk result (IsAllocable (state_of D.Disk p.old)) }
    ensures places { OnOk result (KeepsPlaces (state_of D.Disk p.old) (state_of D.Disk p.new)) }
    ensures taken { IfOk result
        (Takes (state_of D.Disk p.old) (state_of D.Disk p.new) form owner) }
{
    let b = find_free(p)?;
    take_at(p, b, form, owner)?;
    p.next = b + 1;
    Ok(b)
}

//! Changes of a block, which is new.
ghost use Rattle.std.specs.Prelude.{◌≡◌, ◌≢◌, ◌<◌, ◌+◌, ◌≤◌, OnOk, length, true};
ghost use Rattle.edge_base.specs.declared.form.Form.TheVariants.{Plain};
ghost use Rattle.edge_base.specs.layout.Places.{pointers_of};
ghost use Rattle.edge_store.specs.Calls.{Called, KeepsPlaces, KeepsPoint};
ghost use Rattle.edge_store.specs.State.{IsAllocable, IsLink, IsLive, IsNew, IsNumber};
ghost use Rattle.edge_store.specs.Told.{DropsBlock, MeetsBlock, SetsBytes, SetsPointer};
ghost use Rattle.edge_point.specs.Seen.{state_of};
ghost use Rattle.edge_point.specs.Standing.{IsPoint};

use crate::block::ENTRIES;
use crate::free::set_use;
use crate::look::look;
use crate::parts::Parts;
use crate::put::put;
use byteorder::{ByteOrder, LittleEndian};
use edge_disk::Disk;
use edge_store::{Spot, StoreFault};

/// Writes bytes of a block, which is new, from byte `at` on.
pub(crate) fn write_block<D: Disk>(
    p: &mut Parts<D>,
    s: Spot,
    at: u32,
    bytes: &[u8],
) -> Result<(), StoreFault>
    requires stands { IsPoint D.Disk p.old }
    requires live { IsLive (state_of D.Disk p.old) }
    requires block { IsAllocable (state_of D.Disk p.old) s.block }
    requires owner { IsNumber (state_of D.Disk p.old) s.owner }
    requires form { s.form ≡ Plain }
    requires range { at + length bytes.now ≤ (state_of D.Disk p.old).origin.request.block_size }
    requires is_new { IsNew (state_of D.Disk p.old) s.block }
    ensures stands { IsPoint D.Disk p.new }
    ensures called { Called (state_of D.Disk p.old) (state_of D.Disk p.new) result }
    ensures point { KeepsPoint (state_of D.Disk p.old) (state_of D.Disk p.new) }
    ensures damage { MeetsBlock (state_of D.Disk p.old) (state_of D.Disk p.new) s result }
    ensures places { OnOk result (KeepsPlaces (state_of D.Disk p.old) (state_of D.Disk p.new)) }
    ensures set { OnOk result
        (SetsBytes (state_of D.Disk p.old) (state_of D.Disk p.new) s at bytes.now) }
{
    put(p, s.block, at, bytes, false)
}

/// Sets a pointer of a pointer node, which is new. 0 makes it absent.
pub(crate) fn set_pointer<D: Disk>(
    p: &mut Parts<D>,
    s: Spot,
    i: u32,
    to: u32,
) -> Result<(), StoreFault>
    requires stands { IsPoint D.Disk p.old }
    requires live { IsLive (state_of D.Disk p.old) }
    requires block { IsAllocable (state_of D.Disk p.old) s.block }
    requires owner { IsNumber (state_of D.Disk p.old) s.owner }
    requires form { s.form ≢ Plain }
    requires place { i < pointers_of (state_of D.Disk p.old).origin.request }
    requires link { IsLink (state_of D.Disk p.old) to }
    requires is_new { IsNew (state_of D.Disk p.old) s.block }
    ensures stands { IsPoint D.Disk p.new }
    ensures called { Called (state_of D.Disk p.old) (state_of D.Disk p.new) result }
    ensures point { KeepsPoint (state_of D.Disk p.old) (state_of D.Disk p.new) }
    ensures damage { MeetsBlock (state_of D.Disk p.old) (state_of D.Disk p.new) s result }
    ensures places { OnOk result (KeepsPlaces (state_of D.Disk p.old) (state_of D.Disk p.new)) }
    ensures set { OnOk result
        (SetsPointer (state_of D.Disk p.old) (state_of D.Disk p.new) s i to) }
{
    look(p, s)?;
    let mut word = [0u8; 4];
    LittleEndian::write_u32(&mut word, to);
    put(p, s.block, ENTRIES + 4 * i, &word, true)
}

/// Drops a block from the working view.
pub(crate) fn drop_block<D: Disk>(p: &mut Parts<D>, s: Spot) -> Result<(), StoreFault>
    requires stands { IsPoint D.Disk p.old }
    requires live { IsLive (state_of D.Disk p.old) }
    requires block { IsAllocable (state_of D.Disk p.old) s.block }
    requires owner { IsNumber (state_of D.Disk p.old) s.owner }
    ensures stands { IsPoint D.Disk p.new }
    ensures called { Called (state_of D.Disk p.old) (state_of D.Disk p.new) result }
    ensures point { KeepsPoint (state_of D.Disk p.old) (state_of D.Disk p.new) }
    ensures damage { MeetsBlock (state_of D.Disk p.old) (state_of D.Disk p.new) s result }
    ensures places { OnOk result (KeepsPlaces (state_of D.Disk p.old) (state_of D.Disk p.new)) }
    ensures dropped { OnOk result
        (DropsBlock (state_of D.Disk p.old) (state_of D.Disk p.new) s) }
{
    look(p, s)?;
    set_use(p, s.block, false)
}

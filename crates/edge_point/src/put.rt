//! Bytes that are given to a block, which is new.
ghost use Rattle.std.specs.Prelude.{◌≡◌, ◌+◌, ◌≤◌, IsTrue, OnOk, false, length, replicate, true};
ghost use Rattle.edge_base.specs.layout.Places.{pointers_of};
ghost use Rattle.edge_base.specs.layout.Spelling.{SpellsPointer};
ghost use Rattle.edge_cache.specs.Blocks.{changed_by};
ghost use Rattle.edge_nodes.specs.Changes.{ChangesSequence};
ghost use Rattle.edge_store.specs.Calls.{Called, KeepsPlaces, KeepsPoint};
ghost use Rattle.edge_store.specs.State.{IsAllocable, IsLive, IsNew, IsNumber};
ghost use Rattle.edge_store.specs.Told.{MeetsNone};
ghost use Rattle.edge_store.specs.View.{is_number};
ghost use Rattle.edge_point.specs.Seen.{state_of};
ghost use Rattle.edge_point.specs.Standing.{IsPoint};
ghost use Rattle.edge_point.specs.Uses.{EmptiesBlock, HasWord, PutsBlock, PutsCopy, form_of};

use crate::inode::end_with;
use crate::parts::Parts;
use edge_base::{Form, Geometry};
use edge_disk::Disk;
use edge_nodes::{change_sequence, encode_pointer};
use edge_store::StoreFault;

// The pointers of the largest pointer node.
const MOST_POINTERS: usize = 1019;

/// Writes bytes of a block, which is new, from byte `at` on. Where the change is marked as a node's
/// the block has its check word afterwards.
pub(crate) fn put<D: Disk>(
    p: &mut Parts<D>,
    b: u32,
    at: u32,
    bytes: &[u8],
    node: bool,
) -> Result<(), StoreFault>
    requires stands { IsPoint D.Disk p.old }
    requires live { IsLive (state_of D.Disk p.old) }
    requires block { IsAllocable (state_of D.Disk p.old) b }
    requires range { at + length bytes.now ≤ p.old.master.geometry.block_size }
    requires is_new { IsNew (state_of D.Disk p.old) b }
    ensures stands { IsPoint D.Disk p.new }
    ensures called { Called (state_of D.Disk p.old) (state_of D.Disk p.new) result }
    ensures point { KeepsPoint (state_of D.Disk p.old) (state_of D.Disk p.new) }
    ensures undamaged { MeetsNone (state_of D.Disk p.old) result }
    ensures places { OnOk result (KeepsPlaces (state_of D.Disk p.old) (state_of D.Disk p.new)) }
    ensures put { OnOk result (PutsBlock (state_of D.Disk p.old) (state_of D.Disk p.new) b
        (changed_by at bytes.now node)) }
    ensures word { IsTrue node → OnOk result (HasWord (state_of D.Disk p.new) b) }
{
    match p.cache.write(b, at, bytes, node) {
        Ok(()) => Ok(()),
        Err(_) => Err(end_with(p, StoreFault::Device)),
    }
}

// Makes a block, which is new, all zeros.
fn put_zeros<D: Disk>(p: &mut Parts<D>, b: u32) -> Result<(), StoreFault>
    requires stands { IsPoint D.Disk p.old }
    requires live { IsLive (state_of D.Disk p.old) }
    requires block { IsAllocable (state_of D.Disk p.old) b }
    requires is_new { IsNew (state_of D.Disk p.old) b }
    ensures stands { IsPoint D.Disk p.new }
    ensures called { Called (state_of D.Disk p.old) (state_of D.Disk p.new) result }
    ensures point { KeepsPoint (state_of D.Disk p.old) (state_of D.Disk p.new) }
    ensures undamaged { MeetsNone (state_of D.Disk p.old) result }
    ensures places { OnOk result (KeepsPlaces (state_of D.Disk p.old) (state_of D.Disk p.new)) }
    ensures put { OnOk result (PutsBlock (state_of D.Disk p.old) (state_of D.Disk p.new) b
        (λ old. replicate p.old.master.geometry.block_size 0)) }
{
    match p.cache.fresh(b, false) {
        Ok(()) => Ok(()),
        Err(_) => Err(end_with(p, StoreFault::Device)),
    }
}

// Writes a pointer node with no pointers over the whole of `out`.
fn fill_pointers(g: &Geometry, double: bool, sequence: u64, owner: u32, out: &mut [u8])
    requires whole { length out.old ≡ g.now.block_size }
    requires owner { is_number g.now owner ≡ true }
    ensures { SpellsPointer g.now double sequence owner (replicate (pointers_of g.now) 0) out.new }
{
    let count = (g.request().block_size as usize - 20) / 4;
    encode_pointer(
        g,
        double,
        sequence,
        owner,
        &[0; MOST_POINTERS][..count],
        out,
    );
}

// Makes a block, which is new, a pointer node with no pointers.
fn put_pointers<D: Disk>(
    p: &mut Parts<D>,
    b: u32,
    double: bool,
    owner: u32,
) -> Result<(), StoreFault>
    requires stands { IsPoint D.Disk p.old }
    requires live { IsLive (state_of D.Disk p.old) }
    requires block { IsAllocable (state_of D.Disk p.old) b }
    requires owner { IsNumber (state_of D.Disk p.old) owner }
    requires is_new { IsNew (state_of D.Disk p.old) b }
    ensures stands { IsPoint D.Disk p.new }
    ensures called { Called (state_of D.Disk p.old) (state_of D.Disk p.new) result }
    ensures point { KeepsPoint (state_of D.Disk p.old) (state_of D.Disk p.new) }
    ensures undamaged { MeetsNone (state_of D.Disk p.old) result }
    ensures places { OnOk result (KeepsPlaces (state_of D.Disk p.old) (state_of D.Disk p.new)) }
    ensures empties { OnOk result (EmptiesBlock (state_of D.Disk p.old) (state_of D.Disk p.new)
        (form_of double) owner b) }
{
    let sequence = p.root.sequence.saturating_add(1);
    fill_pointers(&p.master.geometry, double, sequence, owner, &mut p.block);
    match p.cache.write(b, 0, &p.block, true) {
        Ok(()) => Ok(()),
        Err(_) => Err(end_with(p, StoreFault::Device)),
    }
}

/// Makes a block, which is new, one of the form with nothing in it.
pub(crate) fn put_empty<D: Disk>(
    p: &mut Parts<D>,
    b: u32,
    form: Form,
    owner: u32,
) -> Result<(), StoreFault>
    requires stands { IsPoint D.Disk p.old }
    requires live { IsLive (state_of D.Disk p.old) }
    requires block { IsAllocable (state_of D.Disk p.old) b }
    requires owner { IsNumber (state_of D.Disk p.old) owner }
    requires is_new { IsNew (state_of D.Disk p.old) b }
    ensures stands { IsPoint D.Disk p.new }
    ensures called { Called (state_of D.Disk p.old) (state_of D.Disk p.new) result }
    ensures point { KeepsPoint (state_of D.Disk p.old) (state_of D.Disk p.new) }
    ensures undamaged { MeetsNone (state_of D.Disk p.old) result }
    ensures places { OnOk result (KeepsPlaces (state_of D.Disk p.old) (state_of D.Disk p.new)) }
    ensures empties { OnOk result (EmptiesBlock (state_of D.Disk p.old) (state_of D.Disk p.new)
        form owner b) }
{
    match form {
        Form::Plain => put_zeros(p, b),
        Form::Indirect => put_pointers(p, b, false, owner),
        Form::Double => put_pointers(p, b, true, owner),
    }
}

// Gives the node in a room the sequence number of the next point. Its check word is not put right.
fn renew(node: bool, sequence: u64, room: &mut [u8])
    requires { 16 ≤ length room.old }
    ensures plain { node ≡ false → room.new ≡ room.old }
    ensures node { node ≡ true → ChangesSequence sequence room.old room.new }
    ensures len { length room.new ≡ length room.old }
{
    if node {
        change_sequence(room, sequence);
    }
}

/// Gives a block, which is new, the bytes in the room for a block; a node with the sequence number
/// of the next point.
pub(crate) fn put_room<D: Disk>(p: &mut Parts<D>, b: u32, node: bool) -> Result<(), StoreFault>
    requires stands { IsPoint D.Disk p.old }
    requires live { IsLive (state_of D.Disk p.old) }
    requires block { IsAllocable (state_of D.Disk p.old) b }
    requires is_new { IsNew (state_of D.Disk p.old) b }
    ensures stands { IsPoint D.Disk p.new }
    ensures called { Called (state_of D.Disk p.old) (state_of D.Disk p.new) result }
    ensures point { KeepsPoint (state_of D.Disk p.old) (state_of D.Disk p.new) }
    ensures undamaged { MeetsNone (state_of D.Disk p.old) result }
    ensures places { OnOk result (KeepsPlaces (state_of D.Disk p.old) (state_of D.Disk p.new)) }
    ensures copies { OnOk result (PutsCopy (state_of D.Disk p.old) (state_of D.Disk p.new) b node
        p.old.block.items) }
{
    let sequence = p.root.sequence.saturating_add(1);
    renew(node, sequence, &mut p.block);
    match p.cache.write(b, 0, &p.block, node) {
        Ok(()) => Ok(()),
        Err(_) => Err(end_with(p, StoreFault::Device)),
    }
}

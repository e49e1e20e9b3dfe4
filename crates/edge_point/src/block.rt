//! Looking at a block that is to have a form and an owner, and reading it.
ghost use Rattle.std.specs.Prelude.{◌≡◌, ◌≢◌, ◌+◌, ◌<◌, ◌≤◌, Err, IfOk, IsTrue, Ok, OnOk, Some, length, slice_index, slice_range, true};
ghost use Rattle.edge_base.specs.declared.form.Form.TheVariants.{Plain};
ghost use Rattle.edge_base.specs.layout.Places.{pointers_of};
ghost use Rattle.edge_base.specs.layout.Spelling.{pointer_in};
ghost use Rattle.edge_base.specs.outside.Below.{SameBelow};
ghost use Rattle.edge_cache.specs.Cached.{IsClean};
ghost use Rattle.edge_cache.specs.Calls.{content_in};
ghost use Rattle.edge_image.specs.View.{block_told};
ghost use Rattle.edge_imap.specs.Bitmaps.{IsTied};
ghost use Rattle.edge_store.specs.Calls.{Called, KeepsPoint, Reads};
ghost use Rattle.edge_store.specs.Damages.{damage_at, damage_in};
ghost use Rattle.edge_store.specs.State.{IsAllocable, IsLive, IsNumber};
ghost use Rattle.edge_store.specs.Told.{AreBytesOf, IsPointerOf, MeetsBlock};
ghost use Rattle.edge_store.specs.View.{bytes_in, content, content_at, entries_in, is_allocable, pointers};
ghost use Rattle.edge_store.specs.declared.fault.StoreFault.TheVariants.{Damaged};
ghost use Rattle.edge_point.specs.Blocks.{TellsMet, ended_by, met_told, owner_met};
ghost use Rattle.edge_point.specs.Finding.{Sees};
ghost use Rattle.edge_point.specs.Seen.{next_view, state_of};
ghost use Rattle.edge_point.specs.Standing.{IsPoint};

use crate::inode::{end_with, is_used, kind_of};
use crate::parts::Parts;
use edge_base::{Damage, DamageKind, Form, Geometry};
use edge_disk::Disk;
use edge_nodes::{decode_pointer, entry_of};
use edge_store::{Spot, StoreFault};

// The first byte of the entries of a pointer node.
pub(crate) const ENTRIES: u32 = 20;

// The fault that tells damage of a block.
fn damaged(block: u32, kind: DamageKind) -> StoreFault
    ensures { result ≡ Damaged (record { block = block; kind = kind }) }
{
    StoreFault::Damaged(Damage { block, kind })
}

// Whether the owner that was found is the one that a block is to have.
fn owned_by(s: Spot, found: u32) -> Result<(), StoreFault>
    ensures { result ≡ met_told (owner_met s.block found s.owner) }
{
    if found == s.owner {
        Ok(())
    } else {
        Err(damaged(s.block, DamageKind::WrongOwner))
    }
}

// Whether these bytes of a whole block spell a pointer node of the owner.
fn node_in(g: &Geometry, s: Spot, double: bool, bytes: &[u8]) -> Result<(), StoreFault>
    requires { length bytes.now ≡ g.now.block_size }
    ensures { result ≡ met_told (damage_in s.block s.owner
        (pointers (pointer_in g.now double bytes.now))) }
{
    match decode_pointer(g, double, bytes) {
        Ok(owner) => owned_by(s, owner),
        Err(fault) => Err(damaged(s.block, kind_of(fault))),
    }
}

// Reads the pointer node of a block into the room for one.
fn read_node<D: Disk>(p: &mut Parts<D>, s: Spot, double: bool) -> Result<(), StoreFault>
    requires stands { IsPoint D.Disk p.old }
    requires block { s.block < p.old.master.geometry.blocks }
    ensures sees { Sees D.Disk p.old p.new result }
    ensures bytes { IsTrue (D.origin p.old.cache.disk).shows
        → OnOk result (p.new.block.items ≡ content_in D.Disk p.old.cache s.block) }
    ensures met { IsTrue (D.origin p.old.cache.disk).shows
        → TellsMet (damage_in s.block s.owner (pointers
        (pointer_in p.old.master.geometry double (content_in D.Disk p.old.cache s.block)))) result }
{
    match p.cache.read(s.block, 0, &mut p.block) {
        Ok(()) => node_in(&p.master.geometry, s, double, &p.block),
        Err(_) => Err(StoreFault::Device),
    }
}

// Looks whether a used block has its form and its owner. Plain bytes have any.
fn read_form<D: Disk>(p: &mut Parts<D>, s: Spot) -> Result<(), StoreFault>
    requires stands { IsPoint D.Disk p.old }
    requires block { s.block < p.old.master.geometry.blocks }
    ensures sees { Sees D.Disk p.old p.new result }
    ensures bytes { IsTrue (D.origin p.old.cache.disk).shows → s.form ≢ Plain
        → OnOk result (p.new.block.items ≡ content_in D.Disk p.old.cache s.block) }
    ensures met { IsTrue (D.origin p.old.cache.disk).shows
        → TellsMet (damage_in s.block s.owner (content s.form (Some
        (block_told p.old.master.geometry (content_in D.Disk p.old.cache s.block))))) result }
{
    match s.form {
        Form::Plain => Ok(()),
        Form::Indirect => read_node(p, s, false),
        Form::Double => read_node(p, s, true),
    }
}

/// Looks whether a block is used and has its form and its owner, and ends nothing where it has not.
/// A pointer node is read into the room for a block.
pub(crate) fn seek_block<D: Disk>(p: &mut Parts<D>, s: Spot) -> Result<(), StoreFault>
    requires stands { IsPoint D.Disk p.old }
    requires live { p.old.live ≡ true }
    requires block { is_allocable p.old.master.geometry s.block ≡ true }
    ensures sees { Sees D.Disk p.old p.new result }
    ensures bytes { IsTrue (D.origin p.old.cache.disk).shows → s.form ≢ Plain
        → OnOk result (p.new.block.items ≡ content_in D.Disk p.old.cache s.block) }
    ensures met { IsTrue (D.origin p.old.cache.disk).shows
        → IsTied p.old.imap (content_in D.Disk p.old.cache)
        → TellsMet (damage_at (next_view D.Disk p.old) s.form s.owner s.block) result }
{
    let used = is_used(p, s.block)?;
    if !used {
        return Err(damaged(s.block, DamageKind::NotUsed));
    }
    read_form(p, s)
}

// Ends the store where a step answered a fault, and answers as the step did.
pub(crate) fn end_by_step<D: Disk, T>(
    p: &mut Parts<D>,
    step: Result<T, StoreFault>,
) -> Result<T, StoreFault>
    ensures answer { result ≡ step }
    ensures ended { p.new ≡ ended_by p.old step }
{
    match step {
        Ok(value) => Ok(value),
        Err(fault) => Err(end_with(p, fault)),
    }
}

// A pointer of a pointer node. It ends nothing.
fn seek_pointer<D: Disk>(p: &mut Parts<D>, s: Spot, i: u32) -> Result<u32, StoreFault>
    requires stands { IsPoint D.Disk p.old }
    requires live { p.old.live ≡ true }
    requires block { is_allocable p.old.master.geometry s.block ≡ true }
    requires form { s.form ≢ Plain }
    requires place { i < pointers_of p.old.master.geometry }
    ensures sees { Sees D.Disk p.old p.new result }
    ensures met { IsTrue (D.origin p.old.cache.disk).shows
        → IsTied p.old.imap (content_in D.Disk p.old.cache)
        → TellsMet (damage_at (next_view D.Disk p.old) s.form s.owner s.block) result }
    ensures pointer { IsTrue (D.origin p.old.cache.disk).shows
        → IsTied p.old.imap (content_in D.Disk p.old.cache) → IfOk result (λ to. to
        ≡ slice_index (entries_in (content_at (next_view D.Disk p.old) s.form s.block)) i) }
{
    seek_block(p, s)?;
    Ok(entry_of(&p.block, ENTRIES, i))
}

// Reads bytes of a block, from byte `at` on. It ends nothing.
fn seek_bytes<D: Disk>(p: &mut Parts<D>, s: Spot, at: u32, out: &mut [u8]) -> Result<(), StoreFault>
    requires stands { IsPoint D.Disk p.old }
    requires live { p.old.live ≡ true }
    requires block { is_allocable p.old.master.geometry s.block ≡ true }
    requires form { s.form ≡ Plain }
    requires range { at + length out.old ≤ p.old.master.geometry.block_size }
    ensures sees { Sees D.Disk p.old p.new result }
    ensures met { IsTrue (D.origin p.old.cache.disk).shows
        → IsTied p.old.imap (content_in D.Disk p.old.cache)
        → TellsMet (damage_at (next_view D.Disk p.old) s.form s.owner s.block) result }
    ensures bytes { IsTrue (D.origin p.old.cache.disk).shows
        → IsTied p.old.imap (content_in D.Disk p.old.cache) → OnOk result (out.new ≡ slice_range
        (bytes_in (content_at (next_view D.Disk p.old) Plain s.block)) at (at + length out.old)) }
{
    seek_block(p, s)?;
    match p.cache.read(s.block, at, out) {
        Ok(()) => Ok(()),
        Err(_) => Err(StoreFault::Device),
    }
}

/// A pointer of a pointer node, 0 where it is absent.
pub(crate) fn pointer<D: Disk>(p: &mut Parts<D>, s: Spot, i: u32) -> Result<u32, StoreFault>
    requires stands { IsPoint D.Disk p.old }
    requires live { IsLive (state_of D.Disk p.old) }
    requires block { IsAllocable (state_of D.Disk p.old) s.block }
    requires owner { IsNumber (state_of D.Disk p.old) s.owner }
    requires form { s.form ≢ Plain }
    requires place { i < pointers_of (state_of D.Disk p.old).origin.request }
    ensures stands { IsPoint D.Disk p.new }
    ensures called { Called (state_of D.Disk p.old) (state_of D.Disk p.new) result }
    ensures point { KeepsPoint (state_of D.Disk p.old) (state_of D.Disk p.new) }
    ensures reads { Reads (state_of D.Disk p.old) (state_of D.Disk p.new) result }
    ensures below { IsClean p.old.cache.held → SameBelow
        (D.may_hold p.old.cache.disk) (D.may_hold p.new.cache.disk)
        (D.is_sure p.old.cache.disk) (D.is_sure p.new.cache.disk) }
    ensures clean { IsClean p.old.cache.held → OnOk result (IsClean p.new.cache.held) }
    ensures damage { MeetsBlock (state_of D.Disk p.old) (state_of D.Disk p.new) s result }
    ensures pointer { IfOk result (IsPointerOf (state_of D.Disk p.old) s i) }
{
    let step = seek_pointer(p, s, i);
    end_by_step(p, step)
}

/// Reads bytes of a block, from byte `at` on.
pub(crate) fn read_block<D: Disk>(
    p: &mut Parts<D>,
    s: Spot,
    at: u32,
    out: &mut [u8],
) -> Result<(), StoreFault>
    requires stands { IsPoint D.Disk p.old }
    requires live { IsLive (state_of D.Disk p.old) }
    requires block { IsAllocable (state_of D.Disk p.old) s.block }
    requires owner { IsNumber (state_of D.Disk p.old) s.owner }
    requires form { s.form ≡ Plain }
    requires range { at + length out.old ≤ (state_of D.Disk p.old).origin.request.block_size }
    ensures stands { IsPoint D.Disk p.new }
    ensures called { Called (state_of D.Disk p.old) (state_of D.Disk p.new) result }
    ensures point { KeepsPoint (state_of D.Disk p.old) (state_of D.Disk p.new) }
    ensures reads { Reads (state_of D.Disk p.old) (state_of D.Disk p.new) result }
    ensures below { IsClean p.old.cache.held → SameBelow
        (D.may_hold p.old.cache.disk) (D.may_hold p.new.cache.disk)
        (D.is_sure p.old.cache.disk) (D.is_sure p.new.cache.disk) }
    ensures clean { IsClean p.old.cache.held → OnOk result (IsClean p.new.cache.held) }
    ensures damage { MeetsBlock (state_of D.Disk p.old) (state_of D.Disk p.new) s result }
    ensures bytes { OnOk result
        (AreBytesOf (state_of D.Disk p.old) s at (at + length out.old) out.new) }
{
    let step = seek_bytes(p, s, at, out);
    end_by_step(p, step)
}

//! Looking at a block before it is changed.
ghost use Rattle.std.specs.Prelude.{◌≡◌, ◌≢◌, ◌<◌, IsTrue, None, OnOk, true};
ghost use Rattle.edge_base.specs.declared.form.Form.TheVariants.{Plain};
ghost use Rattle.edge_cache.specs.Calls.{content_in};
ghost use Rattle.edge_imap.specs.Bitmaps.{IsTied};
ghost use Rattle.edge_store.specs.Calls.{Called, KeepsPoint, KeepsWorking};
ghost use Rattle.edge_store.specs.Damages.{damage_at};
ghost use Rattle.edge_store.specs.State.{IsAllocable, IsLive};
ghost use Rattle.edge_store.specs.Told.{MeetsBlock};
ghost use Rattle.edge_store.specs.View.{is_allocable};
ghost use Rattle.edge_point.specs.Blocks.{TellsMet};
ghost use Rattle.edge_point.specs.Finding.{Sees};
ghost use Rattle.edge_point.specs.Seen.{next_view, state_of};
ghost use Rattle.edge_point.specs.Standing.{IsPoint};
ghost use Rattle.edge_point.specs.Uses.{HoldsBytes};

use crate::block::{end_by_step, seek_block};
use crate::parts::Parts;
use edge_base::Form;
use edge_disk::Disk;
use edge_store::{Spot, StoreFault};

/// Looks whether a block is used and has its form and its owner.
pub(crate) fn look<D: Disk>(p: &mut Parts<D>, s: Spot) -> Result<(), StoreFault>
    requires stands { IsPoint D.Disk p.old }
    requires live { IsLive (state_of D.Disk p.old) }
    requires block { IsAllocable (state_of D.Disk p.old) s.block }
    ensures stands { IsPoint D.Disk p.new }
    ensures called { Called (state_of D.Disk p.old) (state_of D.Disk p.new) result }
    ensures point { KeepsPoint (state_of D.Disk p.old) (state_of D.Disk p.new) }
    ensures working { KeepsWorking (state_of D.Disk p.old) (state_of D.Disk p.new) }
    ensures damage { MeetsBlock (state_of D.Disk p.old) (state_of D.Disk p.new) s result }
{
    let step = seek_block(p, s);
    end_by_step(p, step)
}

// Reads a block into the room for one.
fn read_whole<D: Disk>(p: &mut Parts<D>, b: u32) -> Result<(), StoreFault>
    requires stands { IsPoint D.Disk p.old }
    requires block { b < p.old.master.geometry.blocks }
    ensures sees { Sees D.Disk p.old p.new result }
    ensures bytes { IsTrue (D.origin p.old.cache.disk).shows
        → OnOk result (p.new.block.items ≡ content_in D.Disk p.old.cache b) }
    ensures met { TellsMet None result }
{
    match p.cache.read(b, 0, &mut p.block) {
        Ok(()) => Ok(()),
        Err(_) => Err(StoreFault::Device),
    }
}

// Reads a block that was looked at: a pointer node is in the room already.
fn read_rest<D: Disk>(p: &mut Parts<D>, b: u32, form: Form) -> Result<(), StoreFault>
    requires stands { IsPoint D.Disk p.old }
    requires block { b < p.old.master.geometry.blocks }
    requires node { IsTrue (D.origin p.old.cache.disk).shows → form ≢ Plain
        → p.old.block.items ≡ content_in D.Disk p.old.cache b }
    ensures sees { Sees D.Disk p.old p.new result }
    ensures bytes { IsTrue (D.origin p.old.cache.disk).shows
        → OnOk result (p.new.block.items ≡ content_in D.Disk p.old.cache b) }
    ensures met { TellsMet None result }
{
    match form {
        Form::Plain => read_whole(p, b),
        Form::Indirect | Form::Double => Ok(()),
    }
}

// Looks at a block and reads it into the room for one, and ends nothing.
fn load<D: Disk>(p: &mut Parts<D>, s: Spot) -> Result<(), StoreFault>
    requires stands { IsPoint D.Disk p.old }
    requires live { p.old.live ≡ true }
    requires block { is_allocable p.old.master.geometry s.block ≡ true }
    ensures sees { Sees D.Disk p.old p.new result }
    ensures bytes { IsTrue (D.origin p.old.cache.disk).shows
        → OnOk result (p.new.block.items ≡ content_in D.Disk p.old.cache s.block) }
    ensures met { IsTrue (D.origin p.old.cache.disk).shows
        → IsTied p.old.imap (content_in D.Disk p.old.cache)
        → TellsMet (damage_at (next_view D.Disk p.old) s.form s.owner s.block) result }
{
    seek_block(p, s)?;
    read_rest(p, s.block, s.form)
}

/// The same, and reads it into the room for a block.
pub(crate) fn open_block<D: Disk>(p: &mut Parts<D>, s: Spot) -> Result<(), StoreFault>
    requires stands { IsPoint D.Disk p.old }
    requires live { IsLive (state_of D.Disk p.old) }
    requires block { IsAllocable (state_of D.Disk p.old) s.block }
    ensures stands { IsPoint D.Disk p.new }
    ensures called { Called (state_of D.Disk p.old) (state_of D.Disk p.new) result }
    ensures point { KeepsPoint (state_of D.Disk p.old) (state_of D.Disk p.new) }
    ensures working { KeepsWorking (state_of D.Disk p.old) (state_of D.Disk p.new) }
    ensures damage { MeetsBlock (state_of D.Disk p.old) (state_of D.Disk p.new) s result }
    ensures room { OnOk result
        (HoldsBytes (state_of D.Disk p.old) s.block p.new.block.items) }
{
    let step = load(p, s);
    end_by_step(p, step)
}

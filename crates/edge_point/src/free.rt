//! Free blocks, and the use of a block.
ghost use Rattle.std.specs.Prelude.{◌≡◌, ◌<◌, IfOk, IsTrue, OnOk, true};
ghost use Rattle.edge_base.specs.declared.damage.DamageKind.TheVariants.{WrongField};
ghost use Rattle.edge_cache.specs.Calls.{content_in};
ghost use Rattle.edge_imap.specs.Bitmaps.{IsTied, bits_of};
ghost use Rattle.edge_store.specs.Calls.{Called, KeepsPlaces, KeepsPoint, KeepsWorking, NeverDamaged};
ghost use Rattle.edge_store.specs.State.{HasRoom, IsAllocable, IsLive};
ghost use Rattle.edge_store.specs.Told.{MeetsNone};
ghost use Rattle.edge_store.specs.View.{is_allocable};
ghost use Rattle.edge_store.specs.declared.fault.StoreFault.TheVariants.{Damaged};
ghost use Rattle.edge_point.specs.Finding.{Sees};
ghost use Rattle.edge_point.specs.Seen.{state_of};
ghost use Rattle.edge_point.specs.Standing.{IsPoint};
ghost use Rattle.edge_point.specs.Uses.{IsFreeIn, IsUnused, SetsUse};

use crate::block::end_by_step;
use crate::inode::fault_of;
use crate::parts::Parts;
use crate::steps::mark;
use edge_base::{Damage, DamageKind, Geometry};
use edge_disk::Disk;
use edge_store::StoreFault;

// The bit to begin a search at: that of the block to try next, or the first where it has none.
fn bit_from(g: &Geometry, next: u32) -> u32
    ensures { result < bits_of g.now }
{
    let request = g.request();
    let start = g.table_start();
    if start <= next && next < request.blocks {
        next - start
    } else {
        0
    }
}

// The fault of a metaroot that counts free blocks where its bitmap has none.
fn miscounted(place: u32) -> StoreFault
    ensures { result ≡ Damaged (record { block = place; kind = WrongField }) }
{
    StoreFault::Damaged(Damage {
        block: place,
        kind: DamageKind::WrongField,
    })
}

// Finds a block that neither list uses, from the one to try next on and round, and ends nothing.
fn seek_free<D: Disk>(p: &mut Parts<D>) -> Result<u32, StoreFault>
    requires stands { IsPoint D.Disk p.old }
    ensures sees { Sees D.Disk p.old p.new result }
    ensures room { p.new.block.items ≡ p.old.block.items }
    ensures block { IfOk result (λ b. is_allocable p.old.master.geometry b ≡ true) }
    ensures free { IsTrue (D.origin p.old.cache.disk).shows
        → IfOk result (IsUnused D.Disk p.old) }
    ensures sound { IsTrue (D.origin p.old.cache.disk).shows
        → IsTied p.old.imap (content_in D.Disk p.old.cache)
        → 0 < p.old.imap.counts.free → NeverDamaged result }
{
    let start = p.master.geometry.table_start();
    let from = bit_from(&p.master.geometry, p.next);
    match p.imap.next_free(&mut p.cache, from) {
        Ok(Some(bit)) => Ok(start + bit),
        Ok(None) => Err(miscounted(p.place)),
        Err(fault) => Err(fault_of(fault)),
    }
}

/// Finds a block that neither view uses.
pub(crate) fn find_free<D: Disk>(p: &mut Parts<D>) -> Result<u32, StoreFault>
    requires stands { IsPoint D.Disk p.old }
    requires live { IsLive (state_of D.Disk p.old) }
    requires room { HasRoom (state_of D.Disk p.old) }
    ensures stands { IsPoint D.Disk p.new }
    ensures room { p.new.block.items ≡ p.old.block.items }
    ensures called { Called (state_of D.Disk p.old) (state_of D.Disk p.new) result }
    ensures point { KeepsPoint (state_of D.Disk p.old) (state_of D.Disk p.new) }
    ensures working { KeepsWorking (state_of D.Disk p.old) (state_of D.Disk p.new) }
    ensures undamaged { MeetsNone (state_of D.Disk p.old) result }
    ensures block { IfOk result (IsAllocable (state_of D.Disk p.old)) }
    ensures free { IfOk result (IsFreeIn (state_of D.Disk p.old)) }
{
    let step = seek_free(p);
    end_by_step(p, step)
}

/// Sets whether the working view uses a block. What the last point uses it goes on to use.
pub(crate) fn set_use<D: Disk>(p: &mut Parts<D>, b: u32, used: bool) -> Result<(), StoreFault>
    requires stands { IsPoint D.Disk p.old }
    requires live { IsLive (state_of D.Disk p.old) }
    requires block { IsAllocable (state_of D.Disk p.old) b }
    ensures stands { IsPoint D.Disk p.new }
    ensures room { p.new.block.items ≡ p.old.block.items }
    ensures called { Called (state_of D.Disk p.old) (state_of D.Disk p.new) result }
    ensures point { KeepsPoint (state_of D.Disk p.old) (state_of D.Disk p.new) }
    ensures undamaged { MeetsNone (state_of D.Disk p.old) result }
    ensures places { OnOk result (KeepsPlaces (state_of D.Disk p.old) (state_of D.Disk p.new)) }
    ensures set { OnOk result
        (SetsUse (state_of D.Disk p.old) (state_of D.Disk p.new) b used) }
{
    let step = mark(p, b, used);
    end_by_step(p, step)
}

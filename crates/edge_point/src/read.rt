//! Calls of a store that only read, and the end of one.
ghost use Rattle.std.specs.Prelude.{◌≡◌, ◌-◌, true, Err, IfOk, IsTrue, OnOk};
ghost use Rattle.edge_base.specs.layout.Bitmap.{used_under};
ghost use Rattle.edge_base.specs.layout.Places.{table_start_of};
ghost use Rattle.edge_base.specs.outside.Below.{SameBelow};
ghost use Rattle.edge_cache.specs.Cached.{IsClean};
ghost use Rattle.edge_cache.specs.Calls.{content_in};
ghost use Rattle.edge_imap.specs.Bitmaps.{IsNamedFor, IsTied, state_of as block_state_of};
ghost use Rattle.edge_imap.specs.Reading.{NeverDamaged, OnlyReads, TellsWhy};
ghost use Rattle.edge_store.specs.Calls.{Called, KeepsPoint, KeepsWorking, Reads};
ghost use Rattle.edge_store.specs.State.{HasDamage, IsAllocable, IsLive, Told};
ghost use Rattle.edge_store.specs.Told.{IsNewOf, MeetsNone};
ghost use Rattle.edge_store.specs.declared.fault.StoreFault.TheVariants.{Damaged};
ghost use Rattle.edge_anchor.specs.Anchor.{HasBit};
ghost use Rattle.edge_point.specs.Ended.{damage_after, ended, is_new_by, of_imap};
ghost use Rattle.edge_point.specs.Seen.{state_of};
ghost use Rattle.edge_point.specs.Standing.{IsPoint};
ghost use Rattle.edge_point.specs.Steps.{KeepsRest};

use crate::parts::Parts;
use edge_base::Damage;
use edge_disk::Disk;
use edge_imap::{BlockState, ImapFault};
use edge_store::StoreFault;

/// Ends the store with damage that a layer above has found, and answers it.
pub(crate) fn report<D: Disk>(p: &mut Parts<D>, damage: Damage) -> StoreFault
    requires stands { IsPoint D.Disk p.old }
    requires live { IsLive (state_of D.Disk p.old) }
    requires holds { Told (state_of D.Disk p.old) → HasDamage (state_of D.Disk p.old) damage }
    ensures stands { IsPoint D.Disk p.new }
    ensures answer { result ≡ Damaged damage }
    ensures called { Called {T = ⊥} (state_of D.Disk p.old) (state_of D.Disk p.new) (Err result) }
    ensures point { KeepsPoint (state_of D.Disk p.old) (state_of D.Disk p.new) }
    ensures working { KeepsWorking (state_of D.Disk p.old) (state_of D.Disk p.new) }
    ensures still_holds { Told (state_of D.Disk p.old)
        → HasDamage (state_of D.Disk p.new) damage }
    ensures below { IsClean p.old.cache.held → SameBelow
        (D.may_hold p.old.cache.disk) (D.may_hold p.new.cache.disk)
        (D.is_sure p.old.cache.disk) (D.is_sure p.new.cache.disk) }
{
    p.live = false;
    p.damage = Some(damage);
    StoreFault::Damaged(damage)
}

// Ends the store with a fault of its bitmap, and answers it.
fn end_by<D: Disk>(p: &mut Parts<D>, fault: ImapFault) -> StoreFault
    ensures answer { result ≡ of_imap fault }
    ensures ended { p.new ≡ ended p.old (damage_after p.old.damage (of_imap fault)) }
{
    p.live = false;
    match fault {
        ImapFault::Device => StoreFault::Device,
        ImapFault::Damaged(damage) => {
            p.damage = Some(damage);
            StoreFault::Damaged(damage)
        }
    }
}

// The state of a block that has a bit.
pub(crate) fn block_state<D: Disk>(p: &mut Parts<D>, b: u32) -> Result<BlockState, ImapFault>
    requires stands { IsPoint D.Disk p.old }
    requires block { HasBit p.old.master.geometry b }
    ensures state { IsTrue (D.origin p.old.cache.disk).shows
        → IfOk result (λ s. s ≡ block_state_of
        (used_under p.old.master.geometry p.old.imap.committed (content_in D.Disk p.old.cache) b)
        (used_under p.old.master.geometry p.old.imap.working (content_in D.Disk p.old.cache) b)) }
    ensures rest { KeepsRest p.old p.new }
    ensures room { p.new.block.items ≡ p.old.block.items }
    ensures imap { p.new.imap ≡ p.old.imap }
    ensures reads { OnlyReads D.Disk p.old.cache p.new.cache }
    ensures cause { TellsWhy D.Disk
        (IsNamedFor p.old.imap (b - table_start_of p.old.master.geometry))
        p.old.cache p.new.cache result }
    ensures sound { IsTrue (D.origin p.old.cache.disk).shows
        → IsTied p.old.imap (content_in D.Disk p.old.cache) → NeverDamaged result }
{
    let bit = b - p.master.geometry.table_start();
    p.imap.state(&mut p.cache, bit)
}

// Whether a block of this state is used in the working list alone.
pub(crate) fn is_new_state(state: BlockState) -> bool
    ensures { result ≡ is_new_by state }
{
    match state {
        BlockState::New => true,
        BlockState::Free | BlockState::Used | BlockState::AlmostFree => false,
    }
}

/// Whether the working view uses a block and the last point does not.
pub(crate) fn is_new<D: Disk>(p: &mut Parts<D>, b: u32) -> Result<bool, StoreFault>
    requires stands { IsPoint D.Disk p.old }
    requires live { IsLive (state_of D.Disk p.old) }
    requires block { IsAllocable (state_of D.Disk p.old) b }
    ensures stands { IsPoint D.Disk p.new }
    ensures called { Called (state_of D.Disk p.old) (state_of D.Disk p.new) result }
    ensures point { KeepsPoint (state_of D.Disk p.old) (state_of D.Disk p.new) }
    ensures reads { Reads (state_of D.Disk p.old) (state_of D.Disk p.new) result }
    ensures below { IsClean p.old.cache.held → SameBelow
        (D.may_hold p.old.cache.disk) (D.may_hold p.new.cache.disk)
        (D.is_sure p.old.cache.disk) (D.is_sure p.new.cache.disk) }
    ensures clean { IsClean p.old.cache.held → OnOk result (IsClean p.new.cache.held) }
    ensures undamaged { MeetsNone (state_of D.Disk p.old) result }
    ensures is_new { IfOk result (IsNewOf (state_of D.Disk p.old) b) }
{
    match block_state(p, b) {
        Ok(state) => Ok(is_new_state(state)),
        Err(fault) => Err(end_by(p, fault)),
    }
}

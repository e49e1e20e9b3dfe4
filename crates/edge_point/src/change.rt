//! Changes of inodes. One that the last point has goes to its other place, and one that is new in
//! this point is changed where it lies.
ghost use Rattle.std.specs.Prelude.{◌≡◌, ◌&&◌, false, not, true, IfOk, IsTrue, OnOk};
ghost use Rattle.edge_base.specs.layout.Places.{entries_of, inode_place_of};
ghost use Rattle.edge_cache.specs.Calls.{content_in};
ghost use Rattle.edge_imap.specs.Bitmaps.{IsTied};
ghost use Rattle.edge_store.specs.Calls.{Called, KeepsPlacesBut, KeepsPoint, NeverDamaged};
ghost use Rattle.edge_store.specs.State.{Told};
ghost use Rattle.edge_store.specs.Told.{MeetsNone};
ghost use Rattle.edge_store.specs.View.{is_number};
ghost use Rattle.edge_anchor.specs.Anchor.{HasBit};
ghost use Rattle.edge_point.specs.Changing.{
  InodeWritten,
  IsPlaceFor,
  IsPutAt,
  LiesAt,
  TakesStep,
  committed_of,
  working_of,
};
ghost use Rattle.edge_point.specs.Finding.{Sees};
ghost use Rattle.edge_point.specs.Seen.{state_of};
ghost use Rattle.edge_point.specs.Standing.{IsPoint};

use crate::inode::{end_with, fault_of};
use crate::parts::Parts;
use crate::read::{block_state, is_new_state};
use crate::steps::{mark, put_node};
use edge_disk::Disk;
use edge_store::StoreFault;

// Whether the working list uses a block that has a bit and the last point does not.
fn is_new_block<D: Disk>(p: &mut Parts<D>, b: u32) -> Result<bool, StoreFault>
    requires stands { IsPoint D.Disk p.old }
    requires block { HasBit p.old.master.geometry b }
    ensures sees { Sees D.Disk p.old p.new result }
    ensures room { p.new.block.items ≡ p.old.block.items }
    ensures is_new { IsTrue (D.origin p.old.cache.disk).shows → IfOk result
        (λ new. new ≡ (working_of D.Disk p.old b && not (committed_of D.Disk p.old b))) }
    ensures sound { IsTrue (D.origin p.old.cache.disk).shows
        → IsTied p.old.imap (content_in D.Disk p.old.cache) → NeverDamaged result }
{
    match block_state(p, b) {
        Ok(state) => Ok(is_new_state(state)),
        Err(fault) => Err(fault_of(fault)),
    }
}

// Puts the inode in the room for a block at the place of its number where it does not lie.
fn move_inode<D: Disk>(p: &mut Parts<D>, n: u32, second: bool) -> Result<(), StoreFault>
    requires stands { IsPoint D.Disk p.old }
    requires live { p.old.live ≡ true }
    requires number { is_number p.old.master.geometry n ≡ true }
    requires lies { IsTrue (D.origin p.old.cache.disk).shows
        → LiesAt p.old.master.geometry (working_of D.Disk p.old) n second }
    requires unused { IsTrue (D.origin p.old.cache.disk).shows → committed_of D.Disk p.old
        (inode_place_of p.old.master.geometry n (not second)) ≡ false }
    ensures step { TakesStep D.Disk (IsPlaceFor p.old.master.geometry n) p.old p.new result }
    ensures undamaged { IsTrue (D.origin p.old.cache.disk).shows → NeverDamaged result }
    ensures numbers { p.new.numbers ≡ p.old.numbers }
    ensures stands { OnOk result (IsPoint D.Disk p.new) }
    ensures put { IsTrue (D.origin p.old.cache.disk).shows → OnOk result
        (IsPutAt p.old.master.geometry (working_of D.Disk p.new)
        (content_in D.Disk p.new.cache) n p.old.block.items) }
{
    let to = p.master.geometry.inode_place(n, !second);
    put_node(p, to)?;
    mark(p, to, true)?;
    let from = p.master.geometry.inode_place(n, second);
    mark(p, from, false)
}

// Puts the inode in the room for a block at a place of its number that the last point does not use.
fn put_inode<D: Disk>(p: &mut Parts<D>, n: u32, second: bool) -> Result<(), StoreFault>
    requires stands { IsPoint D.Disk p.old }
    requires live { p.old.live ≡ true }
    requires number { is_number p.old.master.geometry n ≡ true }
    requires lies { IsTrue (D.origin p.old.cache.disk).shows
        → LiesAt p.old.master.geometry (working_of D.Disk p.old) n second }
    ensures step { TakesStep D.Disk (IsPlaceFor p.old.master.geometry n) p.old p.new result }
    ensures undamaged { IsTrue (D.origin p.old.cache.disk).shows → NeverDamaged result }
    ensures numbers { p.new.numbers ≡ p.old.numbers }
    ensures stands { OnOk result (IsPoint D.Disk p.new) }
    ensures put { IsTrue (D.origin p.old.cache.disk).shows → OnOk result
        (IsPutAt p.old.master.geometry (working_of D.Disk p.new)
        (content_in D.Disk p.new.cache) n p.old.block.items) }
{
    let place = p.master.geometry.inode_place(n, second);
    if is_new_block(p, place)? {
        return put_node(p, place);
    }
    move_inode(p, n, second)
}

/// Writes the inode in the room for a block as that of its number. A fault ends the store.
pub(crate) fn write_inode<D: Disk>(p: &mut Parts<D>, n: u32, second: bool) -> Result<(), StoreFault>
    requires stands { IsPoint D.Disk p.old }
    requires live { p.old.live ≡ true }
    requires number { is_number p.old.master.geometry n ≡ true }
    requires lies { IsTrue (D.origin p.old.cache.disk).shows
        → LiesAt p.old.master.geometry (working_of D.Disk p.old) n second }
    ensures stands { IsPoint D.Disk p.new }
    ensures called { Called (state_of D.Disk p.old) (state_of D.Disk p.new) result }
    ensures point { KeepsPoint (state_of D.Disk p.old) (state_of D.Disk p.new) }
    ensures undamaged { MeetsNone (state_of D.Disk p.old) result }
    ensures places { OnOk result
        (KeepsPlacesBut (state_of D.Disk p.old) (state_of D.Disk p.new) n) }
    ensures written { Told (state_of D.Disk p.old) → OnOk result (InodeWritten
        p.old.master.geometry (state_of D.Disk p.old).working (state_of D.Disk p.new).working
        n p.old.block.items) }
{
    match put_inode(p, n, second) {
        Ok(()) => Ok(()),
        Err(fault) => Err(end_with(p, fault)),
    }
}

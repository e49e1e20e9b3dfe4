//! Numbers that get an inode, and numbers that lose theirs.
ghost use Rattle.std.specs.Prelude.{◌≡◌, ◌+◌, IfOk, IfSome, IsTrue, OnOk, Some, length, replicate, true};
ghost use Rattle.edge_base.specs.layout.Places.{entries_of};
ghost use Rattle.edge_base.specs.layout.Spelling.{SpellsInode};
ghost use Rattle.edge_cache.specs.Calls.{content_in};
ghost use Rattle.edge_image.specs.Image.{is_free};
ghost use Rattle.edge_imap.specs.Bitmaps.{IsTied};
ghost use Rattle.edge_imap.specs.Search.{FindsLeast};
ghost use Rattle.edge_store.specs.Calls.{
  Called,
  KeepsPlacesBut,
  KeepsPlacesButFound,
  KeepsPoint,
  KeepsWorking,
  NeverDamaged,
};
ghost use Rattle.edge_store.specs.State.{HasInode, IsLive, IsNumber, Told};
ghost use Rattle.edge_store.specs.Told.{DropsInode, MakesInode, MeetsInode, MeetsNone};
ghost use Rattle.edge_store.specs.View.{is_head, is_number};
ghost use Rattle.edge_anchor.specs.Anchor.{HasBit};
ghost use Rattle.edge_point.specs.Changing.{
  InodeWritten,
  IsFirstFree,
  IsPlaceFor,
  IsPutAt,
  LiesAt,
  TakesStep,
  WillSpell,
  committed_of,
  working_of,
};
ghost use Rattle.edge_point.specs.Ended.{is_committed_by};
ghost use Rattle.edge_point.specs.Finding.{Sees};
ghost use Rattle.edge_point.specs.Seen.{state_of};
ghost use Rattle.edge_point.specs.Standing.{IsPoint};
ghost use Rattle.edge_point.specs.Steps.{KeepsRest};

use crate::inode::{end_with, fault_of, find};
use crate::parts::Parts;
use crate::read::block_state;
use crate::set::is_second;
use crate::steps::{mark, put_node};
use edge_base::{Geometry, Head};
use edge_disk::Disk;
use edge_imap::BlockState;
use edge_nodes::encode_inode;
use edge_store::StoreFault;

// The entries of the largest inode.
const MOST_ENTRIES: usize = 1016;

// Takes a number its bit, and counts it among those without an inode. A fault ends the store.
fn clear_inode<D: Disk>(p: &mut Parts<D>, n: u32, second: bool) -> Result<(), StoreFault>
    requires stands { IsPoint D.Disk p.old }
    requires live { p.old.live ≡ true }
    requires number { is_number p.old.master.geometry n ≡ true }
    requires lies { IsTrue (D.origin p.old.cache.disk).shows
        → LiesAt p.old.master.geometry (working_of D.Disk p.old) n second }
    ensures stands { IsPoint D.Disk p.new }
    ensures called { Called (state_of D.Disk p.old) (state_of D.Disk p.new) result }
    ensures point { KeepsPoint (state_of D.Disk p.old) (state_of D.Disk p.new) }
    ensures undamaged { MeetsNone (state_of D.Disk p.old) result }
    ensures places { OnOk result
        (KeepsPlacesBut (state_of D.Disk p.old) (state_of D.Disk p.new) n) }
    ensures dropped { OnOk result
        (DropsInode (state_of D.Disk p.old) (state_of D.Disk p.new) n) }
{
    let place = p.master.geometry.inode_place(n, second);
    match mark(p, place, false) {
        Ok(()) => {
            p.numbers = p.numbers.saturating_add(1);
            Ok(())
        }
        Err(fault) => Err(end_with(p, fault)),
    }
}

/// Takes a number its inode.
pub(crate) fn drop_inode<D: Disk>(p: &mut Parts<D>, n: u32) -> Result<(), StoreFault>
    requires stands { IsPoint D.Disk p.old }
    requires live { IsLive (state_of D.Disk p.old) }
    requires number { IsNumber (state_of D.Disk p.old) n }
    requires there { HasInode (state_of D.Disk p.old) n }
    ensures stands { IsPoint D.Disk p.new }
    ensures called { Called (state_of D.Disk p.old) (state_of D.Disk p.new) result }
    ensures point { KeepsPoint (state_of D.Disk p.old) (state_of D.Disk p.new) }
    ensures damage { MeetsInode (state_of D.Disk p.old) (state_of D.Disk p.new) n result }
    ensures places { OnOk result
        (KeepsPlacesBut (state_of D.Disk p.old) (state_of D.Disk p.new) n) }
    ensures dropped { OnOk result
        (DropsInode (state_of D.Disk p.old) (state_of D.Disk p.new) n) }
{
    let found = find(p, n)?;
    match found {
        None => Ok(()),
        Some(found) => {
            let second = is_second(&p.master.geometry, n, found.block);
            clear_inode(p, n, second)
        }
    }
}

// Whether the last point uses a block of this state.
fn is_committed_state(state: BlockState) -> bool
    ensures { result ≡ is_committed_by state }
{
    match state {
        BlockState::Used | BlockState::AlmostFree => true,
        BlockState::Free | BlockState::New => false,
    }
}

// Whether the last point uses a block that has a bit.
fn is_committed<D: Disk>(p: &mut Parts<D>, b: u32) -> Result<bool, StoreFault>
    requires stands { IsPoint D.Disk p.old }
    requires block { HasBit p.old.master.geometry b }
    ensures sees { Sees D.Disk p.old p.new result }
    ensures room { p.new.block.items ≡ p.old.block.items }
    ensures used { IsTrue (D.origin p.old.cache.disk).shows
        → IfOk result (λ used. used ≡ committed_of D.Disk p.old b) }
    ensures sound { IsTrue (D.origin p.old.cache.disk).shows
        → IsTied p.old.imap (content_in D.Disk p.old.cache) → NeverDamaged result }
{
    match block_state(p, b) {
        Ok(state) => Ok(is_committed_state(state)),
        Err(fault) => Err(fault_of(fault)),
    }
}

// Puts the inode in the room for a block at the place of its number that the last point does not
// use, and makes it used.
fn add_inode<D: Disk>(p: &mut Parts<D>, n: u32) -> Result<(), StoreFault>
    requires stands { IsPoint D.Disk p.old }
    requires live { p.old.live ≡ true }
    requires number { is_number p.old.master.geometry n ≡ true }
    requires free { IsTrue (D.origin p.old.cache.disk).shows
        → is_free p.old.master.geometry (working_of D.Disk p.old) n ≡ true }
    ensures step { TakesStep D.Disk (IsPlaceFor p.old.master.geometry n) p.old p.new result }
    ensures undamaged { IsTrue (D.origin p.old.cache.disk).shows → NeverDamaged result }
    ensures numbers { p.new.numbers ≡ p.old.numbers }
    ensures put { IsTrue (D.origin p.old.cache.disk).shows → OnOk result
        (IsPutAt p.old.master.geometry (working_of D.Disk p.new)
        (content_in D.Disk p.new.cache) n p.old.block.items) }
{
    let first = p.master.geometry.inode_place(n, false);
    let second = is_committed(p, first)?;
    let place = p.master.geometry.inode_place(n, second);
    put_node(p, place)?;
    mark(p, place, true)
}

// Gives a number without an inode the one in the room for a block, and answers the number. A fault
// ends the store.
fn make_inode<D: Disk>(p: &mut Parts<D>, n: u32) -> Result<Option<u32>, StoreFault>
    requires stands { IsPoint D.Disk p.old }
    requires live { p.old.live ≡ true }
    requires number { is_number p.old.master.geometry n ≡ true }
    requires free { IsTrue (D.origin p.old.cache.disk).shows
        → is_free p.old.master.geometry (working_of D.Disk p.old) n ≡ true }
    ensures stands { IsPoint D.Disk p.new }
    ensures answer { IfOk result (λ found. found ≡ Some n) }
    ensures called { Called (state_of D.Disk p.old) (state_of D.Disk p.new) result }
    ensures point { KeepsPoint (state_of D.Disk p.old) (state_of D.Disk p.new) }
    ensures undamaged { MeetsNone (state_of D.Disk p.old) result }
    ensures places { OnOk result
        (KeepsPlacesBut (state_of D.Disk p.old) (state_of D.Disk p.new) n) }
    ensures written { Told (state_of D.Disk p.old) → OnOk result (InodeWritten
        p.old.master.geometry (state_of D.Disk p.old).working (state_of D.Disk p.new).working
        n p.old.block.items) }
{
    match add_inode(p, n) {
        Ok(()) => {
            p.numbers = p.numbers.saturating_sub(1);
            Ok(Some(n))
        }
        Err(fault) => Err(end_with(p, fault)),
    }
}

// Writes an inode without entries over the whole of `out`.
fn fill_inode(g: &Geometry, sequence: u64, head: &Head, out: &mut [u8])
    requires whole { length out.old ≡ g.now.block_size }
    requires head { is_head head.now ≡ true }
    ensures { SpellsInode g.now sequence head.now (replicate (entries_of g.now) 0) out.new }
{
    let count = (g.request().block_size as usize - 32) / 4;
    encode_inode(g, sequence, head, &[0; MOST_ENTRIES][..count], out);
}

// Makes the room for a block an inode without entries, for the next point.
fn blank_inode<D: Disk>(p: &mut Parts<D>, head: &Head)
    requires block { length p.old.block.items ≡ p.old.master.geometry.block_size }
    requires head { is_head head.now ≡ true }
    ensures rest { KeepsRest p.old p.new }
    ensures cache { p.new.cache ≡ p.old.cache }
    ensures imap { p.new.imap ≡ p.old.imap }
    ensures spelled { WillSpell p.old.master.geometry head.now
        (replicate (entries_of p.old.master.geometry) 0) p.new.block.items }
{
    let _within_limits = p.master.geometry.request();
    let sequence = p.root.sequence.saturating_add(1);
    fill_inode(&p.master.geometry, sequence, head, &mut p.block);
}

// The least number without an inode, and ends nothing.
fn seek_number<D: Disk>(p: &mut Parts<D>) -> Result<Option<u32>, StoreFault>
    requires stands { IsPoint D.Disk p.old }
    requires live { p.old.live ≡ true }
    ensures sees { Sees D.Disk p.old p.new result }
    ensures sound { IsTrue (D.origin p.old.cache.disk).shows → NeverDamaged result }
    ensures number { IfOk result (λ found. IfSome found
        (λ n. is_number p.old.master.geometry n ≡ true)) }
    ensures found { IsTrue (D.origin p.old.cache.disk).shows → IfOk result
        (FindsLeast (is_free p.old.master.geometry (working_of D.Disk p.old))
        2 (2 + p.old.master.geometry.inodes)) }
{
    match p.imap.free_inode(&mut p.cache) {
        Ok(found) => Ok(found),
        Err(fault) => Err(fault_of(fault)),
    }
}

// The least number without an inode. A fault ends the store.
fn find_number<D: Disk>(p: &mut Parts<D>) -> Result<Option<u32>, StoreFault>
    requires stands { IsPoint D.Disk p.old }
    requires live { p.old.live ≡ true }
    ensures stands { IsPoint D.Disk p.new }
    ensures geometry { p.new.master.geometry ≡ p.old.master.geometry }
    ensures called { Called (state_of D.Disk p.old) (state_of D.Disk p.new) result }
    ensures point { KeepsPoint (state_of D.Disk p.old) (state_of D.Disk p.new) }
    ensures working { KeepsWorking (state_of D.Disk p.old) (state_of D.Disk p.new) }
    ensures undamaged { MeetsNone (state_of D.Disk p.old) result }
    ensures number { IfOk result (λ found. IfSome found
        (λ n. is_number p.old.master.geometry n ≡ true)) }
    ensures found { Told (state_of D.Disk p.old) → IfOk result
        (IsFirstFree p.old.master.geometry (state_of D.Disk p.old).working) }
{
    match seek_number(p) {
        Ok(found) => Ok(found),
        Err(fault) => Err(end_with(p, fault)),
    }
}

/// Gives the least number without an inode one with this head and no entries, and answers the
/// number. None exactly where each number has an inode.
pub(crate) fn new_inode<D: Disk>(p: &mut Parts<D>, head: Head) -> Result<Option<u32>, StoreFault>
    requires stands { IsPoint D.Disk p.old }
    requires live { IsLive (state_of D.Disk p.old) }
    requires head { is_head head ≡ true }
    ensures stands { IsPoint D.Disk p.new }
    ensures called { Called (state_of D.Disk p.old) (state_of D.Disk p.new) result }
    ensures point { KeepsPoint (state_of D.Disk p.old) (state_of D.Disk p.new) }
    ensures undamaged { MeetsNone (state_of D.Disk p.old) result }
    ensures number { IfOk result (λ found. IfSome found (IsNumber (state_of D.Disk p.old))) }
    ensures places { IfOk result
        (KeepsPlacesButFound (state_of D.Disk p.old) (state_of D.Disk p.new)) }
    ensures made { IfOk result
        (MakesInode (state_of D.Disk p.old) (state_of D.Disk p.new) head) }
{
    let found = find_number(p)?;
    match found {
        None => Ok(None),
        Some(n) => {
            blank_inode(p, &head);
            make_inode(p, n)
        }
    }
}

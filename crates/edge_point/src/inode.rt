//! Finding the inode of a number, and reading it.
ghost use Rattle.std.specs.Prelude.{◌≡◌, ◌<◌, false, true, IfOk, IfSome, IsTrue, OnOk, length};
ghost use Rattle.edge_base.specs.layout.Bitmap.{used_under};
ghost use Rattle.edge_base.specs.layout.Places.{entries_of, inode_place_of};
ghost use Rattle.edge_base.specs.layout.Spelling.{inode_in};
ghost use Rattle.edge_base.specs.outside.Below.{SameBelow};
ghost use Rattle.edge_cache.specs.Cached.{IsClean};
ghost use Rattle.edge_cache.specs.Calls.{content_in};
ghost use Rattle.edge_image.specs.View.{inode_under};
ghost use Rattle.edge_imap.specs.Bitmaps.{IsTied};
ghost use Rattle.edge_store.specs.Calls.{Called, KeepsPoint, KeepsWorking, NeverDamaged, Reads};
ghost use Rattle.edge_store.specs.State.{HasInode, IsLive, IsNumber, Told};
ghost use Rattle.edge_store.specs.Told.{IsEntryOf, IsHeadOf, IsPlaceOf, MeetsInode};
ghost use Rattle.edge_store.specs.View.{is_head, is_head_or_none, is_number, kind_of_fault};
ghost use Rattle.edge_anchor.specs.Anchor.{HasBit};
ghost use Rattle.edge_point.specs.Ended.{damage_after, ended, is_used_by, of_imap};
ghost use Rattle.edge_point.specs.Finding.{
  Sees,
  SpellsHead,
  TellsInode,
  TellsOrFails,
  found_head,
  head_told,
  place_told,
};
ghost use Rattle.edge_point.specs.Seen.{place_under, state_of};
ghost use Rattle.edge_point.specs.Standing.{IsPoint};

use crate::parts::Parts;
use crate::read::block_state;
use edge_base::{Damage, DamageKind, Geometry, Head, NodeFault};
use edge_disk::Disk;
use edge_imap::{BlockState, ImapFault};
use edge_nodes::{decode_inode, entry_of};
use edge_store::StoreFault;

/// An inode that can be read: its head, and the block that it lies in.
#[derive(Clone, Copy)]
pub(crate) struct Found {
    pub(crate) head: Head,
    pub(crate) block: u32,
}

// The fault of a bitmap, as one of a store.
pub(crate) fn fault_of(fault: ImapFault) -> StoreFault
    ensures { result ≡ of_imap fault }
{
    match fault {
        ImapFault::Device => StoreFault::Device,
        ImapFault::Damaged(damage) => StoreFault::Damaged(damage),
    }
}

// The kind of damage that a fault of a node is.
pub(crate) fn kind_of(fault: NodeFault) -> DamageKind
    ensures { result ≡ kind_of_fault fault }
{
    match fault {
        NodeFault::WrongSignature => DamageKind::WrongSignature,
        NodeFault::WrongWord => DamageKind::WrongWord,
        NodeFault::WrongField(_) => DamageKind::WrongField,
    }
}

// Whether a block of this state is used in the working list.
fn is_used_state(state: BlockState) -> bool
    ensures { result ≡ is_used_by state }
{
    match state {
        BlockState::New | BlockState::Used => true,
        BlockState::Free | BlockState::AlmostFree => false,
    }
}

// Whether the working list uses a block that has a bit.
pub(crate) fn is_used<D: Disk>(p: &mut Parts<D>, b: u32) -> Result<bool, StoreFault>
    requires stands { IsPoint D.Disk p.old }
    requires block { HasBit p.old.master.geometry b }
    ensures sees { Sees D.Disk p.old p.new result }
    ensures used { IsTrue (D.origin p.old.cache.disk).shows
        → IfOk result (λ used. used ≡ used_under p.old.master.geometry p.old.imap.working
        (content_in D.Disk p.old.cache) b) }
    ensures sound { IsTrue (D.origin p.old.cache.disk).shows
        → IsTied p.old.imap (content_in D.Disk p.old.cache) → NeverDamaged result }
{
    match block_state(p, b) {
        Ok(state) => Ok(is_used_state(state)),
        Err(fault) => Err(fault_of(fault)),
    }
}

// The place that is used of two, and None where none is.
fn place_by(first: u32, second: u32, one: bool, two: bool) -> Result<Option<u32>, StoreFault>
    ensures { result ≡ place_told first second one two }
{
    match (one, two) {
        (true, true) => Err(StoreFault::Damaged(Damage {
            block: first,
            kind: DamageKind::TwoPlaces,
        })),
        (true, false) => Ok(Some(first)),
        (false, true) => Ok(Some(second)),
        (false, false) => Ok(None),
    }
}

// The place of the inode of a number, and None where it has none.
fn used_place<D: Disk>(p: &mut Parts<D>, n: u32) -> Result<Option<u32>, StoreFault>
    requires stands { IsPoint D.Disk p.old }
    requires live { p.old.live ≡ true }
    requires number { is_number p.old.master.geometry n ≡ true }
    ensures sees { Sees D.Disk p.old p.new result }
    ensures place { IsTrue (D.origin p.old.cache.disk).shows
        → IsTied p.old.imap (content_in D.Disk p.old.cache) → TellsOrFails (place_told
        (inode_place_of p.old.master.geometry n false)
        (inode_place_of p.old.master.geometry n true)
        (used_under p.old.master.geometry p.old.imap.working (content_in D.Disk p.old.cache)
        (inode_place_of p.old.master.geometry n false))
        (used_under p.old.master.geometry p.old.imap.working (content_in D.Disk p.old.cache)
        (inode_place_of p.old.master.geometry n true))) result }
    ensures inside { IfOk result (λ found. IfSome found (λ b. b < p.old.master.geometry.blocks)) }
{
    let first = p.master.geometry.inode_place(n, false);
    let second = p.master.geometry.inode_place(n, true);
    let one = is_used(p, first)?;
    let two = is_used(p, second)?;
    place_by(first, second, one, two)
}

// The head of the inode that a whole block spells, or the damage of the block.
fn head_in(g: &Geometry, b: u32, bytes: &[u8]) -> Result<Head, StoreFault>
    requires { length bytes.now ≡ g.now.block_size }
    ensures head { result ≡ head_told b (inode_in bytes.now) }
    ensures rules { IfOk result (λ head. is_head head ≡ true) }
    ensures spelled { IfOk result (λ head. SpellsHead g.now head bytes.now) }
{
    match decode_inode(g, bytes) {
        Ok(head) => Ok(head),
        Err(fault) => Err(StoreFault::Damaged(Damage {
            block: b,
            kind: kind_of(fault),
        })),
    }
}

// Reads the inode of a block into the room for one.
fn read_inode<D: Disk>(p: &mut Parts<D>, b: u32) -> Result<Head, StoreFault>
    requires stands { IsPoint D.Disk p.old }
    requires block { b < p.old.master.geometry.blocks }
    ensures sees { Sees D.Disk p.old p.new result }
    ensures bytes { IsTrue (D.origin p.old.cache.disk).shows
        → OnOk result (p.new.block.items ≡ content_in D.Disk p.old.cache b) }
    ensures head { IsTrue (D.origin p.old.cache.disk).shows
        → TellsOrFails (head_told b (inode_in (content_in D.Disk p.old.cache b))) result }
    ensures rules { IfOk result (λ head. is_head head ≡ true) }
    ensures spelled { IfOk result
        (λ head. SpellsHead p.old.master.geometry head p.new.block.items) }
{
    match p.cache.read(b, 0, &mut p.block) {
        Ok(()) => head_in(&p.master.geometry, b, &p.block),
        Err(_) => Err(StoreFault::Device),
    }
}

// Finds the inode of a number and reads it, and ends nothing.
fn seek<D: Disk>(p: &mut Parts<D>, n: u32) -> Result<Option<Found>, StoreFault>
    requires stands { IsPoint D.Disk p.old }
    requires live { p.old.live ≡ true }
    requires number { is_number p.old.master.geometry n ≡ true }
    ensures sees { Sees D.Disk p.old p.new result }
    ensures tells { IsTrue (D.origin p.old.cache.disk).shows
        → IsTied p.old.imap (content_in D.Disk p.old.cache)
        → TellsInode p.old.master.geometry
        (place_under p.old.master.geometry (used_under p.old.master.geometry
        p.old.imap.working (content_in D.Disk p.old.cache)) n)
        p.new.block.items
        (inode_under p.old.master.geometry (used_under p.old.master.geometry
        p.old.imap.working (content_in D.Disk p.old.cache))
        (content_in D.Disk p.old.cache) n) result }
    ensures rules { IfOk result (λ found. IfSome found (λ f. is_head f.head ≡ true)) }
    ensures spelled { IfOk result (λ found. IfSome found
        (λ f. SpellsHead p.old.master.geometry f.head p.new.block.items)) }
{
    let place = used_place(p, n)?;
    match place {
        None => Ok(None),
        Some(block) => {
            let head = read_inode(p, block)?;
            Ok(Some(Found { head, block }))
        }
    }
}

// Ends the store with a fault, and answers it.
pub(crate) fn end_with<D: Disk>(p: &mut Parts<D>, fault: StoreFault) -> StoreFault
    ensures answer { result ≡ fault }
    ensures ended { p.new ≡ ended p.old (damage_after p.old.damage fault) }
{
    p.live = false;
    match fault {
        StoreFault::Device => StoreFault::Device,
        StoreFault::Damaged(damage) => {
            p.damage = Some(damage);
            StoreFault::Damaged(damage)
        }
    }
}

/// Finds the inode of a number and reads it into the room for a block. None where it has none.
pub(crate) fn find<D: Disk>(p: &mut Parts<D>, n: u32) -> Result<Option<Found>, StoreFault>
    requires stands { IsPoint D.Disk p.old }
    requires live { IsLive (state_of D.Disk p.old) }
    requires number { IsNumber (state_of D.Disk p.old) n }
    ensures stands { IsPoint D.Disk p.new }
    ensures geometry { p.new.master.geometry ≡ p.old.master.geometry }
    ensures called { Called (state_of D.Disk p.old) (state_of D.Disk p.new) result }
    ensures point { KeepsPoint (state_of D.Disk p.old) (state_of D.Disk p.new) }
    ensures working { KeepsWorking (state_of D.Disk p.old) (state_of D.Disk p.new) }
    ensures below { IsClean p.old.cache.held → SameBelow
        (D.may_hold p.old.cache.disk) (D.may_hold p.new.cache.disk)
        (D.is_sure p.old.cache.disk) (D.is_sure p.new.cache.disk) }
    ensures clean { IsClean p.old.cache.held → OnOk result (IsClean p.new.cache.held) }
    ensures tells { Told (state_of D.Disk p.old) → TellsInode p.old.master.geometry
        ((state_of D.Disk p.old).places n) p.new.block.items
        ((state_of D.Disk p.old).working.inodes n) result }
    ensures rules { IfOk result (λ found. IfSome found (λ f. is_head f.head ≡ true)) }
    ensures spelled { IfOk result (λ found. IfSome found
        (λ f. SpellsHead p.old.master.geometry f.head p.new.block.items)) }
{
    match seek(p, n) {
        Ok(found) => Ok(found),
        Err(fault) => Err(end_with(p, fault)),
    }
}

// The block of what was found, and 0 where nothing was.
fn block_of(found: Option<Found>) -> u32
    ensures { IfSome found (λ f. result ≡ f.block) }
{
    match found {
        Some(found) => found.block,
        None => 0,
    }
}

/// The place of an inode.
pub(crate) fn inode_block<D: Disk>(p: &mut Parts<D>, n: u32) -> Result<u32, StoreFault>
    requires stands { IsPoint D.Disk p.old }
    requires live { IsLive (state_of D.Disk p.old) }
    requires number { IsNumber (state_of D.Disk p.old) n }
    requires there { HasInode (state_of D.Disk p.old) n }
    ensures stands { IsPoint D.Disk p.new }
    ensures called { Called (state_of D.Disk p.old) (state_of D.Disk p.new) result }
    ensures point { KeepsPoint (state_of D.Disk p.old) (state_of D.Disk p.new) }
    ensures reads { Reads (state_of D.Disk p.old) (state_of D.Disk p.new) result }
    ensures below { IsClean p.old.cache.held → SameBelow
        (D.may_hold p.old.cache.disk) (D.may_hold p.new.cache.disk)
        (D.is_sure p.old.cache.disk) (D.is_sure p.new.cache.disk) }
    ensures clean { IsClean p.old.cache.held → OnOk result (IsClean p.new.cache.held) }
    ensures damage { MeetsInode (state_of D.Disk p.old) (state_of D.Disk p.new) n result }
    ensures place { IfOk result (IsPlaceOf (state_of D.Disk p.old) n) }
{
    match find(p, n) {
        Ok(found) => Ok(block_of(found)),
        Err(fault) => Err(fault),
    }
}

// The head of what was found.
fn head_of(found: Option<Found>) -> Option<Head>
    ensures { result ≡ found_head found }
{
    match found {
        Some(found) => Some(found.head),
        None => None,
    }
}

/// The head of an inode, and None exactly where the number has none.
pub(crate) fn head<D: Disk>(p: &mut Parts<D>, n: u32) -> Result<Option<Head>, StoreFault>
    requires stands { IsPoint D.Disk p.old }
    requires live { IsLive (state_of D.Disk p.old) }
    requires number { IsNumber (state_of D.Disk p.old) n }
    ensures stands { IsPoint D.Disk p.new }
    ensures called { Called (state_of D.Disk p.old) (state_of D.Disk p.new) result }
    ensures point { KeepsPoint (state_of D.Disk p.old) (state_of D.Disk p.new) }
    ensures reads { Reads (state_of D.Disk p.old) (state_of D.Disk p.new) result }
    ensures below { IsClean p.old.cache.held → SameBelow
        (D.may_hold p.old.cache.disk) (D.may_hold p.new.cache.disk)
        (D.is_sure p.old.cache.disk) (D.is_sure p.new.cache.disk) }
    ensures clean { IsClean p.old.cache.held → OnOk result (IsClean p.new.cache.held) }
    ensures damage { MeetsInode (state_of D.Disk p.old) (state_of D.Disk p.new) n result }
    ensures head { IfOk result (IsHeadOf (state_of D.Disk p.old) n) }
    ensures rules { IfOk result (λ found. is_head_or_none found ≡ true) }
{
    match find(p, n) {
        Ok(found) => Ok(head_of(found)),
        Err(fault) => Err(fault),
    }
}

/// An entry of an inode, 0 where it is absent.
pub(crate) fn entry<D: Disk>(p: &mut Parts<D>, n: u32, i: u32) -> Result<u32, StoreFault>
    requires stands { IsPoint D.Disk p.old }
    requires live { IsLive (state_of D.Disk p.old) }
    requires number { IsNumber (state_of D.Disk p.old) n }
    requires there { HasInode (state_of D.Disk p.old) n }
    requires entry { i < entries_of (state_of D.Disk p.old).origin.request }
    ensures stands { IsPoint D.Disk p.new }
    ensures called { Called (state_of D.Disk p.old) (state_of D.Disk p.new) result }
    ensures point { KeepsPoint (state_of D.Disk p.old) (state_of D.Disk p.new) }
    ensures reads { Reads (state_of D.Disk p.old) (state_of D.Disk p.new) result }
    ensures below { IsClean p.old.cache.held → SameBelow
        (D.may_hold p.old.cache.disk) (D.may_hold p.new.cache.disk)
        (D.is_sure p.old.cache.disk) (D.is_sure p.new.cache.disk) }
    ensures clean { IsClean p.old.cache.held → OnOk result (IsClean p.new.cache.held) }
    ensures damage { MeetsInode (state_of D.Disk p.old) (state_of D.Disk p.new) n result }
    ensures entry { IfOk result (IsEntryOf (state_of D.Disk p.old) n i) }
{
    match find(p, n) {
        Ok(_) => Ok(entry_of(&p.block, 32, i)),
        Err(fault) => Err(fault),
    }
}

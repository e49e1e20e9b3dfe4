//! Setting the head and the entries of an inode.
ghost use Rattle.std.specs.Prelude.{◌≡◌, ◌+◌, ◌*◌, ◌<◌, ◌≤◌, length, set, true, OnOk};
ghost use Rattle.edge_base.specs.declared.geometry.Request.{Request};
ghost use Rattle.edge_base.specs.declared.node.Head.{Head as HeadOf};
ghost use Rattle.edge_base.specs.layout.Bytes.{numbers_at};
ghost use Rattle.edge_base.specs.layout.Places.{entries_of};
ghost use Rattle.edge_store.specs.Calls.{Called, KeepsPlacesBut, KeepsPoint};
ghost use Rattle.edge_store.specs.State.{HasInode, IsLink, IsLive, IsNumber};
ghost use Rattle.edge_store.specs.Told.{MeetsInode, SetsEntry, SetsHead};
ghost use Rattle.edge_store.specs.View.{is_head, is_number};
ghost use Rattle.edge_point.specs.Changing.{WillSpell, not_first};
ghost use Rattle.edge_point.specs.Finding.{SpellsHead};
ghost use Rattle.edge_point.specs.Seen.{state_of};
ghost use Rattle.edge_point.specs.Standing.{IsPoint};
ghost use Rattle.edge_point.specs.Steps.{KeepsRest};

use crate::change::write_inode;
use crate::inode::find;
use crate::parts::Parts;
use edge_base::{Geometry, Head};
use edge_disk::Disk;
use edge_nodes::{change_entry, change_head, change_sequence, seal};
use edge_store::StoreFault;

// Gives the inode in the room for a block another head, for the next point.
fn rewrite_head<D: Disk>(p: &mut Parts<D>, head: &Head)
    requires block { 32 ≤ length p.old.block.items }
    requires head { is_head head.now ≡ true }
    ensures rest { KeepsRest p.old p.new }
    ensures cache { p.new.cache ≡ p.old.cache }
    ensures imap { p.new.imap ≡ p.old.imap }
    ensures spelled { (g : Request) (was : HeadOf) → SpellsHead g was p.old.block.items
        → WillSpell g head.now (numbers_at 32 (entries_of g) p.old.block.items)
        p.new.block.items }
{
    let sequence = p.root.sequence.saturating_add(1);
    change_head(&mut p.block, sequence, head);
}

// Gives the inode in the room for a block another entry, for the next point.
fn rewrite_entry<D: Disk>(p: &mut Parts<D>, i: u32, to: u32)
    requires block { 32 + 4 * i + 4 ≤ length p.old.block.items }
    ensures rest { KeepsRest p.old p.new }
    ensures cache { p.new.cache ≡ p.old.cache }
    ensures imap { p.new.imap ≡ p.old.imap }
    ensures spelled { (g : Request) (was : HeadOf) → SpellsHead g was p.old.block.items
        → WillSpell g was (set (numbers_at 32 (entries_of g) p.old.block.items) i to)
        p.new.block.items }
{
    let sequence = p.root.sequence.saturating_add(1);
    change_sequence(&mut p.block, sequence);
    seal(&mut p.block);
    change_entry(&mut p.block, i, to);
}

// Whether a block is not the first place of a number.
pub(crate) fn is_second(g: &Geometry, n: u32, b: u32) -> bool
    requires { is_number g.now n ≡ true }
    ensures { result ≡ not_first g.now n b }
{
    let _within_limits = g.request();
    b != g.inode_place(n, false)
}

/// Gives an inode another head.
pub(crate) fn set_head<D: Disk>(p: &mut Parts<D>, n: u32, head: Head) -> Result<(), StoreFault>
    requires stands { IsPoint D.Disk p.old }
    requires live { IsLive (state_of D.Disk p.old) }
    requires number { IsNumber (state_of D.Disk p.old) n }
    requires there { HasInode (state_of D.Disk p.old) n }
    requires head { is_head head ≡ true }
    ensures stands { IsPoint D.Disk p.new }
    ensures called { Called (state_of D.Disk p.old) (state_of D.Disk p.new) result }
    ensures point { KeepsPoint (state_of D.Disk p.old) (state_of D.Disk p.new) }
    ensures damage { MeetsInode (state_of D.Disk p.old) (state_of D.Disk p.new) n result }
    ensures places { OnOk result
        (KeepsPlacesBut (state_of D.Disk p.old) (state_of D.Disk p.new) n) }
    ensures set { OnOk result
        (SetsHead (state_of D.Disk p.old) (state_of D.Disk p.new) n head) }
{
    let found = find(p, n)?;
    match found {
        None => Ok(()),
        Some(found) => {
            rewrite_head(p, &head);
            let second = is_second(&p.master.geometry, n, found.block);
            write_inode(p, n, second)
        }
    }
}

/// Sets an entry of an inode. 0 makes it absent.
pub(crate) fn set_entry<D: Disk>(
    p: &mut Parts<D>,
    n: u32,
    i: u32,
    to: u32,
) -> Result<(), StoreFault>
    requires stands { IsPoint D.Disk p.old }
    requires live { IsLive (state_of D.Disk p.old) }
    requires number { IsNumber (state_of D.Disk p.old) n }
    requires there { HasInode (state_of D.Disk p.old) n }
    requires entry { i < entries_of (state_of D.Disk p.old).origin.request }
    requires link { IsLink (state_of D.Disk p.old) to }
    ensures stands { IsPoint D.Disk p.new }
    ensures called { Called (state_of D.Disk p.old) (state_of D.Disk p.new) result }
    ensures point { KeepsPoint (state_of D.Disk p.old) (state_of D.Disk p.new) }
    ensures damage { MeetsInode (state_of D.Disk p.old) (state_of D.Disk p.new) n result }
    ensures places { OnOk result
        (KeepsPlacesBut (state_of D.Disk p.old) (state_of D.Disk p.new) n) }
    ensures set { OnOk result
        (SetsEntry (state_of D.Disk p.old) (state_of D.Disk p.new) n i to) }
{
    let found = find(p, n)?;
    match found {
        None => Ok(()),
        Some(found) => {
            rewrite_entry(p, i, to);
            let second = is_second(&p.master.geometry, n, found.block);
            write_inode(p, n, second)
        }
    }
}

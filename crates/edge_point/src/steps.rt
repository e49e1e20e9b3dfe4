//! Steps of calls that change the working view. A fault of a step does not end the store yet.
ghost use Rattle.std.specs.Prelude.{◌≡◌, false, true, IsTrue, OnOk};
ghost use Rattle.edge_cache.specs.Blocks.{sealed};
ghost use Rattle.edge_cache.specs.Calls.{content_in};
ghost use Rattle.edge_nodes.specs.Writing.{IsSealed};
ghost use Rattle.edge_store.specs.Calls.{NeverDamaged};
ghost use Rattle.edge_anchor.specs.Anchor.{HasBit};
ghost use Rattle.edge_point.specs.Changing.{IsBlock, TakesStep, committed_of, working_of};
ghost use Rattle.edge_point.specs.Standing.{IsPoint};

use crate::inode::fault_of;
use crate::parts::Parts;
use edge_disk::Disk;
use edge_store::StoreFault;

/// Writes the node in the room for a block to a block that the last point does not use, with its
/// check word put right.
pub(crate) fn put_node<D: Disk>(p: &mut Parts<D>, b: u32) -> Result<(), StoreFault>
    requires stands { IsPoint D.Disk p.old }
    requires live { p.old.live ≡ true }
    requires block { HasBit p.old.master.geometry b }
    requires unused { IsTrue (D.origin p.old.cache.disk).shows
        → committed_of D.Disk p.old b ≡ false }
    ensures step { TakesStep D.Disk (IsBlock b) p.old p.new result }
    ensures stands { OnOk result (IsPoint D.Disk p.new) }
    ensures undamaged { NeverDamaged result }
    ensures numbers { p.new.numbers ≡ p.old.numbers }
    ensures next { p.new.next ≡ p.old.next }
    ensures room { p.new.block.items ≡ p.old.block.items }
    ensures used { IsTrue (D.origin p.old.cache.disk).shows
        → working_of D.Disk p.new b ≡ working_of D.Disk p.old b }
    ensures bytes { IsTrue (D.origin p.old.cache.disk).shows → OnOk result
        (content_in D.Disk p.new.cache b ≡ sealed p.old.block.items) }
    ensures node { IsTrue (D.origin p.old.cache.disk).shows → OnOk result
        (IsSealed p.old.block.items (content_in D.Disk p.new.cache b)) }
{
    match p.cache.write(b, 0, &p.block, true) {
        Ok(()) => Ok(()),
        Err(_) => Err(StoreFault::Device),
    }
}

/// Makes a block that has a bit used in the working list, or not used.
pub(crate) fn mark<D: Disk>(p: &mut Parts<D>, b: u32, used: bool) -> Result<(), StoreFault>
    requires stands { IsPoint D.Disk p.old }
    requires live { p.old.live ≡ true }
    requires block { HasBit p.old.master.geometry b }
    ensures step { TakesStep D.Disk (IsBlock b) p.old p.new result }
    ensures undamaged { IsTrue (D.origin p.old.cache.disk).shows → NeverDamaged result }
    ensures numbers { p.new.numbers ≡ p.old.numbers }
    ensures next { p.new.next ≡ p.old.next }
    ensures room { p.new.block.items ≡ p.old.block.items }
    ensures used { IsTrue (D.origin p.old.cache.disk).shows
        → OnOk result (working_of D.Disk p.new b ≡ used) }
    ensures bytes { IsTrue (D.origin p.old.cache.disk).shows
        → content_in D.Disk p.new.cache b ≡ content_in D.Disk p.old.cache b }
{
    let bit = b - p.master.geometry.table_start();
    let sequence = p.root.sequence.saturating_add(1);
    match p.imap.set(&mut p.cache, sequence, bit, used) {
        Ok(()) => Ok(()),
        Err(fault) => Err(fault_of(fault)),
    }
}

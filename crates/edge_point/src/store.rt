//! The store, in the words of its trait.
use crate::point::Point;
use crate::{block, copied, inode, make, read, room, set, taken, transact, written};
use edge_base::{Damage, Form, Geometry, Head};
use edge_disk::Disk;
use edge_store::{Free, Spot, Store, StoreFault};

impl<D: Disk> Store for Point<D> {
    ghost use Rattle.edge_cache.specs.Cached.{IsClean};
    ghost use Rattle.edge_point.specs.Seen.{state_of};
    ghost use Rattle.edge_point.specs.ViewLaws.{
      at_one_place,
      committed_view,
      none_damaged,
      none_under_way,
      working_view,
    };

    ghost state = { λ p. state_of D.Disk p.parts };

    ghost may_hold = { λ p. D.may_hold p.parts.cache.disk };

    ghost is_sure = { λ p. D.is_sure p.parts.cache.disk };

    ghost is_clean = { λ p. IsClean p.parts.cache.held };

    fn geometry(&self) -> Geometry {
        room::geometry(&self.parts)
    }

    fn is_live(&self) -> bool {
        room::is_live(&self.parts)
    }

    fn points(&self) -> u64 {
        room::points(&self.parts)
    }

    fn free(&self) -> Free {
        room::free(&self.parts)
    }

    fn free_inodes(&self) -> u32 {
        room::free_inodes(&self.parts)
    }

    fn head(&mut self, n: u32) -> Result<Option<Head>, StoreFault> {
        inode::head(&mut self.parts, n)
    }

    fn inode_block(&mut self, n: u32) -> Result<u32, StoreFault> {
        inode::inode_block(&mut self.parts, n)
    }

    fn set_head(&mut self, n: u32, head: Head) -> Result<(), StoreFault> {
        set::set_head(&mut self.parts, n, head)
    }

    fn entry(&mut self, n: u32, i: u32) -> Result<u32, StoreFault> {
        inode::entry(&mut self.parts, n, i)
    }

    fn set_entry(&mut self, n: u32, i: u32, to: u32) -> Result<(), StoreFault> {
        set::set_entry(&mut self.parts, n, i, to)
    }

    fn new_inode(&mut self, head: Head) -> Result<Option<u32>, StoreFault> {
        make::new_inode(&mut self.parts, head)
    }

    fn drop_inode(&mut self, n: u32) -> Result<(), StoreFault> {
        make::drop_inode(&mut self.parts, n)
    }

    fn pointer(&mut self, s: Spot, i: u32) -> Result<u32, StoreFault> {
        block::pointer(&mut self.parts, s, i)
    }

    fn set_pointer(&mut self, s: Spot, i: u32, to: u32) -> Result<(), StoreFault> {
        written::set_pointer(&mut self.parts, s, i, to)
    }

    fn read_block(&mut self, s: Spot, at: u32, out: &mut [u8]) -> Result<(), StoreFault> {
        block::read_block(&mut self.parts, s, at, out)
    }

    fn write_block(&mut self, s: Spot, at: u32, bytes: &[u8]) -> Result<(), StoreFault> {
        written::write_block(&mut self.parts, s, at, bytes)
    }

    fn take(&mut self, form: Form, owner: u32) -> Result<u32, StoreFault> {
        taken::take(&mut self.parts, form, owner)
    }

    fn copy(&mut self, s: Spot) -> Result<u32, StoreFault> {
        copied::copy(&mut self.parts, s)
    }

    fn drop_block(&mut self, s: Spot) -> Result<(), StoreFault> {
        written::drop_block(&mut self.parts, s)
    }

    fn is_new(&mut self, b: u32) -> Result<bool, StoreFault> {
        read::is_new(&mut self.parts, b)
    }

    fn transact(&mut self) -> Result<(), StoreFault> {
        transact::transact(&mut self.parts)
    }

    fn report(&mut self, damage: Damage) -> StoreFault {
        read::report(&mut self.parts, damage)
    }

    ghost is_geometry = { λ p. p.stands.geometry };

    ghost committed_is_view = { λ p told.
        committed_view _ p.parts p.stands (D.whole_blocks p.parts.cache.disk) told };

    ghost working_is_view = { λ p told live. working_view _ p.parts p.stands told live };

    ghost two_places = { λ p n told live there. at_one_place _ p.parts p.stands n told };

    ghost live_is_whole = { λ p live. none_under_way _ p.parts p.stands live };

    ghost live_is_undamaged = { λ p live. none_damaged _ p.parts p.stands live };
}

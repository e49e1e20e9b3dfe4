ghost use Rattle.std.specs.Prelude.{◌≡◌, true, None, min, if◌then◌else◌};
ghost use Rattle.edge_plain.specs.Counts.{IsCounted};
ghost use Rattle.edge_plain.specs.KeptView.{view_of};
ghost use Rattle.edge_store.specs.View.{is_allocable, is_used};

use crate::plain_view::PlainView;
use edge_base::{Damage, Form, Geometry, Head, NodeType};
use edge_store::{Free, Spot, Store, StoreFault};
use std::alloc::{AllocError, Global};

// The number of the root directory, which is the least that a node may have.
const ROOT_NUMBER: u32 = 2;

/// A store in memory.
///
/// It takes all its memory as it is made, and no call of it answers `StoreFault::Device`.
#[derive(Drop)]
pub struct PlainStore {
    working: PlainView,
    committed: PlainView,
    // The blocks that neither view uses, those that the working view does not use, and the numbers
    // that have no inode.
    blocks_now: u32,
    blocks_after: u32,
    numbers: u32,
    // No block and no number below these is free.
    first_block: u32,
    first_number: u32,
    live: bool,
    points: u64,
    damage: Option<Damage>,
    ghost same: { committed.geometry ≡ working.geometry },
    ghost undamaged: { live ≡ true → damage ≡ None },
    ghost counted: { IsCounted working.geometry (view_of committed) (view_of working)
        blocks_now blocks_after numbers first_block first_number },
}

// A block below which none is free once the working view has dropped one, where none was below
// `first`. A block that the last point uses is not free then.
fn least_after(committed: &PlainView, first: u32, dropped: u32) -> u32
    requires { is_allocable committed.now.geometry dropped ≡ true }
    ensures { result ≡ (if is_used (view_of committed.now) dropped then first
        else min first dropped) }
{
    if committed.is_used(dropped) {
        return first;
    }
    first.min(dropped)
}

impl PlainStore {
    ghost use Rattle.std.specs.Prelude.{◌≤◌, ◌<◌, ℕ, false, Some, IfOk};
    ghost use Rattle.edge_base.specs.layout.Places.{first_allocable_of};
    ghost use Rattle.edge_plain.specs.Plain.{state_of, origin_of, view_of_root};
    ghost use Rattle.edge_store.specs.Effects.{IsFresh};
    ghost use Rattle.edge_store.specs.State.{IsMade};
    ghost use Rattle.edge_store.specs.View.{is_free, free_now};

    /// A store of the empty tree: its root is a directory without a block.
    pub fn new(alloc: Global, g: Geometry) -> Result<PlainStore, AllocError>
        ensures origin { IfOk result (λ s. (state_of s).origin ≡ origin_of g) }
        ensures made { IfOk result (λ s. IsMade (state_of s)) }
        ensures view { IfOk result (λ s. (state_of s).committed ≡ view_of_root g) }
    {
        let root = Head {
            size: 0,
            kind: NodeType::Directory,
            links: 1,
            parent: 0,
        };
        let request = g.request();
        let mut working = PlainView::new(alloc, g)?;
        working.put_inode(ROOT_NUMBER, root);
        let mut committed = PlainView::new(alloc, g)?;
        committed.put_inode(ROOT_NUMBER, root);
        Ok(PlainStore {
            working,
            committed,
            blocks_now: g.allocable(),
            blocks_after: g.allocable(),
            numbers: request.inodes - 1,
            first_block: g.first_allocable(),
            first_number: ROOT_NUMBER,
            live: true,
            points: 0,
            damage: None,
        })
    }

    // Ends the store with damage.
    fn end(&mut self, damage: Damage) -> StoreFault
        ensures told { result ≡ StoreFault.Damaged damage }
        ensures working { self.new.working ≡ self.old.working }
        ensures committed { self.new.committed ≡ self.old.committed }
        ensures points { self.new.points ≡ self.old.points }
        ensures live { self.new.live ≡ false }
        ensures damage { self.new.damage ≡ Some damage }
    {
        self.damage = Some(damage);
        self.live = false;
        StoreFault::Damaged(damage)
    }

    // Whether neither view uses a block.
    fn is_free(&self, b: u32) -> bool
        requires { is_allocable self.now.working.geometry b ≡ true }
        ensures { result ≡ is_free (view_of self.now.committed) (view_of self.now.working) b }
    {
        !self.committed.is_used(b) && !self.working.is_used(b)
    }

    // The least block that neither view uses.
    fn least_free(&self) -> u32
        requires { 0 < free_now self.now.working.geometry
            (view_of self.now.committed) (view_of self.now.working) }
        ensures fresh { IsFresh self.now.working.geometry
            (view_of self.now.committed) (view_of self.now.working) result }
        ensures least { (k : ℕ) → first_allocable_of self.now.working.geometry ≤ k → k < result
            → is_free (view_of self.now.committed) (view_of self.now.working) k ≡ false }
    {
        let first = self.working.geometry.first_allocable();
        for b in self.first_block..first + self.working.geometry.allocable() {
            if self.is_free(b) {
                return b;
            }
        }
        0
    }
}

impl Store for PlainStore {
    ghost use Rattle.std.specs.Prelude.{false, refl};
    ghost use Rattle.edge_plain.specs.KeptLaws.{kept_is_view, kept_is_view_at};
    ghost use Rattle.edge_plain.specs.Plain.{state_of};

    ghost state = { state_of };

    ghost may_hold = { λ s b c. ⊥ };

    ghost is_sure = { λ s b. ⊥ };

    ghost is_clean = { λ s. Unit {0} };

    fn geometry(&self) -> Geometry {
        self.working.geometry
    }

    fn is_live(&self) -> bool {
        self.live
    }

    fn points(&self) -> u64 {
        self.points
    }

    fn free(&self) -> Free {
        Free {
            now: self.blocks_now,
            after: self.blocks_after,
        }
    }

    fn free_inodes(&self) -> u32 {
        self.numbers
    }

    fn head(&mut self, n: u32) -> Result<Option<Head>, StoreFault> {
        Ok(self.working.head(n))
    }

    fn inode_block(&mut self, n: u32) -> Result<u32, StoreFault> {
        Ok(self.working.geometry.inode_place(n, false))
    }

    fn set_head(&mut self, n: u32, head: Head) -> Result<(), StoreFault> {
        self.working.set_head(n, head);
        Ok(())
    }

    fn entry(&mut self, n: u32, i: u32) -> Result<u32, StoreFault> {
        Ok(self.working.entry(n, i))
    }

    fn set_entry(&mut self, n: u32, i: u32, to: u32) -> Result<(), StoreFault> {
        self.working.set_entry(n, i, to);
        Ok(())
    }

    fn new_inode(&mut self, head: Head) -> Result<Option<u32>, StoreFault> {
        let Some(n) = self.working.free_number(self.first_number) else {
            return Ok(None);
        };
        self.working.put_inode(n, head);
        self.numbers -= 1;
        self.first_number = n;
        Ok(Some(n))
    }

    fn drop_inode(&mut self, n: u32) -> Result<(), StoreFault> {
        self.working.drop_inode(n);
        self.numbers += 1;
        self.first_number = self.first_number.min(n);
        Ok(())
    }

    fn pointer(&mut self, s: Spot, i: u32) -> Result<u32, StoreFault> {
        if let Some(damage) = self.working.damage(s) {
            return Err(self.end(damage));
        }
        Ok(self.working.pointer(s, i))
    }

    fn set_pointer(&mut self, s: Spot, i: u32, to: u32) -> Result<(), StoreFault> {
        if let Some(damage) = self.working.damage(s) {
            return Err(self.end(damage));
        }
        self.working.set_pointer(s, i, to);
        Ok(())
    }

    fn read_block(&mut self, s: Spot, at: u32, out: &mut [u8]) -> Result<(), StoreFault> {
        if let Some(damage) = self.working.damage(s) {
            return Err(self.end(damage));
        }
        self.working.read(s.block, at, out);
        Ok(())
    }

    fn write_block(&mut self, s: Spot, at: u32, bytes: &[u8]) -> Result<(), StoreFault> {
        if let Some(damage) = self.working.damage(s) {
            return Err(self.end(damage));
        }
        self.working.write(s.block, at, bytes);
        Ok(())
    }

    fn take(&mut self, form: Form, owner: u32) -> Result<u32, StoreFault> {
        let b = self.least_free();
        self.working.put_block(b, form, owner);
        self.blocks_now -= 1;
        self.blocks_after -= 1;
        self.first_block = b;
        Ok(b)
    }

    fn copy(&mut self, s: Spot) -> Result<u32, StoreFault> {
        if let Some(damage) = self.working.damage(s) {
            return Err(self.end(damage));
        }
        let b = self.least_free();
        self.working.copy_block(s.block, b);
        self.working.drop_block(s.block);
        self.blocks_now -= u32::from(self.committed.is_used(s.block));
        self.first_block = least_after(&self.committed, b, s.block);
        Ok(b)
    }

    fn drop_block(&mut self, s: Spot) -> Result<(), StoreFault> {
        if let Some(damage) = self.working.damage(s) {
            return Err(self.end(damage));
        }
        self.working.drop_block(s.block);
        self.blocks_now += u32::from(!self.committed.is_used(s.block));
        self.blocks_after += 1;
        self.first_block = least_after(&self.committed, self.first_block, s.block);
        Ok(())
    }

    fn is_new(&mut self, b: u32) -> Result<bool, StoreFault> {
        Ok(self.working.is_used(b) && !self.committed.is_used(b))
    }

    fn transact(&mut self) -> Result<(), StoreFault> {
        self.committed.copy_from(&self.working);
        self.blocks_now = self.blocks_after;
        self.first_block = self.working.geometry.first_allocable();
        self.points += 1;
        Ok(())
    }

    fn report(&mut self, damage: Damage) -> StoreFault {
        self.end(damage)
    }

    ghost is_geometry = { λ s. s.working.good };

    ghost committed_is_view = { λ s told. kept_is_view_at s.committed _ s.same };

    ghost working_is_view = { λ s told live. kept_is_view s.working };

    ghost two_places = { λ s n told live there. (false, refl) };

    ghost live_is_whole = { λ s live. refl };

    ghost live_is_undamaged = { λ s live. s.undamaged live };
}

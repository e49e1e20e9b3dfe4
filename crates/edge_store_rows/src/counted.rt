use edge_base::{Damage, Form, Geometry, Head};
use edge_store::{Free, Spot, Store, StoreFault};

/// A store that counts its calls: each that may read or change what it holds. Those that only say
/// what is known, as how many blocks are free, are not counted.
#[derive(Drop)]
pub struct Counted<S> {
    inside: S,
    calls: u64,
}

impl<S: Store> Counted<S> {
    ghost use Rattle.std.specs.Prelude.{◌≡◌};

    pub fn new(inside: S) -> Counted<S> {
        Counted { inside, calls: 0 }
    }

    /// How many calls there were since it was made or counts anew.
    pub fn calls(&self) -> u64 {
        self.calls
    }

    /// Counts anew.
    pub fn count_anew(&mut self)
        ensures { self.new.inside ≡ self.old.inside }
    {
        self.calls = 0;
    }

    fn count(&mut self)
        ensures { self.new.inside ≡ self.old.inside }
    {
        self.calls = self.calls.saturating_add(1);
    }
}

impl<S: Store> Store for Counted<S> {
    ghost state = { λ c. S.state c.inside };

    ghost may_hold = { λ c. S.may_hold c.inside };

    ghost is_sure = { λ c. S.is_sure c.inside };

    ghost is_clean = { λ c. S.is_clean c.inside };

    fn geometry(&self) -> Geometry {
        self.inside.geometry()
    }

    fn is_live(&self) -> bool {
        self.inside.is_live()
    }

    fn points(&self) -> u64 {
        self.inside.points()
    }

    fn free(&self) -> Free {
        self.inside.free()
    }

    fn free_inodes(&self) -> u32 {
        self.inside.free_inodes()
    }

    fn head(&mut self, n: u32) -> Result<Option<Head>, StoreFault> {
        self.count();
        self.inside.head(n)
    }

    fn inode_block(&mut self, n: u32) -> Result<u32, StoreFault> {
        self.count();
        self.inside.inode_block(n)
    }

    fn set_head(&mut self, n: u32, head: Head) -> Result<(), StoreFault> {
        self.count();
        self.inside.set_head(n, head)
    }

    fn entry(&mut self, n: u32, i: u32) -> Result<u32, StoreFault> {
        self.count();
        self.inside.entry(n, i)
    }

    fn set_entry(&mut self, n: u32, i: u32, to: u32) -> Result<(), StoreFault> {
        self.count();
        self.inside.set_entry(n, i, to)
    }

    fn new_inode(&mut self, head: Head) -> Result<Option<u32>, StoreFault> {
        self.count();
        self.inside.new_inode(head)
    }

    fn drop_inode(&mut self, n: u32) -> Result<(), StoreFault> {
        self.count();
        self.inside.drop_inode(n)
    }

    fn pointer(&mut self, s: Spot, i: u32) -> Result<u32, StoreFault> {
        self.count();
        self.inside.pointer(s, i)
    }

    fn set_pointer(&mut self, s: Spot, i: u32, to: u32) -> Result<(), StoreFault> {
        self.count();
        self.inside.set_pointer(s, i, to)
    }

    fn read_block(&mut self, s: Spot, at: u32, out: &mut [u8]) -> Result<(), StoreFault> {
        self.count();
        self.inside.read_block(s, at, out)
    }

    fn write_block(&mut self, s: Spot, at: u32, bytes: &[u8]) -> Result<(), StoreFault> {
        self.count();
        self.inside.write_block(s, at, bytes)
    }

    fn take(&mut self, form: Form, owner: u32) -> Result<u32, StoreFault> {
        self.count();
        self.inside.take(form, owner)
    }

    fn copy(&mut self, s: Spot) -> Result<u32, StoreFault> {
        self.count();
        self.inside.copy(s)
    }

    fn drop_block(&mut self, s: Spot) -> Result<(), StoreFault> {
        self.count();
        self.inside.drop_block(s)
    }

    fn is_new(&mut self, b: u32) -> Result<bool, StoreFault> {
        self.count();
        self.inside.is_new(b)
    }

    fn transact(&mut self) -> Result<(), StoreFault> {
        self.count();
        self.inside.transact()
    }

    fn report(&mut self, damage: Damage) -> StoreFault {
        self.count();
        self.inside.report(damage)
    }

    ghost is_geometry = { λ c. S.is_geometry c.inside };

    ghost committed_is_view = { λ c. S.committed_is_view c.inside };

    ghost working_is_view = { λ c. S.working_is_view c.inside };

    ghost two_places = { λ c. S.two_places c.inside };

    ghost live_is_whole = { λ c. S.live_is_whole c.inside };

    ghost live_is_undamaged = { λ c. S.live_is_undamaged c.inside };
}

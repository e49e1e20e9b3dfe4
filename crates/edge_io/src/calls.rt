ghost use Rattle.std.specs.Prelude.{◌≡◌, ◌≤◌, ◌+◌, ◌-◌, ◌^◌, ◌⊎◌, ◌↔◌, min, Contains, false, IsTrue, IfOk};

use std::alloc::{AllocError, Global};

/// The calls of an object in memory: the numbers of those that fail, how many were made, and how
/// many failed. Both counts stay at their greatest value.
#[derive(Drop)]
pub struct Calls {
    pub fails: Vec<u64>,
    pub made: u64,
    pub faults: u64,
}

impl Calls {
    /// No call yet.
    pub fn new(alloc: Global, fails: &[u64]) -> Result<Calls, AllocError>
        ensures fails { IfOk result (λ c. c.fails.items ≡ fails.now) }
        ensures made { IfOk result (λ c. c.made ≡ 0) }
        ensures faults { IfOk result (λ c. c.faults ≡ 0) }
    {
        Ok(Calls {
            fails: fails.to_vec(alloc)?,
            made: 0,
            faults: 0,
        })
    }

    /// Counts one more call, and answers whether it fails: by its number, or because it is refused.
    pub fn next_fails(&mut self, is_refused: bool) -> bool
        ensures fails { IsTrue result ↔
            (Contains self.old.fails.items self.old.made ⊎ IsTrue is_refused) }
        ensures made { self.new.made ≡ min (self.old.made + 1) (2 ^ 64 - 1) }
        ensures failed { IsTrue result → self.new.faults ≡ min (self.old.faults + 1) (2 ^ 64 - 1) }
        ensures passed { result ≡ false → self.new.faults ≡ self.old.faults }
        ensures later { self.old.faults ≤ self.new.faults }
        ensures list { self.new.fails.items ≡ self.old.fails.items }
    {
        let number = self.made;
        self.made = self.made.saturating_add(1);
        let fails = is_refused || self.fails.contains(&number);
        if fails {
            self.faults = self.faults.saturating_add(1);
        }
        fails
    }
}

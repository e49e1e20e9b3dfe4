ghost use Rattle.std.specs.Prelude.{◌<◌, length};

use crate::clock::Clock;
use std::alloc::{AllocError, Global};

/// A clock in memory, which tells its moments.
#[derive(Drop)]
pub struct MemoryClock {
    moments: Vec<u32>,
    given: usize,
    ghost some: { given < length moments.items },
}

impl MemoryClock {
    ghost use Rattle.std.specs.Prelude.{◌≡◌, IfOk};
    ghost use Rattle.edge_io.specs.MemoryClock.{moments_of};

    /// A clock that gives these moments, in seconds since 1970, and the last of them again and
    /// again. Later calls take no memory.
    pub fn new(alloc: Global, moments: &[u32]) -> Result<MemoryClock, AllocError>
        requires { 0 < length moments.now }
        ensures { IfOk result (λ c. moments_of c ≡ moments.now) }
    {
        Ok(MemoryClock {
            moments: moments.to_vec(alloc)?,
            given: 0,
        })
    }
}

impl Clock for MemoryClock {
    ghost use Rattle.std.specs.Prelude.{true};
    ghost use Rattle.edge_io.specs.MemoryClock.{moments_of};
    ghost use Rattle.edge_io.specs.Moments.{GivesMoment};
    ghost use Rattle.edge_io.specs.MomentLaws.{some_left};

    ghost tells = { λ _. true };

    ghost moments = { moments_of };

    fn now(&mut self) -> u32
        ensures { GivesMoment result (moments_of self.old) (moments_of self.new) }
    {
        let moment = self.moments[self.given];
        if self.given + 1 < self.moments.len() {
            self.given += 1;
        }
        moment
    }

    ghost some_moment = { λ c _. some_left c.given c.moments.items c.some };
}

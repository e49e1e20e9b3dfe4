ghost use Rattle.std.specs.Prelude.{◌≡◌, ◌<◌, ◌/◌, ◌^◌, ◌↔◌, IsSome, IfSome};
ghost use Rattle.std.specs.Duration.{as_nanos};

use edge_io::Clock;
use std::rt;
use std::time::Duration;

/// The clock of the host.
#[derive(Drop)]
pub struct HostClock<C> {
    clock: C,
    last: u32,
}

// Whole seconds, unless they are 2^32 or more.
fn moment_of(since_1970: Duration) -> Option<u32>
    ensures fits { IsSome result ↔ (as_nanos since_1970 / 1_000_000_000 < 2 ^ 32) }
    ensures seconds { IfSome result (λ moment. moment ≡ as_nanos since_1970 / 1_000_000_000) }
{
    u32::try_from(since_1970.as_secs()).ok()
}

impl<C: rt::Clock> HostClock<C> {
    ghost use Rattle.edge_host.specs.HostClock.{last_moment};

    /// A clock that asks this one, which is a runtime or a reference to one.
    pub fn new(clock: C) -> HostClock<C>
        ensures { last_moment result ≡ 0 }
    {
        HostClock { clock, last: 0 }
    }
}

impl<C: rt::Clock> Clock for HostClock<C> {
    ghost use Rattle.std.specs.Prelude.{[], false};
    ghost use Rattle.edge_host.specs.HostClock.{last_moment};

    ghost tells = { λ _. false };

    ghost moments = { λ _. [] };

    ghost some_moment = { λ _ tells. Prim.cc tells };

    /// Where the host's clock answers none, or one whose seconds do not fit, as from 2106 on, it
    /// gives its last moment again, at first 0.
    fn now(&mut self) -> u32
        ensures { result ≡ last_moment self.new }
    {
        if let Some(moment) = self.clock.since_1970().ok().and_then(moment_of) {
            self.last = moment;
        }
        self.last
    }
}

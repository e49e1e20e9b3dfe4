ghost use Rattle.std.specs.Prelude.{◌≡◌, ◌+◌, ◌-◌, ◌^◌, min, MatchResult, OnErr};
ghost use Rattle.edge_base.specs.outside.Faults.{HasCause};

use std::io;

/// What a call of the host answered. Where it failed, this is the given fault, and the count rises.
pub fn or_fault<T, E: Drop>(answer: io::Result<T>, faults: &mut u64, fault: E) -> Result<T, E>
    ensures cause { HasCause faults.old faults.new result }
    ensures value { MatchResult answer (λ x. result ≡ Ok x) (λ _. result ≡ Err fault) }
    ensures counted { OnErr result (faults.new ≡ min (faults.old + 1) (2 ^ 64 - 1)) }
{
    match answer {
        Ok(value) => Ok(value),
        Err(_) => {
            *faults = faults.saturating_add(1);
            Err(fault)
        }
    }
}

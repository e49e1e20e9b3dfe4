ghost use Rattle.std.specs.Prelude.{◌≡◌};

use edge_base::Refusal;
use edge_store::StoreFault;

/// Why a command stops before its end.
#[derive(Clone, Copy, Debug, PartialEq, Eq)]
pub enum Stop {
    /// It is refused. The session goes on.
    Refused(Refusal),
    /// The store has ended.
    Fault(StoreFault),
}

impl From<Refusal> for Stop {
    ghost use Rattle.edge_volume.specs.declared.stop.Stop.TheVariants.{Refused};

    ghost from_gives = { λ refusal stop. stop ≡ Refused refusal };

    fn from(refusal: Refusal) -> Self {
        Stop::Refused(refusal)
    }
}

impl From<StoreFault> for Stop {
    ghost use Rattle.edge_volume.specs.declared.stop.Stop.TheVariants.{Fault};

    ghost from_gives = { λ fault stop. stop ≡ Fault fault };

    fn from(fault: StoreFault) -> Self {
        Stop::Fault(fault)
    }
}

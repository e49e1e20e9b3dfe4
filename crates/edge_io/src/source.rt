ghost use Rattle.std.specs.Prelude.{◌≡◌, ◌≤◌, ℕ, Bool, List, length, IfOk, OnErr, IsTrue};
ghost use Rattle.edge_base.specs.outside.Faults.{HasCause};
ghost use Rattle.edge_io.specs.Streams.{Gives};

use thiserror::Error;

/// A read of a source failed.
#[derive(Clone, Copy, Debug, PartialEq, Eq, Error)]
#[error("SourceFault")]
pub struct SourceFault;

/// Where bytes come from. `left` is the bytes that are left, where `tells` says that they are told;
/// `faults` counts the faults so far.
pub trait Source {
    ghost tells: { Self → Bool };

    ghost left: { Self → List ℕ };

    ghost faults: { Self → ℕ };

    /// Gives the first of the bytes left, and answers how many. With room in `out`, 0 means that
    /// none is left. Where it fails, it gives nothing and changes only the count.
    fn read(&mut self, out: &mut [u8]) -> Result<usize, SourceFault>
        ensures tells { tells self.new ≡ tells self.old }
        ensures cause { HasCause (faults self.old) (faults self.new) result }
        ensures fits { IfOk result (λ n. n ≤ length out.old) }
        ensures given { IsTrue (tells self.old)
            → IfOk result (λ n. Gives n out.new (left self.old) (left self.new)) }
        ensures failed { OnErr result (left self.new ≡ left self.old) };
}

ghost use Rattle.std.specs.Prelude.{◌≡◌, ◌++◌, ◌<◌, ◌≤◌, ℕ, Bool, List, length, take, IfOk, OnOk, OnErr, IsTrue};
ghost use Rattle.edge_base.specs.outside.Faults.{HasCause};
ghost use Rattle.edge_io.specs.Streams.{TookPart};

use thiserror::Error;

/// A write to a sink failed.
#[derive(Clone, Copy, Debug, PartialEq, Eq, Error)]
#[error("SinkFault")]
pub struct SinkFault;

/// Where bytes go to. `taken` is the bytes that it has taken, where `tells` says that they are
/// told; `faults` counts the faults so far.
pub trait Sink {
    ghost tells: { Self → Bool };

    ghost taken: { Self → List ℕ };

    ghost faults: { Self → ℕ };

    /// Takes the first of these bytes, at least one where there is one, and answers how many. Where
    /// it fails, it takes nothing and changes only the count.
    fn write(&mut self, bytes: &[u8]) -> Result<usize, SinkFault>
        ensures tells { tells self.new ≡ tells self.old }
        ensures cause { HasCause (faults self.old) (faults self.new) result }
        ensures fits { IfOk result (λ n. n ≤ length bytes.now) }
        ensures some { IfOk result (λ n. 0 < length bytes.now → 0 < n) }
        ensures taken { IsTrue (tells self.old)
            → IfOk result (λ n. taken self.new ≡ taken self.old ++ take n bytes.now) }
        ensures failed { OnErr result (taken self.new ≡ taken self.old) };
}

/// Gives all the bytes to a sink, in as many pieces as it takes. The first fault ends it, and the
/// sink has then taken a part of the bytes.
pub fn write_all<K: Sink>(out: &mut K, bytes: &[u8]) -> Result<(), SinkFault>
    ensures tells { K.tells out.new ≡ K.tells out.old }
    ensures cause { HasCause (K.faults out.old) (K.faults out.new) result }
    ensures done { IsTrue (K.tells out.old)
        → OnOk result (K.taken out.new ≡ K.taken out.old ++ bytes.now) }
    ensures part { IsTrue (K.tells out.old)
        → OnErr result (TookPart bytes.now (K.taken out.old) (K.taken out.new)) }
{
    let mut at = 0;
    while at < bytes.len() {
        at += out.write(&bytes[at..])?;
    }
    Ok(())
}

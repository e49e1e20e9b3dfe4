ghost use Rattle.std.specs.Prelude.{◌≡◌, ◌<◌, ◌^◌, ℕ, List, length, All, OnOk, IsTrue};
ghost use Rattle.edge_base.specs.outside.Below.{SameBelow};
ghost use Rattle.edge_base.specs.outside.Faults.{HasCause};
ghost use Rattle.edge_base.specs.layout.Sizes.{is_block_size};
ghost use Rattle.edge_disk.specs.Disk.{Origin, ShownAfterWrite, MayAfterWrite, SureAfterWrite, MayAfterFlush, SureAfterFlush};

use thiserror::Error;

/// A device call failed.
#[derive(Clone, Copy, Debug, PartialEq, Eq, Error)]
#[error("DeviceFault")]
pub struct DeviceFault;

/// A disk of blocks of one size.
///
/// `shown` is what reads give and `may_hold` what a block may be found to hold after a cut of the
/// power, its candidates; `is_sure` says that a block has one candidate alone. `origin` says
/// whether the first and the second are told. `faults` counts the faults so far; a disk has had
/// none exactly where it is 0.
pub trait Disk {
    ghost origin: { Self → Origin };

    ghost shown: { Self → ℕ → List ℕ };

    ghost may_hold: { Self → ℕ → List ℕ → Type 0 };

    ghost is_sure: { Self → ℕ → Type 0 };

    ghost faults: { Self → ℕ };

    /// The number of blocks.
    fn blocks(&self) -> u32
        ensures { result ≡ (origin self.now).blocks };

    /// The bytes of a block: 512, 1024, 2048 or 4096.
    fn block_size(&self) -> u32
        ensures { result ≡ (origin self.now).block_size };

    /// Reads block `b` into `out`. It changes nothing but, where it fails, the count of faults.
    fn read(&mut self, b: u32, out: &mut [u8]) -> Result<(), DeviceFault>
        requires in_range { b < (origin self.old).blocks }
        requires whole { length out.old ≡ (origin self.old).block_size }
        ensures origin { origin self.new ≡ origin self.old }
        ensures cause { HasCause (faults self.old) (faults self.new) result }
        ensures bytes { IsTrue (origin self.old).shows → OnOk result (out.new ≡ shown self.old b) }
        ensures shown { shown self.new ≡ shown self.old }
        ensures candidates { SameBelow (may_hold self.old) (may_hold self.new) (is_sure self.old)
            (is_sure self.new) };

    /// Writes block `b`. Where it fails, reads may give the old bytes or the new ones.
    fn write(&mut self, b: u32, bytes: &[u8]) -> Result<(), DeviceFault>
        requires in_range { b < (origin self.old).blocks }
        requires whole { length bytes.now ≡ (origin self.old).block_size }
        ensures origin { origin self.new ≡ origin self.old }
        ensures cause { HasCause (faults self.old) (faults self.new) result }
        ensures shown { ShownAfterWrite (origin self.old) b bytes.now result (shown self.old)
            (shown self.new) }
        ensures candidates { MayAfterWrite (origin self.old) b bytes.now result (faults self.old)
            (may_hold self.old) (may_hold self.new) }
        ensures sure { SureAfterWrite b result (faults self.old) (is_sure self.old)
            (is_sure self.new) };

    /// Waits until all that was written is on the medium.
    fn flush(&mut self) -> Result<(), DeviceFault>
        ensures origin { origin self.new ≡ origin self.old }
        ensures cause { HasCause (faults self.old) (faults self.new) result }
        ensures shown { shown self.new ≡ shown self.old }
        ensures candidates { MayAfterFlush result (faults self.old) (may_hold self.old)
            (may_hold self.new) }
        ensures sure { SureAfterFlush (origin self.old) result (faults self.old) (is_sure self.old)
            (is_sure self.new) };

    ghost few_blocks: { (d : Self) → (origin d).blocks < 2 ^ 32 };

    ghost known_size: { (d : Self) → IsTrue (is_block_size (origin d).block_size) };

    ghost whole_blocks: { (d : Self) (b : ℕ) → IsTrue (origin d).shows → b < (origin d).blocks
        → length (shown d b) ≡ (origin d).block_size };

    ghost whole_candidates: { (d : Self) (b : ℕ) (c : List ℕ) → b < (origin d).blocks
        → may_hold d b c → length c ≡ (origin d).block_size };

    // Each number in them is a byte.
    ghost shown_bytes: { (d : Self) (b : ℕ) → IsTrue (origin d).shows →
        b < (origin d).blocks → All (λ byte. byte < 256) (shown d b) };

    ghost candidate_bytes: { (d : Self) (b : ℕ) (c : List ℕ) → b < (origin d).blocks →
        may_hold d b c → All (λ byte. byte < 256) c };

    // The bytes that reads give are always a candidate, and the only one where there is one alone.
    ghost shown_is_kept: { (d : Self) (b : ℕ) → IsTrue (origin d).keeps
        → may_hold d b (shown d b) };

    ghost sure_is_shown: { (d : Self) (b : ℕ) (c : List ℕ) → is_sure d b → may_hold d b c
        → c ≡ shown d b };
}

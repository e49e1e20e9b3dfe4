ghost use Rattle.std.specs.Prelude.{◌≤◌, length};

use crate::calls::Calls;
use crate::source::{Source, SourceFault};
use std::alloc::{AllocError, Global};

/// A source in memory, which tells its bytes. Its calls fail by a list.
#[derive(Drop)]
pub struct MemorySource {
    bytes: Vec<u8>,
    given: usize,
    calls: Calls,
    ghost within: { given ≤ length bytes.items },
}

impl MemorySource {
    ghost use Rattle.std.specs.Prelude.{◌≡◌, IfOk};
    ghost use Rattle.edge_io.specs.MemorySource.{left_of, fails_of, calls_of, faults_of};

    /// A source of these bytes. The calls with the numbers in `fails`, counted from 0, fail.
    pub fn new(alloc: Global, bytes: &[u8], fails: &[u64]) -> Result<MemorySource, AllocError>
        ensures left { IfOk result (λ s. left_of s ≡ bytes.now) }
        ensures fails { IfOk result (λ s. fails_of s ≡ fails.now) }
        ensures calls { IfOk result (λ s. calls_of s ≡ 0) }
        ensures faults { IfOk result (λ s. faults_of s ≡ 0) }
    {
        Ok(MemorySource {
            bytes: bytes.to_vec(alloc)?,
            given: 0,
            calls: Calls::new(alloc, fails)?,
        })
    }
}

impl Source for MemorySource {
    ghost use Rattle.std.specs.Prelude.{◌≡◌, ◌+◌, ◌-◌, ◌^◌, ◌↔◌, min, true, drop, Contains, IsErr, IfOk, OnErr};
    ghost use Rattle.edge_base.specs.outside.Faults.{HasCause};
    ghost use Rattle.edge_io.specs.MemorySource.{left_of, fails_of, calls_of, faults_of};
    ghost use Rattle.edge_io.specs.Streams.{Gives};

    ghost tells = { λ _. true };

    ghost left = { left_of };

    ghost faults = { faults_of };

    /// Gives as many bytes as are left and fit into `out`, and leaves the rest of `out` as it is.
    fn read(&mut self, out: &mut [u8]) -> Result<usize, SourceFault>
        ensures cause { HasCause (faults_of self.old) (faults_of self.new) result }
        ensures fits { IfOk result (λ n. n ≤ length out.old) }
        ensures given { IfOk result (λ n. Gives n out.new (left_of self.old) (left_of self.new)) }
        ensures failed { OnErr result (left_of self.new ≡ left_of self.old) }

        ensures fails { IsErr result ↔ Contains (fails_of self.old) (calls_of self.old) }
        ensures count { IfOk result (λ n. n ≡ min (length out.old) (length (left_of self.old))) }
        ensures rest { IfOk result (λ n. drop n out.new ≡ drop n out.old) }
        ensures untouched { OnErr result (out.new ≡ out.old) }
        ensures calls { calls_of self.new ≡ min (calls_of self.old + 1) (2 ^ 64 - 1) }
        ensures list { fails_of self.new ≡ fails_of self.old }
    {
        if self.calls.next_fails(false) {
            return Err(SourceFault);
        }
        let left = &self.bytes[self.given..];
        let count = left.len().min(out.len());
        out[..count].copy_from_slice(&left[..count]);
        self.given += count;
        Ok(count)
    }
}

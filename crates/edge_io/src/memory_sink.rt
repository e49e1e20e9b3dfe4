ghost use Rattle.std.specs.Prelude.{◌≤◌, length, vec_capacity};

use crate::calls::Calls;
use crate::sink::{Sink, SinkFault};
use std::alloc::{AllocError, Global};

/// A sink in memory, which tells its bytes. Its calls fail by a list, and where it is full.
#[derive(Drop)]
pub struct MemorySink {
    taken: Vec<u8>,
    size: usize,
    calls: Calls,
    ghost within: { length taken.items ≤ size },
    ghost room: { size ≤ vec_capacity taken },
}

impl MemorySink {
    ghost use Rattle.std.specs.Prelude.{◌≡◌, [], IfOk};
    ghost use Rattle.edge_io.specs.MemorySink.{taken_of, size_of, fails_of, calls_of, faults_of};

    /// A sink that takes `size` bytes at most. The calls with the numbers in `fails`, counted from
    /// 0, fail. Later calls take no memory.
    pub fn new(alloc: Global, size: usize, fails: &[u64]) -> Result<MemorySink, AllocError>
        ensures taken { IfOk result (λ s. taken_of s ≡ []) }
        ensures size { IfOk result (λ s. size_of s ≡ size) }
        ensures fails { IfOk result (λ s. fails_of s ≡ fails.now) }
        ensures calls { IfOk result (λ s. calls_of s ≡ 0) }
        ensures faults { IfOk result (λ s. faults_of s ≡ 0) }
    {
        Ok(MemorySink {
            taken: Vec::with_capacity(alloc, size)?,
            size,
            calls: Calls::new(alloc, fails)?,
        })
    }

    /// The bytes that it has taken.
    pub fn taken(&self) -> &[u8]
        ensures { result.now ≡ taken_of self.now }
    {
        self.taken.as_slice()
    }
}

impl Sink for MemorySink {
    ghost use Rattle.std.specs.Prelude.{◌≡◌, ◌<◌, ◌+◌, ◌-◌, ◌^◌, ◌++◌, ◌↔◌, ◌⊎◌, min, true, take, Contains, IsErr, IfOk, OnErr};
    ghost use Rattle.edge_base.specs.outside.Faults.{HasCause};
    ghost use Rattle.edge_io.specs.MemorySink.{taken_of, size_of, fails_of, calls_of, faults_of};

    ghost tells = { λ _. true };

    ghost taken = { taken_of };

    ghost faults = { faults_of };

    /// Takes as many of the bytes as there is room for. A full sink refuses a piece with a byte in
    /// it.
    fn write(&mut self, bytes: &[u8]) -> Result<usize, SinkFault>
        ensures cause { HasCause (faults_of self.old) (faults_of self.new) result }
        ensures fits { IfOk result (λ n. n ≤ length bytes.now) }
        ensures some { IfOk result (λ n. 0 < length bytes.now → 0 < n) }
        ensures taken { IfOk result
            (λ n. taken_of self.new ≡ taken_of self.old ++ take n bytes.now) }
        ensures failed { OnErr result (taken_of self.new ≡ taken_of self.old) }

        ensures fails { IsErr result ↔
            (Contains (fails_of self.old) (calls_of self.old)
            ⊎ ((0 < length bytes.now) × (length (taken_of self.old) ≡ size_of self.old))) }
        ensures count { IfOk result
            (λ n. n ≡ min (length bytes.now) (size_of self.old - length (taken_of self.old))) }
        ensures calls { calls_of self.new ≡ min (calls_of self.old + 1) (2 ^ 64 - 1) }
        ensures list { fails_of self.new ≡ fails_of self.old }
        ensures size { size_of self.new ≡ size_of self.old }
    {
        let room = self.size - self.taken.len();
        if self.calls.next_fails(room == 0 && !bytes.is_empty()) {
            return Err(SinkFault);
        }
        let count = bytes.len().min(room);
        self.taken.extend_from_slice(&bytes[..count]).unwrap();
        Ok(count)
    }
}

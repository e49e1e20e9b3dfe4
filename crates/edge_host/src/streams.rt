ghost use Rattle.std.specs.Prelude.{◌≡◌, ◌≤◌, ◌<◌, ◌+◌, ◌-◌, ◌^◌, min, [], false, length, take, IfOk, OnErr};
ghost use Rattle.std.specs.Io.KnownBytes.{Appends, Consumes, IsAtEnd, Keeps};
ghost use Rattle.edge_base.specs.outside.Faults.{HasCause};

use crate::faults::or_fault;
use crate::transfer::{read_some, write_some};
use edge_io::{Sink, SinkFault, Source, SourceFault};
use std::io::{Read, Write};

/// A reader of the host, as the standard input. Each read is one call of the host, and nothing is
/// read ahead.
#[derive(Drop)]
pub struct HostSource<R> {
    input: R,
    faults: u64,
}

impl<R: Read> HostSource<R> {
    ghost use Rattle.edge_host.specs.Streams.{source_faults, left_of};

    /// The source of what this reader gives, as `rt.stdin()`.
    pub fn new(input: R) -> HostSource<R>
        ensures faults { source_faults result ≡ 0 }
        ensures left { left_of R.remaining result ≡ R.remaining input }
    {
        HostSource { input, faults: 0 }
    }
}

impl<R: Read> Source for HostSource<R> {
    ghost use Rattle.edge_host.specs.Streams.{source_faults, left_of};

    ghost tells = { λ _. false };

    ghost left = { λ _. [] };

    ghost faults = { source_faults };

    /// Where std tells the reader's bytes, those given are the first of them, and 0 comes at their
    /// end alone.
    fn read(&mut self, out: &mut [u8]) -> Result<usize, SourceFault>
        ensures cause { HasCause (source_faults self.old) (source_faults self.new) result }
        ensures fits { IfOk result (λ n. n ≤ length out.old) }

        // Beyond the trait's clauses, where std tells the bytes of the reader.
        ensures given { IfOk result (λ n. Consumes
            (left_of R.remaining self.old) (left_of R.remaining self.new) (take n out.new)) }
        ensures end { IfOk result (λ n. n ≡ 0 → 0 < length out.old
            → IsAtEnd (left_of R.remaining self.new)) }
        ensures failed { OnErr result
            (Keeps (left_of R.remaining self.old) (left_of R.remaining self.new)) }
    {
        let answer = read_some(&mut self.input, out);
        or_fault(answer, &mut self.faults, SourceFault)
    }
}

/// A writer of the host, as the standard output. Each write is one call of the host. Nothing is
/// kept back, so bytes whose write failed are not written later.
#[derive(Drop)]
pub struct HostSink<W> {
    output: W,
    faults: u64,
}

impl<W: Write> HostSink<W> {
    ghost use Rattle.edge_host.specs.Streams.{sink_faults, taken_of};

    /// The sink that gives what it takes to this writer, as `rt.stdout()`.
    pub fn new(output: W) -> HostSink<W>
        ensures faults { sink_faults result ≡ 0 }
        ensures taken { taken_of W.contents result ≡ W.contents output }
    {
        HostSink { output, faults: 0 }
    }
}

impl<W: Write> Sink for HostSink<W> {
    ghost use Rattle.edge_host.specs.Streams.{sink_faults, taken_of};

    ghost tells = { λ _. false };

    ghost taken = { λ _. [] };

    ghost faults = { sink_faults };

    /// Where std tells the writer's bytes, they grow by those that are counted.
    fn write(&mut self, bytes: &[u8]) -> Result<usize, SinkFault>
        ensures cause { HasCause (sink_faults self.old) (sink_faults self.new) result }
        ensures fits { IfOk result (λ n. n ≤ length bytes.now) }
        ensures some { IfOk result (λ n. 0 < length bytes.now → 0 < n) }

        // Beyond the trait's clauses, where std tells the bytes of the writer.
        ensures taken { IfOk result (λ n. Appends
            (taken_of W.contents self.old) (taken_of W.contents self.new) (take n bytes.now)) }
        ensures failed { OnErr result
            (Keeps (taken_of W.contents self.old) (taken_of W.contents self.new)) }
    {
        let answer = write_some(&mut self.output, bytes);
        or_fault(answer, &mut self.faults, SinkFault)
    }
}

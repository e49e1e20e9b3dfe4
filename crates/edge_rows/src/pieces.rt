ghost use Rattle.std.specs.Prelude.{[], false};
ghost use Rattle.edge_io.specs.MemorySink.{faults_of as sink_faults_of};
ghost use Rattle.edge_io.specs.MemorySource.{faults_of as source_faults_of};

use edge_io::{MemorySink, MemorySource, Sink, SinkFault, Source, SourceFault};

/// A source in memory that gives at most so many bytes at a call. No proof is told what they are.
#[derive(Drop)]
pub struct PieceSource {
    pub source: MemorySource,
    pub most: usize,
}

impl Source for PieceSource {
    ghost tells = { λ _. false };

    ghost left = { λ _. [] };

    ghost faults = { λ s. source_faults_of s.source };

    fn read(&mut self, out: &mut [u8]) -> Result<usize, SourceFault> {
        let size = out.len().min(self.most);
        self.source.read(&mut out[..size])
    }
}

/// A sink in memory that takes at most so many bytes at a call, and at least one. No proof is told
/// which.
#[derive(Drop)]
pub struct PieceSink {
    pub sink: MemorySink,
    pub most: usize,
}

impl Sink for PieceSink {
    ghost tells = { λ _. false };

    ghost taken = { λ _. [] };

    ghost faults = { λ s. sink_faults_of s.sink };

    fn write(&mut self, bytes: &[u8]) -> Result<usize, SinkFault> {
        let size = bytes.len().min(self.most.max(1));
        self.sink.write(&bytes[..size])
    }
}

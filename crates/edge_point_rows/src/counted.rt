use edge_disk::{DeviceFault, Disk};

/// Calls of a disk, by their kind.
#[derive(Clone, Copy)]
pub struct Calls {
    pub reads: u64,
    pub writes: u64,
    pub flushes: u64,
}

impl Calls {
    /// No calls.
    pub const NONE: Calls = Calls {
        reads: 0,
        writes: 0,
        flushes: 0,
    };

    /// The calls since there were those.
    pub fn since(self, before: Calls) -> Calls {
        Calls {
            reads: self.reads.saturating_sub(before.reads),
            writes: self.writes.saturating_sub(before.writes),
            flushes: self.flushes.saturating_sub(before.flushes),
        }
    }
}

/// A disk of which the calls are counted by their kind.
#[derive(Drop)]
pub struct CountedDisk<D: Disk> {
    pub disk: D,
    pub calls: Calls,
}

impl<D: Disk> Disk for CountedDisk<D> {
    ghost origin = { λ d. D.origin d.disk };

    ghost shown = { λ d. D.shown d.disk };

    ghost may_hold = { λ d. D.may_hold d.disk };

    ghost is_sure = { λ d. D.is_sure d.disk };

    ghost faults = { λ d. D.faults d.disk };

    fn blocks(&self) -> u32 {
        self.disk.blocks()
    }

    fn block_size(&self) -> u32 {
        self.disk.block_size()
    }

    fn read(&mut self, b: u32, out: &mut [u8]) -> Result<(), DeviceFault> {
        self.calls.reads = self.calls.reads.saturating_add(1);
        self.disk.read(b, out)
    }

    fn write(&mut self, b: u32, bytes: &[u8]) -> Result<(), DeviceFault> {
        self.calls.writes = self.calls.writes.saturating_add(1);
        self.disk.write(b, bytes)
    }

    fn flush(&mut self) -> Result<(), DeviceFault> {
        self.calls.flushes = self.calls.flushes.saturating_add(1);
        self.disk.flush()
    }

    ghost few_blocks = { λ d. D.few_blocks d.disk };

    ghost known_size = { λ d. D.known_size d.disk };

    ghost whole_blocks = { λ d. D.whole_blocks d.disk };

    ghost whole_candidates = { λ d. D.whole_candidates d.disk };

    ghost shown_bytes = { λ d. D.shown_bytes d.disk };

    ghost candidate_bytes = { λ d. D.candidate_bytes d.disk };

    ghost shown_is_kept = { λ d. D.shown_is_kept d.disk };

    ghost sure_is_shown = { λ d. D.sure_is_shown d.disk };
}

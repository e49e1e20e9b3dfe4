use crate::orders::SINK_ROOM;
use anyhow::Result;
use edge_base::Geometry;
use edge_calls::Volume;
use edge_io::{MemoryClock, MemorySink, MemorySource};
use edge_plain::PlainStore;
use edge_session::{Buffers, Limit, session};
use std::alloc::Global;

/// The limits of a script: more than any row has.
const LIMITS: Limit = Limit {
    lines: 1_000_000,
    bytes: 1_000_000_000,
};

/// The replies to a script over a fresh volume of a store in memory.
pub fn replies_in_memory(alloc: Global, g: Geometry, script: &[u8]) -> Result<MemorySink> {
    let mut volume = Volume::new(PlainStore::new(alloc, g)?);
    let mut source = MemorySource::new(alloc, script, &[])?;
    let mut sink = MemorySink::new(alloc, SINK_ROOM, &[])?;
    let mut clock = MemoryClock::new(alloc, &[0])?;
    let mut buffers = Buffers::new(alloc)?;
    session(
        &mut volume,
        &mut source,
        &mut sink,
        &mut clock,
        LIMITS,
        &mut buffers,
    );
    Ok(sink)
}

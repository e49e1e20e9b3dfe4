ghost use Rattle.std.specs.Prelude.{◌≡◌, ◌≤◌, ◌<◌, IfOk};
ghost use Rattle.edge_disk.specs.Memory.{origin_of};
ghost use Rattle.edge_imap.specs.Bitmaps.{IsFit, bits_of};

use crate::search::{PER_NODE, geometry_of};
use anyhow::{Result, bail, ensure};
use edge_base::Geometry;
use edge_cache::Cache;
use edge_disk::{Disk, MemoryDisk};
use edge_imap::{BlockState, Counts, Imap, ImapFault};
use edge_nodes::encode_imap;
use edge_statement::{number32, word};
use std::alloc::Global;

/// What calls of a bitmap answer whose bits are clear, each behind a space, up to one that fails.
pub fn bitmap_told(alloc: Global, words: &[&str], failing: Option<u64>) -> Result<String> {
    let g = geometry_of(number32(words, 0)?)?;
    let mut out = String::new(alloc);
    let mut cache = cache_of(alloc, &g, failing)?;
    match Imap::load(alloc, g, &[0u8; 480], &mut cache) {
        Ok(mut imap) => push_calls(alloc, &mut out, &g, &mut imap, &mut cache, words)?,
        Err(fault) => write!(out, " {fault:?}")?,
    }
    Ok(out)
}

// A cache over zeros, and the first imap node where there is one, whose bits are clear.
fn cache_of(alloc: Global, g: &Geometry, failing: Option<u64>) -> Result<Cache<MemoryDisk>>
    requires size { g.now.block_size ≡ 512 }
    ensures fits { IfOk result (λ c. IsFit g.now (origin_of c.disk)) }
{
    let mut image = vec![in alloc; 0u8; 512 * g.request().blocks as usize]?;
    if g.imap_nodes() > 0 {
        ensure!(g.bits_of_node(0) < PER_NODE, "too many blocks");
        encode_imap(g, 0, 1, &[0u8; 496], &mut image[1536..2048]);
    }
    let mut fails = Vec::new(alloc);
    if let Some(call) = failing {
        fails.push(call)?;
    }
    let disk = MemoryDisk::new(alloc, 512, &image, 100, &fails)?;
    match Cache::new(alloc, disk) {
        Ok(cache) => Ok(cache),
        Err(_) => bail!("no memory"),
    }
}

// What a call of a bitmap tells.
enum Told {
    Done,
    Number(Option<u32>),
    State(BlockState),
    Counts(Counts),
}

// Makes the calls in turn, up to one that fails.
fn push_calls<D: Disk>(
    alloc: Global,
    out: &mut String,
    g: &Geometry,
    imap: &mut Imap,
    cache: &mut Cache<D>,
    words: &[&str],
) -> Result<()>
    requires geometry { imap.old.geometry ≡ g.now }
    requires fits { IsFit g.now (D.origin cache.old.disk) }
{
    for call in words.iter().skip(1) {
        let words: Vec<&str> = call.split(':').collect(alloc)?;
        match told_by(g, imap, cache, &words)? {
            Ok(Told::Done) => out.push_str(" ok")?,
            Ok(Told::Number(Some(number))) => write!(out, " {number}")?,
            Ok(Told::Number(None)) => out.push_str(" none")?,
            Ok(Told::State(state)) => write!(out, " {state:?}")?,
            Ok(Told::Counts(counts)) => write!(out, " {}+{}", counts.free, counts.almost)?,
            Err(fault) => {
                write!(out, " {fault:?}")?;
                return Ok(());
            }
        }
    }
    Ok(())
}

// Makes a call. `inode` asks for the first number that is free, and `counts` for the free and the
// almost free blocks; at `settle` both lists become the same, and `others` reads 32 other blocks,
// so that the cache holds no node.
fn told_by<D: Disk>(
    g: &Geometry,
    imap: &mut Imap,
    cache: &mut Cache<D>,
    words: &[&str],
) -> Result<Result<Told, ImapFault>>
    requires geometry { imap.old.geometry ≡ g.now }
    requires fits { IsFit g.now (D.origin cache.old.disk) }
    ensures geometry { imap.new.geometry ≡ g.now }
    ensures origin { D.origin cache.new.disk ≡ D.origin cache.old.disk }
{
    match word(words, 0)? {
        "inode" => Ok(imap.free_inode(cache).map(Told::Number)),
        "counts" => Ok(Ok(Told::Counts(imap.counts()))),
        "settle" => {
            imap.settle();
            Ok(Ok(Told::Done))
        }
        "others" => {
            ensure!(1032 <= g.request().blocks, "few blocks");
            read_others(cache);
            Ok(Ok(Told::Done))
        }
        verb => told_of_bit(g, imap, cache, verb, number32(words, 1)?),
    }
}

// Makes a call that names a bit: `set:BIT`, `clear:BIT`, `next:BIT`, the next free one, and
// `state:BIT`.
fn told_of_bit<D: Disk>(
    g: &Geometry,
    imap: &mut Imap,
    cache: &mut Cache<D>,
    verb: &str,
    bit: u32,
) -> Result<Result<Told, ImapFault>>
    requires geometry { imap.old.geometry ≡ g.now }
    requires fits { IsFit g.now (D.origin cache.old.disk) }
    ensures geometry { imap.new.geometry ≡ g.now }
    ensures origin { D.origin cache.new.disk ≡ D.origin cache.old.disk }
{
    ensure!(
        bit < g.request().blocks.saturating_sub(g.table_start()),
        "no bit {bit}"
    );
    match verb {
        "set" => Ok(imap.set(cache, 7, bit, true).map(|()| Told::Done)),
        "clear" => Ok(imap.set(cache, 7, bit, false).map(|()| Told::Done)),
        "next" => Ok(imap.next_free(cache, bit).map(Told::Number)),
        "state" => Ok(imap.state(cache, bit).map(Told::State)),
        _ => bail!("no call of a bitmap: {verb}"),
    }
}

// Reads 32 blocks behind the first 1,000.
fn read_others<D: Disk>(cache: &mut Cache<D>)
    requires size { 4 ≤ (D.origin cache.old.disk).block_size }
    requires blocks { 1032 ≤ (D.origin cache.old.disk).blocks }
    ensures { D.origin cache.new.disk ≡ D.origin cache.old.disk }
{
    for block in 1000..1032 {
        let _answer = cache.read(block, 0, &mut [0u8; 4]);
    }
}

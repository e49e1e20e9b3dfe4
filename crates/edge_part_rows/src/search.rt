ghost use Rattle.std.specs.Prelude.{◌≡◌, ◌<◌, ◌≤◌, IfOk};
ghost use Rattle.edge_imap.specs.Bitmaps.{IsFit, bits_of};
ghost use Rattle.edge_part_rows.specs.Front.{origin_of};

use crate::front::FrontDisk;
use anyhow::{Context, Result, bail, ensure};
use edge_base::{Geometry, Request};
use edge_cache::Cache;
use edge_disk::Disk;
use edge_imap::Imap;
use edge_nodes::encode_imap;
use edge_statement::{number32, word};
use std::alloc::Global;

/// The bits of an imap node of 512 bytes that has as many as it could.
pub const PER_NODE: u32 = 3968;

// Some bits: so many from one on, each so far from the one before.
#[derive(Clone, Copy)]
struct Places {
    first: u32,
    step: u32,
    count: u32,
}

// Which bits of a bitmap are free, and which are so in the working list alone.
#[derive(Clone, Copy)]
struct Layout {
    bits: u32,
    free: Places,
    almost: Places,
}

/// Appends how many blocks of a nearly full volume are taken, each the next free one from the last
/// on, and what calls of the disk that costs. `bench/imap.sh` takes the time.
pub fn push_search(alloc: Global, out: &mut String, words: &[&str]) -> Result<()> {
    let g = geometry_of(number32(words, 1)?)?;
    let layout = layout_of(&g, word(words, 0)?, number32(words, 2)?)?;
    let takes = number32(words, 3)?;
    let table = 2 * g.request().inodes;
    ensure!(table < layout.bits, "no blocks");

    let disk = disk_of(alloc, &g)?;
    let mut cache = cache_of(alloc, disk)?;
    let mut imap = imap_of(alloc, g, &mut cache)?;
    fill(&mut imap, &mut cache, layout)?;

    let disk = cache.end();
    let before = disk.calls();
    let mut cache = cache_of(alloc, disk)?;
    let (taken, last) = take_blocks(&mut imap, &mut cache, table, takes)?;
    let after = cache.end().calls();
    let reads = after.0.saturating_sub(before.0);
    let writes = after.1.saturating_sub(before.1);
    writeln!(
        out,
        "  {taken} taken, the last {last}: {reads} reads, {writes} writes"
    )?;
    Ok(())
}

/// So many blocks of 512 bytes.
pub fn geometry_of(blocks: u32) -> Result<Geometry>
    ensures { IfOk result (λ g. g.block_size ≡ 512) }
{
    let request = Request {
        block_size: 512,
        blocks,
        inodes: 8,
        name_max: 28,
        direct: 4,
        indirect: 32,
    };
    match Geometry::checked(request) {
        Ok(g) => Ok(g),
        Err(e) => bail!("no volume: {e:?}"),
    }
}

// So many free bits that lie apart, or are the last, or are the last behind as many almost free.
fn layout_of(g: &Geometry, what: &str, count: u32) -> Result<Layout>
    ensures { IfOk result (λ l. l.bits ≡ bits_of g.now) }
{
    let bits = g.request().blocks.saturating_sub(g.table_start());
    let first = 2 * g.request().inodes;
    let spread = Places {
        first,
        step: bits.saturating_sub(first) / count.max(1),
        count,
    };
    let last = Places {
        first: bits.saturating_sub(count),
        step: 1,
        count,
    };
    let none = Places { count: 0, ..last };
    let (free, almost) = match what {
        "spread" => (spread, none),
        "run" => (last, none),
        "behind" => (last, spread),
        _ => bail!("no layout: {what}"),
    };
    Ok(Layout { bits, free, almost })
}

// The disk of a volume, with its imap nodes alone: all bits are set but those of a node that has
// not as many as it could.
fn disk_of(alloc: Global, g: &Geometry) -> Result<FrontDisk>
    requires size { g.now.block_size ≡ 512 }
    ensures fits { IfOk result (λ d. IsFit g.now (origin_of d)) }
{
    let mut disk = FrontDisk::new(alloc, g.request().blocks, g.table_start())?;
    let mut block = [0u8; 512];
    for node in 0..g.imap_nodes() {
        if g.bits_of_node(node) == PER_NODE {
            encode_imap(g, node, 1, &[0xffu8; 496], &mut block);
        } else {
            encode_imap(g, node, 1, &[0u8; 496], &mut block);
        }
        disk.write(g.imap_place(node, false), &block)?;
    }
    Ok(disk)
}

fn cache_of(alloc: Global, disk: FrontDisk) -> Result<Cache<FrontDisk>>
    ensures { IfOk result (λ c. c.disk ≡ disk) }
{
    match Cache::new(alloc, disk) {
        Ok(cache) => Ok(cache),
        Err(_) => bail!("no memory"),
    }
}

fn imap_of(alloc: Global, g: Geometry, cache: &mut Cache<FrontDisk>) -> Result<Imap>
    requires size { g.block_size ≡ 512 }
    requires fits { IsFit g (origin_of cache.old.disk) }
    ensures geometry { IfOk result (λ m. m.geometry ≡ g) }
    ensures origin { origin_of cache.new.disk ≡ origin_of cache.old.disk }
{
    match Imap::load(alloc, g, &[0u8; 480], cache) {
        Ok(imap) => Ok(imap),
        Err(e) => bail!("no bitmap: {e:?}"),
    }
}

// Makes all bits used but those that are free, and the almost free ones so.
fn fill<D: Disk>(imap: &mut Imap, cache: &mut Cache<D>, layout: Layout) -> Result<()>
    requires fits { IsFit imap.old.geometry (D.origin cache.old.disk) }
    requires bits { layout.bits ≤ bits_of imap.old.geometry }
    ensures geometry { imap.new.geometry ≡ imap.old.geometry }
    ensures origin { D.origin cache.new.disk ≡ D.origin cache.old.disk }
{
    set_last(imap, cache, layout.bits)?;
    clear_some(imap, cache, layout.bits, layout.free)?;
    imap.settle();
    clear_some(imap, cache, layout.bits, layout.almost)?;
    cache.write_out()?;
    Ok(())
}

// Sets the bits behind those of the nodes that have as many as they could.
fn set_last<D: Disk>(imap: &mut Imap, cache: &mut Cache<D>, bits: u32) -> Result<()>
    requires fits { IsFit imap.old.geometry (D.origin cache.old.disk) }
    requires bits { bits ≤ bits_of imap.old.geometry }
    ensures geometry { imap.new.geometry ≡ imap.old.geometry }
    ensures origin { D.origin cache.new.disk ≡ D.origin cache.old.disk }
{
    let start = bits - bits % PER_NODE;
    for bit in start..bits {
        set_bit(imap, cache, bit, true)?;
    }
    Ok(())
}

// Clears some bits.
fn clear_some<D: Disk>(
    imap: &mut Imap,
    cache: &mut Cache<D>,
    bits: u32,
    places: Places,
) -> Result<()>
    requires fits { IsFit imap.old.geometry (D.origin cache.old.disk) }
    requires bits { bits ≤ bits_of imap.old.geometry }
    ensures geometry { imap.new.geometry ≡ imap.old.geometry }
    ensures origin { D.origin cache.new.disk ≡ D.origin cache.old.disk }
{
    let mut bit = places.first;
    for _ in 0..places.count {
        ensure!(bit < bits, "no bit {bit}");
        set_bit(imap, cache, bit, false)?;
        bit = bit.saturating_add(places.step);
    }
    Ok(())
}

fn set_bit<D: Disk>(imap: &mut Imap, cache: &mut Cache<D>, bit: u32, used: bool) -> Result<()>
    requires fits { IsFit imap.old.geometry (D.origin cache.old.disk) }
    requires bit { bit < bits_of imap.old.geometry }
    ensures geometry { imap.new.geometry ≡ imap.old.geometry }
    ensures origin { D.origin cache.new.disk ≡ D.origin cache.old.disk }
{
    match imap.set(cache, 2, bit, used) {
        Ok(()) => Ok(()),
        Err(e) => bail!("bit {bit}: {e:?}"),
    }
}

// Takes so many blocks, each the next free one from the last on. Answers how many there were, and
// the last.
fn take_blocks<D: Disk>(
    imap: &mut Imap,
    cache: &mut Cache<D>,
    from: u32,
    takes: u32,
) -> Result<(u32, u32)>
    requires fits { IsFit imap.old.geometry (D.origin cache.old.disk) }
    requires from { from < bits_of imap.old.geometry }
{
    let mut last = from;
    for taken in 0..takes {
        match imap.next_free(cache, last) {
            Ok(Some(bit)) => last = bit,
            Ok(None) => return Ok((taken, last)),
            Err(e) => bail!("after {taken}: {e:?}"),
        }
        set_bit(imap, cache, last, true)?;
    }
    Ok((takes, last))
}

ghost use Rattle.std.specs.Prelude.{◌≡◌, length, IfOk};
ghost use Rattle.edge_base.specs.layout.Sizes.{is_block_size};
ghost use Rattle.edge_disk.specs.Memory.{origin_of};

use anyhow::{Context, Result, bail, ensure};
use edge_cache::Cache;
use edge_disk::{DeviceFault, Disk, MemoryDisk};
use edge_statement::{byte, number, number32, word};
use std::alloc::Global;

// The blocks of a disk, and their size.
#[derive(Clone, Copy)]
struct Shape {
    blocks: u32,
    size: u32,
}

/// What calls of a cache answer over a disk of sevens, each behind a space, and how many calls of
/// the disk they make. Those behind the word `end` tell what the disk shows.
pub fn cache_told(alloc: Global, words: &[&str], failing: Option<u64>) -> Result<String> {
    let shape = Shape {
        blocks: number32(words, 0)?,
        size: number32(words, 1)?,
    };
    let calls = words.get(2..).context("no calls")?;
    let mut out = String::new(alloc);
    let ends = calls.iter().position(|call| *call == "end");
    let (before, behind) = calls.split_at(ends.unwrap_or(calls.len()));
    let mut cache = cache_of(alloc, shape, failing)?;
    push_calls(alloc, &mut out, &mut cache, shape, before)?;
    let mut disk = cache.end();
    write!(out, " {} calls", disk.calls())?;
    push_shows(alloc, &mut out, &mut disk, shape, behind)?;
    Ok(out)
}

// Makes the calls in turn.
fn push_calls<D: Disk>(
    alloc: Global,
    out: &mut String,
    cache: &mut Cache<D>,
    shape: Shape,
    calls: &[&str],
) -> Result<()>
    requires blocks { (D.origin cache.old.disk).blocks ≡ shape.blocks }
    requires size { (D.origin cache.old.disk).block_size ≡ shape.size }
    ensures origin { D.origin cache.new.disk ≡ D.origin cache.old.disk }
{
    for call in calls {
        let words: Vec<&str> = call.split(':').collect(alloc)?;
        push_call(alloc, out, cache, shape, &words)?;
    }
    Ok(())
}

// The same of what the disk shows, behind the first word.
fn push_shows<D: Disk>(
    alloc: Global,
    out: &mut String,
    disk: &mut D,
    shape: Shape,
    calls: &[&str],
) -> Result<()>
    requires blocks { (D.origin disk.old).blocks ≡ shape.blocks }
    requires size { (D.origin disk.old).block_size ≡ shape.size }
{
    for call in calls.iter().skip(1) {
        let words: Vec<&str> = call.split(':').collect(alloc)?;
        push_shown(alloc, out, disk, shape, &words)?;
    }
    Ok(())
}

// A cache over a disk of sevens.
fn cache_of(alloc: Global, shape: Shape, failing: Option<u64>) -> Result<Cache<MemoryDisk>>
    ensures blocks { IfOk result (λ c. (origin_of c.disk).blocks ≡ shape.blocks) }
    ensures size { IfOk result (λ c. (origin_of c.disk).block_size ≡ shape.size) }
{
    ensure!(is_block_size(shape.size), "no size of a block");
    ensure!(shape.blocks < 10_000, "too many blocks");
    let image = vec![in alloc; 7u8; (shape.size * shape.blocks) as usize]?;
    let mut fails = Vec::new(alloc);
    if let Some(call) = failing {
        fails.push(call)?;
    }
    let disk = MemoryDisk::new(alloc, shape.size, &image, 100, &fails)?;
    match Cache::new(alloc, disk) {
        Ok(cache) => Ok(cache),
        Err(_) => bail!("no memory"),
    }
}

fn is_block_size(size: u32) -> bool
    ensures { result ≡ is_block_size size }
{
    size == 512 || size == 1024 || size == 2048 || size == 4096
}

// Makes a call of the cache, and appends what it answers.
fn push_call<D: Disk>(
    alloc: Global,
    out: &mut String,
    cache: &mut Cache<D>,
    shape: Shape,
    words: &[&str],
) -> Result<()>
    requires blocks { (D.origin cache.old.disk).blocks ≡ shape.blocks }
    requires size { (D.origin cache.old.disk).block_size ≡ shape.size }
    ensures origin { D.origin cache.new.disk ≡ D.origin cache.old.disk }
{
    match word(words, 0)? {
        "read" => push_read(alloc, out, cache, shape, words),
        "reads" => push_reads(out, cache, shape, words),
        "change" => push_change(out, cache, shape, words),
        "write" => push_write(alloc, out, cache, shape, words, false),
        "node" => push_write(alloc, out, cache, shape, words, true),
        "fresh" => push_fresh(out, cache, shape, words, false),
        "fresh_node" => push_fresh(out, cache, shape, words, true),
        "out" => push_done(out, cache.write_out()),
        "flush" => push_done(out, cache.flush()),
        verb => bail!("no call of a cache: {verb}"),
    }
}

// Appends whether a call was done.
fn push_done(out: &mut String, answer: Result<(), DeviceFault>) -> Result<()> {
    match answer {
        Ok(()) => out.push_str(" ok")?,
        Err(_) => out.push_str(" fault")?,
    }
    Ok(())
}

// Appends bytes.
fn push_bytes(out: &mut String, bytes: &[u8]) -> Result<()> {
    out.push(' ')?;
    for byte in bytes {
        write!(out, "{byte:02x}")?;
    }
    Ok(())
}

// Appends how many calls failed.
fn push_failed(out: &mut String, failed: u32) -> Result<()> {
    write!(out, " {failed} failed")?;
    Ok(())
}

// `read:BLOCK:AT:COUNT`
fn push_read<D: Disk>(
    alloc: Global,
    out: &mut String,
    cache: &mut Cache<D>,
    shape: Shape,
    words: &[&str],
) -> Result<()>
    requires blocks { (D.origin cache.old.disk).blocks ≡ shape.blocks }
    requires size { (D.origin cache.old.disk).block_size ≡ shape.size }
    ensures origin { D.origin cache.new.disk ≡ D.origin cache.old.disk }
{
    let (block, at, count) = (
        number32(words, 1)?,
        number32(words, 2)?,
        number32(words, 3)?,
    );
    ensure!(block < shape.blocks, "no such block");
    ensure!(
        at <= shape.size && count <= shape.size - at,
        "beyond the block"
    );
    let mut bytes = vec![in alloc; 0u8; count as usize]?;
    match cache.read(block, at, &mut bytes) {
        Ok(()) => push_bytes(out, &bytes),
        Err(fault) => push_done(out, Err(fault)),
    }
}

// `reads:TIMES:COUNT`: the last blocks in turn
fn push_reads<D: Disk>(
    out: &mut String,
    cache: &mut Cache<D>,
    shape: Shape,
    words: &[&str],
) -> Result<()>
    requires blocks { (D.origin cache.old.disk).blocks ≡ shape.blocks }
    requires size { (D.origin cache.old.disk).block_size ≡ shape.size }
    ensures origin { D.origin cache.new.disk ≡ D.origin cache.old.disk }
{
    let (times, count) = (number32(words, 1)?, number32(words, 2)?);
    ensure!(0 < count && count <= shape.blocks, "no such blocks");
    let mut failed = 0u32;
    for i in 0..times {
        if cache
            .read(shape.blocks - 1 - i % count, 8, &mut [0u8; 4])
            .is_err()
        {
            failed = failed.saturating_add(1);
        }
    }
    push_failed(out, failed)
}

// `change:COUNT`: each of the first blocks gets its number as byte 100; what fails is tried again
fn push_change<D: Disk>(
    out: &mut String,
    cache: &mut Cache<D>,
    shape: Shape,
    words: &[&str],
) -> Result<()>
    requires blocks { (D.origin cache.old.disk).blocks ≡ shape.blocks }
    requires size { (D.origin cache.old.disk).block_size ≡ shape.size }
    ensures origin { D.origin cache.new.disk ≡ D.origin cache.old.disk }
{
    let count = word(words, 1)?.parse::<u8>()?;
    ensure!(
        u32::from(count) <= shape.blocks && 200 < shape.size,
        "no such blocks"
    );
    let mut failed = 0u32;
    for b in 0..count {
        if cache.write(u32::from(b), 100, &[b], false).is_err() {
            failed = failed.saturating_add(1);
            let _again = cache.write(u32::from(b), 100, &[b], false);
        }
    }
    push_failed(out, failed)
}

// `write:BLOCK:AT:BYTE:COUNT`, or `node` where the block is a node
fn push_write<D: Disk>(
    alloc: Global,
    out: &mut String,
    cache: &mut Cache<D>,
    shape: Shape,
    words: &[&str],
    node: bool,
) -> Result<()>
    requires blocks { (D.origin cache.old.disk).blocks ≡ shape.blocks }
    requires size { (D.origin cache.old.disk).block_size ≡ shape.size }
    ensures origin { D.origin cache.new.disk ≡ D.origin cache.old.disk }
{
    let (block, at, count) = (
        number32(words, 1)?,
        number32(words, 2)?,
        number32(words, 4)?,
    );
    ensure!(block < shape.blocks, "no such block");
    ensure!(
        at <= shape.size && count <= shape.size - at,
        "beyond the block"
    );
    let bytes = vec![in alloc; byte(alloc, word(words, 3)?)?; count as usize]?;
    push_done(out, cache.write(block, at, &bytes, node))
}

// `fresh:BLOCK`, or `fresh_node` where the block is a node
fn push_fresh<D: Disk>(
    out: &mut String,
    cache: &mut Cache<D>,
    shape: Shape,
    words: &[&str],
    node: bool,
) -> Result<()>
    requires blocks { (D.origin cache.old.disk).blocks ≡ shape.blocks }
    requires size { (D.origin cache.old.disk).block_size ≡ shape.size }
    ensures origin { D.origin cache.new.disk ≡ D.origin cache.old.disk }
{
    let block = number32(words, 1)?;
    ensure!(block < shape.blocks, "no such block");
    push_done(out, cache.fresh(block, node))
}

// Appends what the disk shows: `shown:BLOCK:AT:COUNT`, or `changed:COUNT`, how many of the first
// blocks have their number as byte 100.
fn push_shown<D: Disk>(
    alloc: Global,
    out: &mut String,
    disk: &mut D,
    shape: Shape,
    words: &[&str],
) -> Result<()>
    requires blocks { (D.origin disk.old).blocks ≡ shape.blocks }
    requires size { (D.origin disk.old).block_size ≡ shape.size }
    ensures origin { D.origin disk.new ≡ D.origin disk.old }
{
    let mut block = vec![in alloc; 0u8; shape.size as usize]?;
    match word(words, 0)? {
        "shown" => {
            let (b, at, count) = (number32(words, 1)?, number(words, 2)?, number(words, 3)?);
            ensure!(b < shape.blocks, "no such block");
            disk.read(b, &mut block)?;
            let bytes = block.get(at..).and_then(|rest| rest.get(..count));
            push_bytes(out, bytes.context("beyond the block")?)
        }
        "changed" => push_changed(out, disk, word(words, 1)?.parse::<u8>()?, &mut block),
        verb => bail!("nothing to tell: {verb}"),
    }
}

// Appends how many of the first blocks have their number as byte 100, between sevens.
fn push_changed<D: Disk>(out: &mut String, disk: &mut D, count: u8, block: &mut [u8]) -> Result<()>
    requires size { length block.old ≡ (D.origin disk.old).block_size }
    ensures origin { D.origin disk.new ≡ D.origin disk.old }
{
    ensure!(u32::from(count) <= disk.blocks(), "no such blocks");
    let mut changed = 0u32;
    for b in 0..count {
        disk.read(u32::from(b), block)?;
        if block.get(99..102) == Some(&[7, b, 7]) {
            changed = changed.saturating_add(1);
        }
    }
    write!(out, " {changed} changed")?;
    Ok(())
}

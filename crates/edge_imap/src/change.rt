//! Changes of a bit in the working list. A node is changed at its place that is not live.
ghost use Rattle.std.specs.Prelude.{◌≡◌, ◌≢◌, ◌<◌, ◌+◌, ◌-◌, ◌*◌, ◌/◌, ◌==◌, ℕ, not, true, false, if◌then◌else◌, length, IsOk, OnOk, OnErr, IsTrue};
ghost use Rattle.std.specs.Int.{bit_at};
ghost use Rattle.edge_base.specs.layout.Bitmap.{live_place, bit_under};
ghost use Rattle.edge_base.specs.layout.Bytes.{bit_in, number_at};
ghost use Rattle.edge_base.specs.layout.Places.{is_inline_of};
ghost use Rattle.edge_cache.specs.Calls.{content_in};
ghost use Rattle.edge_imap.specs.Bitmaps.{IsRootBits, IsFit, HoldsBit, IsNode, bits_of, node_of, spare_place};
ghost use Rattle.edge_imap.specs.Reading.{OnlyReads, OnlyWrites, TellsWhy, TurnsNode, ChangesBit, ChangesCopy};

use crate::fault::ImapFault;
use crate::node::{BITS, check_word, live_block, node_of_bit, read_node};
use edge_base::Geometry;
use edge_bits::{get, set};
use edge_cache::Cache;
use edge_disk::Disk;
use edge_nodes::change_sequence;

/// A change of a bit, for the point with this sequence number.
#[derive(Clone, Copy)]
pub(crate) struct Change {
    pub(crate) sequence: u64,
    pub(crate) bit: u32,
    pub(crate) used: bool,
}

// The byte with a bit set or clear.
fn with_bit(byte: u8, i: u32, on: bool) -> u8
    requires { i < 8 }
    ensures here { bit_at result i == 1 ≡ on }
    ensures others { (k : ℕ) → k < 8 → k ≢ i → (bit_at result k == 1) ≡ (bit_at byte k == 1) }
{
    let mut bytes = [byte];
    set(&mut bytes, i, on);
    bytes[0]
}

// Changes a bit of the node of a block, in place.
fn change_bit<D: Disk>(
    cache: &mut Cache<D>,
    block: u32,
    at: u32,
    used: bool,
) -> Result<(), ImapFault>
    requires in_range { block < (D.origin cache.old.disk).blocks }
    requires inside { 16 + at / 8 < (D.origin cache.old.disk).block_size }
    ensures writes { OnOk result (OnlyWrites D.Disk block cache.old cache.new) }
    ensures fault { OnErr result (OnlyReads D.Disk cache.old cache.new) }
    ensures cause { TellsWhy D.Disk (λ k. k ≡ block) cache.old cache.new result }
    ensures bits { IsTrue (D.origin cache.old.disk).shows → OnOk result
        (ChangesBit (8 * ((D.origin cache.old.disk).block_size - 16)) at used
        (content_in D.Disk cache.old block) (content_in D.Disk cache.new block)) }
    ensures sequence { IsTrue (D.origin cache.old.disk).shows → OnOk result
        (number_at 8 8 (content_in D.Disk cache.new block)
        ≡ number_at 8 8 (content_in D.Disk cache.old block)) }
{
    check_word(cache, block)?;
    let mut byte = [0u8; 1];
    cache.read(block, BITS + at / 8, &mut byte)?;
    let new = [with_bit(byte[0], at % 8, used)];
    cache.write(block, BITS + at / 8, &new, true)?;
    Ok(())
}

// Makes the bytes of a node those of the same with one bit changed, for another point. Its check
// word is not put right.
fn change_node(block: &mut [u8], change: Change)
    requires whole { 16 + change.bit / 8 < length block.old }
    ensures sequence { number_at 8 8 block.new ≡ change.sequence }
    ensures changed { ChangesCopy change.bit change.used block.old block.new }
{
    change_sequence(block, change.sequence);
    let at = BITS as usize + change.bit as usize / 8;
    block[at] = with_bit(block[at], change.bit % 8, change.used);
}

// Writes the node of one block to another, with one bit changed. `block` is room for it.
fn copy_bit<D: Disk>(
    cache: &mut Cache<D>,
    block: &mut [u8],
    from: u32,
    to: u32,
    change: Change,
) -> Result<(), ImapFault>
    requires from { from < (D.origin cache.old.disk).blocks }
    requires to { to < (D.origin cache.old.disk).blocks }
    requires whole { length block.old ≡ (D.origin cache.old.disk).block_size }
    requires inside { 16 + change.bit / 8 < (D.origin cache.old.disk).block_size }
    ensures writes { OnOk result (OnlyWrites D.Disk to cache.old cache.new) }
    ensures fault { OnErr result (OnlyReads D.Disk cache.old cache.new) }
    ensures cause { TellsWhy D.Disk (λ k. k ≡ from) cache.old cache.new result }
    ensures bits { IsTrue (D.origin cache.old.disk).shows → OnOk result
        (ChangesBit (8 * ((D.origin cache.old.disk).block_size - 16)) change.bit change.used
        (content_in D.Disk cache.old from) (content_in D.Disk cache.new to)) }
    ensures sequence { IsTrue (D.origin cache.old.disk).shows
        → OnOk result (number_at 8 8 (content_in D.Disk cache.new to) ≡ change.sequence) }
{
    read_node(cache, from, block)?;
    change_node(block, change);
    cache.write(to, 0, block, true)?;
    Ok(())
}

// Changes a bit of a node that has its place for the next point already.
fn change_again<D: Disk>(
    g: &Geometry,
    working: &[u8],
    cache: &mut Cache<D>,
    change: Change,
) -> Result<(), ImapFault>
    requires external { is_inline_of g.now ≡ false }
    requires working { IsRootBits g.now working.now }
    requires fits { IsFit g.now (D.origin cache.old.disk) }
    requires bit { change.bit < bits_of g.now }
    ensures writes { OnOk result
        (OnlyWrites D.Disk (live_place g.now working.now (node_of g.now change.bit))
        cache.old cache.new) }
    ensures fault { OnErr result (OnlyReads D.Disk cache.old cache.new) }
    ensures cause { TellsWhy D.Disk (HoldsBit g.now working.now change.bit)
        cache.old cache.new result }
    ensures bits { IsTrue (D.origin cache.old.disk).shows → OnOk result ((i : ℕ)
        → bit_under g.now working.now (content_in D.Disk cache.new) i
        ≡ (if i == change.bit then change.used
        else bit_under g.now working.now (content_in D.Disk cache.old) i)) }
    ensures node { IsTrue (D.origin cache.old.disk).shows
        → IsNode g.now (node_of g.now change.bit)
        (content_in D.Disk cache.old (live_place g.now working.now (node_of g.now change.bit)))
        → OnOk result (IsNode g.now (node_of g.now change.bit)
        (content_in D.Disk cache.new (live_place g.now working.now (node_of g.now change.bit)))) }
    ensures sequence { IsTrue (D.origin cache.old.disk).shows → OnOk result (number_at 8 8
        (content_in D.Disk cache.new (live_place g.now working.now (node_of g.now change.bit)))
        ≡ number_at 8 8
        (content_in D.Disk cache.old (live_place g.now working.now (node_of g.now change.bit)))) }
{
    let block = live_block(g, working, node_of_bit(g, change.bit));
    change_bit(cache, block, change.bit % g.node_bits(), change.used)?;
    Ok(())
}

// Gives a node its other place for the next point, with a bit changed there.
fn change_first<D: Disk>(
    g: &Geometry,
    working: &mut [u8],
    block: &mut [u8],
    cache: &mut Cache<D>,
    change: Change,
) -> Result<(), ImapFault>
    requires external { is_inline_of g.now ≡ false }
    requires working { IsRootBits g.now working.old }
    requires block { length block.old ≡ g.now.block_size }
    requires fits { IsFit g.now (D.origin cache.old.disk) }
    requires bit { change.bit < bits_of g.now }
    ensures roots { IsRootBits g.now working.new }
    ensures turned { OnOk result (bit_in 0 working.new (node_of g.now change.bit)
        ≡ not (bit_in 0 working.old (node_of g.now change.bit))) }
    ensures stays { OnOk result ((j : ℕ) → j ≢ node_of g.now change.bit
        → bit_in 0 working.new j ≡ bit_in 0 working.old j) }
    ensures writes { OnOk result
        (OnlyWrites D.Disk (spare_place g.now working.old (node_of g.now change.bit))
        cache.old cache.new) }
    ensures fault { OnErr result (OnlyReads D.Disk cache.old cache.new) }
    ensures unmoved { OnErr result (working.new ≡ working.old) }
    ensures cause { TellsWhy D.Disk (HoldsBit g.now working.old change.bit)
        cache.old cache.new result }
    ensures bits { IsTrue (D.origin cache.old.disk).shows → OnOk result ((i : ℕ)
        → bit_under g.now working.new (content_in D.Disk cache.new) i
        ≡ (if i == change.bit then change.used
        else bit_under g.now working.old (content_in D.Disk cache.old) i)) }
    ensures node { IsTrue (D.origin cache.old.disk).shows
        → IsNode g.now (node_of g.now change.bit)
        (content_in D.Disk cache.old (live_place g.now working.old (node_of g.now change.bit)))
        → OnOk result (IsNode g.now (node_of g.now change.bit)
        (content_in D.Disk cache.new (spare_place g.now working.old (node_of g.now change.bit)))) }
    ensures sequence { IsTrue (D.origin cache.old.disk).shows → OnOk result (number_at 8 8
        (content_in D.Disk cache.new (spare_place g.now working.old (node_of g.now change.bit)))
        ≡ change.sequence) }
{
    let node = node_of_bit(g, change.bit);
    let second = get(working, node);
    let from = g.imap_place(node, second);
    let to = g.imap_place(node, !second);
    let at = Change {
        bit: change.bit % g.node_bits(),
        ..change
    };
    copy_bit(cache, block, from, to, at)?;
    set(working, node, !second);
    Ok(())
}

// Changes a bit of a node in the working list.
fn turn_node<D: Disk>(
    g: &Geometry,
    committed: &[u8],
    working: &mut [u8],
    block: &mut [u8],
    cache: &mut Cache<D>,
    change: Change,
) -> Result<(), ImapFault>
    requires external { is_inline_of g.now ≡ false }
    requires committed { IsRootBits g.now committed.now }
    requires working { IsRootBits g.now working.old }
    requires block { length block.old ≡ g.now.block_size }
    requires fits { IsFit g.now (D.origin cache.old.disk) }
    requires bit { change.bit < bits_of g.now }
    ensures roots { IsRootBits g.now working.new }
    ensures turns { OnOk result (TurnsNode D.Disk g.now committed.now working.old working.new
        change.sequence change.bit change.used cache.old cache.new) }
    ensures fault { OnErr result (OnlyReads D.Disk cache.old cache.new) }
    ensures unmoved { OnErr result (working.new ≡ working.old) }
    ensures cause { TellsWhy D.Disk (HoldsBit g.now working.old change.bit)
        cache.old cache.new result }
{
    let node = node_of_bit(g, change.bit);
    let second = get(committed, node);
    if second == get(working, node) {
        change_first(g, working, block, cache, change)?;
        return Ok(());
    }
    change_again(g, working, cache, change)?;
    Ok(())
}

// Changes a bit of the working list, as whose bytes `working` stands.
pub(crate) fn turn_bit<D: Disk>(
    g: &Geometry,
    committed: &[u8],
    working: &mut [u8],
    block: &mut [u8],
    cache: &mut Cache<D>,
    change: Change,
) -> Result<(), ImapFault>
    requires committed { IsRootBits g.now committed.now }
    requires working { IsRootBits g.now working.old }
    requires block { length block.old ≡ g.now.block_size }
    requires fits { IsFit g.now (D.origin cache.old.disk) }
    requires bit { change.bit < bits_of g.now }
    ensures roots { IsRootBits g.now working.new }
    ensures turns { is_inline_of g.now ≡ false → OnOk result (TurnsNode D.Disk g.now committed.now
        working.old working.new change.sequence change.bit change.used cache.old cache.new) }
    ensures inline { is_inline_of g.now ≡ true → (cache.new ≡ cache.old) × IsOk result }
    ensures bits { IsTrue (D.origin cache.old.disk).shows → OnOk result ((i : ℕ)
        → bit_under g.now working.new (content_in D.Disk cache.new) i
        ≡ (if i == change.bit then change.used
        else bit_under g.now working.old (content_in D.Disk cache.old) i)) }
    ensures fault { OnErr result (OnlyReads D.Disk cache.old cache.new) }
    ensures unmoved { OnErr result (working.new ≡ working.old) }
    ensures cause { TellsWhy D.Disk (HoldsBit g.now working.old change.bit)
        cache.old cache.new result }
{
    if !g.is_inline() {
        return turn_node(g, committed, working, block, cache, change);
    }
    let _within_limits = g.request();
    set(working, change.bit, change.used);
    Ok(())
}

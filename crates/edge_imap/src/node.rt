//! Imap nodes in a cache.
ghost use Rattle.std.specs.Prelude.{◌≡◌, ◌<◌, ◌≤◌, ◌+◌, ◌-◌, ◌*◌, ◌/◌, true, false, length, IfOk, IsOk, OnOk, IsTrue};
ghost use Rattle.edge_base.specs.layout.Bitmap.{live_place, bit_under};
ghost use Rattle.edge_base.specs.layout.Bytes.{bit_in};
ghost use Rattle.edge_base.specs.layout.Places.{imap_nodes_of, is_inline_of, IsWithinLimits};
ghost use Rattle.edge_cache.specs.Calls.{content_in, HasWholeBlocks};
ghost use Rattle.edge_imap.specs.Bitmaps.{IsRootBits, IsFit, IsWindow, HoldsBit, bits_of, node_of};
ghost use Rattle.edge_imap.specs.Reading.{OnlyReads, TellsWhy};

use crate::fault::ImapFault;
use edge_alloc::Window;
use edge_base::{Damage, DamageKind, Geometry};
use edge_bits::get;
use edge_cache::Cache;
use edge_disk::Disk;

// The bits of an imap node begin here.
pub(crate) const BITS: u32 = 16;

// The live node's block of a pair, under the bits of a root.
pub(crate) fn live_block(g: &Geometry, roots: &[u8], node: u32) -> u32
    requires node { node < imap_nodes_of g.now }
    requires roots { IsRootBits g.now roots.now }
    ensures place { result ≡ live_place g.now roots.now node }
    ensures in_range { result < g.now.blocks }
{
    prove!(node < g.imap_nodes());
    let _within_limits = g.request();
    g.imap_place(node, get(roots, node))
}

// The node that has a bit.
pub(crate) fn node_of_bit(g: &Geometry, bit: u32) -> u32
    requires external { is_inline_of g.now ≡ false }
    requires bit { bit < bits_of g.now }
    ensures node { result ≡ node_of g.now bit }
    ensures in_range { result < imap_nodes_of g.now }
    ensures fits { imap_nodes_of g.now ≤ 8 * (g.now.block_size - 32) }
    ensures limits { IsWithinLimits g.now }
{
    let _within_limits = g.request();
    let _count = g.imap_nodes();
    bit / g.node_bits()
}

// The bits of a node that stand for allocable blocks. Before them lie those of the inode table.
pub(crate) fn window_of(g: &Geometry, node: u32) -> Window
    requires node { node < imap_nodes_of g.now }
    ensures { IsWindow g.now node result.first result.len }
{
    prove!(node < g.imap_nodes());
    let table = 2 * g.request().inodes;
    let bits = g.bits_of_node(node);
    let first = bits.min(table.saturating_sub(node * g.node_bits()));
    Window {
        first,
        len: bits - first,
    }
}

// Answers Damaged where a block's check word differs.
pub(crate) fn check_word<D: Disk>(cache: &mut Cache<D>, block: u32) -> Result<(), ImapFault>
    requires in_range { block < (D.origin cache.old.disk).blocks }
    ensures reads { OnlyReads D.Disk cache.old cache.new }
    ensures cause { TellsWhy D.Disk (λ k. k ≡ block) cache.old cache.new result }
    ensures whole { HasWholeBlocks D.Disk cache.old }
{
    if cache.word_holds(block)? {
        return Ok(());
    }
    Err(ImapFault::Damaged(Damage {
        block,
        kind: DamageKind::WrongWord,
    }))
}

// A bit of the node of a block.
pub(crate) fn bit_of_node<D: Disk>(
    cache: &mut Cache<D>,
    block: u32,
    at: u32,
) -> Result<bool, ImapFault>
    requires in_range { block < (D.origin cache.old.disk).blocks }
    requires inside { 16 + at / 8 < (D.origin cache.old.disk).block_size }
    ensures bit { IsTrue (D.origin cache.old.disk).shows
        → IfOk result (λ v. v ≡ bit_in 16 (content_in D.Disk cache.old block) at) }
    ensures reads { OnlyReads D.Disk cache.old cache.new }
    ensures cause { TellsWhy D.Disk (λ k. k ≡ block) cache.old cache.new result }
{
    check_word(cache, block)?;
    let mut byte = [0u8; 1];
    cache.read(block, BITS + at / 8, &mut byte)?;
    Ok(get(&byte, at % 8))
}

// Reads the node of a block whole.
pub(crate) fn read_node<D: Disk>(
    cache: &mut Cache<D>,
    block: u32,
    out: &mut [u8],
) -> Result<(), ImapFault>
    requires in_range { block < (D.origin cache.old.disk).blocks }
    requires whole { length out.old ≡ (D.origin cache.old.disk).block_size }
    ensures bytes { IsTrue (D.origin cache.old.disk).shows
        → OnOk result (out.new ≡ content_in D.Disk cache.old block) }
    ensures reads { OnlyReads D.Disk cache.old cache.new }
    ensures cause { TellsWhy D.Disk (λ k. k ≡ block) cache.old cache.new result }
{
    check_word(cache, block)?;
    cache.read(block, 0, out)?;
    Ok(())
}

// A bit under the bits of a root.
pub(crate) fn bit_of<D: Disk>(
    g: &Geometry,
    roots: &[u8],
    cache: &mut Cache<D>,
    bit: u32,
) -> Result<bool, ImapFault>
    requires roots { IsRootBits g.now roots.now }
    requires fits { IsFit g.now (D.origin cache.old.disk) }
    requires bit { bit < bits_of g.now }
    ensures bit { IsTrue (D.origin cache.old.disk).shows → IfOk result
        (λ v. v ≡ bit_under g.now roots.now (content_in D.Disk cache.old) bit) }
    ensures inline { is_inline_of g.now ≡ true → (cache.new ≡ cache.old) × IsOk result }
    ensures reads { OnlyReads D.Disk cache.old cache.new }
    ensures cause { TellsWhy D.Disk (HoldsBit g.now roots.now bit) cache.old cache.new result }
{
    if g.is_inline() {
        let _within_limits = g.request();
        return Ok(get(roots, bit));
    }
    let block = live_block(g, roots, node_of_bit(g, bit));
    let used = bit_of_node(cache, block, bit % g.node_bits())?;
    Ok(used)
}

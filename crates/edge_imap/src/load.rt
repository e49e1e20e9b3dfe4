//! Reading the live nodes: each has to spell its node, and what it leaves free is counted.
ghost use Rattle.std.specs.Prelude.{◌≡◌, ◌≢◌, ◌<◌, ◌*◌, ◌-◌, min, drop, count_by, true, false, length, OnOk, IfOk, IsTrue};
ghost use Rattle.std.specs.List.{range_with_len};
ghost use Rattle.edge_base.specs.layout.Bitmap.{live_place, bit_under, used_under};
ghost use Rattle.edge_base.specs.layout.Bytes.{bit_in};
ghost use Rattle.edge_base.specs.layout.Places.{is_inline_of, imap_nodes_of};
ghost use Rattle.edge_cache.specs.Calls.{content_in};
ghost use Rattle.edge_base.specs.layout.Sizes.{node_bits};
ghost use Rattle.edge_imap.specs.Bitmaps.{IsRootBits, IsFit, IsNode, HasNodes, count_clear, count_in_node, first_bit};
ghost use Rattle.edge_imap.specs.Inodes.{free_inodes_of, is_clear_pair};
ghost use Rattle.edge_imap.specs.Reading.{OnlyReads, TellsLoad, TellsNode};

use crate::fault::LoadFault;
use crate::node::{BITS, live_block, window_of};
use crate::pairs::count_clear_pairs;
use edge_alloc::{Window, counts_in};
use edge_base::Geometry;
use edge_cache::Cache;
use edge_disk::Disk;
use edge_nodes::{bits_of, decode_imap};

/// What a bitmap leaves free: allocable blocks, and numbers of inodes.
#[derive(Clone, Copy)]
pub(crate) struct Tally {
    pub blocks: u32,
    pub numbers: u32,
}

// Reads the live node of a pair, and answers Node where it spells none.
fn load_node<D: Disk>(
    g: &Geometry,
    roots: &[u8],
    cache: &mut Cache<D>,
    block: &mut [u8],
    node: u32,
) -> Result<(), LoadFault>
    requires roots { IsRootBits g.now roots.now }
    requires fits { IsFit g.now (D.origin cache.old.disk) }
    requires block { length block.old ≡ g.now.block_size }
    requires node { node < imap_nodes_of g.now }
    ensures bytes { IsTrue (D.origin cache.old.disk).shows → OnOk result
        (block.new ≡ content_in D.Disk cache.old (live_place g.now roots.now node)) }
    ensures node { OnOk result (IsNode g.now node block.new) }
    ensures reads { OnlyReads D.Disk cache.old cache.new }
    ensures cause { TellsNode D.Disk node
        (content_in D.Disk cache.old (live_place g.now roots.now node)) g.now
        cache.old cache.new result }
{
    let place = live_block(g, roots, node);
    cache.read(place, 0, block)?;
    if decode_imap(g, node, block).is_err() {
        return Err(LoadFault::Node(node));
    }
    Ok(())
}

// The clear bits of a node, of those that stand for allocable blocks.
fn count_node(g: &Geometry, block: &[u8], node: u32) -> u32
    requires block { length block.now ≡ g.now.block_size }
    requires node { node < imap_nodes_of g.now }
    ensures { result ≡ count_in_node g.now node block.now }
{
    let _within_limits = g.request();
    let bits = bits_of(block, BITS);
    counts_in(bits, bits, window_of(g, node)).free
}

// The pairs of clear bits of a node, of those of the inode table.
fn count_pairs(g: &Geometry, block: &[u8], node: u32) -> u32
    requires block { length block.now ≡ g.now.block_size }
    requires node { node < imap_nodes_of g.now }
    ensures { result ≡ count_by (is_clear_pair (drop 16 block.now)) (range_with_len 0
        (min (node_bits g.now.block_size) (first_bit g.now - node * node_bits g.now.block_size))) }
{
    let _within_limits = g.request();
    count_clear_pairs(bits_of(block, BITS), window_of(g, node).first)
}

// Reads all live nodes, and counts what they leave free.
fn load_nodes<D: Disk>(
    g: &Geometry,
    roots: &[u8],
    cache: &mut Cache<D>,
    block: &mut [u8],
) -> Result<Tally, LoadFault>
    requires external { is_inline_of g.now ≡ false }
    requires roots { IsRootBits g.now roots.now }
    requires fits { IsFit g.now (D.origin cache.old.disk) }
    requires block { length block.old ≡ g.now.block_size }
    ensures nodes { IsTrue (D.origin cache.old.disk).shows → OnOk result
        (HasNodes g.now roots.now (content_in D.Disk cache.old)) }
    ensures count { IsTrue (D.origin cache.old.disk).shows → IfOk result
        (λ t. t.blocks
        ≡ count_clear g.now (bit_under g.now roots.now (content_in D.Disk cache.old))) }
    ensures numbers { IsTrue (D.origin cache.old.disk).shows → IfOk result (λ t. t.numbers
        ≡ free_inodes_of g.now (used_under g.now roots.now (content_in D.Disk cache.old))) }
    ensures reads { OnlyReads D.Disk cache.old cache.new }
    ensures memory { result ≢ Err LoadFault.Memory }
    ensures cause { TellsLoad D.Disk g.now roots.now cache.old cache.new result }
{
    let _within_limits = g.request();
    let mut blocks = 0u32;
    let mut numbers = 0u32;
    for node in 0..g.imap_nodes() {
        load_node(g, roots, cache, block, node)?;
        blocks = blocks.saturating_add(count_node(g, block, node));
        numbers = numbers.saturating_add(count_pairs(g, block, node));
    }
    Ok(Tally { blocks, numbers })
}

// What a metaroot's bitmap leaves free.
fn count_roots(g: &Geometry, roots: &[u8]) -> Tally
    requires inline { is_inline_of g.now ≡ true }
    requires roots { IsRootBits g.now roots.now }
    ensures blocks { result.blocks ≡ count_clear g.now (bit_in 0 roots.now) }
    ensures pairs { result.numbers
        ≡ count_by (is_clear_pair roots.now) (range_with_len 0 (first_bit g.now)) }
{
    let w = Window {
        first: 2 * g.request().inodes,
        len: g.allocable(),
    };
    Tally {
        blocks: counts_in(roots, roots, w).free,
        numbers: count_clear_pairs(roots, w.first),
    }
}

// Reads what lies below the bits of a root, and counts what it leaves free.
pub(crate) fn load_roots<D: Disk>(
    g: &Geometry,
    roots: &[u8],
    cache: &mut Cache<D>,
    block: &mut [u8],
) -> Result<Tally, LoadFault>
    requires roots { IsRootBits g.now roots.now }
    requires fits { IsFit g.now (D.origin cache.old.disk) }
    requires block { length block.old ≡ g.now.block_size }
    ensures nodes { IsTrue (D.origin cache.old.disk).shows → OnOk result
        (HasNodes g.now roots.now (content_in D.Disk cache.old)) }
    ensures count { IsTrue (D.origin cache.old.disk).shows → IfOk result
        (λ t. t.blocks
        ≡ count_clear g.now (bit_under g.now roots.now (content_in D.Disk cache.old))) }
    ensures numbers { IsTrue (D.origin cache.old.disk).shows → IfOk result (λ t. t.numbers
        ≡ free_inodes_of g.now (used_under g.now roots.now (content_in D.Disk cache.old))) }
    ensures reads { OnlyReads D.Disk cache.old cache.new }
    ensures memory { result ≢ Err LoadFault.Memory }
    ensures cause { TellsLoad D.Disk g.now roots.now cache.old cache.new result }
{
    if !g.is_inline() {
        return load_nodes(g, roots, cache, block);
    }
    Ok(count_roots(g, roots))
}

//! Numbers of inodes that the working list leaves free. The bitmap begins with the bits of their
//! places, two for each number, so a free one is a pair of clear bits.
ghost use Rattle.std.specs.Prelude.{◌≡◌, ◌<◌, ◌≤◌, ◌+◌, ◌-◌, ◌*◌, true, false, min, length, IfOk, IfSome, OnOk, IsTrue};
ghost use Rattle.edge_base.specs.layout.Bitmap.{used_under};
ghost use Rattle.edge_base.specs.layout.Places.{is_inline_of, imap_nodes_of};
ghost use Rattle.edge_base.specs.layout.Sizes.{node_bits};
ghost use Rattle.edge_cache.specs.Calls.{content_in};
ghost use Rattle.edge_imap.specs.Bitmaps.{IsRootBits, IsFit, IsLive, first_bit};
ghost use Rattle.edge_imap.specs.Inodes.{HasTable, is_free_number, is_pair_under};
ghost use Rattle.edge_imap.specs.Reading.{OnlyReads, TellsWhy};
ghost use Rattle.edge_imap.specs.Search.{FindsLeast, IsWithin};

use crate::fault::ImapFault;
use crate::node::{BITS, live_block, read_node, window_of};
use crate::pairs::first_clear_pair;
use edge_base::Geometry;
use edge_cache::Cache;
use edge_disk::Disk;
use edge_nodes::bits_of;

// How many nodes have bits of the inode table.
fn table_nodes(g: &Geometry) -> u32
    requires external { is_inline_of g.now ≡ false }
    ensures enough { first_bit g.now ≤ result * node_bits g.now.block_size }
    ensures in_range { result ≤ imap_nodes_of g.now }
{
    let first = 2 * g.request().inodes;
    first.div_ceil(g.node_bits())
}

// Reads a node, and answers how many of its bits, from the first on, are of the inode table.
fn read_table<D: Disk>(
    g: &Geometry,
    roots: &[u8],
    cache: &mut Cache<D>,
    block: &mut [u8],
    node: u32,
) -> Result<u32, ImapFault>
    requires external { is_inline_of g.now ≡ false }
    requires roots { IsRootBits g.now roots.now }
    requires fits { IsFit g.now (D.origin cache.old.disk) }
    requires block { length block.old ≡ g.now.block_size }
    requires node { node < imap_nodes_of g.now }
    ensures bits { IfOk result (λ n. n ≡ min (node_bits g.now.block_size)
        (first_bit g.now - node * node_bits g.now.block_size)) }
    ensures pairs { IsTrue (D.origin cache.old.disk).shows → OnOk result
        (HasTable g.now roots.now (content_in D.Disk cache.old) node block.new) }
    ensures reads { OnlyReads D.Disk cache.old cache.new }
    ensures cause { TellsWhy D.Disk (IsLive g.now roots.now) cache.old cache.new result }
{
    let place = live_block(g, roots, node);
    read_node(cache, place, block)?;
    let _within_limits = g.request();
    Ok(window_of(g, node).first)
}

// The even bit of the first pair of clear bits of the inode table, in imap nodes.
fn first_in_nodes<D: Disk>(
    g: &Geometry,
    roots: &[u8],
    cache: &mut Cache<D>,
    block: &mut [u8],
) -> Result<Option<u32>, ImapFault>
    requires external { is_inline_of g.now ≡ false }
    requires roots { IsRootBits g.now roots.now }
    requires fits { IsFit g.now (D.origin cache.old.disk) }
    requires block { length block.old ≡ g.now.block_size }
    ensures found { IsTrue (D.origin cache.old.disk).shows → IfOk result
        (FindsLeast (is_pair_under g.now roots.now (content_in D.Disk cache.old))
        0 (first_bit g.now)) }
    ensures bound { IfOk result (λ found. IfSome found (λ i. i < first_bit g.now)) }
    ensures reads { OnlyReads D.Disk cache.old cache.new }
    ensures cause { TellsWhy D.Disk (IsLive g.now roots.now) cache.old cache.new result }
{
    let _within_limits = g.request();
    let per_node = g.node_bits();
    for node in 0..table_nodes(g) {
        let end = read_table(g, roots, cache, block, node)?;
        if let Some(i) = first_clear_pair(bits_of(block, BITS), end) {
            return Ok(Some(node * per_node + i));
        }
    }
    Ok(None)
}

// The even bit of the first pair of clear bits of the inode table.
fn first_pair<D: Disk>(
    g: &Geometry,
    roots: &[u8],
    cache: &mut Cache<D>,
    block: &mut [u8],
) -> Result<Option<u32>, ImapFault>
    requires roots { IsRootBits g.now roots.now }
    requires fits { IsFit g.now (D.origin cache.old.disk) }
    requires block { length block.old ≡ g.now.block_size }
    ensures found { IsTrue (D.origin cache.old.disk).shows → IfOk result
        (FindsLeast (is_pair_under g.now roots.now (content_in D.Disk cache.old))
        0 (first_bit g.now)) }
    ensures bound { IfOk result (λ found. IfSome found (λ i. i < first_bit g.now)) }
    ensures reads { OnlyReads D.Disk cache.old cache.new }
    ensures cause { TellsWhy D.Disk (IsLive g.now roots.now) cache.old cache.new result }
{
    if !g.is_inline() {
        return first_in_nodes(g, roots, cache, block);
    }
    Ok(first_clear_pair(roots, 2 * g.request().inodes))
}

// The least number of an inode of which neither place is used under the bits of a root.
pub(crate) fn first_number<D: Disk>(
    g: &Geometry,
    roots: &[u8],
    cache: &mut Cache<D>,
    block: &mut [u8],
) -> Result<Option<u32>, ImapFault>
    requires roots { IsRootBits g.now roots.now }
    requires fits { IsFit g.now (D.origin cache.old.disk) }
    requires block { length block.old ≡ g.now.block_size }
    ensures found { IsTrue (D.origin cache.old.disk).shows → IfOk result (FindsLeast
        (is_free_number g.now (used_under g.now roots.now (content_in D.Disk cache.old)))
        2 (2 + g.now.inodes)) }
    ensures bound { IfOk result (λ found. IfSome found (IsWithin 2 (2 + g.now.inodes))) }
    ensures reads { OnlyReads D.Disk cache.old cache.new }
    ensures cause { TellsWhy D.Disk (IsLive g.now roots.now) cache.old cache.new result }
{
    match first_pair(g, roots, cache, block)? {
        Some(i) => Ok(Some(2 + i / 2)),
        None => Ok(None),
    }
}

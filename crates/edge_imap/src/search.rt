//! The search for a free bit, by words of the bitmaps. No node is read twice.
ghost use Rattle.std.specs.Prelude.{◌≡◌, ◌⊎◌, ◌<◌, ◌≤◌, ◌+◌, ◌-◌, ◌*◌, ◌^◌, true, false, min, max, length, IfOk, IfSome, IsTrue};
ghost use Rattle.edge_alloc.specs.Pairs.{is_free};
ghost use Rattle.edge_base.specs.layout.Places.{is_inline_of, imap_nodes_of};
ghost use Rattle.edge_base.specs.layout.Sizes.{node_bits};
ghost use Rattle.edge_cache.specs.Calls.{content_in};
ghost use Rattle.edge_imap.specs.Bitmaps.{IsRootBits, IsFit, IsLiveUnder, bits_of, first_bit, is_free_under, node_of};
ghost use Rattle.edge_imap.specs.Reading.{OnlyReads, TellsWhy};
ghost use Rattle.edge_imap.specs.Search.{Finds, FindsLeast, IsWithin, is_clear_in, reaches};

use crate::fault::ImapFault;
use crate::node::{BITS, live_block, node_of_bit, read_node, window_of};
use edge_alloc::{Window, free_in};
use edge_base::Geometry;
use edge_cache::Cache;
use edge_disk::Disk;
use edge_nodes::bits_of;
use std::ops::Range;

// The next bit of a window that is clear in both bitmaps, from one on and round.
fn next_in(committed: &[u8], working: &[u8], w: Window, from: u32) -> Option<u32>
    requires small { w.first + w.len < 2 ^ 32 }
    requires committed { w.first + w.len ≤ 8 * length committed.now }
    requires working { w.first + w.len ≤ 8 * length working.now }
    ensures { Finds (is_free committed.now working.now) w.first (w.first + w.len) from result }
{
    match free_in(committed, working, w, from) {
        Some(i) => Some(i),
        None => free_in(committed, working, w, w.first),
    }
}

// The same of two nodes, which may lie in one block. `one` and `two` are room for them.
fn next_of_pair<D: Disk>(
    cache: &mut Cache<D>,
    one: &mut [u8],
    two: &mut [u8],
    live: u32,
    next: u32,
    w: Window,
    from: u32,
) -> Result<Option<u32>, ImapFault>
    requires live { live < (D.origin cache.old.disk).blocks }
    requires next { next < (D.origin cache.old.disk).blocks }
    requires one { length one.old ≡ (D.origin cache.old.disk).block_size }
    requires two { length two.old ≡ (D.origin cache.old.disk).block_size }
    requires most { (D.origin cache.old.disk).block_size ≤ 4096 }
    requires inside { w.first + w.len ≤ 8 * ((D.origin cache.old.disk).block_size - 16) }
    ensures found { IsTrue (D.origin cache.old.disk).shows → IfOk result
        (Finds (is_clear_in (content_in D.Disk cache.old live) (content_in D.Disk cache.old next))
        w.first (w.first + w.len) from) }
    ensures bound { IfOk result (λ found. IfSome found (IsWithin w.first (w.first + w.len))) }
    ensures reads { OnlyReads D.Disk cache.old cache.new }
    ensures cause { TellsWhy D.Disk (λ k. (k ≡ live) ⊎ (k ≡ next)) cache.old cache.new result }
{
    read_node(cache, live, one)?;
    if next == live {
        let bits = bits_of(one, BITS);
        return Ok(next_in(bits, bits, w, from));
    }
    read_node(cache, next, two)?;
    Ok(next_in(bits_of(one, BITS), bits_of(two, BITS), w, from))
}

// The next free bit of the node that has bit `from`, from that one on and round.
fn search_node<D: Disk>(
    g: &Geometry,
    committed: &[u8],
    working: &[u8],
    cache: &mut Cache<D>,
    one: &mut [u8],
    two: &mut [u8],
    from: u32,
) -> Result<Option<u32>, ImapFault>
    requires external { is_inline_of g.now ≡ false }
    requires committed { IsRootBits g.now committed.now }
    requires working { IsRootBits g.now working.now }
    requires fits { IsFit g.now (D.origin cache.old.disk) }
    requires one { length one.old ≡ g.now.block_size }
    requires two { length two.old ≡ g.now.block_size }
    requires from { node_of g.now from < imap_nodes_of g.now }
    ensures found { IsTrue (D.origin cache.old.disk).shows → IfOk result
        (Finds (is_free_under g.now committed.now working.now (content_in D.Disk cache.old))
        (max (first_bit g.now) (node_of g.now from * node_bits g.now.block_size))
        (min (node_of g.now from * node_bits g.now.block_size + node_bits g.now.block_size)
        (bits_of g.now)) from) }
    ensures bound { IfOk result
        (λ found. IfSome found (IsWithin (first_bit g.now) (bits_of g.now))) }
    ensures reads { OnlyReads D.Disk cache.old cache.new }
    ensures cause { TellsWhy D.Disk (IsLiveUnder g.now committed.now working.now)
        cache.old cache.new result }
{
    let _within_limits = g.request();
    let per_node = g.node_bits();
    let node = from / per_node;
    let start = node * per_node;
    let w = window_of(g, node);
    if w.len == 0 {
        return Ok(None);
    }
    let live = live_block(g, committed, node);
    let next = live_block(g, working, node);
    match next_of_pair(cache, one, two, live, next, w, from - start)? {
        Some(i) => Ok(Some(start + i)),
        None => Ok(None),
    }
}

// The least free bit of some nodes.
fn search_nodes<D: Disk>(
    g: &Geometry,
    committed: &[u8],
    working: &[u8],
    cache: &mut Cache<D>,
    one: &mut [u8],
    two: &mut [u8],
    nodes: Range<u32>,
) -> Result<Option<u32>, ImapFault>
    requires external { is_inline_of g.now ≡ false }
    requires committed { IsRootBits g.now committed.now }
    requires working { IsRootBits g.now working.now }
    requires fits { IsFit g.now (D.origin cache.old.disk) }
    requires one { length one.old ≡ g.now.block_size }
    requires two { length two.old ≡ g.now.block_size }
    requires order { nodes.start ≤ nodes.end }
    requires nodes { nodes.end ≤ imap_nodes_of g.now }
    ensures found { IsTrue (D.origin cache.old.disk).shows → IfOk result
        (FindsLeast (is_free_under g.now committed.now working.now (content_in D.Disk cache.old))
        (max (first_bit g.now) (nodes.start * node_bits g.now.block_size))
        (min (nodes.end * node_bits g.now.block_size) (bits_of g.now))) }
    ensures bound { IfOk result
        (λ found. IfSome found (IsWithin (first_bit g.now) (bits_of g.now))) }
    ensures reads { OnlyReads D.Disk cache.old cache.new }
    ensures cause { TellsWhy D.Disk (IsLiveUnder g.now committed.now working.now)
        cache.old cache.new result }
{
    prove!(nodes.end <= g.imap_nodes());
    let _within_limits = g.request();
    let per_node = g.node_bits();
    for node in nodes.start..nodes.end {
        let found = search_node(g, committed, working, cache, one, two, node * per_node)?;
        if found.is_some() {
            return Ok(found);
        }
    }
    Ok(None)
}

// Whether a bit was found, and lies from `from` on.
fn is_from(found: Option<u32>, from: u32) -> bool
    ensures { result ≡ reaches found from }
{
    match found {
        None => false,
        Some(i) => from <= i,
    }
}

// The next free bit of all nodes.
fn search_round<D: Disk>(
    g: &Geometry,
    committed: &[u8],
    working: &[u8],
    cache: &mut Cache<D>,
    one: &mut [u8],
    two: &mut [u8],
    from: u32,
) -> Result<Option<u32>, ImapFault>
    requires external { is_inline_of g.now ≡ false }
    requires committed { IsRootBits g.now committed.now }
    requires working { IsRootBits g.now working.now }
    requires fits { IsFit g.now (D.origin cache.old.disk) }
    requires one { length one.old ≡ g.now.block_size }
    requires two { length two.old ≡ g.now.block_size }
    requires from { from < bits_of g.now }
    ensures found { IsTrue (D.origin cache.old.disk).shows → IfOk result
        (Finds (is_free_under g.now committed.now working.now (content_in D.Disk cache.old))
        (first_bit g.now) (bits_of g.now) from) }
    ensures bound { IfOk result
        (λ found. IfSome found (IsWithin (first_bit g.now) (bits_of g.now))) }
    ensures reads { OnlyReads D.Disk cache.old cache.new }
    ensures cause { TellsWhy D.Disk (IsLiveUnder g.now committed.now working.now)
        cache.old cache.new result }
{
    let node = node_of_bit(g, from);
    let here = search_node(g, committed, working, cache, one, two, from)?;
    if is_from(here, from) {
        return Ok(here);
    }
    let end = g.imap_nodes();
    let after = search_nodes(g, committed, working, cache, one, two, node + 1..end)?;
    if after.is_some() {
        return Ok(after);
    }
    let before = search_nodes(g, committed, working, cache, one, two, 0..node)?;
    if before.is_some() {
        return Ok(before);
    }
    Ok(here)
}

// The next free bit.
pub(crate) fn next_bit<D: Disk>(
    g: &Geometry,
    committed: &[u8],
    working: &[u8],
    cache: &mut Cache<D>,
    one: &mut [u8],
    two: &mut [u8],
    from: u32,
) -> Result<Option<u32>, ImapFault>
    requires committed { IsRootBits g.now committed.now }
    requires working { IsRootBits g.now working.now }
    requires fits { IsFit g.now (D.origin cache.old.disk) }
    requires one { length one.old ≡ g.now.block_size }
    requires two { length two.old ≡ g.now.block_size }
    requires from { from < bits_of g.now }
    ensures found { IsTrue (D.origin cache.old.disk).shows → IfOk result
        (Finds (is_free_under g.now committed.now working.now (content_in D.Disk cache.old))
        (first_bit g.now) (bits_of g.now) from) }
    ensures bound { IfOk result
        (λ found. IfSome found (IsWithin (first_bit g.now) (bits_of g.now))) }
    ensures reads { OnlyReads D.Disk cache.old cache.new }
    ensures cause { TellsWhy D.Disk (IsLiveUnder g.now committed.now working.now)
        cache.old cache.new result }
{
    if !g.is_inline() {
        return search_round(g, committed, working, cache, one, two, from);
    }
    Ok(next_of_roots(g, committed, working, from))
}

// The next free bit of two bitmaps in metaroots.
fn next_of_roots(g: &Geometry, committed: &[u8], working: &[u8], from: u32) -> Option<u32>
    requires inline { is_inline_of g.now ≡ true }
    requires committed { IsRootBits g.now committed.now }
    requires working { IsRootBits g.now working.now }
    ensures { Finds (is_free committed.now working.now) (first_bit g.now) (bits_of g.now) from
        result }
{
    let w = Window {
        first: 2 * g.request().inodes,
        len: g.allocable(),
    };
    next_in(committed, working, w, from)
}

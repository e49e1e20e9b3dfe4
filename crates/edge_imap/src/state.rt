//! The state of a bit in both lists, and changes of the working one with the counts.
ghost use Rattle.std.specs.Prelude.{◌≡◌, ◌⊎◌, ◌<◌, ◌≤◌, true, length, IfOk, IsOk, OnOk, OnErr, IsTrue};
ghost use Rattle.edge_base.specs.layout.Bitmap.{bit_under};
ghost use Rattle.edge_base.specs.layout.Places.{is_inline_of, IsWithinLimits};
ghost use Rattle.edge_cache.specs.Calls.{content_in};
ghost use Rattle.edge_imap.specs.Bitmaps.{IsRootBits, IsFit, HoldsBitUnder, IsTied, bitmaps, bits_of, first_bit, state_of, counts_after};
ghost use Rattle.edge_imap.specs.Reading.{OnlyReads, TellsWhy, Sets};

use crate::change::{Change, turn_bit};
use crate::fault::{BlockState, ImapFault};
use crate::node::bit_of;
use edge_alloc::Counts;
use edge_base::Geometry;
use edge_cache::Cache;
use edge_disk::Disk;

// The state of a block, by whether each list uses it.
pub(crate) fn state_of_bit<D: Disk>(
    g: &Geometry,
    committed: &[u8],
    working: &[u8],
    cache: &mut Cache<D>,
    bit: u32,
) -> Result<BlockState, ImapFault>
    requires committed { IsRootBits g.now committed.now }
    requires working { IsRootBits g.now working.now }
    requires fits { IsFit g.now (D.origin cache.old.disk) }
    requires bit { bit < bits_of g.now }
    ensures state { IsTrue (D.origin cache.old.disk).shows → IfOk result (λ s. s ≡ state_of
        (bit_under g.now committed.now (content_in D.Disk cache.old) bit)
        (bit_under g.now working.now (content_in D.Disk cache.old) bit)) }
    ensures cause { TellsWhy D.Disk
        (HoldsBitUnder g.now committed.now working.now bit)
        cache.old cache.new result }
    ensures reads { OnlyReads D.Disk cache.old cache.new }
{
    let old = bit_of(g, committed, cache, bit)?;
    let new = bit_of(g, working, cache, bit)?;
    Ok(state_from(old, new))
}

// Changes the working list at a bit, and the counts with it.
pub(crate) fn set_bit<D: Disk>(
    g: &Geometry,
    committed: &[u8],
    working: &mut [u8],
    counts: &mut Counts,
    block: &mut [u8],
    cache: &mut Cache<D>,
    change: Change,
) -> Result<(), ImapFault>
    requires committed { IsRootBits g.now committed.now }
    requires working { IsRootBits g.now working.old }
    requires block { length block.old ≡ g.now.block_size }
    requires fits { IsFit g.now (D.origin cache.old.disk) }
    requires bit { change.bit < bits_of g.now }
    ensures roots { IsRootBits g.now working.new }
    ensures sets { OnOk result (Sets D.Disk change.sequence change.bit change.used
        (bitmaps g.now committed.now working.old counts.old)
        (bitmaps g.now committed.now working.new counts.new) cache.old cache.new) }
    ensures inline { is_inline_of g.now ≡ true → (cache.new ≡ cache.old) × IsOk result }
    ensures idle { IsTrue (D.origin cache.old.disk).shows
        → bit_under g.now working.old (content_in D.Disk cache.old) change.bit ≡ change.used
        → (working.new ≡ working.old) × (counts.new ≡ counts.old)
        × OnlyReads D.Disk cache.old cache.new }
    ensures unset { OnErr result ((working.new ≡ working.old) × (counts.new ≡ counts.old)) }
    ensures fault { OnErr result (OnlyReads D.Disk cache.old cache.new) }
    ensures cause { TellsWhy D.Disk
        (HoldsBitUnder g.now committed.now working.old change.bit)
        cache.old cache.new result }
    ensures tied { IsTrue (D.origin cache.old.disk).shows
        → IsTied (bitmaps g.now committed.now working.old counts.old) (content_in D.Disk cache.old)
        → IsTied (bitmaps g.now committed.now working.new counts.new)
        (content_in D.Disk cache.new) }
{
    let old = bit_of(g, committed, cache, change.bit)?;
    let new = bit_of(g, working, cache, change.bit)?;
    if new == change.used {
        return Ok(());
    }
    turn_bit(g, committed, working, block, cache, change)?;
    *counts = counts_with(g, *counts, change.bit, old, change.used);
    Ok(())
}

// The state of a block, by whether each list uses it.
fn state_from(committed: bool, working: bool) -> BlockState
    ensures { result ≡ state_of committed working }
{
    match (committed, working) {
        (true, true) => BlockState::Used,
        (true, false) => BlockState::AlmostFree,
        (false, true) => BlockState::New,
        (false, false) => BlockState::Free,
    }
}

// The counts after a bit changed in the working list.
fn counts_with(g: &Geometry, counts: Counts, bit: u32, committed: bool, used: bool) -> Counts
    ensures table { bit < first_bit g.now → result ≡ counts }
    ensures changed { first_bit g.now ≤ bit → result ≡ counts_after counts committed used }
    ensures few { g.now.blocks ≤ 4194304 }
    ensures limits { IsWithinLimits g.now }
{
    let _within_limits = g.request();
    if bit < 2 * g.request().inodes {
        return counts;
    }
    let Counts { free, almost } = counts;
    match (committed, used) {
        (true, true) => Counts {
            free,
            almost: almost.saturating_sub(1),
        },
        (true, false) => Counts {
            free,
            almost: almost.saturating_add(1),
        },
        (false, true) => Counts {
            free: free.saturating_sub(1),
            almost,
        },
        (false, false) => Counts {
            free: free.saturating_add(1),
            almost,
        },
    }
}

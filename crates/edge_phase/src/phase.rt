//! The phases of a point: what has changed, a flush, the metaroot, a flush.
ghost use Rattle.std.specs.Prelude.{◌≡◌, ◌<◌, ◌≤◌, ◌+◌, ◌*◌, ℕ, length, false, OnOk, OnErr, IsTrue};
ghost use Rattle.edge_base.specs.layout.Bytes.{bit_in};
ghost use Rattle.edge_base.specs.layout.Places.{root_bits_of};
ghost use Rattle.edge_base.specs.outside.Faults.{HasCause};
ghost use Rattle.edge_cache.specs.Cached.{IsClean};
ghost use Rattle.edge_cache.specs.Calls.{content_in, KeepsContents, KeepsOthers};
ghost use Rattle.edge_disk.specs.State.{EachCut, IsTold, disk_of};
ghost use Rattle.edge_anchor.specs.Anchor.{Anchor, geometry_of, spare_of};
ghost use Rattle.edge_anchor.specs.Medium.{Follows, IsCommitted, medium_of, none_given, one_given, shown_alone};
ghost use Rattle.edge_imap.specs.Bitmaps.{IsFit};
ghost use Rattle.edge_phase.specs.Spared.{block_given};
ghost use Rattle.edge_phase.specs.Phases.{MayCommit, MayFollow, OpensAsEither, Settles, next_of};

use edge_base::{Geometry, Metaroot};
use edge_cache::Cache;
use edge_disk::{DeviceFault, Disk};
use edge_imap::Imap;
use edge_nodes::encode_metaroot;

// Writes all that has changed, and makes it sure.
fn make_sure<D: Disk>(cache: &mut Cache<D>) -> Result<(), DeviceFault>
    ensures origin { D.origin cache.new.disk ≡ D.origin cache.old.disk }
    ensures cause { HasCause (D.faults cache.old.disk) (D.faults cache.new.disk) result }
    ensures follows { Follows none_given (medium_of D.Disk cache.old) (medium_of D.Disk cache.new) }
    ensures contents { KeepsContents D.Disk cache.old cache.new }
    ensures clean { OnOk result (IsClean cache.new.held) }
    ensures sure { IsTrue (D.origin cache.old.disk).keeps → D.faults cache.old.disk ≡ 0
        → OnOk result ((k : ℕ) → D.is_sure cache.new.disk k) }
{
    cache.write_out()?;
    cache.flush()?;
    Ok(())
}

// Writes the metaroot to its place, and makes it sure.
fn turn<D: Disk>(cache: &mut Cache<D>, place: u32, bytes: &[u8]) -> Result<(), DeviceFault>
    requires place { place < (D.origin cache.old.disk).blocks }
    requires whole { length bytes.now ≡ (D.origin cache.old.disk).block_size }
    ensures origin { D.origin cache.new.disk ≡ D.origin cache.old.disk }
    ensures cause { HasCause (D.faults cache.old.disk) (D.faults cache.new.disk) result }
    ensures follows { IsTrue (D.origin cache.old.disk).shows → Follows (one_given place bytes.now)
        (medium_of D.Disk cache.old) (medium_of D.Disk cache.new) }
    ensures others { KeepsOthers D.Disk place cache.old cache.new }
    ensures written { IsTrue (D.origin cache.old.disk).shows
        → OnOk result (D.shown cache.new.disk place ≡ bytes.now) }
    ensures clean { OnOk result (IsClean cache.new.held) }
    ensures sure { IsTrue (D.origin cache.old.disk).keeps → D.faults cache.old.disk ≡ 0
        → OnOk result ((k : ℕ) → D.is_sure cache.new.disk k) }
{
    cache.write(place, 0, bytes, false)?;
    make_sure(cache)?;
    Ok(())
}

/// Takes a point: writes all that has changed, and then this metaroot with these bytes of its
/// bitmap to its place, each made sure by a flush. `block` is room for a block.
///
/// Where the last point was that of an anchor, and this metaroot may follow it, a cut at any moment
/// leaves one of the two.
pub fn take_point<D: Disk>(
    cache: &mut Cache<D>,
    g: &Geometry,
    place: u32,
    root: &Metaroot,
    bits: &[u8],
    block: &mut [u8],
) -> Result<(), DeviceFault>
    requires first { 1 ≤ place }
    requires place { place < 3 }
    requires size { g.now.block_size ≡ (D.origin cache.old.disk).block_size }
    requires fits { g.now.blocks ≤ (D.origin cache.old.disk).blocks }
    requires block { length block.old ≡ g.now.block_size }
    requires bitmap { length bits.now + 32 ≡ g.now.block_size }
    requires unused { (i : ℕ) → root_bits_of g.now ≤ i → i < 8 * length bits.now
        → bit_in 0 bits.now i ≡ false }
    ensures origin { D.origin cache.new.disk ≡ D.origin cache.old.disk }
    ensures cause { HasCause (D.faults cache.old.disk) (D.faults cache.new.disk) result }
    ensures contents { KeepsOthers D.Disk place cache.old cache.new }
    ensures follows { IsTrue (D.origin cache.old.disk).shows → Follows (block_given place)
        (medium_of D.Disk cache.old) (medium_of D.Disk cache.new) }
    ensures clean { OnOk result (IsClean cache.new.held) }

    // What a cut leaves, whatever is answered, and what stands after Ok.
    ensures cut { (a : Anchor) → geometry_of a ≡ g.now → spare_of a ≡ place
        → MayFollow D.Disk a root.now bits.now cache.old
        → IsTold (disk_of D.Disk cache.old.disk) → IsCommitted a (medium_of D.Disk cache.old)
        → EachCut (disk_of D.Disk cache.new.disk)
        (OpensAsEither a (next_of a root.now bits.now (content_in D.Disk cache.old))
        (content_in D.Disk cache.old)) }
    ensures committed { (a : Anchor) → geometry_of a ≡ g.now → spare_of a ≡ place
        → MayFollow D.Disk a root.now bits.now cache.old
        → IsTold (disk_of D.Disk cache.old.disk) → IsCommitted a (medium_of D.Disk cache.old)
        → OnOk result (IsCommitted (next_of a root.now bits.now (content_in D.Disk cache.old))
        (medium_of D.Disk cache.new)) }
    ensures shown { (a : Anchor) → geometry_of a ≡ g.now → spare_of a ≡ place
        → MayFollow D.Disk a root.now bits.now cache.old
        → IsTrue (D.origin cache.old.disk).shows
        → IsCommitted a (shown_alone (medium_of D.Disk cache.old))
        → OnOk result (IsCommitted (next_of a root.now bits.now (content_in D.Disk cache.old))
        (shown_alone (medium_of D.Disk cache.new))) }
{
    let _within_limits = g.request();
    make_sure(cache)?;
    encode_metaroot(g, root, bits, block);
    turn(cache, place, block)?;
    Ok(())
}

/// Takes a point of a cache and its bitmap, with this metaroot. After Ok the working list is that
/// of the last point. `block` is room for a block.
pub fn commit<D: Disk>(
    cache: &mut Cache<D>,
    imap: &mut Imap,
    g: &Geometry,
    place: u32,
    root: &Metaroot,
    block: &mut [u8],
) -> Result<(), DeviceFault>
    requires first { 1 ≤ place }
    requires place { place < 3 }
    requires geometry { imap.old.geometry ≡ g.now }
    requires fits { IsFit g.now (D.origin cache.old.disk) }
    requires block { length block.old ≡ g.now.block_size }
    ensures origin { D.origin cache.new.disk ≡ D.origin cache.old.disk }
    ensures cause { HasCause (D.faults cache.old.disk) (D.faults cache.new.disk) result }
    ensures contents { KeepsOthers D.Disk place cache.old cache.new }
    ensures follows { IsTrue (D.origin cache.old.disk).shows → Follows (block_given place)
        (medium_of D.Disk cache.old) (medium_of D.Disk cache.new) }
    ensures clean { OnOk result (IsClean cache.new.held) }
    ensures settles { OnOk result (Settles imap.old imap.new) }
    ensures unsettled { OnErr result (imap.new ≡ imap.old) }

    // What a cut leaves, whatever is answered, and what stands after Ok.
    ensures cut { (a : Anchor) → MayCommit D.Disk a place root.now imap.old cache.old
        → IsTold (disk_of D.Disk cache.old.disk) → IsCommitted a (medium_of D.Disk cache.old)
        → EachCut (disk_of D.Disk cache.new.disk)
        (OpensAsEither a (next_of a root.now imap.old.working (content_in D.Disk cache.old))
        (content_in D.Disk cache.old)) }
    ensures committed { (a : Anchor) → MayCommit D.Disk a place root.now imap.old cache.old
        → IsTold (disk_of D.Disk cache.old.disk) → IsCommitted a (medium_of D.Disk cache.old)
        → OnOk result (IsCommitted
        (next_of a root.now imap.old.working (content_in D.Disk cache.old))
        (medium_of D.Disk cache.new)) }
    ensures shown { (a : Anchor) → MayCommit D.Disk a place root.now imap.old cache.old
        → IsTrue (D.origin cache.old.disk).shows
        → IsCommitted a (shown_alone (medium_of D.Disk cache.old))
        → OnOk result (IsCommitted
        (next_of a root.now imap.old.working (content_in D.Disk cache.old))
        (shown_alone (medium_of D.Disk cache.new))) }
{
    take_point(cache, g, place, root, imap.root_bits(), block)?;
    imap.settle();
    Ok(())
}

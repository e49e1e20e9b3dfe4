ghost use Rattle.std.specs.Prelude.{◌≡◌, ◌≢◌, ◌<◌, ℕ, List, Some, false, not};
ghost use Rattle.edge_base.specs.declared.node.Master.{Master};
ghost use Rattle.edge_base.specs.layout.Bytes.{bit_in};
ghost use Rattle.edge_base.specs.layout.Places.{imap_nodes_of, imap_place_of};
ghost use Rattle.edge_cache.specs.Cached.{Cached, IsClean};
ghost use Rattle.edge_cache.specs.Calls.{Gives, OnlyChanges};
ghost use Rattle.edge_cache.specs.Given.{waiting};
ghost use Rattle.edge_disk.specs.Disk.{Origin};
ghost use Rattle.edge_disk.specs.State.{disk_of, shown_by};
ghost use Rattle.edge_image.specs.Image.{Live};
ghost use Rattle.edge_image.specs.Ready.{IsMountable};
ghost use Rattle.edge_anchor.specs.Anchor.{Anchor, HangsOn, HasBit, IsNext, IsOn, IsRoot, Loses, Needs, anchor_in, geometry_of, spare_of};
ghost use Rattle.edge_anchor.specs.Medium.{Follows, IsCommitted, IsTurning, medium_of, none_given, one_given, shown_alone};

use edge_disk::Disk;

/// Calls of a cache that change no content give nothing, nor does a flush. A write gives its block
/// what waits for it then.
pub fn calls_follow<D: Disk>()
    ensures gives { (old new : Cached D) → Gives D.Disk old new
        → Follows none_given (medium_of D.Disk old) (medium_of D.Disk new) }
    ensures changes { (old new : Cached D) (b : ℕ) (bytes : List ℕ) → OnlyChanges D.Disk b old new
        → waiting new.held b ≡ Some bytes
        → Follows (one_given b bytes) (medium_of D.Disk old) (medium_of D.Disk new) }
    ensures flush { (old new : Cached D)
        → new.held ≡ old.held → D.shown new.disk ≡ D.shown old.disk
        → ((k : ℕ) (c : List ℕ) → D.may_hold new.disk k c → D.may_hold old.disk k c)
        → ((k : ℕ) → D.is_sure old.disk k → D.is_sure new.disk k)
        → Follows none_given (medium_of D.Disk old) (medium_of D.Disk new) }
{}

/// Calls that give nothing keep what a point keeps, whatever they write; and so do those that give
/// bytes to a block which is not needed. The spare metaroot may be given bytes that lose, and
/// inside a point those of the next one.
pub fn what_follows_keeps_points<D: Disk>()
    ensures committed { (old new : Cached D) (a : Anchor)
        → Follows none_given (medium_of D.Disk old) (medium_of D.Disk new)
        → IsCommitted a (medium_of D.Disk old) → IsCommitted a (medium_of D.Disk new) }
    ensures given { (old new : Cached D) (a : Anchor) (b : ℕ) (bytes : List ℕ)
        → Follows (one_given b bytes) (medium_of D.Disk old) (medium_of D.Disk new)
        → (Needs a b → ⊥) → (b ≡ spare_of a → Loses a bytes)
        → IsCommitted a (medium_of D.Disk old) → IsCommitted a (medium_of D.Disk new) }
    ensures turning { (old new : Cached D) (a b : Anchor)
        → Follows none_given (medium_of D.Disk old) (medium_of D.Disk new)
        → IsTurning a b (medium_of D.Disk old) → IsTurning a b (medium_of D.Disk new) }
    ensures turned { (old new : Cached D) (a b : Anchor) (bytes : List ℕ)
        → IsOn (D.origin old.disk) a → IsRoot b bytes
        → Follows (one_given (spare_of a) bytes) (medium_of D.Disk old) (medium_of D.Disk new)
        → IsTurning a b (medium_of D.Disk old) → IsTurning a b (medium_of D.Disk new) }
{}

/// The same of what is shown, which asks for no candidates.
pub fn what_follows_keeps_the_shown_point<D: Disk>()
    ensures committed { (old new : Cached D) (a : Anchor)
        → Follows none_given (medium_of D.Disk old) (medium_of D.Disk new)
        → IsCommitted a (shown_alone (medium_of D.Disk old))
        → IsCommitted a (shown_alone (medium_of D.Disk new)) }
    ensures given { (old new : Cached D) (a : Anchor) (b : ℕ) (bytes : List ℕ)
        → Follows (one_given b bytes) (medium_of D.Disk old) (medium_of D.Disk new)
        → (Needs a b → ⊥) → (b ≡ spare_of a → Loses a bytes)
        → IsCommitted a (shown_alone (medium_of D.Disk old))
        → IsCommitted a (shown_alone (medium_of D.Disk new)) }
    ensures turning { (old new : Cached D) (a b : Anchor)
        → Follows none_given (medium_of D.Disk old) (medium_of D.Disk new)
        → IsTurning a b (shown_alone (medium_of D.Disk old))
        → IsTurning a b (shown_alone (medium_of D.Disk new)) }
    ensures turned { (old new : Cached D) (a b : Anchor) (bytes : List ℕ)
        → IsOn (D.origin old.disk) a → IsRoot b bytes
        → Follows (one_given (spare_of a) bytes) (medium_of D.Disk old) (medium_of D.Disk new)
        → IsTurning a b (shown_alone (medium_of D.Disk old))
        → IsTurning a b (shown_alone (medium_of D.Disk new)) }
{}

/// A block that is not used, and the place of an imap node that is not live, are needed by no
/// anchor, and are not the spare metaroot's. So they may be given any bytes.
pub fn free_places_are_not_needed()
    ensures unused { (origin : Origin) (a : Anchor) (b : ℕ) → IsOn origin a
        → HasBit (geometry_of a) b → a.used b ≡ false
        → (Needs a b → ⊥) × (b ≢ spare_of a) }
    ensures not_live { (origin : Origin) (a : Anchor) (i : ℕ) → IsOn origin a
        → i < imap_nodes_of (geometry_of a)
        → (Needs a (imap_place_of (geometry_of a) i (not (bit_in 0 a.roots i))) → ⊥)
        × (imap_place_of (geometry_of a) i (not (bit_in 0 a.roots i)) ≢ spare_of a) }
{}

/// Once all that waited is written and the disk was flushed, a point is begun: its metaroot may be
/// written, where it leads to what blocks hold.
pub fn a_flush_begins_a_point<D: Disk>()
    ensures turning { (c : Cached D) (a b : Anchor)
        → IsOn (D.origin c.disk) a → IsNext a b
        → HangsOn b (D.shown c.disk) → IsClean c.held
        → ((k : ℕ) → k < (D.origin c.disk).blocks → D.is_sure c.disk k)
        → IsCommitted a (medium_of D.Disk c) → IsTurning a b (medium_of D.Disk c) }
    ensures shown { (c : Cached D) (a b : Anchor) → IsOn (D.origin c.disk) a → IsNext a b
        → HangsOn b (D.shown c.disk) → IsClean c.held
        → IsCommitted a (shown_alone (medium_of D.Disk c))
        → IsTurning a b (shown_alone (medium_of D.Disk c)) }
{}

/// Once the metaroot is written and the disk was flushed, the point is taken.
pub fn a_flush_ends_a_point<D: Disk>()
    ensures committed { (c : Cached D) (a b : Anchor)
        → IsOn (D.origin c.disk) a → IsRoot b (D.shown c.disk (spare_of a)) → IsClean c.held
        → ((k : ℕ) → k < (D.origin c.disk).blocks → D.is_sure c.disk k)
        → IsTurning a b (medium_of D.Disk c) → IsCommitted b (medium_of D.Disk c) }
    ensures shown { (c : Cached D) (a b : Anchor) → IsOn (D.origin c.disk) a
        → IsRoot b (D.shown c.disk (spare_of a)) → IsClean c.held
        → IsTurning a b (shown_alone (medium_of D.Disk c))
        → IsCommitted b (shown_alone (medium_of D.Disk c)) }
{}

/// A volume that is mounted is as after a point: where each block has one candidate, and else as
/// far as what is shown goes.
pub fn a_mounted_volume_is_committed<D: Disk>()
    ensures on { (c : Cached D) (master : Master) (live : Live)
        → IsMountable (shown_by (disk_of D.Disk c.disk)) master live
        → IsOn (D.origin c.disk) (anchor_in (shown_by (disk_of D.Disk c.disk)) master live) }
    ensures committed { (c : Cached D) (master : Master) (live : Live)
        → IsMountable (shown_by (disk_of D.Disk c.disk)) master live → IsClean c.held
        → ((k : ℕ) → k < (D.origin c.disk).blocks → D.is_sure c.disk k)
        → IsCommitted (anchor_in (shown_by (disk_of D.Disk c.disk)) master live)
        (medium_of D.Disk c) }
    ensures shown { (c : Cached D) (master : Master) (live : Live)
        → IsMountable (shown_by (disk_of D.Disk c.disk)) master live → IsClean c.held
        → IsCommitted (anchor_in (shown_by (disk_of D.Disk c.disk)) master live)
        (shown_alone (medium_of D.Disk c)) }
{}

//! The laws of a store, over its parts: functions without effects.
ghost use Rattle.std.specs.Prelude.{◌≡◌, ℕ, Bool, List, None, length, true};
ghost use Rattle.edge_base.specs.declared.geometry.Request.{Request};
ghost use Rattle.edge_base.specs.layout.Places.{IsGeometry, inode_place_of};
ghost use Rattle.edge_image.specs.View.{view_over};
ghost use Rattle.edge_store.specs.State.{IsLive, Told};
ghost use Rattle.edge_store.specs.View.{IsView, is_allocable};
ghost use Rattle.edge_point.specs.Seen.{state_of};
ghost use Rattle.edge_point.specs.Standing.{IsPoint};
ghost use Rattle.edge_point.specs.declared.parts.Parts.{Parts};

use edge_disk::Disk;

/// A view over whole blocks has what every view has.
pub fn a_view_over_whole_blocks_is_a_view()
    ensures { (g : Request) (used : ℕ → Bool) (content : ℕ → List ℕ)
        → ((b : ℕ) → is_allocable g b ≡ true → used b ≡ true → length (content b) ≡ g.block_size)
        → IsView g (view_over g used content) }
{}

/// What every store has, this one has: its views are views of its geometry, the committed one also
/// after a fault; an inode lies at one of its places; and a live store has no point under way and
/// no damage.
pub fn a_store_over_a_disk_is_a_store<D: Disk>()
    ensures is_geometry { (p : Parts D) → IsPoint D.Disk p
        → IsGeometry (state_of D.Disk p).origin.request }
    ensures committed_is_view { (p : Parts D) → IsPoint D.Disk p → Told (state_of D.Disk p)
        → IsView (state_of D.Disk p).origin.request (state_of D.Disk p).committed }
    ensures working_is_view { (p : Parts D) → IsPoint D.Disk p → Told (state_of D.Disk p)
        → IsLive (state_of D.Disk p)
        → IsView (state_of D.Disk p).origin.request (state_of D.Disk p).working }
    ensures two_places { (p : Parts D) (n : ℕ) → IsPoint D.Disk p → Told (state_of D.Disk p)
        → (second : Bool) × ((state_of D.Disk p).places n
        ≡ inode_place_of (state_of D.Disk p).origin.request n second) }
    ensures live_is_whole { (p : Parts D) → IsPoint D.Disk p → IsLive (state_of D.Disk p)
        → (state_of D.Disk p).under_way ≡ None }
    ensures live_is_undamaged { (p : Parts D) → IsPoint D.Disk p → IsLive (state_of D.Disk p)
        → (state_of D.Disk p).damage ≡ None }
{}

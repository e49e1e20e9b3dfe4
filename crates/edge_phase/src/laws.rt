//! Laws over the definitions of `specs/`: functions without effects.
ghost use Rattle.std.specs.Prelude.{◌≡◌, ◌≢◌, ◌<◌, ◌≤◌, ◌^◌, ℕ, ◌+◌, List, Ok};
ghost use Rattle.edge_base.specs.declared.node.Metaroot.{Metaroot};
ghost use Rattle.edge_base.specs.layout.Places.{allocable_of};
ghost use Rattle.edge_base.specs.layout.Spelling.{master_in};
ghost use Rattle.edge_base.specs.tree.Positions.{count_of};
ghost use Rattle.edge_cache.specs.Cached.{Cached};
ghost use Rattle.edge_cache.specs.Calls.{GivesTo};
ghost use Rattle.edge_cache.specs.Given.{except, waiting};
ghost use Rattle.edge_disk.specs.Disk.{Origin};
ghost use Rattle.edge_disk.specs.Image.{Image};
ghost use Rattle.edge_store.specs.View.{View};
ghost use Rattle.edge_model.specs.Rules.{IsTree};
ghost use Rattle.edge_model.specs.Tree.{Tree, tree_positions};
ghost use Rattle.edge_image.specs.Opens.{OpensTo, StandsFor};
ghost use Rattle.edge_anchor.specs.Anchor.{Anchor, HangsOn, IsNext, IsOn, Needs, geometry_of, spare_of, view_at};
ghost use Rattle.edge_anchor.specs.Medium.{Follows, IsCommitted, medium_of, none_given, shown_alone};
ghost use Rattle.edge_anchor.specs.Opens.{OpensAs};
ghost use Rattle.edge_imap.specs.Bitmaps.{Bitmaps, IsTied};
ghost use Rattle.edge_phase.specs.Phases.{IsNextRoot, next_of};
ghost use Rattle.edge_phase.specs.Spared.{Spares, as_told, block_given};

use edge_disk::Disk;

/// The working list of a bitmap that is tied to what blocks hold may become that of the next point,
/// below a metaroot with its counts.
pub fn a_tied_bitmap_may_follow()
    ensures { (a : Anchor) (m : Bitmaps) (root : Metaroot) (content : ℕ → List ℕ)
        → m.geometry ≡ geometry_of a → master_in (content 0) ≡ Ok a.master → IsTied m content
        → IsNextRoot a m content root
        → HangsOn (next_of a root m.working content) content }
{}

/// Calls of a cache or of a bitmap that change one block alone give it bytes, of which this tells
/// nothing, and no other block any.
pub fn writes_follow<D: Disk>()
    ensures { (old new : Cached D) (b : ℕ)
        → GivesTo D.Disk (except b (waiting old.held) (waiting new.held)) old new
        → Follows (block_given b) (medium_of D.Disk old) (medium_of D.Disk new) }
{}

/// Calls that give nothing, and those that write a block of the volume which the last point does
/// not need and which is not the spare metaroot's, spare that point; and so do such calls one after
/// another.
pub fn what_spares_the_last_point<D: Disk>()
    ensures none { (old new : Cached D) (a : Anchor)
        → Follows none_given (medium_of D.Disk old) (medium_of D.Disk new)
        → Follows (Spares a) (medium_of D.Disk old) (medium_of D.Disk new) }
    ensures free { (old new : Cached D) (a : Anchor) (b : ℕ)
        → (Needs a b → ⊥) → b ≢ spare_of a → b < (geometry_of a).blocks
        → Follows (block_given b) (medium_of D.Disk old) (medium_of D.Disk new)
        → Follows (Spares a) (medium_of D.Disk old) (medium_of D.Disk new) }
    ensures after { (old mid new : Cached D) (a : Anchor)
        → Follows (Spares a) (medium_of D.Disk old) (medium_of D.Disk mid)
        → Follows (Spares a) (medium_of D.Disk mid) (medium_of D.Disk new)
        → Follows (Spares a) (medium_of D.Disk old) (medium_of D.Disk new) }
{}

/// What spares the last point keeps it, with the used blocks that its bitmap tells then, and keeps
/// its view of what is shown.
pub fn the_last_point_stays<D: Disk>()
    ensures committed { (old new : Cached D) (a : Anchor)
        → Follows (Spares a) (medium_of D.Disk old) (medium_of D.Disk new)
        → IsCommitted a (medium_of D.Disk old)
        → IsCommitted (as_told a (D.shown new.disk)) (medium_of D.Disk new) }
    ensures shown { (old new : Cached D) (a : Anchor)
        → Follows (Spares a) (medium_of D.Disk old) (medium_of D.Disk new)
        → IsCommitted a (shown_alone (medium_of D.Disk old))
        → IsCommitted (as_told a (D.shown new.disk)) (shown_alone (medium_of D.Disk new)) }
    ensures view { (old new : Cached D) (a : Anchor)
        → Follows (Spares a) (medium_of D.Disk old) (medium_of D.Disk new)
        → IsCommitted a (shown_alone (medium_of D.Disk old))
        → view_at a (D.shown new.disk) ≡ view_at a (D.shown old.disk) }
    ensures told { (old new : Cached D) (a : Anchor)
        → Follows (Spares a) (medium_of D.Disk old) (medium_of D.Disk new)
        → IsCommitted a (shown_alone (medium_of D.Disk old))
        → view_at (as_told a (D.shown new.disk)) (D.shown new.disk)
        ≡ view_at a (D.shown old.disk) }
{}

/// The anchor of the next point is on the disk that the last one is on.
pub fn the_next_point_is_on_the_disk()
    ensures { (origin : Origin) (a b : Anchor) → IsOn origin a → IsNext a b → IsOn origin b }
{}

/// An image that opens by an anchor, with a view that stands for a tree, opens to that tree, where
/// its sequence number is not too great and it has room. Its room is what the tree leaves.
pub fn an_image_that_opens_has_its_tree()
    ensures tree { (a : Anchor) (v : View) (image : Image) (t : Tree) → OpensAs a v image
        → a.root.sequence ≤ 2 ^ 63 → 3 ≤ a.root.free_blocks
        → IsTree (geometry_of a) t → StandsFor (geometry_of a) v t → OpensTo image t }
    ensures room { (a : Anchor) (v : View) (image : Image) (t : Tree) → OpensAs a v image
        → StandsFor (geometry_of a) v t
        → a.root.free_blocks + count_of (tree_positions (geometry_of a) t)
        ≡ allocable_of (geometry_of a) }
{}

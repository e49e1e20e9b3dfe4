ghost use Rattle.std.specs.Prelude.{◌≡◌, ◌≢◌, ◌<◌, ℕ, Bool, not, true, false, List, None, Ok, Some};
ghost use Rattle.edge_base.specs.declared.geometry.Request.{Request};
ghost use Rattle.edge_base.specs.declared.node.Head.{Head};
ghost use Rattle.edge_base.specs.layout.Bitmap.{live_place, used_under};
ghost use Rattle.edge_base.specs.layout.Bytes.{numbers_at};
ghost use Rattle.edge_base.specs.layout.Places.{IsWithinLimits, entries_of, imap_nodes_of, inode_place_of};
ghost use Rattle.edge_base.specs.layout.Spelling.{inode_in};
ghost use Rattle.edge_store.specs.View.{is_allocable, is_number, whole, with_block, with_inode};
ghost use Rattle.edge_image.specs.View.{block_told, block_under, inode_under, view_over};
ghost use Rattle.edge_anchor.specs.Anchor.{HasBit};
ghost use Rattle.edge_anchor.specs.Stays.{BlockStays};

/// A view is of the blocks that it uses alone: where each of them stays, it is the same. Which are
/// used is told by the bytes of a root and by the live imap nodes below it alone.
pub fn a_view_is_of_its_used_blocks()
    ensures same { (g : Request) (used now : ℕ → Bool) (old new : ℕ → List ℕ) → IsWithinLimits g
        → ((b : ℕ) → HasBit g b → BlockStays used now old new b)
        → view_over g now new ≡ view_over g used old }
    ensures used { (g : Request) (roots : List ℕ) (old new : ℕ → List ℕ) → IsWithinLimits g
        → ((i : ℕ) → i < imap_nodes_of g
        → new (live_place g roots i) ≡ old (live_place g roots i))
        → (b : ℕ) → HasBit g b → used_under g roots new b ≡ used_under g roots old b }
{}

/// Where all blocks stay but the two places of a number, the view is the same but for this number's
/// inode.
pub fn one_inode_changes()
    ensures { (g : Request) (used now : ℕ → Bool) (old new : ℕ → List ℕ) (n : ℕ)
        → IsWithinLimits g → is_number g n ≡ true
        → ((b : ℕ) → HasBit g b → b ≢ inode_place_of g n false → b ≢ inode_place_of g n true
        → BlockStays used now old new b)
        → view_over g now new
        ≡ with_inode (view_over g used old) n (inode_under g now new n) }
{}

/// Where all blocks stay but an allocable one, the view is the same but for this block.
pub fn one_block_changes()
    ensures { (g : Request) (used now : ℕ → Bool) (old new : ℕ → List ℕ) (c : ℕ)
        → IsWithinLimits g → is_allocable g c ≡ true
        → ((b : ℕ) → HasBit g b → b ≢ c → BlockStays used now old new b)
        → view_over g now new ≡ with_block (view_over g used old) c (block_under g now new c) }
{}

/// A number has the inode at its one used place, and none where neither is used; an allocable block
/// is there where it is used.
pub fn what_used_places_tell()
    ensures inode { (g : Request) (used : ℕ → Bool) (content : ℕ → List ℕ) (n : ℕ) (second : Bool)
        (head : Head) → is_number g n ≡ true → used (inode_place_of g n second) ≡ true
        → used (inode_place_of g n (not second)) ≡ false
        → inode_in (content (inode_place_of g n second)) ≡ Ok head
        → inode_under g used content n
        ≡ Some (whole head (numbers_at 32 (entries_of g) (content (inode_place_of g n second)))) }
    ensures no_inode { (g : Request) (used : ℕ → Bool) (content : ℕ → List ℕ) (n : ℕ)
        → used (inode_place_of g n false) ≡ false → used (inode_place_of g n true) ≡ false
        → inode_under g used content n ≡ None }
    ensures block { (g : Request) (used : ℕ → Bool) (content : ℕ → List ℕ) (b : ℕ)
        → is_allocable g b ≡ true → used b ≡ true
        → block_under g used content b ≡ Some (block_told g (content b)) }
    ensures no_block { (g : Request) (used : ℕ → Bool) (content : ℕ → List ℕ) (b : ℕ)
        → used b ≡ false → block_under g used content b ≡ None }
{}

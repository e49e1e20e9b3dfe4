//! Laws over the definitions of `specs/`: functions without effects.
ghost use Rattle.std.specs.Prelude.{◌≡◌, ◌≢◌, ◌<◌, ◌≤◌, ◌+◌, ℕ, List, Option, None, not, true, false, count_by};
ghost use Rattle.std.specs.List.{range_with_len};
ghost use Rattle.edge_base.specs.declared.geometry.Request.{Request};
ghost use Rattle.edge_base.specs.layout.Bitmap.{live_place, bit_under};
ghost use Rattle.edge_base.specs.layout.Places.{is_inline_of, imap_nodes_of, table_start_of, first_allocable_of, allocable_of, IsWithinLimits};
ghost use Rattle.edge_cache.specs.Cached.{IsClean, content};
ghost use Rattle.edge_cache.specs.Kept.{Kept};
ghost use Rattle.edge_imap.specs.Bitmaps.{Bitmaps, IsTied, SameNodes, spare_place, node_of, bits_of, first_bit, committed_use, working_use, is_free_bit};
ghost use Rattle.edge_imap.specs.Search.{Finds, IsWithin};

/// What leaves the places of imap nodes as they were keeps the tie.
pub fn others_keep_the_tie()
    ensures { (m : Bitmaps) (old new : ℕ → List ℕ) → IsWithinLimits m.geometry
        → SameNodes m.geometry old new → IsTied m old → IsTied m new }
{}

/// Where nothing waits, a bitmap is tied to what the disk shows: after a `write_out` its nodes are
/// there, and after the `flush` that follows each has one candidate.
pub fn a_clean_cache_shows_the_nodes()
    ensures { (m : Bitmaps) (held : List Kept) (shown : ℕ → List ℕ) → IsClean held
        → IsTied m (content held shown) → IsTied m shown }
{}

/// The place of a node that is not live, which `set` writes, is the live place of no node.
pub fn the_spare_place_is_not_live()
    ensures { (g : Request) (roots : List ℕ) (i j : ℕ)
        → live_place g roots i ≢ spare_place g roots j }
{}

/// The place of a node that is not live lies behind the three first blocks, and before the inode
/// table.
pub fn the_spare_place_is_of_the_nodes()
    ensures behind { (g : Request) (roots : List ℕ) (bit : ℕ)
        → 3 ≤ spare_place g roots (node_of g bit) }
    ensures before { (g : Request) (roots : List ℕ) (bit : ℕ) → IsWithinLimits g
        → is_inline_of g ≡ false → bit < bits_of g
        → spare_place g roots (node_of g bit) < table_start_of g }
{}

/// What leaves the places of imap nodes as they were keeps both lists.
pub fn others_keep_the_lists()
    ensures committed { (m : Bitmaps) (old new : ℕ → List ℕ) → IsWithinLimits m.geometry
        → SameNodes m.geometry old new
        → (b : ℕ) → b < m.geometry.blocks → committed_use m new b ≡ committed_use m old b }
    ensures working { (m : Bitmaps) (old new : ℕ → List ℕ) → IsWithinLimits m.geometry
        → SameNodes m.geometry old new
        → (b : ℕ) → b < m.geometry.blocks → working_use m new b ≡ working_use m old b }
{}

/// A list is told by the bytes of its root and of the live nodes below it alone.
pub fn the_live_nodes_tell_the_list()
    ensures { (g : Request) (roots : List ℕ) (old new : ℕ → List ℕ) → IsWithinLimits g
        → ((j : ℕ) → j < imap_nodes_of g
        → new (live_place g roots j) ≡ old (live_place g roots j))
        → (bit : ℕ) → bit < bits_of g → bit_under g roots new bit ≡ bit_under g roots old bit }
{}

/// The two counts of a tied bitmap together are the allocable blocks that the working list does
/// not use.
pub fn the_counts_are_of_the_working_list()
    ensures { (m : Bitmaps) (content : ℕ → List ℕ) → IsTied m content
        → m.counts.free + m.counts.almost ≡ count_by (λ b. not (working_use m content b))
        (range_with_len (first_allocable_of m.geometry) (allocable_of m.geometry)) }
{}

/// Where a tied bitmap counts a free block, an allocable bit is free in both lists, and a search
/// from any bit on finds one.
pub fn a_block_that_is_counted_is_found()
    ensures free { (m : Bitmaps) (content : ℕ → List ℕ) → IsTied m content → 0 < m.counts.free
        → (bit : ℕ) × IsWithin (first_bit m.geometry) (bits_of m.geometry) bit
        × (is_free_bit m content bit ≡ true) }
    ensures found { (m : Bitmaps) (content : ℕ → List ℕ) → IsTied m content → 0 < m.counts.free
        → (from : ℕ) (found : Option ℕ)
        → Finds (is_free_bit m content) (first_bit m.geometry) (bits_of m.geometry) from found
        → found ≢ None }
{}

//! Laws over the definitions of `specs/`: functions without effects.

ghost use Rattle.std.specs.Prelude.{◌≡◌, ◌<◌, ◌≤◌, ◌+◌, ◌/◌, ◌==◌, ℕ, Bool, true, false, List, [], ◌++◌, length, take, drop, slice_index, filter, nat_le, nat_lt, if◌then◌else◌};
ghost use Rattle.std.specs.List.{list_any};
ghost use Rattle.edge_base.specs.declared.geometry.Request.{Request};
ghost use Rattle.edge_base.specs.layout.Places.{IsGeometry, max_size_of};
ghost use Rattle.edge_base.specs.tree.Nodes.{file, directory, indices_of, size_of};
ghost use Rattle.edge_base.specs.declared.form.Form.TheVariants.{Plain};
ghost use Rattle.edge_base.specs.tree.Slots.{Slots, pieces};
ghost use Rattle.edge_store.specs.Changed.{has_index, NodeChanged, NodeDirtied};
ghost use Rattle.edge_store.specs.Placed.{data_block, HasPlaces, HoldsNode};
ghost use Rattle.edge_store.specs.View.{View, IsView, content_at, is_whole};
ghost use Rattle.edge_shape.specs.Shape.{HasShape, before};
ghost use Rattle.edge_file.specs.Bytes.{byte_of, bytes_at, bytes_of, with_bytes, blocks_under};
ghost use Rattle.edge_file.specs.Rewritten.{IsWritten};
ghost use Rattle.edge_file.specs.Shortened.{block_of_rest, IsShortened};
ghost use Rattle.edge_file.specs.Writing.{SameBlocks};

/// Where a view holds a file whose absent blocks are zeros, the bytes of its blocks are those of
/// its content, and zeros behind them. After a write it holds the file with the new bytes at their
/// place, and the data blocks that they need besides. Made shorter it holds the file that ends
/// there; made longer, the file with zeros behind its content and no data block more. The bytes of
/// a directory are those of its blocks, one behind the other.
pub fn files_are_held_by_their_bytes()
    ensures byte { (g : Request) (v : View) (n k : ℕ) (text : List ℕ) (present : List Bool)
        → IsGeometry g → IsView g v → is_whole (v.inodes n) ≡ true
        → HoldsNode g v n (file text present)
        → ((k : ℕ) → list_any (λ i. i == k / g.block_size) (indices_of g (file text present))
        ≡ false → slice_index text k ≡ 0)
        → k < max_size_of g → byte_of g v n k ≡ slice_index text k }
    ensures run { (g : Request) (v : View) (n at len : ℕ) (text : List ℕ) (present : List Bool)
        → IsGeometry g → IsView g v → is_whole (v.inodes n) ≡ true
        → HoldsNode g v n (file text present)
        → ((k : ℕ) → list_any (λ i. i == k / g.block_size) (indices_of g (file text present))
        ≡ false → slice_index text k ≡ 0)
        → length text ≤ max_size_of g → at + len ≤ length text
        → bytes_at g v n at len ≡ take len (drop at text) }
    ensures written { (g : Request) (c v w : View) (n at : ℕ) (new : List ℕ)
        (text after : List ℕ) (present flags : List Bool)
        → IsGeometry g → IsView g v → IsView g w
        → is_whole (v.inodes n) ≡ true → is_whole (w.inodes n) ≡ true
        → HoldsNode g v n (file text present)
        → ((k : ℕ) → list_any (λ i. i == k / g.block_size) (indices_of g (file text present))
        ≡ false → slice_index text k ≡ 0)
        → IsWritten g c v w n at new (indices_of g (file text present))
        → ((k : ℕ) → slice_index after k ≡ with_bytes (slice_index text) at new k)
        → ((i : ℕ) → list_any (λ j. j == i)
        (blocks_under g at (length new) ++ indices_of g (file text present))
        ≡ list_any (λ j. j == i) (indices_of g (file after flags)))
        → HoldsNode g w n (file after flags) }
    ensures shortened { (g : Request) (c v w : View) (n size : ℕ)
        (text after : List ℕ) (present flags : List Bool)
        → IsGeometry g → IsView g v → is_whole (v.inodes n) ≡ true
        → HoldsNode g v n (file text present)
        → ((k : ℕ) → list_any (λ i. i == k / g.block_size) (indices_of g (file text present))
        ≡ false → slice_index text k ≡ 0)
        → IsShortened g c v w n size (indices_of g (file text present))
        → ((k : ℕ) → slice_index after k ≡ (if nat_lt k size then slice_index text k else 0))
        → ((i : ℕ) → list_any (λ j. j == i)
        (before (pieces g.block_size size) (indices_of g (file text present)))
        ≡ list_any (λ j. j == i) (indices_of g (file after flags)))
        → HoldsNode g w n (file after flags) }
    ensures lengthened { (g : Request) (v w : View) (n : ℕ) (text after : List ℕ)
        (present flags : List Bool) → HoldsNode g v n (file text present) → SameBlocks v w n
        → ((k : ℕ) → slice_index after k ≡ slice_index text k)
        → ((i : ℕ) → list_any (λ j. j == i) (indices_of g (file text present))
        ≡ list_any (λ j. j == i) (indices_of g (file after flags)))
        → HoldsNode g w n (file after flags) }
    ensures directory { (g : Request) (v : View) (n k : ℕ) (slots : Slots) (parent : ℕ)
        → IsGeometry g → IsView g v → is_whole (v.inodes n) ≡ true
        → HoldsNode g v n (directory slots parent) → k < max_size_of g
        → byte_of g v n k ≡ slice_index (bytes_of g (directory slots parent)) k }
    ensures directory_run { (g : Request) (v : View) (n at len : ℕ) (slots : Slots) (parent : ℕ)
        → IsGeometry g → IsView g v → is_whole (v.inodes n) ≡ true
        → HoldsNode g v n (directory slots parent)
        → at + len ≤ size_of g (directory slots parent)
        → bytes_at g v n at len ≡ take len (drop at (bytes_of g (directory slots parent))) }
{}

/// A write and one behind it are one write of both.
pub fn writes_follow_each_other()
    ensures { (g : Request) (c v m w : View) (n at : ℕ) (first second indices : List ℕ)
        → IsGeometry g → IsView g v → IsView g m → IsView g w
        → is_whole (v.inodes n) ≡ true → is_whole (m.inodes n) ≡ true
        → HasPlaces g v n indices → IsWritten g c v m n at first indices
        → IsWritten g c m w n (at + length first) second
        (blocks_under g at (length first) ++ indices)
        → IsWritten g c v w n at (first ++ second) indices }
{}

/// A write is a change at its node that writes the data blocks of the run, or adds them. The others
/// hold what they held.
pub fn a_write_changes_its_node()
    ensures changed { (g : Request) (c v w : View) (n at : ℕ) (new indices : List ℕ)
        → IsView g v → HasPlaces g v n indices → IsWritten g c v w n at new indices
        → NodeChanged g v w n indices (blocks_under g at (length new) ++ indices) }
    ensures dirtied { (g : Request) (c v w : View) (n at : ℕ) (new indices : List ℕ)
        → IsView g v → HasPlaces g v n indices → IsWritten g c v w n at new indices
        → NodeDirtied g c v w n indices (blocks_under g at (length new) ++ indices)
        (blocks_under g at (length new)) [] }
    ensures contents { (g : Request) (c v w : View) (n at : ℕ) (new indices : List ℕ)
        → IsView g v → HasPlaces g v n indices → IsWritten g c v w n at new indices
        → (i : ℕ) → has_index indices i ≡ true
        → has_index (blocks_under g at (length new)) i ≡ false
        → content_at w Plain (data_block g w n i) ≡ content_at v Plain (data_block g v n i) }
{}

/// A node that is made shorter changes so: the data block in which zeros are written is written,
/// and those behind its end are removed. The others hold what they held.
pub fn a_shortening_changes_its_node()
    ensures changed { (g : Request) (c v w : View) (n size : ℕ) (indices : List ℕ)
        → HasShape g v n indices → IsShortened g c v w n size indices
        → NodeChanged g v w n indices (before (pieces g.block_size size) indices) }
    ensures dirtied { (g : Request) (c v w : View) (n size : ℕ) (indices : List ℕ)
        → HasShape g v n indices → IsShortened g c v w n size indices
        → NodeDirtied g c v w n indices (before (pieces g.block_size size) indices)
        (block_of_rest g v n size) (filter (λ i. nat_le (pieces g.block_size size) i) indices) }
    ensures contents { (g : Request) (c v w : View) (n size : ℕ) (indices : List ℕ)
        → HasShape g v n indices → IsShortened g c v w n size indices
        → (i : ℕ) → has_index (before (pieces g.block_size size) indices) i ≡ true
        → has_index (block_of_rest g v n size) i ≡ false
        → content_at w Plain (data_block g w n i) ≡ content_at v Plain (data_block g v n i) }
{}

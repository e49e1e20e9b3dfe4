//! Laws over the definitions of `specs/`: functions without effects.

ghost use Rattle.std.specs.Prelude.{◌≡◌, ◌+◌, ◌-◌, ◌/◌, ◌≤◌, ℕ, true, false, List, map, Option};
ghost use Rattle.std.specs.List.{range_with_len};
ghost use Rattle.edge_base.specs.declared.geometry.Request.{Request};
ghost use Rattle.edge_base.specs.layout.Places.{IsGeometry, IsWithinLimits, max_size_of};
ghost use Rattle.edge_base.specs.tree.Positions.{Position, data_at, has};
ghost use Rattle.edge_store.specs.Fresh.{fresh_count};
ghost use Rattle.edge_store.specs.View.{View, IsView};
ghost use Rattle.edge_shape.specs.Shape.{HasShape};
ghost use Rattle.edge_file.specs.Bytes.{blocks_under};
ghost use Rattle.edge_file.specs.Rewritten.{fresh_on};
ghost use Rattle.edge_file.specs.Shortened.{shortening_need};
ghost use Rattle.edge_space.specs.Changes.{IsWithin, AreShaped, is_longer, writes_of, removes_of};
ghost use Rattle.edge_space.specs.declared.change.Change.TheVariants.{Bytes, Size, Slots};
ghost use Rattle.edge_space.specs.declared.change.SlotAt.{SlotAt};
ghost use Rattle.edge_space.specs.Slots.{need_of_slots};

/// The fresh positions of bytes are as many as writing them takes of the free blocks. The data
/// blocks that bytes lie in are those from that of the first byte up to that of the last.
pub fn bytes_ask_for_their_fresh_positions()
    ensures room { (g : Request) (c v : View) (n at len : ℕ) (indices : ℕ → List ℕ) (left : ℕ)
        → fresh_count g c v (writes_of g v (Bytes n at len) left)
        (removes_of g v (Bytes n at len) indices left)
        ≡ fresh_on g c v n (blocks_under g at len) }
    ensures run { (g : Request) (v : View) (n at len left : ℕ) (p : Position)
        → IsGeometry g → IsWithin g (Bytes n at len)
        → has (writes_of g v (Bytes n at len) left) p
        ≡ has (map (data_at n) (range_with_len (at / g.block_size)
        ((at + len - 1) / g.block_size + 1 - at / g.block_size))) p }
{}

/// The fresh positions of a size that makes a node shorter are those of the chain of the data block
/// that is cut in two, if there is one, and else as many as the cut needs. A size that does not has
/// none.
pub fn sizes_ask_for_their_fresh_positions()
    ensures shorter { (g : Request) (c v : View) (n size : ℕ) (indices : ℕ → List ℕ) (left : ℕ)
        → HasShape g v n (indices n) → size ≤ max_size_of g → is_longer v n size ≡ true
        → fresh_count g c v (writes_of g v (Size n size) left)
        (removes_of g v (Size n size) indices left)
        ≡ shortening_need g c v n size }
    ensures longer { (g : Request) (c v : View) (n size : ℕ) (indices : ℕ → List ℕ) (left : ℕ)
        → is_longer v n size ≡ false
        → fresh_count g c v (writes_of g v (Size n size) left)
        (removes_of g v (Size n size) indices left)
        ≡ 0 }
{}

/// The fresh positions of slots are as many as the change takes of the free blocks: those of the
/// chain of the slot that is cleared, or as many as the cut needs where its block is cut off, and
/// those of the chain of the slot that is put, where they are not counted yet.
pub fn slots_ask_for_their_fresh_positions()
    ensures { (g : Request) (c v : View) (put clear : Option SlotAt) (indices : ℕ → List ℕ)
        (left : ℕ)
        → IsGeometry g → IsWithinLimits g → IsView g v → IsWithin g (Slots put clear)
        → AreShaped g v (Slots put clear) indices left
        → fresh_count g c v (writes_of g v (Slots put clear) left)
        (removes_of g v (Slots put clear) indices left)
        ≡ need_of_slots g c v put clear left }
{}

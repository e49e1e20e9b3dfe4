//! Laws over the definitions of `specs/`: functions without effects.
ghost use Rattle.std.specs.Prelude.{◌≡◌, ℕ, ◌+◌, ◌*◌, ◌<◌, List, None, slice_index_or};
ghost use Rattle.edge_base.specs.declared.geometry.Request.{Request};
ghost use Rattle.edge_base.specs.layout.Places.{IsWithinLimits};
ghost use Rattle.edge_base.specs.tree.NodeRules.{IsDirectory};
ghost use Rattle.edge_base.specs.tree.Nodes.{block_of, directory};
ghost use Rattle.edge_base.specs.tree.Slots.{Slots, slot_bytes, slots_in_block};
ghost use Rattle.edge_store.specs.Damages.{slot_in};
ghost use Rattle.edge_slots.specs.Slot.{HasEntry, IsEmpty};

/// Block i of a directory has the slots from the place of its first one on, and empty ones behind
/// the last.
pub fn a_block_has_its_slots()
    ensures { (g : Request) (slots : Slots) (parent i j : ℕ)
        → IsDirectory g slots → j < slots_in_block g
        → slot_in g (block_of g (directory slots parent) i) j
        ≡ slot_bytes g (slice_index_or slots (i * slots_in_block g + j) None) }
{}

/// The bytes of a slot have one name and number at most, and are not those of an empty one.
pub fn a_slot_says_one_thing()
    ensures name { (g : Request) (bytes a b : List ℕ) (m n : ℕ)
        → HasEntry g bytes a m → HasEntry g bytes b n → a ≡ b }
    ensures number { (g : Request) (bytes a b : List ℕ) (m n : ℕ) → IsWithinLimits g
        → HasEntry g bytes a m → HasEntry g bytes b n → m ≡ n }
    ensures empty { (g : Request) (bytes name : List ℕ) (number : ℕ)
        → HasEntry g bytes name number → IsEmpty g bytes → ⊥ }
{}

//! Laws over the definitions of `specs/`: functions without effects.

ghost use Rattle.std.specs.Prelude.{◌≡◌, ◌≢◌, ◌<◌, ◌+◌, ◌∷◌, [], ℕ, true, false, replicate, List};
ghost use Rattle.edge_base.specs.declared.form.Form.{Form};
ghost use Rattle.edge_base.specs.declared.form.Form.TheVariants.{Plain};
ghost use Rattle.edge_base.specs.declared.geometry.Request.{Request};
ghost use Rattle.edge_base.specs.layout.Places.{IsGeometry, pointers_of, max_blocks_of, way_of};
ghost use Rattle.edge_base.specs.tree.Positions.{positions_of_form};
ghost use Rattle.edge_store.specs.Changed.{has_index, NodeChanged, NodeDirtied, KeepsContents};
ghost use Rattle.edge_store.specs.Damages.{IsLinked};
ghost use Rattle.edge_store.specs.Placed.{entry_at, pointer_at, block_at, data_block, HasPlaces, IsOnce};
ghost use Rattle.edge_store.specs.View.{View, IsView, bytes, content_at, is_spot, is_new, is_whole, free_now};
ghost use Rattle.edge_moves.specs.Sound.{numbered, IsSound, IsApart};
ghost use Rattle.edge_moves.specs.Relinks.{Relinks};
ghost use Rattle.edge_moves.specs.Renewal.{cost, EntryRenewed, PointerRenewed, WayRenewed};
ghost use Rattle.edge_moves.specs.Writable.{IsMadeWritable};

/// Where the pointers of a node lead, there its blocks are.
pub fn blocks_are_where_pointers_lead()
    ensures { (g : Request) (w : View) (n : ℕ) (to : Form → ℕ → ℕ)
        → IsGeometry g → Relinks g w n to → (form : Form) (m : ℕ) → m < positions_of_form g form
        → block_at g w (numbered n form m) ≡ to form m }
{}

/// Where the blocks on the way to a data block were made new, one after the other, the data block
/// is made writable, if the node has the shape of a node.
pub fn a_way_made_new_makes_writable()
    ensures made { (g : Request) (c v w : View) (n i b : ℕ) (indices : List ℕ)
        → IsGeometry g → IsView g v → IsView g w → i < max_blocks_of g
        → is_whole (v.inodes n) ≡ true → HasPlaces g v n indices → IsOnce g v n indices
        → WayRenewed g c v w n (way_of g i) b → IsMadeWritable g c v w n i indices }
    ensures block { (g : Request) (c v w : View) (n i b : ℕ) (indices : List ℕ)
        → IsGeometry g → IsView g v → IsView g w → i < max_blocks_of g
        → is_whole (v.inodes n) ≡ true → HasPlaces g v n indices → IsOnce g v n indices
        → WayRenewed g c v w n (way_of g i) b → data_block g w n i ≡ b }
{}

/// The blocks of a node of a proper shape are sound, and each at one position.
pub fn a_shaped_node_is_sound()
    ensures sound { (g : Request) (v : View) (n : ℕ) (indices : List ℕ)
        → HasPlaces g v n indices → IsSound g v n }
    ensures apart { (g : Request) (v : View) (n : ℕ) (indices : List ℕ)
        → HasPlaces g v n indices → IsOnce g v n indices → IsApart g v n }
{}

/// Each block of a sound node is at the end of a link.
pub fn blocks_of_a_sound_node_are_linked()
    ensures { (g : Request) (v : View) (n : ℕ)
        → IsGeometry g → IsSound g v n → (form : Form) (k : ℕ) → k < positions_of_form g form
        → block_at g v (numbered n form k) ≢ 0
        → IsLinked g v n form (block_at g v (numbered n form k)) }
{}

/// A block that is made new takes one free block, if it was not new, and else none.
pub fn blocks_made_new_take_what_they_cost()
    ensures entry { (g : Request) (c v w : View) (n e b : ℕ) → EntryRenewed g c v w n e b
        → free_now g c w + cost c v (entry_at v n e) ≡ free_now g c v }
    ensures pointer { (g : Request) (c v w : View) (form : Form) (n top i b : ℕ)
        → IsView g v → is_new c v top ≡ true → PointerRenewed g c v w form n top i b
        → free_now g c w + cost c v (pointer_at v form top i) ≡ free_now g c v }
{}

/// A data block that is made writable is a change at its node that writes it, or adds it with zeros
/// in it. The others hold what they held.
pub fn a_block_made_writable_changes_its_node()
    ensures changed { (g : Request) (c v w : View) (n i : ℕ) (indices : List ℕ)
        → IsView g v → i < max_blocks_of g → HasPlaces g v n indices
        → IsMadeWritable g c v w n i indices → NodeChanged g v w n indices (i ∷ indices) }
    ensures dirtied { (g : Request) (c v w : View) (n i : ℕ) (indices : List ℕ)
        → IsView g v → i < max_blocks_of g → HasPlaces g v n indices
        → IsMadeWritable g c v w n i indices
        → NodeDirtied g c v w n indices (i ∷ indices) (i ∷ []) [] }
    ensures contents { (g : Request) (c v w : View) (n i : ℕ) (indices : List ℕ)
        → IsView g v → i < max_blocks_of g → HasPlaces g v n indices
        → IsMadeWritable g c v w n i indices → KeepsContents g v w n indices }
    ensures zeros { (g : Request) (c v w : View) (n i : ℕ) (indices : List ℕ)
        → IsView g v → i < max_blocks_of g → HasPlaces g v n indices
        → IsMadeWritable g c v w n i indices → has_index indices i ≡ false
        → content_at w Plain (data_block g w n i) ≡ bytes (replicate g.block_size 0) }
{}

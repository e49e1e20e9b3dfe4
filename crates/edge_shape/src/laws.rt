//! Laws over the definitions of `specs/`: functions without effects.

ghost use Rattle.std.specs.Prelude.{◌≡◌, ◌≢◌, ◌<◌, ◌≤◌, ℕ, ◌+◌, ◌&&◌, Bool, true, false, nat_le, nat_lt, filter, List, [], ◌∷◌};
ghost use Rattle.std.specs.List.{list_any};
ghost use Rattle.edge_base.specs.declared.form.Form.{Form};
ghost use Rattle.edge_base.specs.declared.form.Form.TheVariants.{Plain, Indirect, Double};
ghost use Rattle.edge_base.specs.declared.geometry.Request.{Request};
ghost use Rattle.edge_base.specs.declared.way.Way.{Way};
ghost use Rattle.edge_base.specs.layout.Places.{IsGeometry, IsWithinNodes, entries_of, pointers_of, max_blocks_of, way_of};
ghost use Rattle.edge_base.specs.tree.Chains.{is_on_chain};
ghost use Rattle.edge_store.specs.Changed.{SameMembers, NodeChanged, NodeDirtied, KeepsContents};
ghost use Rattle.edge_store.specs.Placed.{entry_at, pointer_at, double_block, indirect_block, block_at, IsShaped};
ghost use Rattle.edge_store.specs.View.{View, IsView, is_whole};
ghost use Rattle.edge_moves.specs.Relinks.{Relinks};
ghost use Rattle.edge_moves.specs.Renewal.{EntryMoved, PointerMoved};
ghost use Rattle.edge_moves.specs.Writable.{IsMadeWritable};
ghost use Rattle.edge_moves.specs.Sound.{numbered};
ghost use Rattle.edge_shape.specs.declared.cut.Cut.{Cut};
ghost use Rattle.edge_shape.specs.declared.cut.Cut.TheVariants.{Whole};
ghost use Rattle.edge_shape.specs.Cut.{is_split, IsCut};
ghost use Rattle.edge_shape.specs.Cutting.{CutPlaces, CutEntries};
ghost use Rattle.edge_shape.specs.Gone.{Pointers, gone_data, left, Unlinks, Leaves, KeepsSpots, indirect_places, double_places, entry_places};
ghost use Rattle.edge_shape.specs.Shape.{HasShape, IsLayout, data_under, before, outside, HasBetween, SameBefore};
ghost use Rattle.edge_shape.specs.Steps.{Steps};
ghost use Rattle.edge_shape.specs.Trees.{IsSoundTree, IsSoundInode};
ghost use Rattle.edge_shape.specs.Trimmed.{Trims};
ghost use Rattle.edge_shape.specs.Where.{first_in_entry, first_gone, cut_of_way, cut_at, is_through, GoesThrough, TakesFrom, IsWithin};

/// A node whose pointers lead as a layout of some data blocks tells has the shape of a node with
/// these. A node that is shaped has the shape of one with its data blocks, and the other way round.
pub fn a_layout_makes_a_shape()
    ensures layout { (g : Request) (v : View) (n : ℕ) (indices : List ℕ) (to : Form → ℕ → ℕ)
        → IsGeometry g → IsView g v → is_whole (v.inodes n) ≡ true
        → Relinks g v n to → IsLayout g v n indices to → HasShape g v n indices }
    ensures shaped { (g : Request) (v : View) (n : ℕ) → IsGeometry g → IsView g v
        → (shaped : IsShaped g v n) → HasShape g v n shaped.indices }
    ensures is_shaped { (g : Request) (v : View) (n : ℕ) (indices : List ℕ)
        → HasShape g v n indices → (shaped : IsShaped g v n) × (shaped.indices ≡ indices) }
{}

/// The shape of a node depends on which data blocks it has, and not on how they are listed.
pub fn a_shape_is_of_members_alone()
    ensures { (g : Request) (v : View) (n : ℕ) (xs ys : List ℕ)
        → SameMembers xs ys → HasShape g v n xs → HasShape g v n ys }
{}

/// Where pointers of a node are gone, and under each pointer node that stays something stays, the
/// node has the shape of one with the data blocks that are left.
pub fn gone_pointers_leave_a_shape()
    ensures { (g : Request) (v w : View) (n : ℕ) (indices : List ℕ) (taken : Pointers)
        → HasShape g v n indices → Unlinks g v w n taken → Leaves g v n taken
        → IsView g w → is_whole (w.inodes n) ≡ true → KeepsSpots g v w n taken
        → HasShape g w n (left g taken indices) }
{}

/// The data blocks under a pointer node are a range.
pub fn what_is_under_a_pointer_node_is_a_range()
    ensures { (g : Request) (form : Form) (m x : ℕ) → IsGeometry g → form ≢ Plain
        → is_on_chain g form m x
        ≡ (nat_le (data_under g form m 0) x && nat_lt x (data_under g form m (pointers_of g))) }
{}

/// The data blocks that are gone where places side by side of a pointer node are, are a range. So
/// are those from an entry on, of all that are under an entry of the inode.
pub fn gone_places_are_ranges()
    ensures indirect { (g : Request) (j from upto x : ℕ) → IsGeometry g → upto ≤ pointers_of g
        → gone_data g (indirect_places j from upto) x
        ≡ (nat_le (data_under g Indirect j from) x && nat_lt x (data_under g Indirect j upto)) }
    ensures double { (g : Request) (d from upto x : ℕ) → IsGeometry g → upto ≤ pointers_of g
        → gone_data g (double_places d from upto) x
        ≡ (nat_le (data_under g Double d from) x
        && nat_lt x (data_under g Double d upto)) }
    ensures entries { (g : Request) (v : View) (n from : ℕ) (indices : List ℕ)
        → HasShape g v n indices
        → left g (entry_places from (entries_of g)) indices
        ≡ before (first_in_entry g from) indices }
{}

/// A node of which a pointer node is cut from a place on is left with the data blocks that do not
/// hang there, where something before the place stays. So is one whose entries go. What is left
/// twice is left by both.
pub fn cut_pointers_leave_the_other_indices()
    ensures indirect { (g : Request) (v w : View) (n j from : ℕ) (indices : List ℕ)
        → HasShape g v n indices → IsView g w → from ≤ pointers_of g
        → HasBetween indices (data_under g Indirect j 0) (data_under g Indirect j from)
        → CutPlaces v w Indirect n (indirect_block g v n j) from (pointers_of g)
        → Trims g v w n indices
        (outside (data_under g Indirect j from) (data_under g Indirect j (pointers_of g)) indices) }
    ensures double { (g : Request) (v w : View) (n d from : ℕ) (indices : List ℕ)
        → HasShape g v n indices → IsView g w → from ≤ pointers_of g
        → HasBetween indices (data_under g Double d 0) (data_under g Double d from)
        → CutPlaces v w Double n (double_block g v n d) from (pointers_of g)
        → Trims g v w n indices
        (outside (data_under g Double d from) (data_under g Double d (pointers_of g)) indices) }
    ensures entries { (g : Request) (v w : View) (n from : ℕ) (indices : List ℕ)
        → HasShape g v n indices → IsView g w → CutEntries g v w n from (entries_of g)
        → Trims g v w n indices (before (first_in_entry g from) indices) }
    ensures twice { (g : Request) (v u w : View) (n : ℕ) (indices middle rest : List ℕ)
        → HasShape g v n indices → Trims g v u n indices middle → Trims g u w n middle rest
        → Trims g v w n indices rest }
{}

/// A node keeps its shape where the block of an entry moves, or that in a place of a pointer node.
/// With a data block made writable it has the shape of one with that data block besides.
pub fn moved_blocks_keep_the_shape()
    ensures entry { (g : Request) (c v w : View) (n e b : ℕ) (indices : List ℕ)
        → HasShape g v n indices → entry_at v n e ≢ 0
        → EntryMoved g c v w n e b → IsView g w → HasShape g w n indices }
    ensures pointer { (g : Request) (c v w : View) (n : ℕ) (form : Form) (m place b : ℕ)
        (indices : List ℕ) → HasShape g v n indices → form ≢ Plain → place < pointers_of g
        → block_at g v (numbered n form m) ≢ 0
        → pointer_at v form (block_at g v (numbered n form m)) place ≢ 0
        → PointerMoved g c v w form n (block_at g v (numbered n form m)) place b
        → IsView g w → HasShape g w n indices }
    ensures writable { (g : Request) (c v w : View) (n i : ℕ) (indices : List ℕ)
        → HasShape g v n indices → IsView g w → IsMadeWritable g c v w n i indices
        → HasShape g w n (i ∷ indices) }
{}

/// What hangs under a position of a node of some shape is sound, and so is all that hangs under the
/// entries of its inode.
pub fn trees_of_a_shaped_node_are_sound()
    ensures tree { (g : Request) (v : View) (n : ℕ) (indices : List ℕ) (form : Form) (m : ℕ)
        → HasShape g v n indices → block_at g v (numbered n form m) ≢ 0
        → IsSoundTree g v form n (block_at g v (numbered n form m)) }
    ensures inode { (g : Request) (v : View) (n from : ℕ) (indices : List ℕ)
        → HasShape g v n indices → IsSoundInode g v n from }
{}

/// A cut at an index goes through the pointer nodes that it splits, those of which something stays
/// and something goes, and what goes are the data blocks from the index on. On every view the
/// entries and places that it names are there.
pub fn a_cut_goes_through_what_stays()
    ensures through { (g : Request) (v : View) (n i : ℕ) (indices : List ℕ)
        → HasShape g v n indices → GoesThrough g indices (cut_at g v n i) }
    ensures takes { (g : Request) (v : View) (n i : ℕ) (indices : List ℕ)
        → HasShape g v n indices → TakesFrom g indices (cut_at g v n i) }
    ensures same { (g : Request) (v : View) (n i : ℕ) (indices : List ℕ)
        → HasShape g v n indices → SameBefore indices i (first_gone g (cut_at g v n i)) }
    ensures split { (g : Request) (v : View) (n i : ℕ) (indices : List ℕ) (form : Form) (m : ℕ)
        → HasShape g v n indices
        → is_split g i indices form m ≡ is_through g (cut_at g v n i) form m }
    ensures way { (g : Request) (v : View) (n i : ℕ)
        → i < max_blocks_of g → cut_at g v n i ≡ cut_of_way g v n (way_of g i) }
    ensures end { (g : Request) (v : View) (n i : ℕ)
        → max_blocks_of g ≤ i → cut_at g v n i ≡ Whole (entries_of g) }
    ensures within { (g : Request) (v : View) (n : ℕ) (way : Way)
        → IsWithinNodes g way → IsWithin g v n (cut_of_way g v n way) }
{}

/// The steps of a cut at an index leave the node with the data blocks before it. What is left stays
/// where it is, but for the pointer nodes that are split, and those become dirty. So it is with the
/// steps of any cut that goes through pointer nodes of which something stays and something goes,
/// where the same data blocks are before the index as before the first that goes.
pub fn a_cut_leaves_the_indices_before()
    ensures steps { (g : Request) (c v w : View) (n i : ℕ) (cut : Cut) (indices : List ℕ)
        → HasShape g v n indices → GoesThrough g indices cut → TakesFrom g indices cut
        → SameBefore indices i (first_gone g cut) → Steps g c v w n cut → IsView g w
        → IsCut g c v w n i indices }
    ensures at_an_index { (g : Request) (c v w : View) (n i : ℕ) (indices : List ℕ)
        → HasShape g v n indices → Steps g c v w n (cut_at g v n i) → IsView g w
        → IsCut g c v w n i indices }
{}

/// A cut is a change at its node, which removes the data blocks from the index on and makes dirty
/// what is above them and stays. The others hold what they held.
pub fn a_cut_changes_its_node()
    ensures changed { (g : Request) (c v w : View) (n i : ℕ) (indices : List ℕ)
        → HasShape g v n indices → IsCut g c v w n i indices
        → NodeChanged g v w n indices (before i indices) }
    ensures dirtied { (g : Request) (c v w : View) (n i : ℕ) (indices : List ℕ)
        → HasShape g v n indices → IsCut g c v w n i indices
        → NodeDirtied g c v w n indices (before i indices) [] (filter (λ x. nat_le i x) indices) }
    ensures contents { (g : Request) (c v w : View) (n i : ℕ) (indices : List ℕ)
        → HasShape g v n indices → IsCut g c v w n i indices
        → KeepsContents g v w n (before i indices) }
{}

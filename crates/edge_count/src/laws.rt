//! Laws over the definitions of `specs/`: functions without effects.

ghost use Rattle.std.specs.Prelude.{◌≡◌, ◌≢◌, ◌<◌, ◌≤◌, ℕ, ◌+◌, ◌-◌, ◌&&◌, not, Bool, true, false, if◌then◌else◌, List, [], ◌∷◌, ◌++◌, map, filter, flat_map, count_by, Option};
ghost use Rattle.std.specs.List.{range_with_len};
ghost use Rattle.edge_base.specs.declared.form.Form.{Form};
ghost use Rattle.edge_base.specs.declared.form.Form.TheVariants.{Plain, Indirect, Double};
ghost use Rattle.edge_base.specs.declared.geometry.Request.{Request};
ghost use Rattle.edge_base.specs.declared.node.Head.{Head};
ghost use Rattle.edge_base.specs.layout.Places.{IsGeometry, max_blocks_of};
ghost use Rattle.edge_base.specs.tree.Positions.{Position, data_at, double_at, ancestors, chain, positions_of, has, count_of};
ghost use Rattle.edge_store.specs.Changed.{has_index};
ghost use Rattle.edge_store.specs.Effects.{HeadSet, BytesSet};
ghost use Rattle.edge_store.specs.Frames.{IsNoNodeOf};
ghost use Rattle.edge_store.specs.Fresh.{is_dirty, fresh_count};
ghost use Rattle.edge_store.specs.View.{View, Inode, IsView, free_now, with_inode};
ghost use Rattle.edge_moves.specs.Sound.{numbered};
ghost use Rattle.edge_moves.specs.Writable.{IsMadeWritable, fresh_on_chain};
ghost use Rattle.edge_shape.specs.Cut.{is_split, IsCut};
ghost use Rattle.edge_shape.specs.Shape.{HasShape, before};
ghost use Rattle.edge_shape.specs.Where.{cut_need};
ghost use Rattle.edge_count.specs.Beside.{fresh_beside, row_of, table_of};
ghost use Rattle.edge_count.specs.Cuts.{removed};
ghost use Rattle.edge_count.specs.Frames.{KeepsBlocks, AreApart, AreKept, AreOfOrKept, AreElsewhere, AreAmong};
ghost use Rattle.edge_count.specs.Runs.{IsRanges, run_first, run_count};

/// Positions that are ranges of numbers are counted form by form. Those of data blocks side by side
/// are such ranges.
pub fn positions_count_by_form()
    ensures sum { (ps : List Position) (n : ℕ) (first count : Form → ℕ) (test : Position → Bool)
        → IsRanges ps n first count → count_of (filter test ps)
        ≡ count_by (λ k. test (numbered n Plain k)) (range_with_len (first Plain) (count Plain))
        + count_by (λ k. test (numbered n Indirect k))
        (range_with_len (first Indirect) (count Indirect))
        + count_by (λ k. test (numbered n Double k))
        (range_with_len (first Double) (count Double)) }
    ensures run { (g : Request) (n lo len : ℕ) → IsGeometry g
        → IsRanges (positions_of g n (range_with_len lo len)) n
        (run_first g lo len) (run_count g lo len) }
{}

/// The fresh positions of writes are those of their chains that are not dirty: of any data
/// positions, of one, of two, and of a run. A chain is counted as a set.
pub fn writes_make_their_chains_dirty()
    ensures any { (g : Request) (c v : View) (writes : List Position)
        → ((p : Position) → has writes p ≡ true → (p.form ≡ Plain) × (p.index < max_blocks_of g))
        → fresh_count g c v writes [] ≡ count_of (filter (λ p. not (is_dirty g c v p))
        (flat_map (λ p. p ∷ ancestors g p) writes)) }
    ensures one { (g : Request) (c v : View) (n i : ℕ) → i < max_blocks_of g
        → fresh_count g c v (data_at n i ∷ []) [] ≡ fresh_on_chain g c v n i }
    ensures chain { (g : Request) (c v : View) (n i : ℕ) → fresh_on_chain g c v n i
        ≡ count_of (filter (λ p. not (is_dirty g c v p)) (chain g n i)) }
    ensures two { (g : Request) (c v : View) (n i m k : ℕ)
        → i < max_blocks_of g → k < max_blocks_of g
        → fresh_count g c v (data_at n i ∷ data_at m k ∷ []) []
        ≡ count_of (filter (λ p. not (is_dirty g c v p) && not (has (chain g m k) p)) (chain g n i))
        + fresh_count g c v (data_at m k ∷ []) [] }
    ensures run { (g : Request) (c v : View) (n lo len : ℕ)
        → IsGeometry g → lo + len ≤ max_blocks_of g
        → fresh_count g c v (map (data_at n) (range_with_len lo len)) []
        ≡ count_by (λ k. not (is_dirty g c v (numbered n Plain k))) (range_with_len lo len)
        + count_by (λ k. not (is_dirty g c v (numbered n Indirect k)))
        (range_with_len (run_first g lo len Indirect) (run_count g lo len Indirect))
        + count_by (λ k. not (is_dirty g c v (numbered n Double k)))
        (range_with_len (run_first g lo len Double) (run_count g lo len Double)) }
{}

/// A cut at an index needs as many free blocks as it has fresh positions.
pub fn a_cut_needs_its_fresh_positions()
    ensures { (g : Request) (c v : View) (n i : ℕ) (indices : List ℕ)
        → HasShape g v n indices
        → fresh_count g c v [] (removed n i indices) ≡ cut_need g c v n i }
{}

/// Where the data block before the cut is written too, the fresh positions are those of its chain,
/// and the cut adds none.
pub fn a_cut_behind_a_write_adds_nothing()
    ensures write_alone { (g : Request) (c v : View) (n i : ℕ) (indices : List ℕ)
        → HasShape g v n indices → 0 < i → i ≤ max_blocks_of g
        → fresh_count g c v (data_at n (i - 1) ∷ []) (removed n i indices)
        ≡ fresh_count g c v (data_at n (i - 1) ∷ []) [] }
    ensures chain { (g : Request) (c v : View) (n i : ℕ) (indices : List ℕ)
        → HasShape g v n indices → 0 < i → i ≤ max_blocks_of g
        → fresh_count g c v (data_at n (i - 1) ∷ []) (removed n i indices)
        ≡ fresh_on_chain g c v n (i - 1) }
{}

/// A cut at an index takes no more of the blocks that are free now than it needs.
pub fn a_cut_takes_no_more_than_it_needs()
    ensures { (g : Request) (c v w : View) (n i : ℕ) (indices : List ℕ)
        → HasShape g v n indices → IsCut g c v w n i indices
        → free_now g c v ≤ free_now g c w + cut_need g c v n i }
{}

/// A write and a cut are counted together: of two nodes as a sum, and of one node, where the block
/// that is written is before the cut, without what is on its chain and is split.
pub fn a_write_and_a_cut_count_together()
    ensures apart { (g : Request) (c v : View) (n m k i : ℕ) (indices : List ℕ)
        → HasShape g v m indices → n ≢ m → k < max_blocks_of g
        → fresh_count g c v (data_at n k ∷ []) (removed m i indices)
        ≡ fresh_on_chain g c v n k + cut_need g c v m i }
    ensures same { (g : Request) (c v : View) (n k i : ℕ) (indices : List ℕ)
        → HasShape g v n indices → k < i → k < max_blocks_of g
        → fresh_count g c v (data_at n k ∷ []) (removed n i indices)
        + count_of (filter (λ p. is_split g i indices p.form p.index && not (is_dirty g c v p))
        (chain g n k))
        ≡ fresh_on_chain g c v n k + cut_need g c v n i }
{}

/// Two chains of a node are counted as one of them and what the other has besides, and those of two
/// nodes as their sum; a chain and a cut behind it, where the node has the data blocks of both, as
/// what the cut needs and what the chain has besides that of the first block that is cut off.
/// Besides itself a chain has nothing; besides one below the same indirect node its data block
/// alone, and below the same double-indirect node all but that; besides any other all.
pub fn chains_of_a_node_count_together()
    ensures two { (g : Request) (c v : View) (n i k : ℕ)
        → i < max_blocks_of g → k < max_blocks_of g
        → fresh_count g c v (data_at n i ∷ data_at n k ∷ []) []
        ≡ fresh_beside g c v n i k + fresh_on_chain g c v n k }
    ensures apart { (g : Request) (c v : View) (n m i k : ℕ) → n ≢ m
        → i < max_blocks_of g → k < max_blocks_of g
        → fresh_count g c v (data_at n i ∷ data_at m k ∷ []) []
        ≡ fresh_on_chain g c v n i + fresh_on_chain g c v m k }
    ensures cut { (g : Request) (c v : View) (n i k : ℕ) (indices : List ℕ)
        → HasShape g v n indices → i < k → i < max_blocks_of g
        → has_index indices i ≡ true → has_index indices k ≡ true
        → fresh_count g c v (data_at n i ∷ []) (removed n k indices)
        ≡ fresh_beside g c v n i k + cut_need g c v n k }
    ensures itself { (g : Request) (c v : View) (n i : ℕ) → fresh_beside g c v n i i ≡ 0 }
    ensures row { (g : Request) (c v : View) (n i k : ℕ)
        → i ≢ k → g.direct ≤ k → row_of g i ≡ row_of g k
        → fresh_beside g c v n i k ≡ (if is_dirty g c v (data_at n i) then 0 else 1) }
    ensures table { (g : Request) (c v : View) (n i k : ℕ)
        → g.direct ≤ i → g.direct ≤ k → row_of g i ≢ row_of g k
        → g.indirect ≤ row_of g i → g.indirect ≤ row_of g k → table_of g i ≡ table_of g k
        → fresh_beside g c v n i k
        + (if is_dirty g c v (double_at n (table_of g i)) then 0 else 1)
        ≡ fresh_on_chain g c v n i }
    ensures others { (g : Request) (c v : View) (n i k : ℕ) → i ≢ k
        → (g.direct ≤ i → g.direct ≤ k → row_of g i ≢ row_of g k)
        → (g.direct ≤ i → g.direct ≤ k → g.indirect ≤ row_of g i → g.indirect ≤ row_of g k
        → table_of g i ≢ table_of g k)
        → fresh_beside g c v n i k ≡ fresh_on_chain g c v n i }
{}

/// A node that goes whole makes nothing dirty, alone and besides what is at other nodes.
pub fn a_node_that_goes_whole_costs_nothing()
    ensures all { (n : ℕ) (indices : List ℕ)
        → removed n 0 indices ≡ map (data_at n) indices }
    ensures alone { (g : Request) (c v : View) (n : ℕ) (indices : List ℕ)
        → HasShape g v n indices → fresh_count g c v [] (removed n 0 indices) ≡ 0 }
    ensures besides { (g : Request) (c v : View) (n : ℕ) (indices : List ℕ)
        (writes removes : List Position)
        → HasShape g v n indices → AreElsewhere n writes → AreElsewhere n removes
        → fresh_count g c v writes (removed n 0 indices ++ removes)
        ≡ fresh_count g c v writes removes }
{}

/// The count of a change is of the positions that it names, however they are listed, and stays
/// while their nodes keep their blocks.
pub fn a_change_is_counted_by_what_it_names()
    ensures named { (g : Request) (c v : View) (ws xs rs ss : List Position)
        → ((p : Position) → has ws p ≡ has xs p) → ((p : Position) → has rs p ≡ has ss p)
        → fresh_count g c v ws rs ≡ fresh_count g c v xs ss }
    ensures kept { (g : Request) (c v w : View) (writes removes : List Position)
        → AreKept g v w writes → AreKept g v w removes
        → fresh_count g c w writes removes ≡ fresh_count g c v writes removes }
{}

/// A step takes its part from the count of a change: a data block made writable the positions of
/// its chain that are not new, a cut what it needs. The rest is counted in the view after it. What
/// is named besides is of the same node, or of nodes that keep their blocks.
pub fn a_step_takes_its_part_of_a_change()
    ensures write { (g : Request) (c v w : View) (n i : ℕ) (indices : List ℕ)
        (writes removes : List Position)
        → HasShape g v n indices → IsView g w → i < max_blocks_of g
        → IsMadeWritable g c v w n i indices
        → AreOfOrKept g v w n writes → AreOfOrKept g v w n removes
        → has removes (data_at n i) ≡ false
        → fresh_count g c v (data_at n i ∷ writes) removes
        ≡ fresh_on_chain g c v n i + fresh_count g c w writes removes }
    ensures cut { (g : Request) (c v w : View) (n i : ℕ) (indices : List ℕ)
        (writes removes : List Position)
        → HasShape g v n indices → IsCut g c v w n i indices
        → AreOfOrKept g v w n writes → AreAmong n (before i indices) writes
        → AreKept g v w removes → AreElsewhere n removes
        → fresh_count g c v writes (removed n i indices ++ removes)
        ≡ cut_need g c v n i + fresh_count g c w writes removes }
{}

/// So a change that fits before its first step gives each step its room: the first step needs no
/// more than the change, and after it the rest fits.
pub fn a_change_that_fits_has_room_for_its_steps()
    ensures write { (g : Request) (c v : View) (n i : ℕ) (writes removes : List Position)
        → i < max_blocks_of g → has removes (data_at n i) ≡ false
        → fresh_on_chain g c v n i ≤ fresh_count g c v (data_at n i ∷ writes) removes }
    ensures after_write { (g : Request) (c v w : View) (n i reserve : ℕ) (indices : List ℕ)
        (writes removes : List Position)
        → HasShape g v n indices → IsView g w → i < max_blocks_of g
        → IsMadeWritable g c v w n i indices
        → AreOfOrKept g v w n writes → AreOfOrKept g v w n removes
        → has removes (data_at n i) ≡ false
        → fresh_count g c v (data_at n i ∷ writes) removes + reserve ≤ free_now g c v
        → fresh_count g c w writes removes + reserve ≤ free_now g c w }
    ensures cut { (g : Request) (c v : View) (n i : ℕ) (indices : List ℕ)
        (writes removes : List Position)
        → HasShape g v n indices → AreElsewhere n removes
        → cut_need g c v n i ≤ fresh_count g c v writes (removed n i indices ++ removes) }
    ensures after_cut { (g : Request) (c v w : View) (n i reserve : ℕ) (indices : List ℕ)
        (writes removes : List Position)
        → HasShape g v n indices → IsCut g c v w n i indices
        → AreOfOrKept g v w n writes → AreAmong n (before i indices) writes
        → AreKept g v w removes → AreElsewhere n removes
        → fresh_count g c v writes (removed n i indices ++ removes) + reserve ≤ free_now g c v
        → fresh_count g c w writes removes + reserve ≤ free_now g c w }
{}

/// A step at one node leaves another of some shape as it was, if they have no block in common, and
/// then they have none in common afterwards.
pub fn a_step_keeps_other_nodes()
    ensures write { (g : Request) (c v w : View) (n m i : ℕ) (indices others : List ℕ)
        → HasShape g v m others → IsView g w → AreApart g v n m → m ≢ n
        → IsMadeWritable g c v w n i indices → KeepsBlocks g v w m }
    ensures write_shape { (g : Request) (c v w : View) (n m i : ℕ) (indices others : List ℕ)
        → HasShape g v m others → IsView g w → AreApart g v n m → m ≢ n
        → IsMadeWritable g c v w n i indices → HasShape g w m others }
    ensures write_apart { (g : Request) (c v w : View) (n m i : ℕ) (indices others : List ℕ)
        → HasShape g v n indices → HasShape g v m others → IsView g w → AreApart g v n m → m ≢ n
        → IsMadeWritable g c v w n i indices → AreApart g w n m }
    ensures cut { (g : Request) (c v w : View) (n m i : ℕ) (indices others : List ℕ)
        → HasShape g v m others → AreApart g v n m → m ≢ n
        → IsCut g c v w n i indices → KeepsBlocks g v w m }
    ensures cut_shape { (g : Request) (c v w : View) (n m i : ℕ) (indices others : List ℕ)
        → HasShape g v m others → AreApart g v n m → m ≢ n
        → IsCut g c v w n i indices → HasShape g w m others }
    ensures cut_apart { (g : Request) (c v w : View) (n m i : ℕ) (indices others : List ℕ)
        → HasShape g v n indices → HasShape g v m others → AreApart g v n m → m ≢ n
        → IsCut g c v w n i indices → AreApart g w n m }
{}

/// A step that sets no pointer of a node leaves it as it was: other bytes in a block that is none
/// of its pointer nodes, another head, and another number's inode.
pub fn a_step_that_sets_no_pointer_keeps_nodes()
    ensures bytes { (g : Request) (v w : View) (m b at : ℕ) (list indices : List ℕ)
        → HasShape g v m indices → IsView g w → IsNoNodeOf g v m b → BytesSet v w b at list
        → KeepsBlocks g v w m }
    ensures bytes_shape { (g : Request) (v w : View) (m b at : ℕ) (list indices : List ℕ)
        → HasShape g v m indices → IsView g w → IsNoNodeOf g v m b → BytesSet v w b at list
        → HasShape g w m indices }
    ensures head { (g : Request) (v w : View) (m n : ℕ) (head : Head) (indices : List ℕ)
        → HasShape g v m indices → IsView g w → HeadSet v w n head → KeepsBlocks g v w m }
    ensures head_shape { (g : Request) (v w : View) (m n : ℕ) (head : Head) (indices : List ℕ)
        → HasShape g v m indices → IsView g w → HeadSet v w n head → HasShape g w m indices }
    ensures inode { (g : Request) (v w : View) (m n : ℕ) (inode : Option Inode)
        (indices : List ℕ) → HasShape g v m indices → IsView g w → m ≢ n
        → w ≡ with_inode v n inode → KeepsBlocks g v w m }
    ensures inode_shape { (g : Request) (v w : View) (m n : ℕ) (inode : Option Inode)
        (indices : List ℕ) → HasShape g v m indices → IsView g w → m ≢ n
        → w ≡ with_inode v n inode → HasShape g w m indices }
{}

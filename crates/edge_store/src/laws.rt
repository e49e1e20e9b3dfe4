//! Laws over the definitions of `specs/`: functions without effects.

ghost use Rattle.std.specs.Prelude.{◌≡◌, ◌≢◌, ◌<◌, ℕ, ◌+◌, ◌++◌, [], true, false, is_some, List, map, Option, Some, None};
ghost use Rattle.edge_base.specs.declared.damage.Damage.{Damage};
ghost use Rattle.edge_base.specs.declared.form.Form.{Form};
ghost use Rattle.edge_base.specs.declared.form.Form.TheVariants.{Plain};
ghost use Rattle.edge_base.specs.declared.geometry.Request.{Request};
ghost use Rattle.edge_base.specs.declared.node.Head.{Head};
ghost use Rattle.edge_base.specs.layout.Places.{allocable_of, max_blocks_of, way_of};
ghost use Rattle.edge_base.specs.tree.Positions.{Position, count_of, above_data, positions_of_form};
ghost use Rattle.edge_store.specs.Changed.{has_index, SameMembers, NodeChanged, NodeDirtied, KeepsContents};
ghost use Rattle.edge_store.specs.Counted.{Occupy};
ghost use Rattle.edge_store.specs.Damages.{damage_at, damage_of_inode, IsDamage, IsLinked};
ghost use Rattle.edge_store.specs.Effects.{IsFresh, Taken, Copied, BlockDropped, HeadSet, InodeMade, InodeDropped, BytesSet, put_in};
ghost use Rattle.edge_store.specs.Frames.{KeepsChain, KeepsPointers, IsNoNodeOf};
ghost use Rattle.edge_store.specs.Placed.{block_at, data_block, follow, nodes_on, HasPlaces, IsOnce};
ghost use Rattle.edge_store.specs.View.{View, Block, Inode, IsView, bytes, bytes_in, content_at, entries_of_inode, with_block, with_inode, is_allocable, is_link, is_number, is_spot, is_used, is_new, free_now, free_after, free_inodes};

/// A data block is where its way leads, and the pointer nodes above it are those on the way.
pub fn blocks_lie_on_their_ways()
    ensures block { (g : Request) (v : View) (n i : ℕ) → i < max_blocks_of g
        → data_block g v n i ≡ follow v (entries_of_inode (v.inodes n)) (way_of g i) }
    ensures nodes { (g : Request) (v : View) (n i : ℕ) → i < max_blocks_of g
        → map (block_at g v) (above_data g n i)
        ≡ nodes_on v (entries_of_inode (v.inodes n)) (way_of g i) }
{}

/// The block at a position stays while the inode and the pointer nodes above the position say the
/// same.
pub fn a_kept_chain_keeps_its_block()
    ensures { (g : Request) (v w : View) (p : Position)
        → KeepsChain g v w p → block_at g w p ≡ block_at g v p }
{}

/// All blocks of a node stay while its inode and its pointer nodes say the same.
pub fn kept_pointers_keep_all_blocks()
    ensures { (g : Request) (v w : View) (p : Position)
        → KeepsPointers g v w p.number → p.index < positions_of_form g p.form
        → block_at g w p ≡ block_at g v p }
{}

/// A change of a block that is no pointer node of a node, or of another inode, keeps the node's
/// pointers.
pub fn changes_elsewhere_keep_pointers()
    ensures block { (g : Request) (v : View) (n b : ℕ) (block : Option Block)
        → IsNoNodeOf g v n b → KeepsPointers g v (with_block v b block) n }
    ensures inode { (g : Request) (v : View) (n m : ℕ) (inode : Option Inode)
        → n ≢ m → KeepsPointers g v (with_inode v m inode) n }
{}

/// Neither a data block of a node nor a block that is not used is a pointer node of it.
pub fn data_and_free_blocks_are_no_nodes()
    ensures data { (g : Request) (v : View) (n i : ℕ) (indices : List ℕ)
        → HasPlaces g v n indices → IsOnce g v n indices
        → i < max_blocks_of g → data_block g v n i ≢ 0
        → IsNoNodeOf g v n (data_block g v n i) }
    ensures free { (g : Request) (v : View) (n b : ℕ) (indices : List ℕ)
        → HasPlaces g v n indices → b ≢ 0 → v.blocks b ≡ None → IsNoNodeOf g v n b }
{}

/// The free blocks now, the positions of the last point and those written since are together all
/// allocable blocks; so are the blocks free after the next point and the positions then.
pub fn free_blocks_and_positions()
    ensures now { (g : Request) (committed working : View) (ps dirty : List Position)
        → Occupy g committed ps (is_used committed)
        → Occupy g working dirty (is_new committed working)
        → free_now g committed working + count_of ps + count_of dirty ≡ allocable_of g }
    ensures after { (g : Request) (working : View) (ps : List Position)
        → Occupy g working ps (is_used working)
        → free_after g working + count_of ps ≡ allocable_of g }
{}

/// What is not allocable is not used, block 0 among it.
pub fn only_allocable_blocks_are_used()
    ensures { (g : Request) (v : View) (b : ℕ)
        → IsView g v → is_allocable g b ≡ false → v.blocks b ≡ None }
{}

/// How the number of blocks that neither view uses changes. A block that is taken is one less. A
/// copy of a block of the last point is one less too, since that block stays in the committed view;
/// a copy of a new one changes nothing. A new block that is dropped is one more.
pub fn changes_of_free_blocks_now()
    ensures taken { (g : Request) (c v w : View) (form : Form) (owner b : ℕ)
        → Taken g c v w form owner b → free_now g c w + 1 ≡ free_now g c v }
    ensures copied_old { (g : Request) (c v w : View) (form : Form) (from b : ℕ)
        → is_used v from ≡ true → Copied g c v w form from b → is_used c from ≡ true
        → free_now g c w + 1 ≡ free_now g c v }
    ensures copied_new { (g : Request) (c v w : View) (form : Form) (from b : ℕ)
        → is_used v from ≡ true → Copied g c v w form from b
        → is_allocable g from ≡ true → c.blocks from ≡ None
        → free_now g c w ≡ free_now g c v }
    ensures dropped_old { (g : Request) (c v w : View) (b : ℕ)
        → is_used c b ≡ true → BlockDropped v w b → free_now g c w ≡ free_now g c v }
    ensures dropped_new { (g : Request) (c v w : View) (b : ℕ)
        → is_allocable g b ≡ true → is_used v b ≡ true → c.blocks b ≡ None
        → BlockDropped v w b → free_now g c v + 1 ≡ free_now g c w }
    ensures same { (g : Request) (c v w : View)
        → ((k : ℕ) → is_used w k ≡ is_used v k) → free_now g c w ≡ free_now g c v }
{}

/// How the number of blocks that the working view does not use changes: by one where a block is
/// taken or dropped, and not where one is copied. After a point it is the number of those that
/// neither view uses.
pub fn changes_of_free_blocks_after()
    ensures taken { (g : Request) (c v w : View) (form : Form) (owner b : ℕ)
        → Taken g c v w form owner b → free_after g w + 1 ≡ free_after g v }
    ensures copied { (g : Request) (c v w : View) (form : Form) (from b : ℕ)
        → is_used v from ≡ true → Copied g c v w form from b → is_allocable g from ≡ true
        → free_after g w ≡ free_after g v }
    ensures dropped { (g : Request) (v w : View) (b : ℕ)
        → is_allocable g b ≡ true → is_used v b ≡ true → BlockDropped v w b
        → free_after g v + 1 ≡ free_after g w }
    ensures point { (g : Request) (v : View) → free_now g v v ≡ free_after g v }
{}

/// Where a block is free there is one that neither view uses.
pub fn room_is_somewhere()
    ensures { (g : Request) (c v : View) → 0 < free_now g c v → (b : ℕ) × IsFresh g c v b }
{}

/// No number is without an inode exactly where none is counted.
pub fn free_inodes_are_somewhere()
    ensures none { (g : Request) (v : View) → free_inodes g v ≡ 0
        → (n : ℕ) → is_number g n ≡ true → v.inodes n ≢ None }
    ensures some { (g : Request) (v : View) (n : ℕ)
        → is_number g n ≡ true → v.inodes n ≡ None → 0 < free_inodes g v }
{}

/// How the number of numbers without an inode changes.
pub fn changes_of_free_inodes()
    ensures made { (g : Request) (v w : View) (head : Head) (n : ℕ)
        → InodeMade g v w head (Some n) → free_inodes g w + 1 ≡ free_inodes g v }
    ensures dropped { (g : Request) (v w : View) (n : ℕ)
        → is_number g n ≡ true → is_some (v.inodes n) ≡ true → InodeDropped v w n
        → free_inodes g v + 1 ≡ free_inodes g w }
    ensures same { (g : Request) (v w : View)
        → w.inodes ≡ v.inodes → free_inodes g w ≡ free_inodes g v }
{}

/// What a call meets at an inode, or at an allocable block that a pointer leads to, is damage of
/// the view. So a call that hands on what a store has told it tells damage that is there.
pub fn what_is_met_is_damage()
    ensures inode { (g : Request) (places : ℕ → ℕ) (c v : View) (n : ℕ) (damage : Damage)
        → IsView g v → damage_of_inode (v.inodes n) ≡ Some damage
        → IsDamage g places c v damage }
    ensures block { (g : Request) (places : ℕ → ℕ) (c v : View)
        (n : ℕ) (form : Form) (b : ℕ) (damage : Damage)
        → is_allocable g b ≡ true → IsLinked g v n form b
        → damage_at v form n b ≡ Some damage → IsDamage g places c v damage }
{}

/// In a node of a proper shape each link is absent, or leads to an allocable block of its form and
/// owner. So nothing of it is misread, and no pointer of it is wrong.
pub fn links_of_a_shaped_node_hold()
    ensures spot { (g : Request) (v : View) (n : ℕ) (indices : List ℕ) (form : Form) (b : ℕ)
        → HasPlaces g v n indices → IsLinked g v n form b → b ≢ 0
        → is_spot v form n b ≡ true }
    ensures link { (g : Request) (v : View) (n : ℕ) (indices : List ℕ) (form : Form) (b : ℕ)
        → IsView g v → HasPlaces g v n indices → IsLinked g v n form b → is_link g b ≡ true }
{}

/// No damage is met at a block exactly where it is used, and of the form and the owner.
pub fn spots_have_no_damage()
    ensures spot { (v : View) (form : Form) (owner b : ℕ)
        → damage_at v form owner b ≡ None → is_spot v form owner b ≡ true }
    ensures none { (v : View) (form : Form) (owner b : ℕ)
        → is_spot v form owner b ≡ true → damage_at v form owner b ≡ None }
{}

/// Two changes at one node, one after the other, are one change. What is dirty then is what both
/// have written or touched.
pub fn changes_at_a_node_add_up()
    ensures changed { (g : Request) (u v w : View) (n : ℕ) (first second third : List ℕ)
        → NodeChanged g u v n first second → NodeChanged g v w n second third
        → NodeChanged g u w n first third }
    ensures dirtied { (g : Request) (c u v w : View) (n : ℕ) (first second third : List ℕ)
        (writes removes more_writes more_removes : List ℕ)
        → NodeDirtied g c u v n first second writes removes
        → NodeDirtied g c v w n second third more_writes more_removes
        → NodeDirtied g c u w n first third (writes ++ more_writes) (removes ++ more_removes) }
{}

/// It does not matter in which order, or how often, a list names the data blocks of a node.
pub fn lists_of_the_same_indices_say_the_same()
    ensures places { (g : Request) (v : View) (n : ℕ) (one two : List ℕ)
        → SameMembers one two → HasPlaces g v n one → HasPlaces g v n two }
    ensures once { (g : Request) (v : View) (n : ℕ) (one two : List ℕ)
        → SameMembers one two → IsOnce g v n one → IsOnce g v n two }
    ensures changed { (g : Request) (v w : View) (n : ℕ) (old new old_too new_too : List ℕ)
        → SameMembers old old_too → SameMembers new new_too
        → NodeChanged g v w n old new → NodeChanged g v w n old_too new_too }
    ensures dirtied { (g : Request) (c v w : View) (n : ℕ) (old new writes removes : List ℕ)
        (old_too new_too writes_too removes_too : List ℕ)
        → SameMembers old old_too → SameMembers new new_too
        → SameMembers writes writes_too → SameMembers removes removes_too
        → NodeDirtied g c v w n old new writes removes
        → NodeDirtied g c v w n old_too new_too writes_too removes_too }
{}

/// A change at a node that does nothing, where it has the shape of a node.
pub fn a_node_may_stay_as_it_is()
    ensures changed { (g : Request) (v : View) (n : ℕ) (indices : List ℕ)
        → HasPlaces g v n indices → IsOnce g v n indices → NodeChanged g v v n indices indices }
    ensures dirtied { (g : Request) (c v : View) (n : ℕ) (indices : List ℕ)
        → HasPlaces g v n indices → IsOnce g v n indices
        → NodeDirtied g c v v n indices indices [] [] }
{}

/// Another head moves no block of its node, and changes none.
pub fn a_head_that_is_set_moves_no_block()
    ensures changed { (g : Request) (v w : View) (n : ℕ) (head : Head) (indices : List ℕ)
        → HasPlaces g v n indices → IsOnce g v n indices
        → HeadSet v w n head → NodeChanged g v w n indices indices }
    ensures dirtied { (g : Request) (c v w : View) (n : ℕ) (head : Head) (indices : List ℕ)
        → HasPlaces g v n indices → IsOnce g v n indices
        → HeadSet v w n head → NodeDirtied g c v w n indices indices [] [] }
    ensures contents { (g : Request) (v w : View) (n : ℕ) (head : Head) (indices : List ℕ)
        → HasPlaces g v n indices → IsOnce g v n indices
        → HeadSet v w n head → KeepsContents g v w n indices }
{}

/// Bytes that are set in a data block move no block of the node, and change that one alone.
pub fn bytes_that_are_set_move_no_block()
    ensures changed { (g : Request) (v w : View) (n i at : ℕ) (new indices : List ℕ)
        → HasPlaces g v n indices → IsOnce g v n indices → has_index indices i ≡ true
        → BytesSet v w (data_block g v n i) at new → NodeChanged g v w n indices indices }
    ensures dirtied { (g : Request) (c v w : View) (n i at : ℕ) (new indices : List ℕ)
        → HasPlaces g v n indices → IsOnce g v n indices → has_index indices i ≡ true
        → BytesSet v w (data_block g v n i) at new → NodeDirtied g c v w n indices indices [] [] }
    ensures set { (g : Request) (v w : View) (n i at : ℕ) (new indices : List ℕ)
        → HasPlaces g v n indices → IsOnce g v n indices → has_index indices i ≡ true
        → BytesSet v w (data_block g v n i) at new → content_at w Plain (data_block g w n i)
        ≡ bytes (put_in (bytes_in (content_at v Plain (data_block g v n i))) at new) }
    ensures others { (g : Request) (v w : View) (n i at : ℕ) (new indices : List ℕ)
        → HasPlaces g v n indices → IsOnce g v n indices → has_index indices i ≡ true
        → BytesSet v w (data_block g v n i) at new
        → (k : ℕ) → has_index indices k ≡ true → k ≢ i
        → content_at w Plain (data_block g w n k) ≡ content_at v Plain (data_block g v n k) }
{}

/// An inode that is made has no blocks and had none before. One that had none is dropped with
/// none.
pub fn inodes_come_and_go_without_blocks()
    ensures made { (g : Request) (v w : View) (n : ℕ) (head : Head)
        → InodeMade g v w head (Some n) → NodeChanged g v w n [] [] }
    ensures dropped { (g : Request) (v w : View) (n : ℕ)
        → HasPlaces g v n [] → InodeDropped v w n → NodeChanged g v w n [] [] }
    ensures dirtied { (g : Request) (c v w : View) (n : ℕ) → NodeDirtied g c v w n [] [] [] [] }
{}

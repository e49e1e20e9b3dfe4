ghost use Rattle.std.specs.Prelude.{◌≡◌, ◌≢◌, ◌↔◌, ◌≤◌, ℕ, ◌+◌, ◌++◌, ◌&&◌, nat_lt, true, is_some, List, [], map, Ok, Option, Some, None};
ghost use Rattle.edge_base.specs.commands.Events.{has_event, full};
ghost use Rattle.edge_base.specs.declared.geometry.Request.{Request};
ghost use Rattle.edge_base.specs.layout.Places.{IsGeometry, allocable_of};
ghost use Rattle.edge_base.specs.tree.Nodes.{Node, indices_of};
ghost use Rattle.edge_base.specs.tree.NodeRules.{IsNode};
ghost use Rattle.edge_base.specs.tree.Positions.{Position, data_at, has, count_of};
ghost use Rattle.edge_store.specs.Changed.{NodeDirtied};
ghost use Rattle.edge_store.specs.Effects.{HeadSet, InodeMade, InodeDropped, IsLeastFree};
ghost use Rattle.edge_store.specs.Fresh.{fresh_count};
ghost use Rattle.edge_store.specs.Frames.{IsNoNodeOf};
ghost use Rattle.edge_store.specs.Placed.{data_block, HasPlaces, IsOnce, IsShaped, IsSized, HasNode};
ghost use Rattle.edge_store.specs.View.{View, IsView, is_number, free_now, free_after, free_inodes};
ghost use Rattle.edge_shape.specs.Shape.{HasShape};
ghost use Rattle.edge_count.specs.Frames.{AreApart};
ghost use Rattle.edge_model.specs.Asked.{Asked, room};
ghost use Rattle.edge_model.specs.Asking.{IsInLimits};
ghost use Rattle.edge_model.specs.Bytes.{IsOfBytes};
ghost use Rattle.edge_model.specs.Laws.{IsDirtyUpwards};
ghost use Rattle.edge_model.specs.State.{State, Plan, Edit, first_state, point_taken, planned, dirty_of, fits, gains_by_point};
ghost use Rattle.edge_model.specs.Step.{plan, room_of};
ghost use Rattle.edge_model.specs.Tree.{Tree, links_of, with_node, free_number};
ghost use Rattle.edge_image.specs.Opens.{StandsFor};
ghost use Rattle.edge_steps.specs.Fresh.{fresh_positions_of};
ghost use Rattle.edge_steps.specs.Room.{LeavesRoom};
ghost use Rattle.edge_steps.specs.Rules.{HasTrees};
ghost use Rattle.edge_stands.specs.Dirtied.{TreeDirtied};
ghost use Rattle.edge_stands.specs.Session.{StandForState};
ghost use Rattle.edge_stands.specs.Stands.{StandsWith, NodeBecomes, HasSameBlocks, IsTied, indices_at, head_with, with_links};

/// A view stands for a tree exactly where it does with the links that the tree has, or with others
/// that are the same at the numbers of the tree.
pub fn standing_with_links()
    ensures same { (g : Request) (v : View) (t : Tree)
        → StandsFor g v t ↔ StandsWith g v t (links_of g t) }
    ensures agreed { (g : Request) (v : View) (t : Tree) (links : ℕ → ℕ)
        → StandsWith g v t links
        → ((n : ℕ) → is_some (t n) ≡ true → links n ≡ links_of g t n) → StandsFor g v t }
{}

/// What a view that stands for a tree tells of its nodes, whatever links are told: all that a call
/// over one node, or over two, asks of it. A number without a node has no data blocks.
pub fn nodes_of_a_standing_view()
    ensures number { (g : Request) (v : View) (t : Tree) (links : ℕ → ℕ) (n : ℕ)
        → IsView g v → StandsWith g v t links
        → is_some (t n) ≡ true → is_number g n ≡ true }
    ensures places { (g : Request) (v : View) (t : Tree) (links : ℕ → ℕ) (n : ℕ)
        → StandsWith g v t links → HasPlaces g v n (indices_at g (t n)) }
    ensures once { (g : Request) (v : View) (t : Tree) (links : ℕ → ℕ) (n : ℕ)
        → IsView g v → StandsWith g v t links → IsOnce g v n (indices_at g (t n)) }
    ensures shape { (g : Request) (v : View) (t : Tree) (links : ℕ → ℕ) (n : ℕ) (node : Node)
        → IsGeometry g → IsView g v → StandsWith g v t links
        → t n ≡ Some node → HasShape g v n (indices_of g node) }
    ensures shaped { (g : Request) (v : View) (t : Tree) (links : ℕ → ℕ) (n : ℕ) (node : Node)
        → IsView g v → StandsWith g v t links → t n ≡ Some node → IsShaped g v n }
    ensures sized { (g : Request) (v : View) (t : Tree) (links : ℕ → ℕ) (n : ℕ) (node : Node)
        → IsGeometry g → IsView g v → StandsWith g v t links
        → t n ≡ Some node → IsNode g node → IsSized g v n }
    ensures node { (g : Request) (v : View) (t : Tree) (links : ℕ → ℕ) (n : ℕ) (node : Node)
        → IsView g v → StandsWith g v t links
        → t n ≡ Some node → IsNode g node → HasNode g v n node }
    ensures apart { (g : Request) (v : View) (t : Tree) (links : ℕ → ℕ) (n m : ℕ)
        → IsGeometry g → IsView g v → StandsWith g v t links → n ≢ m → AreApart g v n m }
    ensures no_node { (g : Request) (v : View) (t : Tree) (links : ℕ → ℕ) (n m i : ℕ)
        → IsGeometry g → IsView g v → StandsWith g v t links
        → data_block g v n i ≢ 0 → IsNoNodeOf g v m (data_block g v n i) }
{}

/// Where a number's node has changed and no other, the view stands for the tree with that node, if
/// it stood for the one before; so also where the number has got its first node or has lost it.
/// What is dirty then is told of the tree as it is of the node.
pub fn changes_at_one_node()
    ensures stands { (g : Request) (v w : View) (t : Tree) (links : ℕ → ℕ)
        (n : ℕ) (node : Option Node) (now : ℕ)
        → IsView g v → is_number g n ≡ true
        → StandsWith g v t links → NodeBecomes g v w t n node now
        → StandsWith g w (with_node t n node) (with_links links n now) }
    ensures dirtied { (g : Request) (c v w : View) (t : Tree) (links : ℕ → ℕ)
        (n : ℕ) (node : Option Node) (now : ℕ) (writes removes : List ℕ)
        → is_number g n ≡ true → StandsWith g v t links → NodeBecomes g v w t n node now
        → NodeDirtied g c v w n (indices_at g (t n)) (indices_at g node) writes removes
        → TreeDirtied g c v w t (with_node t n node)
        (map (data_at n) writes) (map (data_at n) removes) }
{}

/// Another head makes another node with the same blocks: one with other links or another parent.
pub fn set_heads()
    ensures becomes { (g : Request) (v w : View) (t : Tree) (links : ℕ → ℕ)
        (n : ℕ) (old new : Node) (now : ℕ)
        → IsView g v → StandsWith g v t links → t n ≡ Some old → HasSameBlocks g old new
        → HeadSet v w n (head_with g now new) → NodeBecomes g v w t n (Some new) now }
    ensures stands { (g : Request) (v w : View) (t : Tree) (links : ℕ → ℕ)
        (n : ℕ) (old new : Node) (now : ℕ)
        → IsView g v → StandsWith g v t links → t n ≡ Some old → HasSameBlocks g old new
        → HeadSet v w n (head_with g now new)
        → StandsWith g w (with_node t n (Some new)) (with_links links n now) }
    ensures dirtied { (g : Request) (c v w : View) (t : Tree) (links : ℕ → ℕ)
        (n : ℕ) (old new : Node) (now : ℕ)
        → IsView g v → StandsWith g v t links → t n ≡ Some old → HasSameBlocks g old new
        → HeadSet v w n (head_with g now new)
        → TreeDirtied g c v w t (with_node t n (Some new)) [] [] }
{}

/// An inode that is made is a node without blocks, which no name may lead to yet.
pub fn made_inodes()
    ensures becomes { (g : Request) (v w : View) (t : Tree) (links : ℕ → ℕ)
        (n : ℕ) (node : Node) (now : ℕ)
        → IsView g v → StandsWith g v t links → indices_of g node ≡ []
        → InodeMade g v w (head_with g now node) (Some n) → NodeBecomes g v w t n (Some node) now }
    ensures stands { (g : Request) (v w : View) (t : Tree) (links : ℕ → ℕ)
        (n : ℕ) (node : Node) (now : ℕ)
        → IsView g v → StandsWith g v t links → indices_of g node ≡ []
        → InodeMade g v w (head_with g now node) (Some n)
        → StandsWith g w (with_node t n (Some node)) (with_links links n now) }
    ensures dirtied { (g : Request) (c v w : View) (t : Tree) (links : ℕ → ℕ)
        (n : ℕ) (node : Node) (now : ℕ)
        → IsView g v → StandsWith g v t links → indices_of g node ≡ []
        → InodeMade g v w (head_with g now node) (Some n)
        → TreeDirtied g c v w t (with_node t n (Some node)) [] [] }
{}

/// An inode that is dropped was a node without blocks.
pub fn dropped_inodes()
    ensures becomes { (g : Request) (v w : View) (t : Tree) (links : ℕ → ℕ)
        (n : ℕ) (node : Node) (now : ℕ)
        → IsView g v → StandsWith g v t links → t n ≡ Some node → indices_of g node ≡ []
        → InodeDropped v w n → NodeBecomes g v w t n None now }
    ensures stands { (g : Request) (v w : View) (t : Tree) (links : ℕ → ℕ) (n : ℕ) (node : Node)
        → IsView g v → StandsWith g v t links → t n ≡ Some node → indices_of g node ≡ []
        → InodeDropped v w n
        → StandsWith g w (with_node t n None) links }
    ensures dirtied { (g : Request) (c v w : View) (t : Tree) (links : ℕ → ℕ)
        (n : ℕ) (node : Node)
        → IsView g v → StandsWith g v t links → t n ≡ Some node → indices_of g node ≡ []
        → InodeDropped v w n → TreeDirtied g c v w t (with_node t n None) [] [] }
{}

/// Two changes of a tree, one after the other, make dirty what both write and touch, at one node or
/// at two. It does not matter in which order lists name their positions.
pub fn changes_of_a_tree_add_up()
    ensures twice { (g : Request) (c u v w : View) (r s t : Tree)
        (writes removes more_writes more_removes : List Position)
        → TreeDirtied g c u v r s writes removes
        → TreeDirtied g c v w s t more_writes more_removes
        → TreeDirtied g c u w r t (writes ++ more_writes) (removes ++ more_removes) }
    ensures none { (g : Request) (c v : View) (t : Tree) → TreeDirtied g c v v t t [] [] }
    ensures same { (g : Request) (c v w : View) (t u : Tree)
        (writes removes writes_too removes_too : List Position)
        → ((p : Position) → has writes p ≡ has writes_too p)
        → ((p : Position) → has removes p ≡ has removes_too p)
        → TreeDirtied g c v w t u writes removes
        → TreeDirtied g c v w t u writes_too removes_too }
{}

/// The dirty positions of the state after a change are those whose block is new, if they were so
/// before, and the change has made dirty what it touches.
pub fn dirty_positions_are_those_of_new_blocks()
    ensures { (g : Request) (c v w : View) (s : State) (e : Edit)
        → IsTied g c v s.tree s.dirty → IsDirtyUpwards g s
        → TreeDirtied g c v w s.tree e.tree e.writes e.removes
        → IsTied g c w e.tree (dirty_of g s e) }
{}

/// Two views stand for the state as a tree is mounted, after a change and after a point; masks and
/// descriptors do not matter.
pub fn views_stand_for_states()
    ensures mounted { (g : Request) (v : View) (t : Tree)
        → IsView g v → StandsFor g v t → StandForState g v v (first_state t) }
    ensures changed { (g : Request) (c v w : View) (s : State) (p : Plan) (e : Edit)
        → p.edit ≡ Some e → StandForState g c v s → IsDirtyUpwards g s
        → IsView g w → StandsFor g w e.tree
        → TreeDirtied g c v w s.tree e.tree e.writes e.removes
        → StandForState g c w (planned g s p) }
    ensures point { (g : Request) (c v : View) (s : State)
        → StandForState g c v s → StandForState g v v (point_taken s) }
    ensures alike { (g : Request) (c v : View) (s z : State)
        → z.tree ≡ s.tree → z.committed ≡ s.committed → z.dirty ≡ s.dirty
        → StandForState g c v s → StandForState g c v z }
{}

/// A tree leaves room exactly where three blocks will be free in the view that stands for it.
pub fn room_is_left_where_three_are_free()
    ensures { (g : Request) (v : View) (t : Tree) → IsView g v → StandsFor g v t
        → LeavesRoom g t ↔ (3 ≤ free_after g v) }
{}

/// The least number without an inode is the tree's free number, and there is none where each number
/// has an inode.
pub fn numbers_are_free_where_inodes_are()
    ensures least { (g : Request) (v : View) (t : Tree) (n : ℕ)
        → StandsFor g v t → IsLeastFree g v n → free_number g t ≡ Some n }
    ensures none { (g : Request) (v : View) (t : Tree) → StandsFor g v t
        → ((n : ℕ) → is_number g n ≡ true → v.inodes n ≢ None) → free_number g t ≡ None }
{}

/// What `space` tells is what is free in the two views that stand for the state.
pub fn space_is_what_is_free()
    ensures { (g : Request) (committed working : View) (s : State)
        → StandForState g committed working s
        → room_of g s ≡ room (record {
          now = free_now g committed working;
          after = free_after g working;
          blocks = allocable_of g;
          free_inodes = free_inodes g working;
          inodes = g.inodes;
        }) }
{}

/// A point that is taken on a full volume gains blocks exactly where more are free after the next
/// point than now.
pub fn a_point_gains_what_will_be_free()
    ensures { (g : Request) (committed working : View) (s : State)
        → StandForState g committed working s → gains_by_point g s
        ≡ (has_event s.mask full && nat_lt (free_now g committed working) (free_after g working)) }
{}

/// A change fits exactly where its fresh positions and its reserve are at most the blocks free now.
pub fn fits_by_free_blocks()
    ensures { (g : Request) (committed working : View) (s : State) (e : Edit)
        → StandForState g committed working s → IsDirtyUpwards g s
        → (fits g s e ≡ true)
        ↔ (count_of (fresh_positions_of g s e) + e.reserve ≤ free_now g committed working) }
{}

/// The fresh positions that are counted over the two views are the same, and so a change of a
/// command fits exactly where their count and the reserve are at most the blocks free now.
pub fn fits_by_fresh_count()
    ensures { (g : Request) (committed working : View) (s : State) (command : Asked)
        (p : Plan) (e : Edit)
        → IsGeometry g → IsOfBytes command → IsInLimits command
        → HasTrees g s → IsDirtyUpwards g s → StandForState g committed working s
        → plan g s command ≡ Ok p → p.edit ≡ Some e
        → (fits g s e ≡ true)
        ↔ (fresh_count g committed working e.writes e.removes + e.reserve
        ≤ free_now g committed working) }
{}

ghost use Rattle.std.specs.Prelude.{◌≡◌, ◌≢◌, ◌<◌, ◌≤◌, ℕ, ◌+◌, ◌++◌, [], true, length, nat_le, List, All, Ok, Err, Option, Some, None};
ghost use Rattle.edge_base.specs.declared.geometry.Request.{Request};
ghost use Rattle.edge_base.specs.declared.refusal.Refusal.TheVariants.{NoSpace};
ghost use Rattle.edge_base.specs.commands.Events.{has_event, full};
ghost use Rattle.edge_base.specs.layout.Places.{IsGeometry, allocable_of};
ghost use Rattle.edge_base.specs.tree.Positions.{count_of};
ghost use Rattle.edge_base.specs.tree.Nodes.{Node, directory};
ghost use Rattle.edge_base.specs.tree.Slots.{Entry, Slots};
ghost use Rattle.edge_model.specs.Asked.{Asked, space};
ghost use Rattle.edge_model.specs.Asking.{IsInLimits};
ghost use Rattle.edge_model.specs.Laws.{IsDirtySound, IsDirtyUpwards};
ghost use Rattle.edge_model.specs.Rules.{IsTree};
ghost use Rattle.edge_model.specs.Run.{run_of, closing_state, closed};
ghost use Rattle.edge_model.specs.State.{State, Plan, Edit, first_state, point_taken, dirty_of, fits, in_use};
ghost use Rattle.edge_model.specs.Step.{step, plan};
ghost use Rattle.edge_model.specs.Named.{with_slot, without_slot, placed, cleared};
ghost use Rattle.edge_model.specs.Names.{renamed};
ghost use Rattle.edge_model.specs.Tree.{Tree, is_directory, slots_at, names_of_number, with_node};
ghost use Rattle.edge_model.specs.Walk.{Found, within};
ghost use Rattle.edge_model.specs.Bytes.{IsOfBytes, IsLineOfBytes};
ghost use Rattle.edge_steps.specs.Rules.{HasTrees};
ghost use Rattle.edge_steps.specs.Room.{LeavesRoom, HasRoom, OnlyFrees};
ghost use Rattle.edge_steps.specs.Session.{IsSession};
ghost use Rattle.edge_steps.specs.Fresh.{fresh_positions_of};
ghost use Rattle.edge_steps.specs.Listed.{IsListed};
ghost use Rattle.edge_steps.specs.Naming.{slot_of, names_once};

/// A step of a state whose two trees are trees, and whose descriptors name nodes of their kind that
/// are there, leads to such a state; and the tree of each point that it takes is one.
pub fn steps_keep_trees()
    ensures step { (g : Request) (s : State) (command : Asked) → IsGeometry g → IsOfBytes command
        → HasTrees g s → HasTrees g (step g s command).state }
    ensures points { (g : Request) (s : State) (command : Asked)
        → IsGeometry g → IsOfBytes command
        → HasTrees g s → All (IsTree g) (step g s command).points }
{}

/// So a run from a tree leads to such a state, and each tree at its points is one, also at that of
/// the closing step.
pub fn runs_keep_trees()
    ensures state { (g : Request) (t : Tree) (lines : List (Option Asked))
        → IsGeometry g → All IsLineOfBytes lines
        → IsTree g t → HasTrees g (run_of g t lines).state }
    ensures points { (g : Request) (t : Tree) (lines : List (Option Asked))
        → IsGeometry g → All IsLineOfBytes lines
        → IsTree g t → All (IsTree g) (run_of g t lines).trees }
    ensures closed { (g : Request) (t : Tree) (lines : List (Option Asked))
        → IsGeometry g → All IsLineOfBytes lines
        → IsTree g t → All (IsTree g) (closed (run_of g t lines)).trees }
{}

/// Where both trees have at most the allocable blocks less three as positions, they still have
/// after a step, and so has the tree of each point that it takes.
pub fn steps_leave_room()
    ensures step { (g : Request) (s : State) (command : Asked)
        → IsDirtySound g s → HasRoom g s → HasRoom g (step g s command).state }
    ensures points { (g : Request) (s : State) (command : Asked)
        → IsDirtySound g s → HasRoom g s → All (LeavesRoom g) (step g s command).points }
{}

/// All rules of a session's state hold as a tree with room is mounted, and from then on: after each
/// step, after a point, after the closing step, and after a run.
pub fn sessions_keep_their_rules()
    ensures first { (g : Request) (t : Tree)
        → IsTree g t → LeavesRoom g t → IsSession g (first_state t) }
    ensures step { (g : Request) (s : State) (command : Asked) → IsGeometry g → IsOfBytes command
        → IsSession g s → IsSession g (step g s command).state }
    ensures point { (g : Request) (s : State) → IsSession g s → IsSession g (point_taken s) }
    ensures closing { (g : Request) (s : State) → IsSession g s → IsSession g (closing_state s) }
    ensures run { (g : Request) (t : Tree) (lines : List (Option Asked))
        → IsGeometry g → All IsLineOfBytes lines
        → IsTree g t → LeavesRoom g t → IsSession g (run_of g t lines).state }
{}

/// A change of a command that only frees makes at most three positions dirty: those of one chain.
pub fn freeing_dirties_three()
    ensures { (g : Request) (s : State) (command : Asked) (p : Plan) (e : Edit)
        → IsGeometry g → HasTrees g s → OnlyFrees g s command
        → plan g s command ≡ Ok p → p.edit ≡ Some e
        → count_of (dirty_of g s e ++ s.dirty) ≤ count_of s.dirty + 3 }
{}

/// With the event `full` in the mask a command that only frees is never refused for want of room.
pub fn freeing_finds_room()
    ensures { (g : Request) (s : State) (command : Asked) → IsGeometry g
        → HasTrees g s → LeavesRoom g s.tree → has_event s.mask full ≡ true
        → OnlyFrees g s command → (step g s command).answer ≢ Err NoSpace }
{}

/// Where the ancestors of dirty positions are dirty, a change fits exactly where the blocks in use,
/// its fresh positions and its reserve are at most the allocable blocks.
pub fn fits_by_fresh_positions()
    ensures { (g : Request) (s : State) (e : Edit) → IsDirtyUpwards g s
        → fits g s e ≡ nat_le
        (in_use g s.committed s.dirty + count_of (fresh_positions_of g s e) + e.reserve)
        (allocable_of g) }
{}

/// The data blocks after a change are those that it writes, and those that were there and that it
/// does not remove.
pub fn changes_list_their_blocks()
    ensures { (g : Request) (s : State) (command : Asked) (p : Plan) (e : Edit)
        → IsGeometry g → IsOfBytes command → IsInLimits command → HasTrees g s
        → plan g s command ≡ Ok p → p.edit ≡ Some e → IsListed g s.tree e }
{}

/// A point changes nothing of what a command does, but for what `space` tells.
pub fn a_point_changes_no_plan()
    ensures { (g : Request) (s : State) (command : Asked)
        → command ≢ space → plan g (point_taken s) command ≡ plan g s command }
{}

/// How many slots name a number after a slot is filled or cleared: one less if what it held named
/// it, and one more if what it holds does. A rename leaves the node that it moves as many names as
/// it had, and takes one from what it replaces. Kinds stay; where no slots change no names do, and
/// nothing names a number without a node.
pub fn names_are_counted()
    ensures placed { (g : Request) (t : Tree) (d slot : ℕ) (e : Entry) (n : ℕ)
        → is_directory t d ≡ true → 2 ≤ d → d < 2 + g.inodes → slot ≤ length (slots_at t d)
        → names_of_number g (placed t d slot e) n + names_once n (slot_of t d slot)
        ≡ names_of_number g t n + names_once n (Some e) }
    ensures cleared { (g : Request) (t : Tree) (d slot n : ℕ)
        → is_directory t d ≡ true → 2 ≤ d → d < 2 + g.inodes
        → names_of_number g (cleared t d slot) n + names_once n (slot_of t d slot)
        ≡ names_of_number g t n }
    ensures renamed { (g : Request) (t : Tree) (df : ℕ) (name : List ℕ) (found : Found)
        (dt : ℕ) (target : List ℕ) (slot : ℕ) (replaced : Option ℕ) (e : Entry) (n : ℕ)
        → is_directory t df ≡ true → 2 ≤ df → df < 2 + g.inodes
        → is_directory t dt ≡ true → 2 ≤ dt → dt < 2 + g.inodes
        → slot_of t df found.slot ≡ Some e → e.number ≡ found.number
        → slot ≤ length (slots_at t dt) → (dt ≡ df → slot ≢ found.slot)
        → ((m : ℕ) → replaced ≡ Some m → (slots_at t m ≡ []) × (m ≢ dt))
        → names_of_number g
        (renamed g t (within df name) found (within dt target) slot replaced).tree n
        + names_once n (slot_of t dt slot) ≡ names_of_number g t n }
    ensures same_slots { (g : Request) (t u : Tree) (n : ℕ)
        → ((d : ℕ) → slots_at u d ≡ slots_at t d)
        → names_of_number g u n ≡ names_of_number g t n }
    ensures set { (g : Request) (t : Tree) (n : ℕ) (node : Option Node) (m : ℕ)
        → slots_at (with_node t n node) n ≡ slots_at t n
        → names_of_number g (with_node t n node) m ≡ names_of_number g t m }
    ensures absent { (g : Request) (t : Tree) (n : ℕ)
        → IsTree g t → t n ≡ None → names_of_number g t n ≡ 0 }
    ensures placed_kinds { (t : Tree) (d slot : ℕ) (e : Entry) (n : ℕ) → is_directory t d ≡ true
        → is_directory (placed t d slot e) n ≡ is_directory t n }
    ensures cleared_kinds { (t : Tree) (d slot n : ℕ) → is_directory t d ≡ true
        → is_directory (cleared t d slot) n ≡ is_directory t n }
{}

/// Nodes may be set at two numbers in either order; of two at one number the second counts. A name
/// placed or cleared sets its directory.
pub fn nodes_are_set_number_by_number()
    ensures apart { (t : Tree) (n m : ℕ) (one two : Option Node) → n ≢ m
        → with_node (with_node t n one) m two ≡ with_node (with_node t m two) n one }
    ensures again { (t : Tree) (n : ℕ) (one two : Option Node)
        → with_node (with_node t n one) n two ≡ with_node t n two }
    ensures as_it_was { (t : Tree) (n : ℕ) → with_node t n (t n) ≡ t }
    ensures placed { (t : Tree) (d slot : ℕ) (e : Entry) (slots : Slots) (parent : ℕ)
        → t d ≡ Some (directory slots parent) → placed t d slot e
        ≡ with_node t d (Some (directory (with_slot slots slot e) parent)) }
    ensures cleared { (t : Tree) (d slot : ℕ) (slots : Slots) (parent : ℕ)
        → t d ≡ Some (directory slots parent) → cleared t d slot
        ≡ with_node t d (Some (directory (without_slot slots slot) parent)) }
{}

ghost use Rattle.std.specs.Prelude.{◌≡◌, ◌↔◌, ◌⊎◌, ◌≤◌, true, false, List, [], ◌∷◌, ◌++◌, length, Ok, Err, Option, Some};
ghost use Rattle.std.specs.List.{list_all};
ghost use Rattle.edge_base.specs.declared.geometry.Request.{Request};
ghost use Rattle.edge_base.specs.declared.refusal.Refusal.{Refusal};
ghost use Rattle.edge_base.specs.declared.refusal.Refusal.TheVariants.{NoSpace};
ghost use Rattle.edge_model.specs.Asked.{Asked};
ghost use Rattle.edge_model.specs.Laws.{IsDirtyWithin, IsDirtyUpwards, HasNodes, IsOpenByKind, IsCleanCommitted, IsCleanAbove, IsCleanSame, IsDirtySound, TakesNone, TakesOne, last_or, reads_only, tells_only, line_tells_only};
ghost use Rattle.edge_model.specs.Run.{run_of, next_line, closed};
ghost use Rattle.edge_model.specs.State.{State, Plan, Edit, first_state, point_taken, fits, gains_by_point};
ghost use Rattle.edge_model.specs.Step.{step, plan};
ghost use Rattle.edge_model.specs.Tree.{Tree};

/// A refused command changes nothing, but for a point that is taken on a full volume.
pub fn refused_keeps()
    ensures { (g : Request) (s : State) (command : Asked) (e : Refusal)
        → (step g s command).answer ≡ Err e
        → (((step g s command).state ≡ s) × ((step g s command).points ≡ []))
        ⊎ (((step g s command).state ≡ point_taken s) × ((step g s command).points ≡ s.tree ∷ [])
        × (e ≡ NoSpace) × (gains_by_point g s ≡ true)) }
{}

/// Room is judged last: what else refuses a command is its answer, and a change is refused for want
/// of room exactly where it does not fit, also after the point that may be taken for it.
pub fn room_comes_last()
    ensures others { (g : Request) (s : State) (command : Asked) (e : Refusal)
        → plan g s command ≡ Err e → (step g s command).answer ≡ Err e }
    ensures room { (g : Request) (s : State) (command : Asked) (p : Plan) (e : Edit)
        → plan g s command ≡ Ok p → p.edit ≡ Some e
        → ((step g s command).answer ≡ Err NoSpace)
        ↔ ((fits g s e ≡ false)
        × ((gains_by_point g s ≡ false) ⊎ (fits g (point_taken s) e ≡ false))) }
{}

/// A step takes at most two points, and the committed tree is that of the last one.
pub fn few_points()
    ensures few { (g : Request) (s : State) (command : Asked)
        → length (step g s command).points ≤ 2 }
    ensures last { (g : Request) (s : State) (command : Asked)
        → last_or s.committed (step g s command).points ≡ (step g s command).state.committed }
{}

/// The first tree of a run is the opening one; the last is the committed one, also after the
/// closing step.
pub fn last_is_committed()
    ensures first { (g : Request) (t : Tree) (lines : List (Option Asked))
        → (rest : List Tree) × ((run_of g t lines).trees ≡ t ∷ rest) }
    ensures run { (g : Request) (t : Tree) (lines : List (Option Asked))
        → last_or t (run_of g t lines).trees ≡ (run_of g t lines).state.committed }
    ensures closed { (g : Request) (t : Tree) (lines : List (Option Asked))
        → last_or t (closed (run_of g t lines)).trees
        ≡ (closed (run_of g t lines)).state.committed }
{}

/// Each dirty position stays one of the tree.
pub fn dirty_within()
    ensures { (g : Request) (s : State) (command : Asked) → IsDirtyWithin g s
        → IsDirtyWithin g (step g s command).state }
{}

/// With each dirty position its ancestors stay dirty.
pub fn dirty_has_ancestors()
    ensures { (g : Request) (s : State) (command : Asked) → IsDirtyUpwards g s
        → IsDirtyUpwards g (step g s command).state }
{}

/// A run goes on by one line, and each line has its answer.
pub fn run_grows()
    ensures line { (g : Request) (t : Tree) (lines : List (Option Asked)) (line : Option Asked)
        → run_of g t (lines ++ line ∷ []) ≡ next_line g (run_of g t lines) line }
    ensures answers { (g : Request) (t : Tree) (lines : List (Option Asked))
        → length (run_of g t lines).answers ≡ length lines }
{}

/// A command that only reads leaves the tree as it is, and the dirty positions but for a point.
pub fn step_reads()
    ensures { (g : Request) (s : State) (command : Asked) → reads_only command ≡ true
        → ((step g s command).state.tree ≡ s.tree)
        × (TakesNone s (step g s command) ⊎ TakesOne s (step g s command)) }
{}

/// Commands that tell something of the tree or the session leave the state as it is, one or many.
pub fn step_tells()
    ensures step { (g : Request) (s : State) (command : Asked) → tells_only command ≡ true
        → ((step g s command).state ≡ s) × ((step g s command).points ≡ []) }
    ensures run { (g : Request) (t : Tree) (lines : List (Option Asked))
        → list_all line_tells_only lines ≡ true
        → ((run_of g t lines).state ≡ first_state t) × ((run_of g t lines).trees ≡ t ∷ []) }
{}

/// Each position of the tree that is not dirty is one of the committed tree, and stays so: every
/// command lists the data blocks that it adds.
pub fn clean_is_committed()
    ensures { (g : Request) (s : State) (command : Asked) → IsDirtyWithin g s → IsCleanCommitted g s
        → IsCleanCommitted g (step g s command).state }
{}

/// The rules of dirty positions hold after every run, also after the closing step.
pub fn dirty_is_sound()
    ensures step { (g : Request) (s : State) (command : Asked) → IsDirtySound g s
        → IsDirtySound g (step g s command).state }
    ensures run { (g : Request) (t : Tree) (lines : List (Option Asked))
        → IsDirtySound g (run_of g t lines).state }
    ensures closed { (g : Request) (t : Tree) (lines : List (Option Asked))
        → IsDirtySound g (closed (run_of g t lines)).state }
{}

/// A data block that is not dirty has its bytes in the committed tree, and stays so: every command
/// lists the data blocks whose bytes it changes.
pub fn clean_data_is_committed()
    ensures { (g : Request) (s : State) (command : Asked) → HasNodes g s.tree → IsCleanSame g s
        → IsCleanSame g (step g s command).state }
{}

/// A pointer node that is not dirty has the data blocks of the committed tree below it, and stays
/// so: every command lists the data blocks that it adds and removes.
pub fn clean_pointers_are_committed()
    ensures { (g : Request) (s : State) (command : Asked) → HasNodes g s.tree → IsOpenByKind s
        → IsDirtyWithin g s → IsCleanAbove g s → IsCleanAbove g (step g s command).state }
{}

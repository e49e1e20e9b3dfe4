ghost use Rattle.std.specs.Prelude.{◌≡◌, ◌≤◌, ◌<◌, ◌^◌, ℕ, ◌+◌, ◌-◌, ◌∷◌, [], Bool, true, false, List, length, is_ok, is_some, if◌then◌else◌, IfOk, OnOk, Option, None, Err};
ghost use Rattle.edge_base.specs.declared.damage.Damage.{Damage};
ghost use Rattle.edge_base.specs.commands.Descriptors.{descriptor_at, most_open};
ghost use Rattle.edge_base.specs.outside.Below.{Origin, SameBelow};
ghost use Rattle.edge_base.specs.outside.Faults.{TellsCause};
ghost use Rattle.edge_model.specs.declared.ask.AskFault.TheVariants.{Damaged};
ghost use Rattle.edge_model.specs.Asked.{Asked, asked, told_by};
ghost use Rattle.edge_model.specs.Asking.{IsInLimits, damage_of, IsAt, HasCome, OpensAfter, IsInBuffer, AnswersMask, closing_points, is_quiet, mask_after, may_set_mask, may_open_or_close};
ghost use Rattle.edge_model.specs.Run.{closing_trees, closing_state};
ghost use Rattle.edge_model.specs.State.{State, Outcome};
ghost use Rattle.edge_model.specs.Step.{step};
ghost use Rattle.edge_model.specs.Tree.{Tree};

use crate::command::{Answer, Command};
use edge_base::Damage;

/// Why a session has ended.
#[derive(Clone, Copy, Debug, PartialEq, Eq)]
pub enum AskFault {
    /// The disk below failed.
    Device,
    /// What was read breaks the rules of the image.
    Damaged(Damage),
}

/// Who answers commands: a session on a volume, up to its first fault.
///
/// `stands_for` ties it to the state of a session in the model. `committed` and `under_way` say of
/// which tree the last point was, and of which one the point that a fault cut short, where `torn`
/// says that there is such a one. `may_hold` and `is_sure` are the candidates of the disk below,
/// and `is_clean` says that no change waits to be written to it. `guarded` is what was promised of
/// a cut as the object was made, and no call takes it back. `is_damage` says which damage there is
/// where the object knows what the disk below holds.
pub trait Ask {
    ghost origin: { Self → Origin };

    ghost live: { Self → Bool };

    ghost reached: { Self → ℕ };

    ghost faults: { Self → ℕ };

    ghost damage: { Self → Option Damage };

    ghost mask: { Self → ℕ };

    ghost opens: { Self → ℕ → Bool };

    ghost stands_for: { Self → State → Type 0 };

    ghost committed: { Self → Tree → Type 0 };

    ghost under_way: { Self → Tree → Type 0 };

    ghost torn: { Self → Bool };

    ghost may_hold: { Self → ℕ → List ℕ → Type 0 };

    ghost is_sure: { Self → ℕ → Type 0 };

    ghost is_clean: { Self → Type 0 };

    ghost guarded: { Self → Type 0 };

    ghost is_damage: { Self → Damage → Type 0 };

    /// Whether it may be asked: no call has answered a fault.
    fn is_live(&self) -> bool
        ensures { result ≡ live self.now };

    /// The number of points completed.
    fn points(&self) -> u64
        ensures { result ≡ reached self.now };

    /// Answers a command. The bytes that the answer tells of are the first ones of `out`. A fault
    /// ends the session.
    fn ask(&mut self, c: Command<'_>, moment: u32, out: &mut [u8]) -> Result<Answer, AskFault>
        requires live { live self.old ≡ true }
        requires points { reached self.old ≤ 2 ^ 62 }
        requires buffer { length out.old ≡ 4096 }
        requires limits { IsInLimits (asked c) }
        ensures origin { origin self.new ≡ origin self.old }
        ensures live { live self.new ≡ is_ok result }
        ensures cause { TellsCause damage_of result
            (faults self.old) (faults self.new) (damage self.old) (damage self.new) }
        ensures undamaged { (s : State) → stands_for self.old s → (d : Damage)
            → result ≡ Err (Damaged d) → ⊥ }
        ensures there { (d : Damage) → result ≡ Err (Damaged d) → is_damage self.new d }
        ensures never_falls { reached self.old ≤ reached self.new }
        ensures two_points { reached self.new ≤ reached self.old + 2 }
        ensures guarded { guarded self.old → guarded self.new }
        ensures mask { OnOk result (mask self.new ≡ mask_after (mask self.old) (asked c.entry)) }
        ensures mask_told { IfOk result (AnswersMask (mask self.old) (asked c.entry)) }
        ensures mask_stays { may_set_mask (asked c.entry) ≡ false → mask self.new ≡ mask self.old }
        ensures opens { IfOk result
            (λ a. OpensAfter (asked c.entry) a (opens self.old) (opens self.new)) }
        ensures opens_stay { may_open_or_close (asked c.entry) ≡ false
            → opens self.new ≡ opens self.old }
        ensures told { IfOk result (λ a. IsInBuffer a) }
        ensures whole_buffer { length out.new ≡ length out.old }
        ensures answer { IfOk result (λ a. (s : State) → stands_for self.old s
            → told_by a out.new ≡ (step (origin self.old).request s (asked c.entry)).answer) }
        ensures come { (s : State) → stands_for self.old s
            → HasCome result (stands_for self.new)
            (step (origin self.old).request s (asked c.entry)).state
            (step (origin self.old).request s (asked c.entry)).points
            (reached self.old) (reached self.new) }
        ensures trees { (s : State) → stands_for self.old s
            → IsAt (committed self.new) (under_way self.new) (torn self.new)
            (s.committed ∷ (step (origin self.old).request s (asked c.entry)).points)
            (reached self.new - reached self.old) }
        ensures quiet { is_clean self.old → is_quiet (mask self.old) (asked c.entry) ≡ true
            → SameBelow (may_hold self.old) (may_hold self.new)
            (is_sure self.old) (is_sure self.new) }
        ensures clean { is_clean self.old → is_quiet (mask self.old) (asked c.entry) ≡ true
            → OnOk result (is_clean self.new) };

    /// Ends the session with the point that the mask may ask for.
    fn finish(&mut self) -> Result<(), AskFault>
        requires live { live self.old ≡ true }
        requires points { reached self.old ≤ 2 ^ 62 }
        ensures origin { origin self.new ≡ origin self.old }
        ensures live { live self.new ≡ is_ok result }
        ensures cause { TellsCause damage_of result
            (faults self.old) (faults self.new) (damage self.old) (damage self.new) }
        ensures undamaged { (s : State) → stands_for self.old s → (d : Damage)
            → result ≡ Err (Damaged d) → ⊥ }
        ensures there { (d : Damage) → result ≡ Err (Damaged d) → is_damage self.new d }
        ensures guarded { guarded self.old → guarded self.new }
        ensures never_falls { reached self.old ≤ reached self.new }
        ensures one_point { reached self.new ≤ reached self.old + closing_points (mask self.old) }
        ensures closes { OnOk result
            (reached self.new ≡ reached self.old + closing_points (mask self.old)) }
        ensures mask { mask self.new ≡ mask self.old }
        ensures opens { opens self.new ≡ opens self.old }
        ensures come { (s : State) → stands_for self.old s
            → HasCome result (stands_for self.new) (closing_state s) (closing_trees s)
            (reached self.old) (reached self.new) }
        ensures trees { (s : State) → stands_for self.old s
            → IsAt (committed self.new) (under_way self.new) (torn self.new)
            (s.committed ∷ closing_trees s) (reached self.new - reached self.old) };

    // A live object has no point under way and no damage, and its last point is that of its state.
    ghost live_is_whole: { (x : Self) → live x ≡ true → torn x ≡ false };

    ghost live_is_undamaged: { (x : Self) → live x ≡ true → damage x ≡ None };

    ghost live_is_committed: { (x : Self) (s : State) → live x ≡ true → stands_for x s
        → committed x s.committed };

    // While it is live its mask and its open descriptors are those of the state.
    ghost mask_is_told: { (x : Self) (s : State) → live x ≡ true → stands_for x s
        → mask x ≡ s.mask };

    ghost opens_are_told: { (x : Self) (s : State) (h : ℕ) → live x ≡ true → stands_for x s
        → opens x h ≡ is_some (descriptor_at s.descriptors h) };

    ghost sixteen_places: { (x : Self) (s : State) → stands_for x s
        → length s.descriptors ≡ most_open };

    // The last point was of one tree, and so is one under way.
    ghost one_committed: { (x : Self) (t u : Tree) → committed x t → committed x u → t ≡ u };

    ghost one_under_way: { (x : Self) (t u : Tree) → under_way x t → under_way x u → t ≡ u };
}

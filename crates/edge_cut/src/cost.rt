ghost use Rattle.std.specs.Prelude.{◌≡◌, ◌<◌, ◌≤◌, IfOk, OnOk};
ghost use Rattle.edge_base.specs.declared.form.Form.TheVariants.{Double as DoubleForm};
ghost use Rattle.edge_base.specs.layout.Places.{entries_of, pointers_of, max_blocks_of};
ghost use Rattle.edge_base.specs.outside.Below.{SameBelow};
ghost use Rattle.edge_store.specs.Calls.{Called, KeepsPoint, Reads};
ghost use Rattle.edge_store.specs.Damages.{form_of_entry};
ghost use Rattle.edge_store.specs.State.{IsLive, IsNumber, HasInode};
ghost use Rattle.edge_tree.specs.Answers.{TellsWhatIs, NeverTangled, NeverOnShaped};
ghost use Rattle.edge_cut.specs.Through.{IsEntryCost, IsPairCost, IsCutNeed};

use crate::through::cut_through;
use edge_base::Form;
use edge_shape::Cut;
use edge_store::{Spot, Store, StoreFault};
use edge_tree::{cost_of, entry_link, pointer_link};

/// What making the block of an entry new takes.
fn entry_cost<S: Store>(s: &mut S, n: u32, entry: u32) -> Result<u32, StoreFault>
    requires live { IsLive (S.state s.old) }
    requires number { IsNumber (S.state s.old) n }
    requires there { HasInode (S.state s.old) n }
    requires entry { entry < entries_of (S.state s.old).origin.request }
    ensures called { Called (S.state s.old) (S.state s.new) result }
    ensures point { KeepsPoint (S.state s.old) (S.state s.new) }
    ensures reads { Reads (S.state s.old) (S.state s.new) result }
    ensures below { S.is_clean s.old → SameBelow
        (S.may_hold s.old) (S.may_hold s.new) (S.is_sure s.old) (S.is_sure s.new) }
    ensures clean { S.is_clean s.old → OnOk result (S.is_clean s.new) }
    ensures damage { TellsWhatIs (S.state s.old) (S.state s.new) result }
    ensures untangled { NeverTangled (S.state s.old) result }
    ensures undamaged { NeverOnShaped (S.state s.old) n result }
    ensures most { IfOk result (λ cost. cost ≤ 1) }
    ensures cost { IfOk result (IsEntryCost (S.state s.old) n entry) }
{
    let block = entry_link(s, n, entry)?;
    cost_of(s, block)
}

/// What making the double-indirect node of an entry new takes, and the indirect node in a place of
/// it.
fn pair_cost<S: Store>(s: &mut S, n: u32, entry: u32, outer: u32) -> Result<u32, StoreFault>
    requires live { IsLive (S.state s.old) }
    requires number { IsNumber (S.state s.old) n }
    requires there { HasInode (S.state s.old) n }
    requires entry { entry < entries_of (S.state s.old).origin.request }
    requires form { form_of_entry (S.state s.old).origin.request entry ≡ DoubleForm }
    requires outer { outer < pointers_of (S.state s.old).origin.request }
    ensures called { Called (S.state s.old) (S.state s.new) result }
    ensures point { KeepsPoint (S.state s.old) (S.state s.new) }
    ensures reads { Reads (S.state s.old) (S.state s.new) result }
    ensures below { S.is_clean s.old → SameBelow
        (S.may_hold s.old) (S.may_hold s.new) (S.is_sure s.old) (S.is_sure s.new) }
    ensures clean { S.is_clean s.old → OnOk result (S.is_clean s.new) }
    ensures damage { TellsWhatIs (S.state s.old) (S.state s.new) result }
    ensures untangled { NeverTangled (S.state s.old) result }
    ensures undamaged { NeverOnShaped (S.state s.old) n result }
    ensures most { IfOk result (λ cost. cost ≤ 2) }
    ensures cost { IfOk result (IsPairCost (S.state s.old) n entry outer) }
{
    let block = entry_link(s, n, entry)?;
    let top = cost_of(s, block)?;
    let at = Spot {
        block,
        form: Form::Double,
        owner: n,
    };
    let node = pointer_link(s, at, outer)?;
    Ok(top + cost_of(s, node)?)
}

/// How many free blocks `cut_from` needs, 0 to 2: for the pointer nodes that it cuts through, where
/// the last point uses them.
pub fn cut_cost<S: Store>(s: &mut S, n: u32, i: u32) -> Result<u32, StoreFault>
    requires live { IsLive (S.state s.old) }
    requires number { IsNumber (S.state s.old) n }
    requires there { HasInode (S.state s.old) n }
    requires index { i ≤ max_blocks_of (S.state s.old).origin.request }
    ensures called { Called (S.state s.old) (S.state s.new) result }
    ensures point { KeepsPoint (S.state s.old) (S.state s.new) }
    ensures reads { Reads (S.state s.old) (S.state s.new) result }
    ensures below { S.is_clean s.old → SameBelow
        (S.may_hold s.old) (S.may_hold s.new) (S.is_sure s.old) (S.is_sure s.new) }
    ensures clean { S.is_clean s.old → OnOk result (S.is_clean s.new) }
    ensures damage { TellsWhatIs (S.state s.old) (S.state s.new) result }
    ensures untangled { NeverTangled (S.state s.old) result }
    ensures undamaged { NeverOnShaped (S.state s.old) n result }
    ensures most { IfOk result (λ cost. cost ≤ 2) }
    ensures cost { IfOk result (IsCutNeed (S.state s.old) n i) }
{
    match cut_through(s, n, i)? {
        Cut::Whole { .. } => Ok(0),
        Cut::Node { entry, .. } | Cut::Top { entry, .. } => entry_cost(s, n, entry),
        Cut::Both { entry, outer, .. } => pair_cost(s, n, entry, outer),
    }
}

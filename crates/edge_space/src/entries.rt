ghost use Rattle.std.specs.Prelude.{◌≡◌, ◌<◌, ◌≤◌, ◌+◌, IfOk, OnOk};
ghost use Rattle.edge_base.specs.layout.Places.{entries_of};
ghost use Rattle.edge_base.specs.outside.Below.{SameBelow};
ghost use Rattle.edge_store.specs.Calls.{Called, KeepsPoint, Reads};
ghost use Rattle.edge_store.specs.State.{IsLive, IsNumber, HasInode};
ghost use Rattle.edge_tree.specs.Answers.{TellsWhatIs, NeverTangled, NeverOnShaped};
ghost use Rattle.edge_cut.specs.Through.{IsEntryCost};
ghost use Rattle.edge_space.specs.Counts.{AreFreshEntries};

use crate::rows::Run;
use edge_store::{Store, StoreFault};
use edge_tree::{cost_of, entry_link};

/// What making the block of an entry new takes.
pub(crate) fn entry_cost<S: Store>(s: &mut S, n: u32, entry: u32) -> Result<u32, StoreFault>
    requires live { IsLive (S.state s.old) }
    requires number { IsNumber (S.state s.old) n }
    requires there { HasInode (S.state s.old) n }
    requires entry { entry < entries_of (S.state s.old).origin.request }
    ensures called { Called (S.state s.old) (S.state s.new) result }
    ensures point { KeepsPoint (S.state s.old) (S.state s.new) }
    ensures reads { Reads (S.state s.old) (S.state s.new) result }
    ensures below { S.is_clean s.old → SameBelow
        (S.may_hold s.old) (S.may_hold s.new) (S.is_sure s.old) (S.is_sure s.new) }
    ensures clean { S.is_clean s.old → OnOk result (S.is_clean s.new) }
    ensures damage { TellsWhatIs (S.state s.old) (S.state s.new) result }
    ensures untangled { NeverTangled (S.state s.old) result }
    ensures undamaged { NeverOnShaped (S.state s.old) n result }
    ensures most { IfOk result (λ cost. cost ≤ 1) }
    ensures cost { IfOk result (IsEntryCost (S.state s.old) n entry) }
{
    let block = entry_link(s, n, entry)?;
    cost_of(s, block)
}

/// How many of the blocks of entries side by side are not new.
pub(crate) fn fresh_entries<S: Store>(s: &mut S, n: u32, run: Run) -> Result<u32, StoreFault>
    requires live { IsLive (S.state s.old) }
    requires number { IsNumber (S.state s.old) n }
    requires there { HasInode (S.state s.old) n }
    requires entries { run.first + run.count ≤ entries_of (S.state s.old).origin.request }
    ensures called { Called (S.state s.old) (S.state s.new) result }
    ensures point { KeepsPoint (S.state s.old) (S.state s.new) }
    ensures reads { Reads (S.state s.old) (S.state s.new) result }
    ensures below { S.is_clean s.old → SameBelow
        (S.may_hold s.old) (S.may_hold s.new) (S.is_sure s.old) (S.is_sure s.new) }
    ensures clean { S.is_clean s.old → OnOk result (S.is_clean s.new) }
    ensures damage { TellsWhatIs (S.state s.old) (S.state s.new) result }
    ensures untangled { NeverTangled (S.state s.old) result }
    ensures undamaged { NeverOnShaped (S.state s.old) n result }
    ensures most { IfOk result (λ fresh. fresh ≤ run.count) }
    ensures fresh { IfOk result (AreFreshEntries (S.state s.old) n run.first run.count) }
{
    let _size = s.geometry().request().block_size;
    let mut fresh = 0;
    for entry in run.first..run.first + run.count {
        fresh += entry_cost(s, n, entry)?;
    }
    Ok(fresh)
}

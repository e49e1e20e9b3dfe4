ghost use Rattle.std.specs.Prelude.{◌<◌, ◌≤◌, IfOk, OnOk};
ghost use Rattle.edge_base.specs.layout.Places.{max_blocks_of};
ghost use Rattle.edge_base.specs.outside.Below.{SameBelow};
ghost use Rattle.edge_store.specs.Calls.{Called, KeepsPoint, Reads};
ghost use Rattle.edge_store.specs.State.{IsLive, IsNumber, HasInode};
ghost use Rattle.edge_tree.specs.Answers.{TellsWhatIs, NeverTangled, NeverOnShaped};
ghost use Rattle.edge_space.specs.Beside.{IsCommon, IsFreshBeside};

use crate::entries::entry_cost;
use edge_base::Geometry;
use edge_store::{Store, StoreFault};
use edge_tree::{chain_of, cost_of};

/// What two chains of a node have in common.
#[derive(Clone, Copy, Debug, PartialEq, Eq)]
pub(crate) enum Common {
    /// All: they are one.
    Whole,
    /// The pointer nodes.
    Nodes,
    /// The double-indirect node, in this entry.
    Table(u32),
    Nothing,
}

/// What the chains of data blocks `i` and `k` have in common.
fn common_of(g: Geometry, i: u32, k: u32) -> Common
    requires first { i < max_blocks_of g }
    requires second { k < max_blocks_of g }
    ensures { IsCommon g i k result }
{
    let _most = g.max_blocks();
    let r = g.request();
    let pointers = (r.block_size - 20) / 4;
    if i == k {
        return Common::Whole;
    }
    if i < r.direct || k < r.direct {
        return Common::Nothing;
    }
    let row = (i - r.direct) / pointers;
    let other = (k - r.direct) / pointers;
    if row == other {
        return Common::Nodes;
    }
    if row < r.indirect || other < r.indirect {
        return Common::Nothing;
    }
    let table = (row - r.indirect) / pointers;
    if table == (other - r.indirect) / pointers {
        return Common::Table(r.direct + r.indirect + table);
    }
    Common::Nothing
}

/// How many positions of the chain of data block `i` are fresh, without those on the chain of data
/// block `k`.
pub(crate) fn fresh_beside<S: Store>(s: &mut S, n: u32, i: u32, k: u32) -> Result<u32, StoreFault>
    requires live { IsLive (S.state s.old) }
    requires number { IsNumber (S.state s.old) n }
    requires there { HasInode (S.state s.old) n }
    requires first { i < max_blocks_of (S.state s.old).origin.request }
    requires second { k < max_blocks_of (S.state s.old).origin.request }
    ensures called { Called (S.state s.old) (S.state s.new) result }
    ensures point { KeepsPoint (S.state s.old) (S.state s.new) }
    ensures reads { Reads (S.state s.old) (S.state s.new) result }
    ensures below { S.is_clean s.old → SameBelow
        (S.may_hold s.old) (S.may_hold s.new) (S.is_sure s.old) (S.is_sure s.new) }
    ensures clean { S.is_clean s.old → OnOk result (S.is_clean s.new) }
    ensures damage { TellsWhatIs (S.state s.old) (S.state s.new) result }
    ensures untangled { NeverTangled (S.state s.old) result }
    ensures undamaged { NeverOnShaped (S.state s.old) n result }
    ensures most { IfOk result (λ fresh. fresh ≤ 3) }
    ensures fresh { IfOk result (IsFreshBeside (S.state s.old) n i k) }
{
    let chain = chain_of(s, n, i)?;
    match common_of(s.geometry(), i, k) {
        Common::Whole => Ok(0),
        Common::Nodes => cost_of(s, chain.block),
        Common::Table(entry) => {
            let table = entry_cost(s, n, entry)?;
            Ok(chain.fresh.saturating_sub(table))
        }
        Common::Nothing => Ok(chain.fresh),
    }
}

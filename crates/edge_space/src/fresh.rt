ghost use Rattle.std.specs.Prelude.{◌≡◌, ◌+◌, ◌≤◌, IfOk, OnOk};
ghost use Rattle.edge_base.specs.outside.Below.{SameBelow};
ghost use Rattle.edge_store.specs.Calls.{Called, KeepsPoint, Reads};
ghost use Rattle.edge_store.specs.State.{IsLive};
ghost use Rattle.edge_tree.specs.Answers.{TellsWhatIs, NeverTangled};
ghost use Rattle.edge_space.specs.Answers.{AreThere, IsNeedOf, HasRoomFor, IsFreshOf, IsFitting, NeverOnNamed};
ghost use Rattle.edge_space.specs.Changes.{IsWithin};

use crate::change::Change;
use crate::run::fresh_of_bytes;
use crate::size::fresh_of_size;
use crate::slots::fresh_of_slots;
use edge_store::{Store, StoreFault};

/// The number of positions that a change makes dirty and that are not dirty yet. Each takes a free
/// block.
pub fn fresh_of<S: Store>(s: &mut S, change: &Change) -> Result<u32, StoreFault>
    requires live { IsLive (S.state s.old) }
    requires there { AreThere (S.state s.old) change.now }
    requires within { IsWithin (S.state s.old).origin.request change.now }
    ensures called { Called (S.state s.old) (S.state s.new) result }
    ensures point { KeepsPoint (S.state s.old) (S.state s.new) }
    ensures reads { Reads (S.state s.old) (S.state s.new) result }
    ensures below { S.is_clean s.old → SameBelow
        (S.may_hold s.old) (S.may_hold s.new) (S.is_sure s.old) (S.is_sure s.new) }
    ensures clean { S.is_clean s.old → OnOk result (S.is_clean s.new) }
    ensures damage { TellsWhatIs (S.state s.old) (S.state s.new) result }
    ensures untangled { NeverTangled (S.state s.old) result }
    ensures undamaged { NeverOnNamed (S.state s.old) change.now result }
    ensures need { IfOk result (IsNeedOf (S.state s.old) change.now) }
    ensures fresh { IfOk result (IsFreshOf (S.state s.old) change.now) }
{
    let _within_limits = s.geometry().request();
    match *change {
        Change::Bytes { n, at, len } => fresh_of_bytes(s, n, at, len),
        Change::Size { n, size } => fresh_of_size(s, n, size),
        Change::Slots { put, clear } => fresh_of_slots(s, put, clear),
    }
}

/// Whether a change leaves so many blocks free: its fresh positions and the reserve are at most the
/// blocks that are free now.
pub fn fits<S: Store>(s: &mut S, change: &Change, reserve: u32) -> Result<bool, StoreFault>
    requires live { IsLive (S.state s.old) }
    requires there { AreThere (S.state s.old) change.now }
    requires within { IsWithin (S.state s.old).origin.request change.now }
    ensures called { Called (S.state s.old) (S.state s.new) result }
    ensures point { KeepsPoint (S.state s.old) (S.state s.new) }
    ensures reads { Reads (S.state s.old) (S.state s.new) result }
    ensures below { S.is_clean s.old → SameBelow
        (S.may_hold s.old) (S.may_hold s.new) (S.is_sure s.old) (S.is_sure s.new) }
    ensures clean { S.is_clean s.old → OnOk result (S.is_clean s.new) }
    ensures damage { TellsWhatIs (S.state s.old) (S.state s.new) result }
    ensures untangled { NeverTangled (S.state s.old) result }
    ensures undamaged { NeverOnNamed (S.state s.old) change.now result }
    ensures room { IfOk result (HasRoomFor (S.state s.old) change.now reserve) }
    ensures fits { IfOk result (IsFitting (S.state s.old) change.now reserve) }
{
    let fresh = fresh_of(s, change)?;
    Ok(u64::from(fresh) + u64::from(reserve) <= u64::from(s.free().now))
}

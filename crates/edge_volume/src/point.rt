ghost use Rattle.std.specs.Prelude.{◌≡◌, ◌<◌, ◌-◌, ◌^◌, ◌+◌, false, OnOk, OnErr};
ghost use Rattle.edge_store.specs.State.{IsLive};
ghost use Rattle.edge_model.specs.State.{State};
ghost use Rattle.edge_volume.specs.Stopped.{fault_in};
ghost use Rattle.edge_volume.specs.Volume.{StoreStands, point_after, trees_after, points_due};
ghost use Rattle.edge_volume.specs.Parts.{EndsBy, TakesUpTo, Comes};

use edge_store::{Store, StoreFault};

/// Takes a point, where one is due.
pub fn take_point<S: Store>(s: &mut S, due: bool) -> Result<(), StoreFault>
    requires live { IsLive (S.state s.old) }
    requires points { (S.state s.old).points < 2 ^ 63 - 1 }
    ensures ends { EndsBy (fault_in result) (S.state s.old) (S.state s.new) }
    ensures most { TakesUpTo (points_due due) (S.state s.old) (S.state s.new) }
    ensures taken { OnOk result
        ((S.state s.new).points ≡ (S.state s.old).points + points_due due) }
    ensures failed { OnErr result ((S.state s.new).points ≡ (S.state s.old).points) }
    ensures none_due { due ≡ false → s.new ≡ s.old }
    ensures comes { (z : State) → StoreStands (S.state s.old) z
        → Comes (fault_in result) (S.state s.old) (S.state s.new) z
        (point_after due z) (trees_after due z) }
{
    if !due {
        return Ok(());
    }
    s.transact()
}

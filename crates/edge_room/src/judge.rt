ghost use Rattle.std.specs.Prelude.{◌≡◌, ◌<◌, ◌-◌, ◌^◌, IfOk, OnOk};
ghost use Rattle.edge_base.specs.commands.Events as event;
ghost use Rattle.edge_store.specs.Calls.{KeepsWorking};
ghost use Rattle.edge_store.specs.State.{IsLive};
ghost use Rattle.edge_model.specs.Asked.{Asked};
ghost use Rattle.edge_model.specs.State.{State, judged, gains_by_point};
ghost use Rattle.edge_space.specs.Answers.{AreThere};
ghost use Rattle.edge_space.specs.Changes.{IsWithin};
ghost use Rattle.edge_volume.specs.Stopped.{fault_in};
ghost use Rattle.edge_volume.specs.Volume.{StoreStands};
ghost use Rattle.edge_volume.specs.Parts.{EndsBy, TakesUpTo, Comes};
ghost use Rattle.edge_room.specs.Room.{Plans, HasRoomWhere};

use edge_space::{Change, fits};
use edge_store::{Store, StoreFault};

/// Whether a point on a full volume is asked for, and would free blocks.
fn gains<S: Store>(s: &S, full: bool) -> bool
    requires live { IsLive (S.state s.now) }
    ensures { (z : State) → StoreStands (S.state s.now) z
        → full ≡ event.has_event z.mask event.full
        → result ≡ gains_by_point (S.state s.now).origin.request z }
{
    let free = s.free();
    full && free.now < free.after
}

/// Whether a change fits, with so many blocks left free. Where it does not, and a point on a full
/// volume is asked for and would free blocks, one is taken, and the change is judged once more.
pub fn has_room<S: Store>(
    s: &mut S,
    full: bool,
    change: &Change,
    reserve: u32,
) -> Result<bool, StoreFault>
    requires live { IsLive (S.state s.old) }
    requires points { (S.state s.old).points < 2 ^ 63 - 1 }
    requires there { AreThere (S.state s.old) change.now }
    requires within { IsWithin (S.state s.old).origin.request change.now }
    ensures ends { EndsBy (fault_in result) (S.state s.old) (S.state s.new) }
    ensures most { TakesUpTo 1 (S.state s.old) (S.state s.new) }
    ensures reads { OnOk result (KeepsWorking (S.state s.old) (S.state s.new)) }
    ensures room { IfOk result (HasRoomWhere (S.state s.new) change.now reserve) }
    ensures judged { (z : State) (command : Asked)
        (p : Plans (S.state s.old) full change.now reserve z command)
        → let j = judged (S.state s.old).origin.request z p.done.edit in
        Comes (fault_in result) (S.state s.old) (S.state s.new) z j.state j.points }
    ensures fits { (z : State) (command : Asked)
        (p : Plans (S.state s.old) full change.now reserve z command)
        → IfOk result (λ room.
        room ≡ (judged (S.state s.old).origin.request z p.done.edit).fits) }
{
    if fits(s, change, reserve)? {
        return Ok(true);
    }
    if !gains(s, full) {
        return Ok(false);
    }
    s.transact()?;
    fits(s, change, reserve)
}

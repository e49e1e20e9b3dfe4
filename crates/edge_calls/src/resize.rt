ghost use Rattle.std.specs.Prelude.{◌≡◌, ◌≤◌, ◌^◌, ℕ, false, nat_le, if◌then◌else◌, List, Some, IfOk};
ghost use Rattle.edge_base.specs.commands.Descriptors.{descriptor_at};
ghost use Rattle.edge_base.specs.layout.Places.{max_size_of};
ghost use Rattle.edge_handles.specs.Table.{descriptor_of};
ghost use Rattle.edge_store.specs.State.{IsLive, IsNumber, HasInode};
ghost use Rattle.edge_model.specs.Asked as command;
ghost use Rattle.edge_model.specs.State.{State};
ghost use Rattle.edge_steps.specs.Session.{IsSession};
ghost use Rattle.edge_volume.specs.Stopped.{fault_of, IfAnswered};
ghost use Rattle.edge_volume.specs.Volume.{StoreStands};
ghost use Rattle.edge_volume.specs.Parts.{Looks, IsOfNoDamage};
ghost use Rattle.edge_volume.specs.Did.{Did};
ghost use Rattle.edge_calls.specs.State.{volume_of};
ghost use Rattle.edge_calls.specs.Sizes.{sizing_of, sizing_in};

use crate::handles::writable_at;
use crate::volume::Volume;
use edge_base::Refusal;
use edge_file::set_size;
use edge_handles::{Handles, Slot};
use edge_mask::Events;
use edge_model::Answer;
use edge_room::has_room;
use edge_space::Change;
use edge_store::Store;
use edge_volume::{Stop, node_head, take_point};

/// An open file that gets a size, and the blocks that this must leave free.
#[derive(Clone, Copy, Debug)]
struct Sizing {
    slot: Slot,
    reserve: u32,
}

/// The blocks that a new size must leave free: none where it is no greater than the old one.
fn reserve_of(size: u64, old: u64) -> u32
    ensures { result ≡ (if nat_le size old then 0 else 3) }
{
    if size <= old { 0 } else { 3 }
}

/// The file of a descriptor that is to get a size. One that is gone, as it may be on a damaged
/// image, is not open.
fn sizing_at<S: Store>(s: &mut S, handles: &Handles, h: u32, size: u64) -> Result<Sizing, Stop>
    requires live { IsLive (S.state s.old) }
    ensures looks { Looks S.Store (fault_of result) s.old s.new }
    ensures undamaged { (z : State) → StoreStands (S.state s.old) z
        → IsOfNoDamage (fault_of result) }
    ensures open { IfOk result (λ sizing.
        descriptor_at handles.now h ≡ Some (descriptor_of sizing.slot)) }
    ensures file { IfOk result (λ sizing. sizing.slot.directory ≡ false) }
    ensures number { IfOk result (λ sizing. IsNumber (S.state s.old) sizing.slot.number) }
    ensures there { IfOk result (λ sizing. HasInode (S.state s.old) sizing.slot.number) }
    ensures within { IfOk result (λ sizing.
        size ≤ max_size_of (S.state s.old).origin.request) }
    ensures sizing { IfAnswered result (λ r. (z : State) → StoreStands (S.state s.old) z
        → IsSession (S.state s.old).origin.request z → z.descriptors ≡ handles.now
        → sizing_in r ≡ sizing_of (S.state s.old).origin.request z h size) }
{
    let slot = writable_at(handles, h)?;
    let Some(head) = node_head(s, slot.number)? else {
        return Err(Stop::Refused(Refusal::BadDescriptor));
    };
    if size > s.geometry().max_size() {
        return Err(Stop::Refused(Refusal::TooBig));
    }
    let reserve = reserve_of(size, head.size);
    Ok(Sizing { slot, reserve })
}

impl<S: Store> Volume<S> {
    /// Gives a file a size.
    pub(crate) fn truncate(&mut self, h: u32, size: u64) -> Result<Answer, Stop>
        requires live { IsLive (S.state self.old.store) }
        requires points { (S.state self.old.store).points ≤ 2 ^ 62 }
        ensures did { (out : List ℕ) → Did (command.truncate h size) result
            (volume_of S.Store self.old) (volume_of S.Store self.new) out }
    {
        let sizing = sizing_at(&mut self.store, &self.handles, h, size)?;
        let n = sizing.slot.number;
        let change = Change::Size { n, size };
        let full = self.mask.has(Events::FULL);
        if !has_room(&mut self.store, full, &change, sizing.reserve)? {
            return Err(Stop::Refused(Refusal::NoSpace));
        }
        set_size(&mut self.store, n, size)?;
        take_point(&mut self.store, self.mask.has(Events::TRUNCATE))?;
        Ok(Answer::Done)
    }
}

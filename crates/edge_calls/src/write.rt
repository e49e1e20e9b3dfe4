ghost use Rattle.std.specs.Prelude.{◌≡◌, ◌≤◌, ◌^◌, ◌+◌, ℕ, false, nat_lt, if◌then◌else◌, List, length, Some, IfOk};
ghost use Rattle.edge_base.specs.commands.Descriptors.{descriptor_at};
ghost use Rattle.edge_base.specs.layout.Places.{max_size_of};
ghost use Rattle.edge_handles.specs.Table.{descriptor_of};
ghost use Rattle.edge_store.specs.State.{IsLive, IsNumber, HasInode};
ghost use Rattle.edge_model.specs.Asked as command;
ghost use Rattle.edge_model.specs.Asking.{IsInLimits};
ghost use Rattle.edge_model.specs.State.{State};
ghost use Rattle.edge_steps.specs.Session.{IsSession};
ghost use Rattle.edge_volume.specs.Stopped.{fault_of, IfAnswered};
ghost use Rattle.edge_volume.specs.Volume.{StoreStands};
ghost use Rattle.edge_volume.specs.Parts.{Looks, IsOfNoDamage};
ghost use Rattle.edge_volume.specs.Did.{Did};
ghost use Rattle.edge_calls.specs.State.{volume_of};
ghost use Rattle.edge_calls.specs.Writes.{target_of, targeted};

use crate::handles::writable_at;
use crate::volume::Volume;
use edge_base::{Geometry, Refusal};
use edge_file::{fill_at, write_at};
use edge_handles::{Handles, Slot};
use edge_mask::Events;
use edge_model::Answer;
use edge_room::has_room;
use edge_space::Change;
use edge_store::Store;
use edge_volume::{Stop, node_head, take_point};

/// The blocks that a write must leave free.
const RESERVE: u32 = 3;

/// An open file that bytes are written to, and where they begin.
#[derive(Clone, Copy, Debug)]
struct Place {
    slot: Slot,
    at: u64,
}

/// Where bytes begin that are written by a descriptor to a file of so many.
fn start_of(slot: &Slot, size: u64) -> u64
    ensures { result ≡ (if slot.now.append then size else slot.now.at) }
{
    if slot.append { size } else { slot.at }
}

/// Whether so many bytes from a place on end past the greatest size.
fn is_past(most: u64, at: u64, len: u32) -> bool
    ensures { result ≡ nat_lt most (at + len) }
{
    at > most || u64::from(len) > most - at
}

/// The place behind so many bytes of a file.
fn end_of(g: Geometry, at: u64, len: u32) -> u64
    requires { at + len ≤ max_size_of g }
    ensures { result ≡ at + len }
{
    let _most = g.max_size();
    at + u64::from(len)
}

/// Where so many bytes are written by a descriptor: with append at the end of the file. A file that
/// is gone, as it may be on a damaged image, is not open.
fn place_of<S: Store>(s: &mut S, handles: &Handles, h: u32, len: u32) -> Result<Place, Stop>
    requires live { IsLive (S.state s.old) }
    ensures looks { Looks S.Store (fault_of result) s.old s.new }
    ensures undamaged { (z : State) → StoreStands (S.state s.old) z
        → IsOfNoDamage (fault_of result) }
    ensures open { IfOk result (λ place.
        descriptor_at handles.now h ≡ Some (descriptor_of place.slot)) }
    ensures file { IfOk result (λ place. place.slot.directory ≡ false) }
    ensures number { IfOk result (λ place. IsNumber (S.state s.old) place.slot.number) }
    ensures there { IfOk result (λ place. HasInode (S.state s.old) place.slot.number) }
    ensures within { IfOk result (λ place.
        place.at + len ≤ max_size_of (S.state s.old).origin.request) }
    ensures place { IfAnswered result (λ r. (z : State) → StoreStands (S.state s.old) z
        → IsSession (S.state s.old).origin.request z → z.descriptors ≡ handles.now
        → targeted r ≡ target_of (S.state s.old).origin.request z h len) }
{
    let slot = writable_at(handles, h)?;
    let Some(head) = node_head(s, slot.number)? else {
        return Err(Stop::Refused(Refusal::BadDescriptor));
    };
    let at = start_of(&slot, head.size);
    if is_past(s.geometry().max_size(), at, len) {
        return Err(Stop::Refused(Refusal::TooBig));
    }
    Ok(Place { slot, at })
}

impl<S: Store> Volume<S> {
    /// Writes bytes to a file.
    pub(crate) fn write(&mut self, h: u32, bytes: &[u8]) -> Result<Answer, Stop>
        requires live { IsLive (S.state self.old.store) }
        requires points { (S.state self.old.store).points ≤ 2 ^ 62 }
        requires limits { IsInLimits (command.write h bytes.now) }
        ensures did { (out : List ℕ) → Did (command.write h bytes.now) result
            (volume_of S.Store self.old) (volume_of S.Store self.new) out }
    {
        let len = bytes.len() as u32;
        let place = place_of(&mut self.store, &self.handles, h, len)?;
        let n = place.slot.number;
        let at = place.at;
        let end = end_of(self.store.geometry(), at, len);
        let change = Change::Bytes { n, at, len };
        if !has_room(
            &mut self.store,
            self.mask.has(Events::FULL),
            &change,
            RESERVE,
        )? {
            return Err(Stop::Refused(Refusal::NoSpace));
        }
        write_at(&mut self.store, n, at, bytes)?;
        let _open = self.handles.move_to(h, end);
        take_point(&mut self.store, self.mask.has(Events::WRITE))?;
        Ok(Answer::Number(u64::from(len)))
    }

    /// Writes a byte again and again to a file.
    pub(crate) fn fill(&mut self, h: u32, count: u32, byte: u8) -> Result<Answer, Stop>
        requires live { IsLive (S.state self.old.store) }
        requires points { (S.state self.old.store).points ≤ 2 ^ 62 }
        requires limits { IsInLimits (command.fill h count byte) }
        ensures did { (out : List ℕ) → Did (command.fill h count byte) result
            (volume_of S.Store self.old) (volume_of S.Store self.new) out }
    {
        let place = place_of(&mut self.store, &self.handles, h, count)?;
        let n = place.slot.number;
        let at = place.at;
        let end = end_of(self.store.geometry(), at, count);
        let change = Change::Bytes { n, at, len: count };
        if !has_room(
            &mut self.store,
            self.mask.has(Events::FULL),
            &change,
            RESERVE,
        )? {
            return Err(Stop::Refused(Refusal::NoSpace));
        }
        fill_at(&mut self.store, n, at, count, byte)?;
        let _open = self.handles.move_to(h, end);
        take_point(&mut self.store, self.mask.has(Events::WRITE))?;
        Ok(Answer::Number(u64::from(count)))
    }
}

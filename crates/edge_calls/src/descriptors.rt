ghost use Rattle.std.specs.Prelude.{◌≡◌, ◌≤◌, ◌^◌, ℕ, List, Ok, true};
ghost use Rattle.edge_store.specs.State.{IsLive};
ghost use Rattle.edge_model.specs.Asked as command;
ghost use Rattle.edge_model.specs.Asking.{is_quiet};
ghost use Rattle.edge_mask.specs.Mask.{mask_of};
ghost use Rattle.edge_volume.specs.Stopped.{fault_of};
ghost use Rattle.edge_volume.specs.Parts.{KeepsBelow};
ghost use Rattle.edge_volume.specs.Did.{Did};
ghost use Rattle.edge_calls.specs.State.{volume_of};

use crate::handles::{directory_at, file_at, open_at};
use crate::volume::Volume;
use edge_base::Refusal;
use edge_mask::Events;
use edge_model::Answer;
use edge_store::Store;
use edge_volume::{Stop, take_point};

impl<S: Store> Volume<S> {
    /// Closes a descriptor.
    pub(crate) fn close(&mut self, h: u32) -> Result<Answer, Stop>
        requires live { IsLive (S.state self.old.store) }
        requires points { (S.state self.old.store).points ≤ 2 ^ 62 }
        ensures did { (out : List ℕ) → Did (command.close h) result
            (volume_of S.Store self.old) (volume_of S.Store self.new) out }
        ensures below { is_quiet (mask_of self.old.mask) (command.close h) ≡ true
            → KeepsBelow S.Store (fault_of result) self.old.store self.new.store }
    {
        if !self.handles.leave(h) {
            return Err(Stop::Refused(Refusal::BadDescriptor));
        }
        take_point(&mut self.store, self.mask.has(Events::CLOSE))?;
        Ok(Answer::Done)
    }

    /// Sets the position of a file.
    pub(crate) fn seek(&mut self, h: u32, to: u64) -> Result<Answer, Stop>
        requires live { IsLive (S.state self.old.store) }
        ensures store { self.new.store ≡ self.old.store }
        ensures did { (out : List ℕ) → Did (command.seek h to) result
            (volume_of S.Store self.old) (volume_of S.Store self.new) out }
        ensures below { KeepsBelow S.Store (fault_of result) self.old.store self.new.store }
    {
        file_at(&self.handles, h)?;
        if to > self.store.geometry().max_size() {
            return Err(Stop::Refused(Refusal::Invalid));
        }
        let _open = self.handles.move_to(h, to);
        Ok(Answer::Done)
    }

    /// Takes a point where the mask asks for one.
    pub(crate) fn fsync(&mut self, h: u32) -> Result<Answer, Stop>
        requires live { IsLive (S.state self.old.store) }
        requires points { (S.state self.old.store).points ≤ 2 ^ 62 }
        ensures did { (out : List ℕ) → Did (command.fsync h) result
            (volume_of S.Store self.old) (volume_of S.Store self.new) out }
    {
        open_at(&self.handles, h)?;
        take_point(&mut self.store, self.mask.has(Events::FSYNC))?;
        Ok(Answer::Done)
    }

    /// Goes back to the first slot of a directory.
    pub(crate) fn rewind(&mut self, h: u32) -> Result<Answer, Stop>
        requires live { IsLive (S.state self.old.store) }
        ensures store { self.new.store ≡ self.old.store }
        ensures did { (out : List ℕ) → Did (command.rewind h) result
            (volume_of S.Store self.old) (volume_of S.Store self.new) out }
        ensures below { KeepsBelow S.Store (fault_of result) self.old.store self.new.store }
    {
        directory_at(&self.handles, h)?;
        let _open = self.handles.move_to(h, 0);
        Ok(Answer::Done)
    }
}

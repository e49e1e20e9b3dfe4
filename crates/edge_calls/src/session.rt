ghost use Rattle.std.specs.Prelude.{◌≡◌, ◌≤◌, ◌^◌, ℕ, List, Ok};
ghost use Rattle.edge_store.specs.State.{IsLive};
ghost use Rattle.edge_model.specs.Asked as command;
ghost use Rattle.edge_volume.specs.Did.{Did};
ghost use Rattle.edge_calls.specs.State.{volume_of};

use crate::volume::Volume;
use edge_base::Refusal;
use edge_mask::Events;
use edge_model::{Answer, Room};
use edge_store::Store;
use edge_volume::{Stop, take_point};

impl<S: Store> Volume<S> {
    /// The blocks and the inodes that are free.
    pub(crate) fn space(&self) -> Answer
        requires live { IsLive (S.state self.now.store) }
        ensures did { (out : List ℕ) → Did command.space (Ok result)
            (volume_of S.Store self.now) (volume_of S.Store self.now) out }
    {
        let g = self.store.geometry();
        let free = self.store.free();
        Answer::Space(Room {
            now: free.now,
            after: free.after,
            blocks: g.allocable(),
            free_inodes: self.store.free_inodes(),
            inodes: g.request().inodes,
        })
    }

    /// The events after which points are taken.
    pub(crate) fn tell_mask(&self) -> Answer
        requires live { IsLive (S.state self.now.store) }
        ensures did { (out : List ℕ) → Did command.mask (Ok result)
            (volume_of S.Store self.now) (volume_of S.Store self.now) out }
    {
        Answer::Number(u64::from(self.mask.number()))
    }

    /// Sets the events after which points are taken.
    pub(crate) fn set_mask(&mut self, events: u32) -> Result<Answer, Stop>
        requires live { IsLive (S.state self.old.store) }
        ensures store { self.new.store ≡ self.old.store }
        ensures did { (out : List ℕ) → Did (command.set_mask events) result
            (volume_of S.Store self.old) (volume_of S.Store self.new) out }
    {
        let Some(mask) = Events::from_number(events) else {
            return Err(Stop::Refused(Refusal::Invalid));
        };
        self.mask = mask;
        Ok(Answer::Done)
    }

    /// Takes a point.
    pub(crate) fn transact(&mut self) -> Result<Answer, Stop>
        requires live { IsLive (S.state self.old.store) }
        requires points { (S.state self.old.store).points ≤ 2 ^ 62 }
        ensures did { (out : List ℕ) → Did command.transact result
            (volume_of S.Store self.old) (volume_of S.Store self.new) out }
    {
        take_point(&mut self.store, true)?;
        Ok(Answer::Done)
    }
}

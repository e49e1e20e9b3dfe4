ghost use Rattle.std.specs.Prelude.{◌≡◌, ℕ, List};
ghost use Rattle.edge_store.specs.State.{IsLive};
ghost use Rattle.edge_model.specs.Asked as command;
ghost use Rattle.edge_volume.specs.Stopped.{fault_of};
ghost use Rattle.edge_volume.specs.Parts.{KeepsBelow};
ghost use Rattle.edge_volume.specs.Did.{Did};
ghost use Rattle.edge_calls.specs.State.{volume_of, status_in};

use crate::handles::open_at;
use crate::volume::Volume;
use edge_base::{Head, Refusal};
use edge_model::{Answer, Status};
use edge_store::Store;
use edge_volume::{Stop, node_head};
use edge_walk::{named_head, reach};

/// What the head of a node tells of it.
fn told(number: u32, head: Head) -> Answer
    ensures { result ≡ Answer.Stat (status_in number head) }
{
    Answer::Stat(Status {
        number,
        kind: head.kind,
        size: head.size,
        links: head.links,
    })
}

impl<S: Store> Volume<S> {
    /// What a path leads to.
    pub(crate) fn stat(&mut self, path: &[u8]) -> Result<Answer, Stop>
        requires live { IsLive (S.state self.old.store) }
        ensures did { (out : List ℕ) → Did (command.stat path.now) result
            (volume_of S.Store self.old) (volume_of S.Store self.new) out }
        ensures below { KeepsBelow S.Store (fault_of result) self.old.store self.new.store }
    {
        let number = reach(&mut self.store, path)?;
        let head = named_head(&mut self.store, number)?;
        Ok(told(number, head))
    }

    /// What an open node is. One that is gone, as it may be on a damaged image, is not open.
    pub(crate) fn fstat(&mut self, h: u32) -> Result<Answer, Stop>
        requires live { IsLive (S.state self.old.store) }
        ensures did { (out : List ℕ) → Did (command.fstat h) result
            (volume_of S.Store self.old) (volume_of S.Store self.new) out }
        ensures below { KeepsBelow S.Store (fault_of result) self.old.store self.new.store }
    {
        let slot = open_at(&self.handles, h)?;
        let Some(head) = node_head(&mut self.store, slot.number)? else {
            return Err(Stop::Refused(Refusal::BadDescriptor));
        };
        Ok(told(slot.number, head))
    }
}

ghost use Rattle.std.specs.Prelude.{◌≡◌, length};
ghost use Rattle.edge_store.specs.State.{IsLive};
ghost use Rattle.edge_model.specs.Asked as command;
ghost use Rattle.edge_model.specs.Asking.{IsInLimits};
ghost use Rattle.edge_volume.specs.Stopped.{fault_of};
ghost use Rattle.edge_volume.specs.Parts.{KeepsBelow};
ghost use Rattle.edge_volume.specs.Did.{Did};
ghost use Rattle.edge_calls.specs.State.{volume_of};

use crate::handles::{file_at, open_head};
use crate::volume::Volume;
use edge_base::Refusal;
use edge_file::read_at;
use edge_model::Answer;
use edge_store::Store;
use edge_volume::Stop;

impl<S: Store> Volume<S> {
    /// Reads bytes of a file from its position on, up to its end, and moves the position.
    pub(crate) fn read(&mut self, h: u32, count: u32, out: &mut [u8]) -> Result<Answer, Stop>
        requires live { IsLive (S.state self.old.store) }
        requires buffer { length out.old ≡ 4096 }
        requires limits { IsInLimits (command.read h count) }
        ensures did { Did (command.read h count) result
            (volume_of S.Store self.old) (volume_of S.Store self.new) out.new }
        ensures below { KeepsBelow S.Store (fault_of result) self.old.store self.new.store }
        ensures whole_buffer { length out.new ≡ length out.old }
    {
        let slot = file_at(&self.handles, h)?;
        if !slot.read {
            return Err(Stop::Refused(Refusal::BadDescriptor));
        }
        let head = open_head(&mut self.store, slot.number)?;
        if slot.at >= head.size {
            return Ok(Answer::End);
        }
        let len = (head.size - slot.at).min(u64::from(count)) as usize;
        let done = read_at(&mut self.store, slot.number, slot.at, &mut out[..len])?;
        let _open = self.handles.move_to(h, slot.at + u64::from(done));
        Ok(Answer::Bytes(done))
    }
}

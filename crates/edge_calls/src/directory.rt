ghost use Rattle.std.specs.Prelude.{◌≡◌, ◌<◌, ◌≤◌, ◌+◌, ◌^◌, ℕ, List, length, drop, IfOk, IfSome};
ghost use Rattle.edge_store.specs.State.{IsLive};
ghost use Rattle.edge_model.specs.Asked as command;
ghost use Rattle.edge_model.specs.Open.{first_filled};
ghost use Rattle.edge_model.specs.Tree.{slots_at};
ghost use Rattle.edge_volume.specs.Nodes.{OnTree};
ghost use Rattle.edge_volume.specs.Parts.{KeepsBelow, Looks, IsOfNoDamage};
ghost use Rattle.edge_volume.specs.Stopped.{fault_in, fault_of};
ghost use Rattle.edge_volume.specs.Did.{Did};
ghost use Rattle.edge_walk.specs.Reached.{IsHolder};
ghost use Rattle.edge_calls.specs.Entries.{filled_in};
ghost use Rattle.edge_calls.specs.State.{volume_of};

use crate::handles::{directory_at, open_holder};
use crate::volume::Volume;
use edge_base::Refusal;
use edge_dir::{entry_at, slots};
use edge_handles::Slot;
use edge_model::Answer;
use edge_store::{Store, StoreFault};
use edge_volume::Stop;
use edge_walk::{enter, reach};

/// A filled slot of a directory, with the number and the length of the name that it has.
#[derive(Clone, Copy, Debug)]
pub(crate) struct Filled {
    pub(crate) slot: u64,
    pub(crate) number: u32,
    pub(crate) len: u32,
}

/// The first filled slot of a directory from one on. The bytes of its name are put first into a
/// list of 252.
fn next_filled<S: Store>(
    s: &mut S,
    d: u32,
    at: u64,
    name: &mut [u8],
) -> Result<Option<Filled>, StoreFault>
    requires live { IsLive (S.state s.old) }
    requires holder { IsHolder (S.state s.old) d }
    requires room { length name.old ≡ 252 }
    ensures looks { Looks S.Store (fault_in result) s.old s.new }
    ensures undamaged { OnTree (S.state s.old) (λ t. IsOfNoDamage (fault_in result)) }
    ensures most { IfOk result (λ filled. IfSome filled (λ f. f.len ≤ 252)) }
    ensures behind { IfOk result (λ filled. IfSome filled (λ f. f.slot + 1 < 2 ^ 64)) }
    ensures next { IfOk result (λ filled. OnTree (S.state s.old)
        (λ t. filled_in name.new filled ≡ first_filled at (drop at (slots_at t d)))) }
{
    let _within_limits = s.geometry().request();
    let count = slots(s, d)?;
    for slot in at..count {
        match entry_at(s, d, slot, name)? {
            Some((number, len)) => return Ok(Some(Filled { slot, number, len })),
            None => {}
        }
    }
    Ok(None)
}

impl<S: Store> Volume<S> {
    /// Opens a directory.
    pub(crate) fn open_dir(&mut self, path: &[u8]) -> Result<Answer, Stop>
        requires live { IsLive (S.state self.old.store) }
        ensures did { (out : List ℕ) → Did (command.open_dir path.now) result
            (volume_of S.Store self.old) (volume_of S.Store self.new) out }
        ensures below { KeepsBelow S.Store (fault_of result) self.old.store self.new.store }
    {
        let number = reach(&mut self.store, path)?;
        enter(&mut self.store, number)?;
        let entered = self.handles.enter(Slot {
            number,
            directory: true,
            read: false,
            write: false,
            append: false,
            at: 0,
        });
        match entered {
            Some(h) => Ok(Answer::Number(u64::from(h))),
            None => Err(Stop::Refused(Refusal::TooManyOpen)),
        }
    }

    /// The next entry of a directory: its number is told, and its name put into a buffer.
    pub(crate) fn read_dir(&mut self, h: u32, out: &mut [u8]) -> Result<Answer, Stop>
        requires live { IsLive (S.state self.old.store) }
        requires buffer { length out.old ≡ 4096 }
        ensures did { Did (command.read_dir h) result
            (volume_of S.Store self.old) (volume_of S.Store self.new) out.new }
        ensures below { KeepsBelow S.Store (fault_of result) self.old.store self.new.store }
        ensures whole_buffer { length out.new ≡ length out.old }
    {
        let slot = directory_at(&self.handles, h)?;
        open_holder(&mut self.store, slot.number)?;
        match next_filled(&mut self.store, slot.number, slot.at, &mut out[..252])? {
            Some(filled) => {
                let _open = self.handles.move_to(h, filled.slot + 1);
                Ok(Answer::Entry {
                    number: filled.number,
                    len: filled.len,
                })
            }
            None => Ok(Answer::End),
        }
    }
}

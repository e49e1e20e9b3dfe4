ghost use Rattle.std.specs.Prelude.{◌≡◌, ◌<◌, ◌≤◌, ◌/◌, ◌^◌, ℕ, List, length, IfOk};
ghost use Rattle.edge_base.specs.layout.Places.{max_blocks_of};
ghost use Rattle.edge_base.specs.tree.Slots.{slots_in_block};
ghost use Rattle.edge_store.specs.State.{IsLive};
ghost use Rattle.edge_model.specs.Asked as command;
ghost use Rattle.edge_volume.specs.Nodes.{OnTree};
ghost use Rattle.edge_volume.specs.Parts.{Looks, IsOfNoDamage};
ghost use Rattle.edge_volume.specs.Stopped.{fault_of, IfAnswered};
ghost use Rattle.edge_volume.specs.Did.{Did};
ghost use Rattle.edge_walk.specs.Reached.{IsHolder};
ghost use Rattle.edge_calls.specs.State.{volume_of};
ghost use Rattle.edge_calls.specs.Makes.{node_place_at, vacated};

use crate::vacant::{Vacancy, node_place};
use crate::volume::Volume;
use edge_base::{NodeType, Refusal};
use edge_mask::Events;
use edge_model::Answer;
use edge_names::make_node;
use edge_room::has_room;
use edge_space::{Change, SlotAt};
use edge_store::Store;
use edge_volume::{Stop, take_point};
use edge_walk::spot_at;

/// The blocks that a new name must leave free.
const RESERVE: u32 = 3;

/// Where a path puts the name of a new node.
fn node_place_at<'a, S: Store>(s: &mut S, path: &'a [u8]) -> Result<Vacancy<'a>, Stop>
    requires live { IsLive (S.state s.old) }
    ensures looks { Looks S.Store (fault_of result) s.old s.new }
    ensures undamaged { OnTree (S.state s.old) (λ t. IsOfNoDamage (fault_of result)) }
    ensures place { IfAnswered result (λ r. OnTree (S.state s.old)
        (λ t. vacated r ≡ node_place_at (S.state s.old).origin.request t path.now)) }
    ensures holder { IfOk result (λ at. IsHolder (S.state s.new) at.d) }
    ensures block { IfOk result (λ at. at.slot / slots_in_block (S.state s.old).origin.request
        < max_blocks_of (S.state s.old).origin.request) }
    ensures short { IfOk result (λ at.
        length at.name.now ≤ (S.state s.old).origin.request.name_max) }
{
    let spot = spot_at(s, path)?;
    node_place(s, spot)
}

impl<S: Store> Volume<S> {
    /// Makes a directory.
    pub(crate) fn make_dir(&mut self, path: &[u8]) -> Result<Answer, Stop>
        requires live { IsLive (S.state self.old.store) }
        requires points { (S.state self.old.store).points ≤ 2 ^ 62 }
        ensures did { (out : List ℕ) → Did (command.make_dir path.now) result
            (volume_of S.Store self.old) (volume_of S.Store self.new) out }
    {
        let _within_limits = self.store.geometry().request();
        let at = node_place_at(&mut self.store, path)?;
        let put = SlotAt {
            dir: at.d,
            slot: at.slot,
        };
        let change = Change::Slots {
            put: Some(put),
            clear: None,
        };
        let full = self.mask.has(Events::FULL);
        if !has_room(&mut self.store, full, &change, RESERVE)? {
            return Err(Stop::Refused(Refusal::NoSpace));
        }
        let kind = NodeType::Directory;
        let Some(_) = make_node(&mut self.store, kind, at.d, at.slot, at.name)? else {
            return Err(Stop::Refused(Refusal::NoInodes));
        };
        take_point(&mut self.store, self.mask.has(Events::MKDIR))?;
        Ok(Answer::Done)
    }
}

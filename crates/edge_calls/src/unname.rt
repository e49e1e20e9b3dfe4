ghost use Rattle.std.specs.Prelude.{◌≡◌, ◌≤◌, ◌&&◌, ◌^◌, ℕ, List, Some, IfOk, OnOk};
ghost use Rattle.edge_base.specs.commands.Descriptors.{is_open};
ghost use Rattle.edge_store.specs.Calls.{KeepsPoint};
ghost use Rattle.edge_store.specs.State.{IsLive};
ghost use Rattle.edge_model.specs.Asked as command;
ghost use Rattle.edge_model.specs.Asked.{Asked};
ghost use Rattle.edge_model.specs.Names.{plan_unlink, plan_remove_dir};
ghost use Rattle.edge_model.specs.Rules.{IsTree};
ghost use Rattle.edge_model.specs.State.{State};
ghost use Rattle.edge_volume.specs.Stopped.{fault_in, fault_of, IfAnswered};
ghost use Rattle.edge_volume.specs.Volume.{StoreStands};
ghost use Rattle.edge_volume.specs.Nodes.{OnTree, head_at};
ghost use Rattle.edge_volume.specs.Parts.{EndsBy, Looks, IsOfNoDamage};
ghost use Rattle.edge_volume.specs.Did.{Did};
ghost use Rattle.edge_names.specs.Unnamed.{NeverUnnaming};
ghost use Rattle.edge_calls.specs.State.{volume_of};
ghost use Rattle.edge_calls.specs.Unnaming.{IsNamedNode, IsLeafName, PlansToUnname, Unnames};
ghost use Rattle.edge_calls.specs.Unnaming.{TakesAway, is_last, name_in, name_of, unnaming};

use crate::volume::Volume;
use edge_base::{Head, NodeType, Refusal};
use edge_dir::is_empty;
use edge_handles::Handles;
use edge_mask::Events;
use edge_model::Answer;
use edge_names::{drop_node, remove_name};
use edge_room::has_room;
use edge_space::{Change, SlotAt};
use edge_store::{Store, StoreFault};
use edge_volume::{Stop, take_point};
use edge_walk::{Spot, at_spot, named_head, spot_at};

/// A name of a node: the slot of directory `d` that has it, and the number of the node, with its
/// head.
#[derive(Clone, Copy, Debug)]
struct Named {
    d: u32,
    slot: u64,
    number: u32,
    head: Head,
}

/// The name that a path leads to. The root has none, and is refused so.
fn named_at<S: Store>(s: &mut S, path: &[u8], at_root: Refusal) -> Result<Named, Stop>
    requires live { IsLive (S.state s.old) }
    ensures looks { Looks S.Store (fault_of result) s.old s.new }
    ensures undamaged { OnTree (S.state s.old) (λ t. IsOfNoDamage (fault_of result)) }
    ensures node { IfOk result (IsNamedNode (S.state s.new)) }
    ensures head { IfOk result (λ named. OnTree (S.state s.old) (λ t.
        Some named.head ≡ head_at (S.state s.old).origin.request t named.number)) }
    ensures name { IfAnswered result (λ r. OnTree (S.state s.old) (λ t.
        name_in r ≡ name_of (S.state s.old).origin.request t path.now at_root)) }
{
    let spot = spot_at(s, path)?;
    let Spot::Within { d, .. } = spot else {
        return Err(Stop::Refused(at_root));
    };
    let Some(found) = at_spot(s, spot)? else {
        return Err(Stop::Refused(Refusal::NoEntry));
    };
    let head = named_head(s, found.number)?;
    Ok(Named {
        d,
        slot: found.slot,
        number: found.number,
        head,
    })
}

/// Whether an open descriptor keeps a node that would be dropped with its name.
fn is_busy(named: &Named, handles: &Handles) -> bool
    ensures { result ≡ (is_last named.now && is_open handles.now named.now.number) }
{
    named.head.links == 1 && handles.holds(named.number)
}

/// The name of a file that a path leads to and that may go. The last name of an open file stays.
fn file_named<S: Store>(s: &mut S, handles: &Handles, path: &[u8]) -> Result<Named, Stop>
    requires live { IsLive (S.state s.old) }
    ensures looks { Looks S.Store (fault_of result) s.old s.new }
    ensures undamaged { OnTree (S.state s.old) (λ t. IsOfNoDamage (fault_of result)) }
    ensures node { IfOk result (IsNamedNode (S.state s.new)) }
    ensures leaf { IfOk result (λ named. OnTree (S.state s.old) (λ t.
        IsLeafName (S.state s.old).origin.request t named)) }
    ensures plan { IfAnswered result (λ r. (z : State) → StoreStands (S.state s.old) z
        → IsTree (S.state s.old).origin.request z.tree → z.descriptors ≡ handles.now
        → unnaming (S.state s.old).origin.request z r
        ≡ plan_unlink (S.state s.old).origin.request z path.now) }
{
    let named = named_at(s, path, Refusal::IsDir)?;
    match named.head.kind {
        NodeType::Directory => return Err(Stop::Refused(Refusal::IsDir)),
        NodeType::File => {}
    }
    if is_busy(&named, handles) {
        return Err(Stop::Refused(Refusal::Busy));
    }
    Ok(named)
}

/// The name of an empty directory that a path leads to and that may go. An open one stays, and the
/// root.
fn directory_named<S: Store>(s: &mut S, handles: &Handles, path: &[u8]) -> Result<Named, Stop>
    requires live { IsLive (S.state s.old) }
    ensures looks { Looks S.Store (fault_of result) s.old s.new }
    ensures undamaged { OnTree (S.state s.old) (λ t. IsOfNoDamage (fault_of result)) }
    ensures node { IfOk result (IsNamedNode (S.state s.new)) }
    ensures leaf { IfOk result (λ named. OnTree (S.state s.old) (λ t.
        IsLeafName (S.state s.old).origin.request t named)) }
    ensures plan { IfAnswered result (λ r. (z : State) → StoreStands (S.state s.old) z
        → IsTree (S.state s.old).origin.request z.tree → z.descriptors ≡ handles.now
        → unnaming (S.state s.old).origin.request z r
        ≡ plan_remove_dir (S.state s.old).origin.request z path.now) }
{
    let named = named_at(s, path, Refusal::Busy)?;
    match named.head.kind {
        NodeType::File => return Err(Stop::Refused(Refusal::NotDir)),
        NodeType::Directory => {}
    }
    if !is_empty(s, named.number)? {
        return Err(Stop::Refused(Refusal::NotEmpty));
    }
    if handles.holds(named.number) {
        return Err(Stop::Refused(Refusal::Busy));
    }
    Ok(named)
}

/// Takes a name away, and drops its node with the last one.
fn take_away<S: Store>(s: &mut S, named: &Named) -> Result<(), StoreFault>
    requires live { IsLive (S.state s.old) }
    requires node { IsNamedNode (S.state s.old) named.now }
    ensures ends { EndsBy (fault_in result) (S.state s.old) (S.state s.new) }
    ensures point { KeepsPoint (S.state s.old) (S.state s.new) }
    ensures undamaged { NeverUnnaming (S.state s.old) named.now.number named.now.d named.now.slot
        (is_last named.now) (fault_in result) }
    ensures taken { OnOk result (TakesAway (S.state s.old) (S.state s.new) named.now) }
{
    if named.head.links == 1 {
        drop_node(s, named.number, named.d, named.slot)
    } else {
        remove_name(s, named.number, named.head, named.d, named.slot)
    }
}

impl<S: Store> Volume<S> {
    /// Takes a name away that may go, where there is room.
    fn unname(&mut self, named: &Named) -> Result<Answer, Stop>
        requires live { IsLive (S.state self.old.store) }
        requires points { (S.state self.old.store).points ≤ 2 ^ 62 }
        requires node { IsNamedNode (S.state self.old.store) named.now }
        ensures did { (command : Asked) (out : List ℕ) → Unnames command
            → PlansToUnname command (volume_of S.Store self.old) named.now → Did command result
            (volume_of S.Store self.old) (volume_of S.Store self.new) out }
    {
        let _within_limits = self.store.geometry().request();
        let clear = SlotAt {
            dir: named.d,
            slot: named.slot,
        };
        let change = Change::Slots {
            put: None,
            clear: Some(clear),
        };
        if !has_room(&mut self.store, self.mask.has(Events::FULL), &change, 0)? {
            return Err(Stop::Refused(Refusal::NoSpace));
        }
        take_away(&mut self.store, named)?;
        take_point(&mut self.store, self.mask.has(Events::UNLINK))?;
        Ok(Answer::Done)
    }

    /// Takes a name of a file away, and the file with its last one.
    pub(crate) fn unlink(&mut self, path: &[u8]) -> Result<Answer, Stop>
        requires live { IsLive (S.state self.old.store) }
        requires points { (S.state self.old.store).points ≤ 2 ^ 62 }
        ensures did { (out : List ℕ) → Did (command.unlink path.now) result
            (volume_of S.Store self.old) (volume_of S.Store self.new) out }
    {
        let named = file_named(&mut self.store, &self.handles, path)?;
        self.unname(&named)
    }

    /// Removes an empty directory.
    pub(crate) fn remove_dir(&mut self, path: &[u8]) -> Result<Answer, Stop>
        requires live { IsLive (S.state self.old.store) }
        requires points { (S.state self.old.store).points ≤ 2 ^ 62 }
        ensures did { (out : List ℕ) → Did (command.remove_dir path.now) result
            (volume_of S.Store self.old) (volume_of S.Store self.new) out }
    {
        let named = directory_named(&mut self.store, &self.handles, path)?;
        self.unname(&named)
    }
}

ghost use Rattle.std.specs.Prelude.{◌≡◌, ◌≤◌, ◌<◌, ◌^◌, ◌/◌, ◌==◌, ◌&&◌, not, List, ℕ, Some, Ok, Err, IfOk, IfSome, MatchResult, length};
ghost use Rattle.edge_base.specs.commands.Descriptors.{is_open};
ghost use Rattle.edge_base.specs.commands.Paths.{names_in};
ghost use Rattle.edge_base.specs.layout.Places.{max_blocks_of};
ghost use Rattle.edge_base.specs.tree.Slots.{slots_in_block};
ghost use Rattle.edge_store.specs.State.{IsLive};
ghost use Rattle.edge_model.specs.Asked as command;
ghost use Rattle.edge_model.specs.Names.{is_empty};
ghost use Rattle.edge_model.specs.Tree.{is_directory, slots_at};
ghost use Rattle.edge_model.specs.Walk.{is_top};
ghost use Rattle.edge_volume.specs.Stopped.{fault_in, fault_of, IfAnswered};
ghost use Rattle.edge_volume.specs.Parts.{Looks, IsOfNoDamage};
ghost use Rattle.edge_volume.specs.Nodes.{OnTree, IsNodeOf};
ghost use Rattle.edge_volume.specs.Did.{Did};
ghost use Rattle.edge_walk.specs.Reached.{IsReached, IsHolder};
ghost use Rattle.edge_walk.specs.Spots.{AreShort};
ghost use Rattle.edge_calls.specs.State.{volume_of};
ghost use Rattle.edge_calls.specs.Renames.{IsReady, held_in, held_of, held_as, is_of_directory, name_for, name_as, name_in, number_as, paths_of, rename_as, rename_in, rename_of, replaced_by, slot_for, takes};

use crate::vacant::is_behind;
use crate::volume::Volume;
use edge_base::{Geometry, NodeType, Refusal};
use edge_dir::{Place, is_empty};
use edge_handles::Handles;
use edge_mask::Events;
use edge_model::Answer;
use edge_names::{Move, NamedNode, move_name};
use edge_path::{PathNames, two_parts};
use edge_room::has_room;
use edge_space::{Change, SlotAt};
use edge_store::{Store, StoreFault};
use edge_volume::{Stop, take_point};
use edge_walk::{Spot, at_spot, locate, locate_through, named_head, place_at};

/// The blocks that a rename must leave free.
const RESERVE: u32 = 3;

/// The slot that has a name, and the node.
#[derive(Clone, Copy, Debug)]
struct Named {
    at: SlotAt,
    node: NamedNode,
}

/// A name in a directory, which may have none such.
#[derive(Clone, Copy, Debug)]
struct Wanted<'a> {
    dir: u32,
    name: &'a [u8],
}

/// A name that is moved, and the one that its node has then.
#[derive(Clone, Copy, Debug)]
struct Renaming<'a> {
    change: Move,
    name: &'a [u8],
}

/// Whether a path is `/` alone: every other has a byte more.
fn is_top(path: &[u8]) -> bool
    ensures { result ≡ is_top path.now }
{
    path.len() <= 1
}

/// The names of two paths. The root has no name that could be moved.
fn both_names<'a, 'b>(
    path: &'a [u8],
    to: &'b [u8],
    g: Geometry,
) -> Result<(PathNames<'a>, PathNames<'b>), Refusal>
    ensures refused { MatchResult result (λ both. paths_of g path.now to.now ≡ Ok tt)
        (λ e. paths_of g path.now to.now ≡ Err e) }
    ensures names { IfOk result
        (λ both. (both.0 ≡ names_in path.now) × (both.1 ≡ names_in to.now)) }
    ensures short { IfOk result (λ both. AreShort g both.1) }
{
    let both = two_parts(path, to, g.request().name_max)?;
    if is_top(path) || is_top(to) {
        return Err(Refusal::Busy);
    }
    Ok(both)
}

/// What has a name.
fn named_at<S: Store>(s: &mut S, names: PathNames<'_>) -> Result<Named, Stop>
    requires live { IsLive (S.state s.old) }
    ensures looks { Looks S.Store (fault_of result) s.old s.new }
    ensures undamaged { OnTree (S.state s.old) (λ t. IsOfNoDamage (fault_of result)) }
    ensures holder { IfOk result (λ named. IsHolder (S.state s.new) named.at.dir) }
    ensures block { IfOk result (λ named.
        named.at.slot / slots_in_block (S.state s.old).origin.request
        < max_blocks_of (S.state s.old).origin.request) }
    ensures node { IfOk result (λ named.
        IsNodeOf (S.state s.new) named.node.number named.node.head) }
    ensures held { IfAnswered result (λ r.
        OnTree (S.state s.old) (λ t. held_as r ≡ held_of t names.entry)) }
{
    let spot = locate(s, names)?;
    let Some(found) = at_spot(s, spot)? else {
        return Err(Stop::Refused(Refusal::NoEntry));
    };
    let Spot::Within { d, .. } = spot else {
        return Err(Stop::Refused(Refusal::Busy));
    };
    let at = SlotAt {
        dir: d,
        slot: found.slot,
    };
    let number = found.number;
    let head = named_head(s, number)?;
    let node = NamedNode { number, head };
    Ok(Named { at, node })
}

/// Whether a node of this kind is a directory on the way.
fn is_in_way(kind: NodeType, through: bool) -> bool
    ensures { result ≡ (is_of_directory kind && through) }
{
    match kind {
        NodeType::Directory => through,
        NodeType::File => false,
    }
}

/// The name that a node is to have. It is refused where the node is a directory and the way goes
/// through it.
fn wanted_at<'a, S: Store>(
    s: &mut S,
    names: PathNames<'a>,
    node: NamedNode,
) -> Result<Wanted<'a>, Stop>
    requires live { IsLive (S.state s.old) }
    requires node { IsNodeOf (S.state s.old) node.number node.head }
    ensures looks { Looks S.Store (fault_of result) s.old s.new }
    ensures undamaged { OnTree (S.state s.old) (λ t. IsOfNoDamage (fault_of result)) }
    ensures holder { IfOk result (λ wanted. IsHolder (S.state s.new) wanted.dir) }
    ensures name { IfAnswered result (λ r.
        OnTree (S.state s.old) (λ t. name_as r ≡ name_for t names.entry node.number)) }
    ensures short { AreShort (S.state s.old).origin.request names.entry
        → IfOk result (λ wanted.
        length wanted.name.now ≤ (S.state s.old).origin.request.name_max) }
{
    let way = locate_through(s, names, node.number)?;
    if is_in_way(node.head.kind, way.through) {
        return Err(Stop::Refused(Refusal::Invalid));
    }
    match way.spot {
        Spot::Top => Err(Stop::Refused(Refusal::Busy)),
        Spot::Within { d, name } => Ok(Wanted { dir: d, name }),
    }
}

/// A directory takes the name of a directory alone, and a file that of a file.
fn takes(kind: NodeType, over: NodeType) -> Result<(), Refusal>
    ensures { result ≡ takes kind over }
{
    match (kind, over) {
        (NodeType::Directory, NodeType::File) => Err(Refusal::NotDir),
        (NodeType::File, NodeType::Directory) => Err(Refusal::IsDir),
        (NodeType::File, NodeType::File) => Ok(()),
        (NodeType::Directory, NodeType::Directory) => Ok(()),
    }
}

/// Whether a node is open that would go with its name.
fn is_busy(handles: &Handles, node: NamedNode) -> bool
    ensures { result ≡ ((node.head.links == 1) && is_open handles.now node.number) }
{
    node.head.links == 1 && handles.holds(node.number)
}

/// Whether a node is a directory with entries.
fn has_entries<S: Store>(s: &mut S, node: NamedNode) -> Result<bool, StoreFault>
    requires live { IsLive (S.state s.old) }
    requires node { IsNodeOf (S.state s.old) node.number node.head }
    ensures looks { Looks S.Store (fault_in result) s.old s.new }
    ensures undamaged { OnTree (S.state s.old) (λ t. IsOfNoDamage (fault_in result)) }
    ensures entries { IfOk result (λ has. OnTree (S.state s.old) (λ t.
        has ≡ (is_directory t node.number && not (is_empty (slots_at t node.number))))) }
{
    match node.head.kind {
        NodeType::File => Ok(false),
        NodeType::Directory => {
            let empty = is_empty(s, node.number)?;
            Ok(!empty)
        }
    }
}

/// The node of a number that has a name, where another node may take it.
fn replaced_at<S: Store>(
    s: &mut S,
    handles: &Handles,
    node: NamedNode,
    number: u32,
) -> Result<NamedNode, Stop>
    requires live { IsLive (S.state s.old) }
    requires node { IsNodeOf (S.state s.old) node.number node.head }
    requires reached { IsReached (S.state s.old) number }
    ensures looks { Looks S.Store (fault_of result) s.old s.new }
    ensures undamaged { OnTree (S.state s.old) (λ t. IsOfNoDamage (fault_of result)) }
    ensures node { IfOk result (λ there. IsNodeOf (S.state s.new) there.number there.head) }
    ensures replaced { IfAnswered result (λ r. OnTree (S.state s.old) (λ t. number_as r
        ≡ replaced_by (S.state s.old).origin.request t handles.now node.number number)) }
{
    let head = named_head(s, number)?;
    let there = NamedNode { number, head };
    takes(node.head.kind, head.kind)?;
    if has_entries(s, there)? {
        return Err(Stop::Refused(Refusal::NotEmpty));
    }
    if is_busy(handles, there) {
        return Err(Stop::Refused(Refusal::Busy));
    }
    Ok(there)
}

/// The first empty slot of a directory, for a new name, where the directory may have its block.
fn new_slot(g: Geometry, slot: u64) -> Result<u64, Refusal>
    ensures { result ≡ slot_for g slot }
{
    if is_behind(g, slot) {
        return Err(Refusal::TooBig);
    }
    Ok(slot)
}

/// A name that is moved into a slot, where a node may be replaced.
fn moved_into<'a>(
    named: Named,
    wanted: Wanted<'a>,
    slot: u64,
    replaced: Option<NamedNode>,
) -> Renaming<'a>
    ensures change { result.change ≡ record {
      node = named.node;
      from = named.at;
      to = record { dir = wanted.entry.dir; slot = slot };
      replaced = replaced;
    } }
    ensures name { result.name ≡ wanted.entry.name }
{
    let to = SlotAt {
        dir: wanted.dir,
        slot,
    };
    let change = Move {
        node: named.node,
        from: named.at,
        to,
        replaced,
    };
    Renaming {
        change,
        name: wanted.name,
    }
}

/// How a name is moved to one that is wanted, into the slot that has that, or into the first empty
/// one. None where both are names of one node.
fn renaming_to<'a, S: Store>(
    s: &mut S,
    handles: &Handles,
    named: Named,
    wanted: Wanted<'a>,
) -> Result<Option<Renaming<'a>>, Stop>
    requires live { IsLive (S.state s.old) }
    requires from { IsHolder (S.state s.old) named.at.dir }
    requires block { named.at.slot / slots_in_block (S.state s.old).origin.request
        < max_blocks_of (S.state s.old).origin.request }
    requires node { IsNodeOf (S.state s.old) named.node.number named.node.head }
    requires to { IsHolder (S.state s.old) wanted.dir }
    requires short { length wanted.name.now ≤ (S.state s.old).origin.request.name_max }
    ensures looks { Looks S.Store (fault_of result) s.old s.new }
    ensures undamaged { OnTree (S.state s.old) (λ t. IsOfNoDamage (fault_of result)) }
    ensures ready { IfOk result (λ r. IfSome r (IsReady (S.state s.new))) }
    ensures renaming { IfAnswered result (λ r. OnTree (S.state s.old) (λ t. rename_as r
        ≡ rename_in (S.state s.old).origin.request t handles.now (held_in named)
        (name_in wanted.entry))) }
{
    match place_at(s, wanted.dir, wanted.name)? {
        Place::Free(slot) => {
            let slot = new_slot(s.geometry(), slot)?;
            Ok(Some(moved_into(named, wanted, slot, None)))
        }
        Place::Taken(found) => {
            if found.number == named.node.number {
                return Ok(None);
            }
            let there = replaced_at(s, handles, named.node, found.number)?;
            Ok(Some(moved_into(named, wanted, found.slot, Some(there))))
        }
    }
}

/// How the name of a path is moved to another path, or why it is not. None where both paths lead to
/// one node.
fn renaming_of<'a, S: Store>(
    s: &mut S,
    handles: &Handles,
    path: &[u8],
    to: &'a [u8],
) -> Result<Option<Renaming<'a>>, Stop>
    requires live { IsLive (S.state s.old) }
    ensures looks { Looks S.Store (fault_of result) s.old s.new }
    ensures undamaged { OnTree (S.state s.old) (λ t. IsOfNoDamage (fault_of result)) }
    ensures ready { IfOk result (λ r. IfSome r (IsReady (S.state s.new))) }
    ensures renaming { IfAnswered result (λ r. OnTree (S.state s.old) (λ t. rename_as r
        ≡ rename_of (S.state s.old).origin.request t handles.now path.now to.now)) }
{
    let (names, wanted_names) = both_names(path, to, s.geometry())?;
    let named = named_at(s, names)?;
    let wanted = wanted_at(s, wanted_names, named.node)?;
    renaming_to(s, handles, named, wanted)
}

impl<S: Store> Volume<S> {
    /// Moves a name to another path, over a name that is there.
    pub(crate) fn rename(&mut self, path: &[u8], to: &[u8]) -> Result<Answer, Stop>
        requires live { IsLive (S.state self.old.store) }
        requires points { (S.state self.old.store).points ≤ 2 ^ 62 }
        ensures did { (out : List ℕ) → Did (command.rename path.now to.now) result
            (volume_of S.Store self.old) (volume_of S.Store self.new) out }
    {
        let renaming = renaming_of(&mut self.store, &self.handles, path, to)?;
        let Some(moving) = renaming else {
            take_point(&mut self.store, self.mask.has(Events::RENAME))?;
            return Ok(Answer::Done);
        };
        let _within_limits = self.store.geometry().request();
        let slots = Change::Slots {
            put: Some(moving.change.to),
            clear: Some(moving.change.from),
        };
        let full = self.mask.has(Events::FULL);
        if !has_room(&mut self.store, full, &slots, RESERVE)? {
            return Err(Stop::Refused(Refusal::NoSpace));
        }
        move_name(&mut self.store, &moving.change, moving.name)?;
        take_point(&mut self.store, self.mask.has(Events::RENAME))?;
        Ok(Answer::Done)
    }
}

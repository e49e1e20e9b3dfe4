//! The descriptor that a command names, with its node, or why it is refused.

ghost use Rattle.std.specs.Prelude.{◌≡◌, true, IfOk, OnOk, Ok};
ghost use Rattle.edge_base.specs.commands.Refusals.{or_refuse};
ghost use Rattle.edge_store.specs.State.{IsLive};
ghost use Rattle.edge_model.specs.Open.{open_at, file_at, writable_at, directory_at};
ghost use Rattle.edge_model.specs.State.{State};
ghost use Rattle.edge_model.specs.Tree.{is_directory};
ghost use Rattle.edge_volume.specs.Nodes.{OnTree, IsNodeOf, head_at};
ghost use Rattle.edge_volume.specs.Parts.{Looks, IsOfNoDamage};
ghost use Rattle.edge_volume.specs.Stopped.{fault_of, IfAnswered};
ghost use Rattle.edge_walk.specs.Reached.{IsHolder};
ghost use Rattle.edge_calls.specs.State.{described};

use edge_base::{Head, NodeType, Refusal};
use edge_handles::{Handles, Slot};
use edge_store::Store;
use edge_volume::{Stop, node_head};

/// A descriptor that is open.
pub(crate) fn open_at(handles: &Handles, h: u32) -> Result<Slot, Refusal>
    ensures { (s : State) → s.descriptors ≡ handles.now → described result ≡ open_at s h }
{
    match handles.get(h) {
        Some(slot) => Ok(slot),
        None => Err(Refusal::BadDescriptor),
    }
}

/// The descriptor of a file.
pub(crate) fn file_at(handles: &Handles, h: u32) -> Result<Slot, Refusal>
    ensures { (s : State) → s.descriptors ≡ handles.now → described result ≡ file_at s h }
{
    let slot = open_at(handles, h)?;
    if slot.directory {
        return Err(Refusal::IsDir);
    }
    Ok(slot)
}

/// The descriptor of a file that is open for writing.
pub(crate) fn writable_at(handles: &Handles, h: u32) -> Result<Slot, Refusal>
    ensures { (s : State) → s.descriptors ≡ handles.now → described result ≡ writable_at s h }
{
    let slot = file_at(handles, h)?;
    if !slot.write {
        return Err(Refusal::BadDescriptor);
    }
    Ok(slot)
}

/// The descriptor of a directory.
pub(crate) fn directory_at(handles: &Handles, h: u32) -> Result<Slot, Refusal>
    ensures { (s : State) → s.descriptors ≡ handles.now → described result ≡ directory_at s h }
{
    let slot = open_at(handles, h)?;
    if !slot.directory {
        return Err(Refusal::NotDir);
    }
    Ok(slot)
}

/// The head of the node of an open descriptor. On a damaged image it may be gone: the descriptor is
/// then refused as one that is not open.
pub(crate) fn open_head<S: Store>(s: &mut S, n: u32) -> Result<Head, Stop>
    requires live { IsLive (S.state s.old) }
    ensures looks { Looks S.Store (fault_of result) s.old s.new }
    ensures undamaged { OnTree (S.state s.old) (λ t. IsOfNoDamage (fault_of result)) }
    ensures node { IfOk result (IsNodeOf (S.state s.old) n) }
    ensures head { IfAnswered result (λ r. OnTree (S.state s.old) (λ t.
        r ≡ or_refuse (head_at (S.state s.old).origin.request t n) Refusal.BadDescriptor)) }
{
    match node_head(s, n)? {
        Some(head) => Ok(head),
        None => Err(Stop::Refused(Refusal::BadDescriptor)),
    }
}

/// The node of an open descriptor of a directory, which holds names. The descriptor is refused
/// where the node is none, as it may be on a damaged image.
pub(crate) fn open_holder<S: Store>(s: &mut S, n: u32) -> Result<(), Stop>
    requires live { IsLive (S.state s.old) }
    ensures looks { Looks S.Store (fault_of result) s.old s.new }
    ensures undamaged { OnTree (S.state s.old) (λ t. IsOfNoDamage (fault_of result)) }
    ensures holder { OnOk result (IsHolder (S.state s.new) n) }
    ensures open { IfAnswered result (λ r. OnTree (S.state s.old)
        (λ t. is_directory t n ≡ true → r ≡ Ok tt)) }
{
    let head = open_head(s, n)?;
    match head.kind {
        NodeType::Directory => Ok(()),
        NodeType::File => Err(Stop::Refused(Refusal::BadDescriptor)),
    }
}

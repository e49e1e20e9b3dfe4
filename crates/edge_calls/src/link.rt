ghost use Rattle.std.specs.Prelude.{◌≡◌, ◌<◌, ◌≤◌, ◌/◌, ◌^◌, ℕ, List, length, IfOk};
ghost use Rattle.edge_base.specs.layout.Places.{max_blocks_of};
ghost use Rattle.edge_base.specs.tree.Slots.{slots_in_block};
ghost use Rattle.edge_store.specs.State.{IsLive};
ghost use Rattle.edge_model.specs.Asked as command;
ghost use Rattle.edge_model.specs.Tree.{links_of};
ghost use Rattle.edge_volume.specs.Nodes.{OnTree, IsNodeOf};
ghost use Rattle.edge_volume.specs.Parts.{Looks, IsOfNoDamage};
ghost use Rattle.edge_volume.specs.Stopped.{fault_of, IfAnswered};
ghost use Rattle.edge_volume.specs.Did.{Did};
ghost use Rattle.edge_walk.specs.Reached.{IsHolder};
ghost use Rattle.edge_walk.specs.Spots.{AreShort};
ghost use Rattle.edge_calls.specs.State.{volume_of};
ghost use Rattle.edge_calls.specs.Links.{file_at, file_in, link_in, link_of, vacancy_at};
ghost use Rattle.edge_calls.specs.Makes.{vacated};

use crate::vacant::{Vacancy, is_behind, vacant_at};
use crate::volume::Volume;
use edge_base::{Head, NodeType, Refusal};
use edge_mask::Events;
use edge_model::Answer;
use edge_names::add_name;
use edge_path::{PathNames, two_parts};
use edge_room::has_room;
use edge_space::{Change, SlotAt};
use edge_store::Store;
use edge_volume::{Stop, take_point};
use edge_walk::{at_spot, locate, named_head};

/// The blocks that a new name must leave free.
const RESERVE: u32 = 3;

/// The most names of a file.
const MOST_LINKS: u16 = 65535;

/// A file, with its head.
#[derive(Clone, Copy, Debug)]
struct File {
    n: u32,
    head: Head,
}

/// A file, and the further name that it gets.
#[derive(Clone, Copy, Debug)]
struct Linking<'a> {
    file: File,
    at: Vacancy<'a>,
}

/// The file that the names of a path lead to.
fn file_at<S: Store>(s: &mut S, names: PathNames<'_>) -> Result<File, Stop>
    requires live { IsLive (S.state s.old) }
    ensures looks { Looks S.Store (fault_of result) s.old s.new }
    ensures undamaged { OnTree (S.state s.old) (λ t. IsOfNoDamage (fault_of result)) }
    ensures file { IfAnswered result (λ r.
        OnTree (S.state s.old) (λ t. file_in r ≡ file_at t names.entry)) }
    ensures node { IfOk result (λ file. IsNodeOf (S.state s.new) file.n file.head) }
    ensures links { IfOk result (λ file. OnTree (S.state s.old)
        (λ t. file.head.links ≡ links_of (S.state s.old).origin.request t file.n)) }
{
    let spot = locate(s, names)?;
    let Some(found) = at_spot(s, spot)? else {
        return Err(Stop::Refused(Refusal::NoEntry));
    };
    let head = named_head(s, found.number)?;
    match head.kind {
        NodeType::Directory => Err(Stop::Refused(Refusal::IsDir)),
        NodeType::File => Ok(File {
            n: found.number,
            head,
        }),
    }
}

/// The slot that the name takes that is the last of a path's.
fn name_at<'a, S: Store>(s: &mut S, names: PathNames<'a>) -> Result<Vacancy<'a>, Stop>
    requires live { IsLive (S.state s.old) }
    ensures looks { Looks S.Store (fault_of result) s.old s.new }
    ensures undamaged { OnTree (S.state s.old) (λ t. IsOfNoDamage (fault_of result)) }
    ensures vacancy { IfAnswered result (λ r.
        OnTree (S.state s.old) (λ t. vacated r ≡ vacancy_at t names.entry)) }
    ensures holder { IfOk result (λ at. IsHolder (S.state s.new) at.d) }
    ensures short { AreShort (S.state s.old).origin.request names.entry
        → IfOk result (λ at. length at.name.now ≤ (S.state s.old).origin.request.name_max) }
{
    let spot = locate(s, names)?;
    vacant_at(s, spot)
}

/// The file at one path that gets a name at another, and where that name goes.
fn link_at<'a, S: Store>(s: &mut S, path: &[u8], to: &'a [u8]) -> Result<Linking<'a>, Stop>
    requires live { IsLive (S.state s.old) }
    ensures looks { Looks S.Store (fault_of result) s.old s.new }
    ensures undamaged { OnTree (S.state s.old) (λ t. IsOfNoDamage (fault_of result)) }
    ensures link { IfAnswered result (λ r. OnTree (S.state s.old)
        (λ t. link_in r ≡ link_of (S.state s.old).origin.request t path.now to.now)) }
    ensures node { IfOk result (λ link. IsNodeOf (S.state s.new) link.file.n link.file.head) }
    ensures few { IfOk result (λ link. link.file.head.links < 65535) }
    ensures holder { IfOk result (λ link. IsHolder (S.state s.new) link.at.d) }
    ensures block { IfOk result (λ link.
        link.at.slot / slots_in_block (S.state s.old).origin.request
        < max_blocks_of (S.state s.old).origin.request) }
    ensures short { IfOk result (λ link.
        length link.at.name.now ≤ (S.state s.old).origin.request.name_max) }
{
    let name_max = s.geometry().request().name_max;
    let (from, to) = two_parts(path, to, name_max)?;
    let file = file_at(s, from)?;
    let at = name_at(s, to)?;
    if file.head.links >= MOST_LINKS {
        return Err(Stop::Refused(Refusal::TooManyLinks));
    }
    if is_behind(s.geometry(), at.slot) {
        return Err(Stop::Refused(Refusal::TooBig));
    }
    Ok(Linking { file, at })
}

impl<S: Store> Volume<S> {
    /// Gives a file a further name.
    pub(crate) fn link(&mut self, path: &[u8], to: &[u8]) -> Result<Answer, Stop>
        requires live { IsLive (S.state self.old.store) }
        requires points { (S.state self.old.store).points ≤ 2 ^ 62 }
        ensures did { (out : List ℕ) → Did (command.link path.now to.now) result
            (volume_of S.Store self.old) (volume_of S.Store self.new) out }
    {
        let _within_limits = self.store.geometry().request();
        let link = link_at(&mut self.store, path, to)?;
        let file = link.file;
        let at = link.at;
        let put = SlotAt {
            dir: at.d,
            slot: at.slot,
        };
        let change = Change::Slots {
            put: Some(put),
            clear: None,
        };
        let full = self.mask.has(Events::FULL);
        if !has_room(&mut self.store, full, &change, RESERVE)? {
            return Err(Stop::Refused(Refusal::NoSpace));
        }
        add_name(&mut self.store, file.n, file.head, at.d, at.slot, at.name)?;
        take_point(&mut self.store, self.mask.has(Events::LINK))?;
        Ok(Answer::Done)
    }
}

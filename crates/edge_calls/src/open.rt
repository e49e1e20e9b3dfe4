ghost use Rattle.std.specs.Prelude.{◌≡◌, ◌≤◌, ◌^◌, ℕ, List, slice_get, false, true, Some, None, Ok, IfOk, OnOk};
ghost use Rattle.edge_base.specs.commands.Descriptors.{first_empty, is_full};
ghost use Rattle.edge_mask.specs.Mask.{mask_of};
ghost use Rattle.edge_model.specs.declared.command.Answer.TheVariants.{Number};
ghost use Rattle.edge_model.specs.Asked as command;
ghost use Rattle.edge_model.specs.Asking.{is_quiet};
ghost use Rattle.edge_model.specs.Open.{are_bad_flags, entered, file_descriptor};
ghost use Rattle.edge_store.specs.State.{IsLive, IsNumber, HasInode};
ghost use Rattle.edge_volume.specs.Nodes.{OnTree};
ghost use Rattle.edge_volume.specs.Stopped.{fault_of, IfAnswered};
ghost use Rattle.edge_volume.specs.Parts.{KeepsBelow, Looks, IsOfNoDamage};
ghost use Rattle.edge_volume.specs.Did.{Did};
ghost use Rattle.edge_walk.specs.Reached.{IsReached, IsHolder};
ghost use Rattle.edge_calls.specs.declared.open.Opening.TheVariants.{There, New};
ghost use Rattle.edge_calls.specs.Openings.{IsNew, IsOpening, IsShort, IsThere, OpensAs, OpensIn, may_open, may_make, root_refusal};
ghost use Rattle.edge_calls.specs.State.{volume_of};

use crate::vacant::{Vacancy, may_take};
use crate::volume::Volume;
use edge_base::{NodeType, Refusal};
use edge_dir::Place;
use edge_file::set_size;
use edge_handles::{Handles, Slot};
use edge_mask::Events;
use edge_model::{Answer, OpenFlags};
use edge_names::make_node;
use edge_room::has_room;
use edge_space::{Change, SlotAt};
use edge_store::Store;
use edge_volume::{Stop, take_point};
use edge_walk::{Spot, named_head, place_at, spot_at};

/// The blocks that a new name must leave free.
const RESERVE: u32 = 3;

/// What is opened: a file that is there, or one that is made, under a name that is free.
#[derive(Clone, Copy, Debug)]
enum Opening<'a> {
    There { n: u32 },
    New { at: Vacancy<'a> },
}

/// Whether no file is opened so: neither to read nor to write, `exclusive` without `create`, or
/// what changes a file without `write`.
fn are_bad_flags(f: &OpenFlags) -> bool
    ensures { result ≡ are_bad_flags f.now }
{
    let changes = f.create || f.truncate || f.append;
    !(f.read || f.write) || (f.exclusive && !f.create) || (changes && !f.write)
}

/// Why the root is not opened as a file.
fn root_refusal(flags: &OpenFlags) -> Refusal
    ensures { result ≡ root_refusal flags.now }
{
    if flags.exclusive {
        Refusal::Exists
    } else {
        Refusal::IsDir
    }
}

/// Whether a node that is there may be opened as a file.
fn may_open<S: Store>(s: &mut S, handles: &Handles, n: u32, flags: &OpenFlags) -> Result<(), Stop>
    requires live { IsLive (S.state s.old) }
    requires reached { IsReached (S.state s.old) n }
    ensures looks { Looks S.Store (fault_of result) s.old s.new }
    ensures undamaged { OnTree (S.state s.old) (λ t. IsOfNoDamage (fault_of result)) }
    ensures may { IfAnswered result (λ r.
        OnTree (S.state s.old) (λ t. r ≡ may_open t handles.now flags.now n)) }
    ensures there { OnOk result (HasInode (S.state s.new) n) }
    ensures room { OnOk result (is_full handles.now ≡ false) }
{
    if flags.exclusive {
        return Err(Stop::Refused(Refusal::Exists));
    }
    let head = named_head(s, n)?;
    if head.kind == NodeType::Directory {
        return Err(Stop::Refused(Refusal::IsDir));
    }
    if handles.is_full() {
        return Err(Stop::Refused(Refusal::TooManyOpen));
    }
    Ok(())
}

/// Whether a file may be made that is absent, but for its name.
fn may_make(handles: &Handles, flags: &OpenFlags) -> Result<(), Refusal>
    ensures may { result ≡ may_make handles.now flags.now }
    ensures asked { OnOk result (flags.now.create ≡ true) }
    ensures room { OnOk result (is_full handles.now ≡ false) }
{
    if !flags.create {
        return Err(Refusal::NoEntry);
    }
    if handles.is_full() {
        return Err(Refusal::TooManyOpen);
    }
    Ok(())
}

/// What is opened under a name of directory `d`. The directory is read once.
fn opening_in<'a, S: Store>(
    s: &mut S,
    handles: &Handles,
    d: u32,
    name: &'a [u8],
    flags: &OpenFlags,
) -> Result<Opening<'a>, Stop>
    requires live { IsLive (S.state s.old) }
    requires holder { IsHolder (S.state s.old) d }
    requires short { IsShort (S.state s.old).origin.request name.now }
    ensures looks { Looks S.Store (fault_of result) s.old s.new }
    ensures undamaged { OnTree (S.state s.old) (λ t. IsOfNoDamage (fault_of result)) }
    ensures opens { IfAnswered result
        (OpensIn (S.state s.old) handles.now d name.now flags.now) }
    ensures opening { IfOk result (IsOpening (S.state s.new) flags.now) }
    ensures room { OnOk result (is_full handles.now ≡ false) }
{
    match place_at(s, d, name)? {
        Place::Taken(found) => {
            may_open(s, handles, found.number, flags)?;
            Ok(Opening::There { n: found.number })
        }
        Place::Free(slot) => {
            may_make(handles, flags)?;
            Ok(Opening::New {
                at: Vacancy { d, name, slot },
            })
        }
    }
}

/// What is opened by a path, or why it is refused, but for what a new name and room need.
fn opening_at<'a, S: Store>(
    s: &mut S,
    handles: &Handles,
    path: &'a [u8],
    flags: &OpenFlags,
) -> Result<Opening<'a>, Stop>
    requires live { IsLive (S.state s.old) }
    ensures looks { Looks S.Store (fault_of result) s.old s.new }
    ensures undamaged { OnTree (S.state s.old) (λ t. IsOfNoDamage (fault_of result)) }
    ensures opens { IfAnswered result (OpensAs (S.state s.old) handles.now path.now flags.now) }
    ensures opening { IfOk result (IsOpening (S.state s.new) flags.now) }
    ensures room { OnOk result (is_full handles.now ≡ false) }
{
    if are_bad_flags(flags) {
        return Err(Stop::Refused(Refusal::Invalid));
    }
    let spot = spot_at(s, path)?;
    match spot {
        Spot::Top => Err(Stop::Refused(root_refusal(flags))),
        Spot::Within { d, name } => opening_in(s, handles, d, name, flags),
    }
}

/// Enters a descriptor of a file, and answers which one it is.
fn enter_file(handles: &mut Handles, n: u32, flags: &OpenFlags) -> Answer
    requires room { is_full handles.old ≡ false }
    ensures answer { result ≡ Number (first_empty handles.old) }
    ensures free { slice_get handles.old (first_empty handles.old) ≡ Some None }
    ensures entered { handles.new ≡ entered handles.old (file_descriptor flags.now n) }
{
    let entered = handles.enter(Slot {
        number: n,
        directory: false,
        read: flags.read,
        write: flags.write,
        append: flags.append,
        at: 0,
    });
    match entered {
        Some(h) => Answer::Number(u64::from(h)),
        None => unreachable!(),
    }
}

impl<S: Store> Volume<S> {
    /// Opens a file that is there, and leaves it as it is.
    fn keep(&mut self, n: u32, flags: &OpenFlags) -> Result<Answer, Stop>
        requires live { IsLive (S.state self.old.store) }
        requires kept { flags.now.truncate ≡ false }
        requires room { is_full self.old.handles ≡ false }
        ensures store { self.new.store ≡ self.old.store }
        ensures did { (path out : List ℕ)
            → OpensAs (S.state self.old.store) self.old.handles path flags.now (Ok (There n))
            → Did (command.open_file path flags.now) result
            (volume_of S.Store self.old) (volume_of S.Store self.new) out }
    {
        Ok(enter_file(&mut self.handles, n, flags))
    }

    /// Opens a file that is there, and makes it empty.
    fn empty(&mut self, n: u32, flags: &OpenFlags) -> Result<Answer, Stop>
        requires live { IsLive (S.state self.old.store) }
        requires points { (S.state self.old.store).points ≤ 2 ^ 62 }
        requires there { IsThere (S.state self.old.store) n }
        requires emptied { flags.now.truncate ≡ true }
        requires room { is_full self.old.handles ≡ false }
        ensures did { (path out : List ℕ)
            → OpensAs (S.state self.old.store) self.old.handles path flags.now (Ok (There n))
            → Did (command.open_file path flags.now) result
            (volume_of S.Store self.old) (volume_of S.Store self.new) out }
    {
        let change = Change::Size { n, size: 0 };
        let full = self.mask.has(Events::FULL);
        if !has_room(&mut self.store, full, &change, 0)? {
            return Err(Stop::Refused(Refusal::NoSpace));
        }
        set_size(&mut self.store, n, 0)?;
        take_point(&mut self.store, self.mask.has(Events::TRUNCATE))?;
        Ok(enter_file(&mut self.handles, n, flags))
    }

    /// Opens a file that is made, under a name that is free.
    fn create(&mut self, at: Vacancy<'_>, flags: &OpenFlags) -> Result<Answer, Stop>
        requires live { IsLive (S.state self.old.store) }
        requires points { (S.state self.old.store).points ≤ 2 ^ 62 }
        requires new { IsNew (S.state self.old.store) flags.now at }
        requires room { is_full self.old.handles ≡ false }
        ensures did { (path out : List ℕ)
            → OpensAs (S.state self.old.store) self.old.handles path flags.now (Ok (New at.entry))
            → Did (command.open_file path flags.now) result
            (volume_of S.Store self.old) (volume_of S.Store self.new) out }
    {
        let _within_limits = self.store.geometry().request();
        may_take(&self.store, at.slot)?;
        let put = SlotAt {
            dir: at.d,
            slot: at.slot,
        };
        let change = Change::Slots {
            put: Some(put),
            clear: None,
        };
        let full = self.mask.has(Events::FULL);
        if !has_room(&mut self.store, full, &change, RESERVE)? {
            return Err(Stop::Refused(Refusal::NoSpace));
        }
        let kind = NodeType::File;
        let Some(n) = make_node(&mut self.store, kind, at.d, at.slot, at.name)? else {
            return Err(Stop::Refused(Refusal::NoInodes));
        };
        take_point(&mut self.store, self.mask.has(Events::CREATE))?;
        Ok(enter_file(&mut self.handles, n, flags))
    }

    /// Opens a file. Its path leads to a file that is there, which is made empty where this is
    /// asked for, or to a name that is free, under which one is made.
    pub(crate) fn open_file(&mut self, path: &[u8], flags: OpenFlags) -> Result<Answer, Stop>
        requires live { IsLive (S.state self.old.store) }
        requires points { (S.state self.old.store).points ≤ 2 ^ 62 }
        ensures did { (out : List ℕ) → Did (command.open_file path.now flags) result
            (volume_of S.Store self.old) (volume_of S.Store self.new) out }
        ensures below { is_quiet (mask_of self.old.mask) (command.open_file path.now flags) ≡ true
            → KeepsBelow S.Store (fault_of result) self.old.store self.new.store }
    {
        let opening = opening_at(&mut self.store, &self.handles, path, &flags)?;
        match opening {
            Opening::There { n } => {
                if flags.truncate {
                    self.empty(n, &flags)
                } else {
                    self.keep(n, &flags)
                }
            }
            Opening::New { at } => self.create(at, &flags),
        }
    }
}

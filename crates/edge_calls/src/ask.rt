ghost use Rattle.std.specs.Prelude.{◌≡◌, ◌≤◌, ◌<◌, ◌^◌, length, true};
ghost use Rattle.edge_store.specs.State.{IsLive};
ghost use Rattle.edge_mask.specs.Mask.{mask_of};
ghost use Rattle.edge_model.specs.Asked.{asked};
ghost use Rattle.edge_model.specs.Bytes.{IsOfBytes, AreBytes};
ghost use Rattle.edge_model.specs.Asking.{IsInLimits, is_quiet};
ghost use Rattle.edge_volume.specs.Stopped.{fault_of};
ghost use Rattle.edge_volume.specs.Parts.{KeepsBelow};
ghost use Rattle.edge_volume.specs.Did.{Did};
ghost use Rattle.edge_calls.specs.State.{volume_of, as_ask};

use crate::volume::Volume;
use edge_mask::Events;
use edge_model::{Answer, Ask, AskFault, Command};
use edge_store::{Store, StoreFault};
use edge_volume::{Stop, take_point};

/// A fault of the store, as one of the session.
fn as_ask(fault: StoreFault) -> AskFault
    ensures { result ≡ as_ask fault }
{
    match fault {
        StoreFault::Device => AskFault::Device,
        StoreFault::Damaged(damage) => AskFault::Damaged(damage),
    }
}

/// The paths and the data of a command are bytes.
fn are_bytes(c: Command<'_>)
    ensures { IsOfBytes (asked c.entry) }
{
    match c {
        Command::OpenFile { path, .. } => of_bytes(path),
        Command::Write { bytes, .. } => of_bytes(bytes),
        Command::Link { path, to } => two_of_bytes(path, to),
        Command::Unlink { path } => of_bytes(path),
        Command::Rename { path, to } => two_of_bytes(path, to),
        Command::MakeDir { path } => of_bytes(path),
        Command::RemoveDir { path } => of_bytes(path),
        Command::OpenDir { path } => of_bytes(path),
        Command::Stat { path } => of_bytes(path),
        Command::Fill { byte, .. } => of_byte(byte),
        _ => (),
    }
}

fn of_bytes(bytes: &[u8])
    ensures { AreBytes bytes.now }
{}

fn two_of_bytes(one: &[u8], two: &[u8])
    ensures { AreBytes one.now × AreBytes two.now }
{}

fn of_byte(byte: u8)
    ensures { byte < 256 }
{}

impl<S: Store> Volume<S> {
    /// Answers a command.
    fn answer(&mut self, c: Command<'_>, out: &mut [u8]) -> Result<Answer, Stop>
        requires live { IsLive (S.state self.old.store) }
        requires points { (S.state self.old.store).points ≤ 2 ^ 62 }
        requires buffer { length out.old ≡ 4096 }
        requires limits { IsInLimits (asked c) }
        ensures did { Did (asked c.entry) result
            (volume_of S.Store self.old) (volume_of S.Store self.new) out.new }
        ensures whole_buffer { length out.new ≡ length out.old }
        ensures below { is_quiet (mask_of self.old.mask) (asked c.entry) ≡ true
            → KeepsBelow S.Store (fault_of result) self.old.store self.new.store }
    {
        match c {
            Command::OpenFile { path, flags } => self.open_file(path, flags),
            Command::Close { h } => self.close(h),
            Command::Read { h, count } => self.read(h, count, out),
            Command::Write { h, bytes } => self.write(h, bytes),
            Command::Fill { h, count, byte } => self.fill(h, count, byte),
            Command::Seek { h, to } => self.seek(h, to),
            Command::Truncate { h, size } => self.truncate(h, size),
            Command::Fsync { h } => self.fsync(h),
            Command::Link { path, to } => self.link(path, to),
            Command::Unlink { path } => self.unlink(path),
            Command::Rename { path, to } => self.rename(path, to),
            Command::MakeDir { path } => self.make_dir(path),
            Command::RemoveDir { path } => self.remove_dir(path),
            Command::OpenDir { path } => self.open_dir(path),
            Command::ReadDir { h } => self.read_dir(h, out),
            Command::Rewind { h } => self.rewind(h),
            Command::Stat { path } => self.stat(path),
            Command::Fstat { h } => self.fstat(h),
            Command::Space => Ok(self.space()),
            Command::Mask => Ok(self.tell_mask()),
            Command::SetMask { mask } => self.set_mask(mask),
            Command::Transact => self.transact(),
        }
    }
}

impl<S: Store> Ask for Volume<S> {
    ghost use Rattle.std.specs.Prelude.{is_some};
    ghost use Rattle.edge_mask.specs.Mask.{mask_of};
    ghost use Rattle.edge_store.specs.State.{Told, HasDamage};
    ghost use Rattle.edge_calls.specs.State.{volume_of};
    ghost use Rattle.edge_volume.specs.Volume.{VolumeStands, IsCommitted, IsUnderWay, opens_of};
    ghost use Rattle.edge_calls.specs.VolumeLaws.{
      whole_is_not_torn,
      stands_committed,
      opens_are,
      sixteen_places,
      one_of_tree,
      one_of_some_tree,
    };

    ghost origin = { λ v. (S.state v.store).origin };

    ghost live = { λ v. (S.state v.store).live };

    ghost reached = { λ v. (S.state v.store).points };

    ghost faults = { λ v. (S.state v.store).faults };

    ghost damage = { λ v. (S.state v.store).damage };

    ghost mask = { λ v. mask_of v.mask };

    ghost opens = { λ v. opens_of (volume_of S.Store v) };

    ghost stands_for = { λ v s. VolumeStands (volume_of S.Store v) s };

    ghost committed = { λ v t. IsCommitted (volume_of S.Store v) t };

    ghost under_way = { λ v t. IsUnderWay (volume_of S.Store v) t };

    ghost torn = { λ v. is_some (S.state v.store).under_way };

    ghost may_hold = { λ v. S.may_hold v.store };

    ghost is_sure = { λ v. S.is_sure v.store };

    ghost is_clean = { λ v. S.is_clean v.store };

    ghost guarded = { λ v. (S.state v.store).guarded };

    ghost is_damage = { λ v d. Told (S.state v.store) → HasDamage (S.state v.store) d };

    fn is_live(&self) -> bool {
        self.store.is_live()
    }

    fn points(&self) -> u64 {
        self.store.points()
    }

    fn ask(&mut self, c: Command<'_>, _moment: u32, out: &mut [u8]) -> Result<Answer, AskFault> {
        are_bytes(c);
        match self.answer(c, out) {
            Ok(answer) => Ok(answer),
            Err(Stop::Refused(refusal)) => Ok(Answer::No(refusal)),
            Err(Stop::Fault(fault)) => Err(as_ask(fault)),
        }
    }

    fn finish(&mut self) -> Result<(), AskFault> {
        match take_point(&mut self.store, self.mask.has(Events::UMOUNT)) {
            Ok(()) => Ok(()),
            Err(fault) => Err(as_ask(fault)),
        }
    }

    ghost live_is_whole = { λ v live.
        whole_is_not_torn (S.state v.store) (S.live_is_whole v.store live) };

    ghost live_is_undamaged = { λ v live. S.live_is_undamaged v.store live };

    ghost live_is_committed = { λ v s live stands.
        stands_committed _ s stands };

    ghost mask_is_told = { λ v s live stands. stands.mask };

    ghost opens_are_told = { λ v s h live stands. opens_are _ s h stands };

    ghost sixteen_places = { λ v s stands. sixteen_places _ s stands };

    ghost one_committed = { λ v t u. one_of_tree (S.state v.store).origin.request
        (S.state v.store).committed t u (S.is_geometry v.store) };

    ghost one_under_way = { λ v t u. one_of_some_tree (S.state v.store).origin.request
        (S.state v.store).under_way t u (S.is_geometry v.store) };
}

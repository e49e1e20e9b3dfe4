ghost use Rattle.std.specs.Prelude.{◌≡◌, ◌<◌, ◌≤◌, true, IfOk, OnOk, Err};
ghost use Rattle.edge_base.specs.layout.Places.{max_size_of};
ghost use Rattle.edge_base.specs.outside.Below.{SameBelow};
ghost use Rattle.edge_store.specs.Calls.{Called, KeepsPoint, KeepsWorking, Reads};
ghost use Rattle.edge_store.specs.State.{Told, IsLive, IsNumber, HasInode};
ghost use Rattle.edge_store.specs.View.{is_head};
ghost use Rattle.edge_tree.specs.Answers.{TellsWhatIs, NeverTangled};
ghost use Rattle.edge_file.specs.Answers.{NeverOnHead, NeverOnSized, HasHead, IsTooGreat};

use edge_base::{Damage, DamageKind, Head};
use edge_store::{Store, StoreFault};

/// Ends the store, since a number that had an inode has none: its disk reads differently each time,
/// and tells nothing of what it holds.
fn no_inode<S: Store>(s: &mut S, n: u32) -> StoreFault
    requires live { IsLive (S.state s.old) }
    requires number { IsNumber (S.state s.old) n }
    requires untold { Told (S.state s.old) → ⊥ }
    ensures called { Called {T = ⊥} (S.state s.old) (S.state s.new) (Err result) }
    ensures point { KeepsPoint (S.state s.old) (S.state s.new) }
    ensures below { S.is_clean s.old → SameBelow
        (S.may_hold s.old) (S.may_hold s.new) (S.is_sure s.old) (S.is_sure s.new) }
{
    let block = s.geometry().inode_place(n, false);
    s.report(Damage {
        block,
        kind: DamageKind::NotUsed,
    })
}

/// Ends the store, since the size of a node is greater than that of any file: its shape is wrong.
fn too_great<S: Store>(s: &mut S, n: u32) -> StoreFault
    requires live { IsLive (S.state s.old) }
    requires number { IsNumber (S.state s.old) n }
    requires great { IsTooGreat (S.state s.old) n }
    ensures called { Called {T = ⊥} (S.state s.old) (S.state s.new) (Err result) }
    ensures point { KeepsPoint (S.state s.old) (S.state s.new) }
    ensures below { S.is_clean s.old → SameBelow
        (S.may_hold s.old) (S.may_hold s.new) (S.is_sure s.old) (S.is_sure s.new) }
    ensures damage { TellsWhatIs {T = ⊥} (S.state s.old) (S.state s.new) (Err result) }
    ensures untangled { NeverTangled {T = ⊥} (S.state s.old) (Err result) }
{
    match s.inode_block(n) {
        Ok(block) => s.report(Damage {
            block,
            kind: DamageKind::WrongShape,
        }),
        Err(fault) => fault,
    }
}

/// The head of an inode that is there. A size that no file may have is damage of the inode's place.
pub fn sized_head<S: Store>(s: &mut S, n: u32) -> Result<Head, StoreFault>
    requires live { IsLive (S.state s.old) }
    requires number { IsNumber (S.state s.old) n }
    requires there { HasInode (S.state s.old) n }
    ensures called { Called (S.state s.old) (S.state s.new) result }
    ensures point { KeepsPoint (S.state s.old) (S.state s.new) }
    ensures reads { Reads (S.state s.old) (S.state s.new) result }
    ensures below { S.is_clean s.old → SameBelow
        (S.may_hold s.old) (S.may_hold s.new) (S.is_sure s.old) (S.is_sure s.new) }
    ensures clean { S.is_clean s.old → OnOk result (S.is_clean s.new) }
    ensures damage { TellsWhatIs (S.state s.old) (S.state s.new) result }
    ensures untangled { NeverTangled (S.state s.old) result }
    ensures undamaged { NeverOnSized (S.state s.old) n result }
    ensures undamaged_head { NeverOnHead (S.state s.old) n result }
    ensures head { IfOk result (HasHead (S.state s.old) n) }
    ensures rules { IfOk result (λ head. is_head head ≡ true) }
    ensures size { IfOk result (λ head.
        head.size ≤ max_size_of (S.state s.old).origin.request) }
{
    let Some(head) = s.head(n)? else {
        return Err(no_inode(s, n));
    };
    if head.size > s.geometry().max_size() {
        return Err(too_great(s, n));
    }
    Ok(head)
}

ghost use Rattle.std.specs.Prelude.{◌≡◌, Some, IfOk};
ghost use Rattle.edge_store.specs.Damages.{IsNamedWithout};
ghost use Rattle.edge_store.specs.State.{Told, IsLive, IsNumber};
ghost use Rattle.edge_volume.specs.Nodes.{OnTree, IsNodeOf, head_at};
ghost use Rattle.edge_volume.specs.Parts.{Looks, IsOfNoDamage};
ghost use Rattle.edge_volume.specs.Stopped.{fault_in};
ghost use Rattle.edge_walk.specs.Reached.{IsReached, LacksInode};

use edge_base::{Damage, DamageKind, Head};
use edge_store::{Store, StoreFault};

/// Ends the store, since a number that something names has no inode.
fn no_inode<S: Store>(s: &mut S, n: u32) -> StoreFault
    requires live { IsLive (S.state s.old) }
    requires number { IsNumber (S.state s.old) n }
    requires lacks { LacksInode (S.state s.old) n }
    ensures looks { Looks S.Store (Some result) s.old s.new }
{
    let block = s.geometry().inode_place(n, false);
    s.report(Damage {
        block,
        kind: DamageKind::NotUsed,
    })
}

/// The head of a number that something names. Where it has no inode, its first place is damaged.
pub fn named_head<S: Store>(s: &mut S, n: u32) -> Result<Head, StoreFault>
    requires live { IsLive (S.state s.old) }
    requires reached { IsReached (S.state s.old) n }
    ensures looks { Looks S.Store (fault_in result) s.old s.new }
    ensures undamaged { OnTree (S.state s.old) (λ t. IsOfNoDamage (fault_in result)) }
    ensures node { IfOk result (IsNodeOf (S.state s.old) n) }
    ensures head { IfOk result (λ head. OnTree (S.state s.old)
        (λ t. Some head ≡ head_at (S.state s.old).origin.request t n)) }
{
    match s.head(n)? {
        Some(head) => Ok(head),
        None => Err(no_inode(s, n)),
    }
}

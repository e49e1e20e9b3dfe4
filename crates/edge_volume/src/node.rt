ghost use Rattle.std.specs.Prelude.{◌≡◌, IfOk, IfSome};
ghost use Rattle.edge_store.specs.State.{IsLive};
ghost use Rattle.edge_model.specs.State.{State};
ghost use Rattle.edge_volume.specs.Stopped.{fault_in};
ghost use Rattle.edge_volume.specs.Volume.{StoreStands};
ghost use Rattle.edge_volume.specs.Parts.{Looks, IsOfNoDamage};
ghost use Rattle.edge_volume.specs.Nodes.{OnTree, IsNoNode, IsNodeOf, head_at};

use edge_base::Head;
use edge_store::{Store, StoreFault};

/// The head of a node. None where no node may have the number, or none has it.
pub fn node_head<S: Store>(s: &mut S, n: u32) -> Result<Option<Head>, StoreFault>
    requires live { IsLive (S.state s.old) }
    ensures looks { Looks S.Store (fault_in result) s.old s.new }
    ensures undamaged { (z : State) → StoreStands (S.state s.old) z
        → IsOfNoDamage (fault_in result) }
    ensures absent { IfOk result (λ found. IsNoNode (S.state s.old) n found) }
    ensures node { IfOk result (λ found. IfSome found (IsNodeOf (S.state s.old) n)) }
    ensures head { IfOk result (λ found.
        OnTree (S.state s.old) (λ t. found ≡ head_at (S.state s.old).origin.request t n)) }
{
    let inodes = s.geometry().request().inodes;
    if n < 2 || n - 2 >= inodes {
        return Ok(None);
    }
    s.head(n)
}

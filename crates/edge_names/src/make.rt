ghost use Rattle.std.specs.Prelude.{◌≡◌, ◌<◌, ◌≤◌, ◌/◌, true, length, IfOk};
ghost use Rattle.edge_base.specs.declared.geometry.Request.{Request};
ghost use Rattle.edge_base.specs.layout.Places.{max_blocks_of};
ghost use Rattle.edge_base.specs.tree.Slots.{slots_in_block};
ghost use Rattle.edge_store.specs.Calls.{KeepsPoint};
ghost use Rattle.edge_store.specs.State.{IsLive, IsNumber, HasInode};
ghost use Rattle.edge_store.specs.View.{is_head};
ghost use Rattle.edge_stands.specs.Stands.{head_with};
ghost use Rattle.edge_volume.specs.Stopped.{fault_in};
ghost use Rattle.edge_volume.specs.Parts.{EndsBy};
ghost use Rattle.edge_names.specs.Made.{new_node, MakesNode, MakesNone, NeverMaking};

use edge_base::{Head, NodeType};
use edge_dir::place;
use edge_store::{Store, StoreFault};

/// The head of a node as it is made, with its one name in directory `d`.
fn first_head(kind: NodeType, d: u32) -> Head
    ensures head { (g : Request) → 0 < slots_in_block g
        → result ≡ head_with g 1 (new_node kind d) }
    ensures rules { is_head result ≡ true }
{
    let parent = match kind {
        NodeType::File => 0,
        NodeType::Directory => d,
    };
    Head {
        size: 0,
        kind,
        links: 1,
        parent,
    }
}

/// Makes a node without content and places its name in an empty slot of directory `d`. Answers its
/// number, the least that is free; None where none is, and then nothing has changed.
pub fn make_node<S: Store>(
    s: &mut S,
    kind: NodeType,
    d: u32,
    slot: u64,
    name: &[u8],
) -> Result<Option<u32>, StoreFault>
    requires live { IsLive (S.state s.old) }
    requires number { IsNumber (S.state s.old) d }
    requires there { HasInode (S.state s.old) d }
    requires block { slot / slots_in_block (S.state s.old).origin.request
        < max_blocks_of (S.state s.old).origin.request }
    requires name { length name.now ≤ (S.state s.old).origin.request.name_max }
    ensures ends { EndsBy (fault_in result) (S.state s.old) (S.state s.new) }
    ensures point { KeepsPoint (S.state s.old) (S.state s.new) }
    ensures undamaged { NeverMaking (S.state s.old) kind d slot name.now (fault_in result) }
    ensures made { IfOk result (MakesNode (S.state s.old) (S.state s.new) kind d slot name.now) }
    ensures none { IfOk result (MakesNone (S.state s.old) (S.state s.new)) }
{
    let Some(n) = s.new_inode(first_head(kind, d))? else {
        return Ok(None);
    };
    place(s, d, slot, name, n)?;
    Ok(Some(n))
}

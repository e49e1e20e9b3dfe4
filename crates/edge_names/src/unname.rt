ghost use Rattle.std.specs.Prelude.{◌≡◌, ◌<◌, ◌/◌, true, false, OnOk};
ghost use Rattle.edge_base.specs.layout.Places.{max_blocks_of};
ghost use Rattle.edge_base.specs.tree.Slots.{slots_in_block};
ghost use Rattle.edge_store.specs.Calls.{KeepsPoint};
ghost use Rattle.edge_store.specs.State.{IsLive, IsNumber, HasInode};
ghost use Rattle.edge_dir.specs.Directory.{IsDirectoryNode};
ghost use Rattle.edge_volume.specs.Stopped.{fault_in};
ghost use Rattle.edge_volume.specs.Parts.{EndsBy};
ghost use Rattle.edge_volume.specs.Nodes.{IsNodeOf};
ghost use Rattle.edge_names.specs.Unnamed.{Unnames, Drops, NeverUnnaming};

use edge_base::Head;
use edge_cut::cut_from;
use edge_dir::clear;
use edge_store::{Store, StoreFault};

/// Clears the slot of directory `d` that names file `n`, which has this head and other names.
pub fn remove_name<S: Store>(
    s: &mut S,
    n: u32,
    head: Head,
    d: u32,
    slot: u64,
) -> Result<(), StoreFault>
    requires live { IsLive (S.state s.old) }
    requires node { IsNodeOf (S.state s.old) n head }
    requires more { 1 < head.links }
    requires number { IsNumber (S.state s.old) d }
    requires there { HasInode (S.state s.old) d }
    requires directory { IsDirectoryNode (S.state s.old) d }
    requires block { slot / slots_in_block (S.state s.old).origin.request
        < max_blocks_of (S.state s.old).origin.request }
    ensures ends { EndsBy (fault_in result) (S.state s.old) (S.state s.new) }
    ensures point { KeepsPoint (S.state s.old) (S.state s.new) }
    ensures undamaged { NeverUnnaming (S.state s.old) n d slot false (fault_in result) }
    ensures unnamed { OnOk result (Unnames (S.state s.old) (S.state s.new) n d slot) }
{
    clear(s, d, slot)?;
    let fewer = Head {
        links: head.links - 1,
        ..head
    };
    s.set_head(n, fewer)
}

/// Clears the slot of directory `d` that names node `n`, and drops the node with all its blocks.
pub fn drop_node<S: Store>(s: &mut S, n: u32, d: u32, slot: u64) -> Result<(), StoreFault>
    requires live { IsLive (S.state s.old) }
    requires node { IsNumber (S.state s.old) n }
    requires node_there { HasInode (S.state s.old) n }
    requires number { IsNumber (S.state s.old) d }
    requires there { HasInode (S.state s.old) d }
    requires directory { IsDirectoryNode (S.state s.old) d }
    requires block { slot / slots_in_block (S.state s.old).origin.request
        < max_blocks_of (S.state s.old).origin.request }
    ensures ends { EndsBy (fault_in result) (S.state s.old) (S.state s.new) }
    ensures point { KeepsPoint (S.state s.old) (S.state s.new) }
    ensures undamaged { NeverUnnaming (S.state s.old) n d slot true (fault_in result) }
    ensures dropped { OnOk result (Drops (S.state s.old) (S.state s.new) n d slot) }
{
    let _within_limits = s.geometry().request();
    clear(s, d, slot)?;
    cut_from(s, n, 0)?;
    s.drop_inode(n)
}

ghost use Rattle.std.specs.Prelude.{◌≡◌, ◌<◌, ◌≤◌, ◌/◌, length, OnOk};
ghost use Rattle.edge_base.specs.layout.Places.{max_blocks_of};
ghost use Rattle.edge_base.specs.tree.Slots.{slots_in_block};
ghost use Rattle.edge_store.specs.Calls.{KeepsPoint};
ghost use Rattle.edge_store.specs.State.{IsLive, IsNumber, HasInode};
ghost use Rattle.edge_volume.specs.Stopped.{fault_in};
ghost use Rattle.edge_volume.specs.Parts.{EndsBy};
ghost use Rattle.edge_volume.specs.Nodes.{IsNodeOf};
ghost use Rattle.edge_names.specs.Linked.{Links, NeverLinking};

use edge_base::Head;
use edge_dir::place;
use edge_store::{Store, StoreFault};

/// Gives file `n`, which has this head, a further name in an empty slot of directory `d`.
pub fn add_name<S: Store>(
    s: &mut S,
    n: u32,
    head: Head,
    d: u32,
    slot: u64,
    name: &[u8],
) -> Result<(), StoreFault>
    requires live { IsLive (S.state s.old) }
    requires node { IsNodeOf (S.state s.old) n head }
    requires few { head.links < 65535 }
    requires number { IsNumber (S.state s.old) d }
    requires there { HasInode (S.state s.old) d }
    requires block { slot / slots_in_block (S.state s.old).origin.request
        < max_blocks_of (S.state s.old).origin.request }
    requires name { length name.now ≤ (S.state s.old).origin.request.name_max }
    ensures ends { EndsBy (fault_in result) (S.state s.old) (S.state s.new) }
    ensures point { KeepsPoint (S.state s.old) (S.state s.new) }
    ensures undamaged { NeverLinking (S.state s.old) n d slot name.now (fault_in result) }
    ensures linked { OnOk result (Links (S.state s.old) (S.state s.new) n d slot name.now) }
{
    let more = Head {
        links: head.links + 1,
        ..head
    };
    s.set_head(n, more)?;
    place(s, d, slot, name, n)
}

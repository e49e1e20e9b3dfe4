ghost use Rattle.std.specs.Prelude.{◌≡◌, ◌≤◌, true, OnOk};
ghost use Rattle.edge_base.specs.layout.Places.{max_size_of};
ghost use Rattle.edge_store.specs.Calls.{Called, KeepsPoint, KeepsPlacesBut};
ghost use Rattle.edge_store.specs.State.{IsLive, IsNumber, HasInode};
ghost use Rattle.edge_store.specs.View.{is_head};
ghost use Rattle.edge_tree.specs.Answers.{TellsWhatIs, NeverTangled, IsReadable};
ghost use Rattle.edge_file.specs.Answers.{NeverOnHead, NeverOnSized, NeverOnWhole, HasHead};
ghost use Rattle.edge_file.specs.Writing.{GrowsTo, GrowsHead, KeepsBlocks};

use crate::head::sized_head;
use edge_base::Head;
use edge_store::{Store, StoreFault};

/// Gives a node whose head is told a size, if it is less than that.
pub(crate) fn reach<S: Store>(s: &mut S, n: u32, head: Head, size: u64) -> Result<(), StoreFault>
    requires live { IsLive (S.state s.old) }
    requires number { IsNumber (S.state s.old) n }
    requires there { HasInode (S.state s.old) n }
    requires head { HasHead (S.state s.old) n head }
    requires rules { is_head head ≡ true }
    ensures called { Called (S.state s.old) (S.state s.new) result }
    ensures point { KeepsPoint (S.state s.old) (S.state s.new) }
    ensures places { OnOk result (KeepsPlacesBut (S.state s.old) (S.state s.new) n) }
    ensures damage { TellsWhatIs (S.state s.old) (S.state s.new) result }
    ensures untangled { NeverTangled (S.state s.old) result }
    ensures undamaged { NeverOnWhole (S.state s.old) n result }
    ensures readable { OnOk result (IsReadable (S.state s.new) n) }
    ensures set { OnOk result (GrowsHead (S.state s.old) (S.state s.new) n size) }
    ensures grown { OnOk result (GrowsTo (S.state s.old) (S.state s.new) n size) }
    ensures blocks { OnOk result (KeepsBlocks (S.state s.old) (S.state s.new) n) }
{
    if size <= head.size {
        return Ok(());
    }
    s.set_head(n, Head { size, ..head })
}

/// Gives a node a size, if it is less than that. No block is taken or changed; the new bytes are
/// zeros in a file that keeps its rules.
pub fn grow<S: Store>(s: &mut S, n: u32, size: u64) -> Result<(), StoreFault>
    requires live { IsLive (S.state s.old) }
    requires number { IsNumber (S.state s.old) n }
    requires there { HasInode (S.state s.old) n }
    requires most { size ≤ max_size_of (S.state s.old).origin.request }
    ensures called { Called (S.state s.old) (S.state s.new) result }
    ensures point { KeepsPoint (S.state s.old) (S.state s.new) }
    ensures places { OnOk result (KeepsPlacesBut (S.state s.old) (S.state s.new) n) }
    ensures damage { TellsWhatIs (S.state s.old) (S.state s.new) result }
    ensures untangled { NeverTangled (S.state s.old) result }
    ensures undamaged { NeverOnSized (S.state s.old) n result }
    ensures undamaged_head { NeverOnHead (S.state s.old) n result }
    ensures readable { OnOk result (IsReadable (S.state s.new) n) }
    ensures set { OnOk result (GrowsHead (S.state s.old) (S.state s.new) n size) }
    ensures grown { OnOk result (GrowsTo (S.state s.old) (S.state s.new) n size) }
    ensures blocks { OnOk result (KeepsBlocks (S.state s.old) (S.state s.new) n) }
{
    let head = sized_head(s, n)?;
    reach(s, n, head, size)
}

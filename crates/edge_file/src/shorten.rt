ghost use Rattle.std.specs.Prelude.{◌≡◌, ◌≤◌, true, OnOk};
ghost use Rattle.edge_base.specs.layout.Places.{max_size_of};
ghost use Rattle.edge_store.specs.Calls.{Called, KeepsPoint, KeepsPlacesBut};
ghost use Rattle.edge_store.specs.State.{IsLive, IsNumber, HasInode};
ghost use Rattle.edge_store.specs.View.{is_head};
ghost use Rattle.edge_tree.specs.Answers.{TellsWhatIs, IsReadable};
ghost use Rattle.edge_tree.specs.Own.{TellsTangleOf, UntangledIf, UndamagedIf, IsNodeShaped, KeepsHeads};
ghost use Rattle.edge_file.specs.Answers.{HasHead};
ghost use Rattle.edge_file.specs.Bytes.{size_at};
ghost use Rattle.edge_file.specs.Writing.{RoomToShorten, RoomForSize, IsNodeSized, ClearsRest, StaysWithoutRest, Shortens, ShortensTo, LengthensTo, LengthensHead, SetsSize, KeepsInodesBut};

use crate::head::sized_head;
use crate::piece::{BLOCK_MOST, block_count, rest_behind};
use crate::size::reach;
use crate::write::fill_bytes;
use edge_base::Head;
use edge_cut::cut_from;
use edge_store::{Store, StoreFault};
use edge_tree::block_of;

/// Writes zeros behind the end that a node is to have, up to the end of that data block. Where it
/// is absent nothing is written.
fn clear_rest<S: Store>(s: &mut S, n: u32, size: u64) -> Result<(), StoreFault>
    requires live { IsLive (S.state s.old) }
    requires number { IsNumber (S.state s.old) n }
    requires there { HasInode (S.state s.old) n }
    requires most { size ≤ max_size_of (S.state s.old).origin.request }
    ensures called { Called (S.state s.old) (S.state s.new) result }
    ensures point { KeepsPoint (S.state s.old) (S.state s.new) }
    ensures places { OnOk result (KeepsPlacesBut (S.state s.old) (S.state s.new) n) }
    ensures damage { TellsWhatIs (S.state s.old) (S.state s.new) result }
    ensures untangled { UntangledIf (S.state s.old) (IsNodeShaped (S.state s.old) n
        × RoomToShorten (S.state s.old) n size) result }
    ensures tangled { TellsTangleOf (S.state s.old) (S.state s.new) n result }
    ensures undamaged { UndamagedIf (S.state s.old) (IsNodeShaped (S.state s.old) n)
        (RoomToShorten (S.state s.old) n size) result }
    ensures heads { OnOk result (KeepsHeads (S.state s.old) (S.state s.new) n) }
    ensures there { OnOk result (HasInode (S.state s.new) n) }
    ensures cleared { OnOk result (ClearsRest (S.state s.old) (S.state s.new) n size) }
    ensures stays { OnOk result (StaysWithoutRest (S.state s.old) (S.state s.new) n size) }
{
    let Some(rest) = rest_behind(s.geometry(), size) else {
        return Ok(());
    };
    if block_of(s, n, rest.index)? == 0 {
        return Ok(());
    }
    fill_bytes(s, n, size, rest.len as u32, &[0; BLOCK_MOST])
}

/// Cuts a node behind its first bytes, so many as the size, and leaves its size. What stands behind
/// them in their last data block is zeros then.
fn cut_behind<S: Store>(s: &mut S, n: u32, size: u64) -> Result<(), StoreFault>
    requires live { IsLive (S.state s.old) }
    requires number { IsNumber (S.state s.old) n }
    requires there { HasInode (S.state s.old) n }
    requires most { size ≤ max_size_of (S.state s.old).origin.request }
    ensures called { Called (S.state s.old) (S.state s.new) result }
    ensures point { KeepsPoint (S.state s.old) (S.state s.new) }
    ensures places { OnOk result (KeepsPlacesBut (S.state s.old) (S.state s.new) n) }
    ensures damage { TellsWhatIs (S.state s.old) (S.state s.new) result }
    ensures untangled { UntangledIf (S.state s.old) (IsNodeShaped (S.state s.old) n
        × RoomToShorten (S.state s.old) n size) result }
    ensures tangled { TellsTangleOf (S.state s.old) (S.state s.new) n result }
    ensures undamaged { UndamagedIf (S.state s.old) (IsNodeShaped (S.state s.old) n)
        (RoomToShorten (S.state s.old) n size) result }
    ensures heads { OnOk result (KeepsHeads (S.state s.old) (S.state s.new) n) }
    ensures there { OnOk result (HasInode (S.state s.new) n) }
    ensures shortened { OnOk result (Shortens (S.state s.old) (S.state s.new) n size) }
{
    clear_rest(s, n, size)?;
    let count = block_count(s.geometry(), size);
    cut_from(s, n, count)
}

/// Cuts a node whose head is told behind its first bytes, so many as the size, and gives it that.
fn shorten<S: Store>(s: &mut S, n: u32, head: Head, size: u64) -> Result<(), StoreFault>
    requires live { IsLive (S.state s.old) }
    requires number { IsNumber (S.state s.old) n }
    requires there { HasInode (S.state s.old) n }
    requires head { HasHead (S.state s.old) n head }
    requires rules { is_head head ≡ true }
    requires most { size ≤ max_size_of (S.state s.old).origin.request }
    ensures called { Called (S.state s.old) (S.state s.new) result }
    ensures point { KeepsPoint (S.state s.old) (S.state s.new) }
    ensures places { OnOk result (KeepsPlacesBut (S.state s.old) (S.state s.new) n) }
    ensures damage { TellsWhatIs (S.state s.old) (S.state s.new) result }
    ensures untangled { UntangledIf (S.state s.old) (IsNodeShaped (S.state s.old) n
        × RoomToShorten (S.state s.old) n size) result }
    ensures tangled { TellsTangleOf (S.state s.old) (S.state s.new) n result }
    ensures undamaged { UndamagedIf (S.state s.old) (IsNodeShaped (S.state s.old) n)
        (RoomToShorten (S.state s.old) n size) result }
    ensures inodes { OnOk result (KeepsInodesBut (S.state s.old) (S.state s.new) n) }
    ensures readable { OnOk result (IsReadable (S.state s.new) n) }
    ensures sized { OnOk result (SetsSize (S.state s.old) (S.state s.new) n size) }
    ensures shortened { OnOk result (Shortens (S.state s.old) (S.state s.new) n size) }
{
    cut_behind(s, n, size)?;
    s.set_head(n, Head { size, ..head })
}

/// Gives a file a size. Where it is less, the data blocks behind it are cut off, and what stands
/// behind it in the last one that is left is zeros then. Where it is greater, the new bytes are
/// zeros, and no block is taken.
///
/// To be shorter takes free blocks: where the last block that is left is there and has bytes behind
/// the size, as many as positions on its chain are not new, and else as many as the cut needs.
/// Where fewer are free, the store ends with a tangled node. The size of a directory goes by its
/// blocks, and is not set so.
pub fn set_size<S: Store>(s: &mut S, n: u32, size: u64) -> Result<(), StoreFault>
    requires live { IsLive (S.state s.old) }
    requires number { IsNumber (S.state s.old) n }
    requires there { HasInode (S.state s.old) n }
    requires most { size ≤ max_size_of (S.state s.old).origin.request }
    ensures called { Called (S.state s.old) (S.state s.new) result }
    ensures point { KeepsPoint (S.state s.old) (S.state s.new) }
    ensures places { OnOk result (KeepsPlacesBut (S.state s.old) (S.state s.new) n) }
    ensures damage { TellsWhatIs (S.state s.old) (S.state s.new) result }
    ensures untangled { UntangledIf (S.state s.old) (size_at (S.state s.old).working n ≤ size)
        result }
    ensures untangled_shaped { UntangledIf (S.state s.old) (IsNodeShaped (S.state s.old) n
        × RoomForSize (S.state s.old) n size) result }
    ensures tangled { TellsTangleOf (S.state s.old) (S.state s.new) n result }
    ensures undamaged { UndamagedIf (S.state s.old) (IsNodeSized (S.state s.old) n)
        (RoomForSize (S.state s.old) n size) result }
    ensures inodes { OnOk result (KeepsInodesBut (S.state s.old) (S.state s.new) n) }
    ensures readable { OnOk result (IsReadable (S.state s.new) n) }
    ensures sized { OnOk result (SetsSize (S.state s.old) (S.state s.new) n size) }
    ensures shortened { OnOk result (ShortensTo (S.state s.old) (S.state s.new) n size) }
    ensures lengthened { OnOk result (LengthensTo (S.state s.old) (S.state s.new) n size) }
    ensures set { OnOk result (LengthensHead (S.state s.old) (S.state s.new) n size) }
{
    let head = sized_head(s, n)?;
    if size < head.size {
        return shorten(s, n, head, size);
    }
    reach(s, n, head, size)
}

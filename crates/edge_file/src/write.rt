ghost use Rattle.std.specs.Prelude.{◌≡◌, ◌<◌, ◌≤◌, ◌+◌, ◌*◌, length, replicate, slice_index, OnOk};
ghost use Rattle.edge_base.specs.layout.Places.{max_blocks_of, max_size_of};
ghost use Rattle.edge_store.specs.Calls.{Called, KeepsPoint, KeepsPlacesBut};
ghost use Rattle.edge_store.specs.State.{IsLive, IsNumber, HasInode};
ghost use Rattle.edge_tree.specs.Answers.{TellsWhatIs, IsReadable};
ghost use Rattle.edge_tree.specs.Own.{TellsTangleOf, UntangledIf, UndamagedIf, IsNodeShaped, KeepsHeads};
ghost use Rattle.edge_file.specs.Writing.{RoomForBytes, IsNodeSized, WritesBytes, GrowsTo, KeepsInodesBut};

use crate::head::sized_head;
use crate::piece::{BLOCK_MOST, end_of, first_piece};
use crate::size::reach;
use edge_base::Form;
use edge_store::{Spot, Store, StoreFault};
use edge_tree::{make_overwritable, make_writable};

/// Writes a whole data block. What it held is not read: a block of the last point is left to it,
/// and an empty one takes its place.
fn overwrite_block<S: Store>(s: &mut S, n: u32, i: u32, bytes: &[u8]) -> Result<(), StoreFault>
    requires live { IsLive (S.state s.old) }
    requires number { IsNumber (S.state s.old) n }
    requires there { HasInode (S.state s.old) n }
    requires index { i < max_blocks_of (S.state s.old).origin.request }
    requires some { 0 < length bytes.now }
    requires whole { length bytes.now ≡ (S.state s.old).origin.request.block_size }
    ensures called { Called (S.state s.old) (S.state s.new) result }
    ensures point { KeepsPoint (S.state s.old) (S.state s.new) }
    ensures places { OnOk result (KeepsPlacesBut (S.state s.old) (S.state s.new) n) }
    ensures damage { TellsWhatIs (S.state s.old) (S.state s.new) result }
    ensures untangled { UntangledIf (S.state s.old) (RoomForBytes (S.state s.old) n
        (i * (S.state s.old).origin.request.block_size) (length bytes.now)) result }
    ensures tangled { TellsTangleOf (S.state s.old) (S.state s.new) n result }
    ensures undamaged { UndamagedIf (S.state s.old) (IsNodeShaped (S.state s.old) n)
        (RoomForBytes (S.state s.old) n
        (i * (S.state s.old).origin.request.block_size) (length bytes.now)) result }
    ensures heads { OnOk result (KeepsHeads (S.state s.old) (S.state s.new) n) }
    ensures readable { OnOk result (IsReadable (S.state s.new) n) }
    ensures written { OnOk result (WritesBytes (S.state s.old) (S.state s.new) n
        (i * (S.state s.old).origin.request.block_size) bytes.now) }
{
    let block = make_overwritable(s, n, i)?;
    let data = Spot {
        block,
        form: Form::Plain,
        owner: n,
    };
    s.write_block(data, 0, bytes)
}

/// Writes bytes of a data block from byte `start` on. It is made writable first, and with nothing
/// in it where it was absent; one that is written whole is made so without reading it.
fn write_in_block<S: Store>(
    s: &mut S,
    n: u32,
    i: u32,
    start: u32,
    bytes: &[u8],
) -> Result<(), StoreFault>
    requires live { IsLive (S.state s.old) }
    requires number { IsNumber (S.state s.old) n }
    requires there { HasInode (S.state s.old) n }
    requires index { i < max_blocks_of (S.state s.old).origin.request }
    requires some { 0 < length bytes.now }
    requires range { start + length bytes.now ≤ (S.state s.old).origin.request.block_size }
    ensures called { Called (S.state s.old) (S.state s.new) result }
    ensures point { KeepsPoint (S.state s.old) (S.state s.new) }
    ensures places { OnOk result (KeepsPlacesBut (S.state s.old) (S.state s.new) n) }
    ensures damage { TellsWhatIs (S.state s.old) (S.state s.new) result }
    ensures untangled { UntangledIf (S.state s.old) (RoomForBytes (S.state s.old) n
        (i * (S.state s.old).origin.request.block_size + start) (length bytes.now)) result }
    ensures tangled { TellsTangleOf (S.state s.old) (S.state s.new) n result }
    ensures undamaged { UndamagedIf (S.state s.old) (IsNodeShaped (S.state s.old) n)
        (RoomForBytes (S.state s.old) n
        (i * (S.state s.old).origin.request.block_size + start) (length bytes.now)) result }
    ensures heads { OnOk result (KeepsHeads (S.state s.old) (S.state s.new) n) }
    ensures readable { OnOk result (IsReadable (S.state s.new) n) }
    ensures written { OnOk result (WritesBytes (S.state s.old) (S.state s.new) n
        (i * (S.state s.old).origin.request.block_size + start) bytes.now) }
{
    if bytes.len() == s.geometry().request().block_size as usize {
        return overwrite_block(s, n, i, bytes);
    }
    let block = make_writable(s, n, i)?;
    let data = Spot {
        block,
        form: Form::Plain,
        owner: n,
    };
    s.write_block(data, start, bytes)
}

/// Writes bytes of a node from byte `at` on, and leaves its size.
fn write_bytes<S: Store>(s: &mut S, n: u32, at: u64, bytes: &[u8]) -> Result<(), StoreFault>
    requires live { IsLive (S.state s.old) }
    requires number { IsNumber (S.state s.old) n }
    requires there { HasInode (S.state s.old) n }
    requires end { at + length bytes.now ≤ max_size_of (S.state s.old).origin.request }
    ensures called { Called (S.state s.old) (S.state s.new) result }
    ensures point { KeepsPoint (S.state s.old) (S.state s.new) }
    ensures places { OnOk result (KeepsPlacesBut (S.state s.old) (S.state s.new) n) }
    ensures damage { TellsWhatIs (S.state s.old) (S.state s.new) result }
    ensures untangled { UntangledIf (S.state s.old) (IsNodeShaped (S.state s.old) n
        × RoomForBytes (S.state s.old) n at (length bytes.now)) result }
    ensures tangled { TellsTangleOf (S.state s.old) (S.state s.new) n result }
    ensures undamaged { UndamagedIf (S.state s.old) (IsNodeShaped (S.state s.old) n)
        (RoomForBytes (S.state s.old) n at (length bytes.now)) result }
    ensures heads { OnOk result (KeepsHeads (S.state s.old) (S.state s.new) n) }
    ensures there { OnOk result (HasInode (S.state s.new) n) }
    ensures written { OnOk result
        (WritesBytes (S.state s.old) (S.state s.new) n at bytes.now) }
{
    let mut done = 0;
    while done < bytes.len() {
        let piece = first_piece(s.geometry(), at + done as u64, bytes.len() - done);
        let part = &bytes[done..done + piece.len];
        write_in_block(s, n, piece.index, piece.start, part)?;
        done += piece.len;
    }
    Ok(())
}

/// Writes the byte of a list that has it everywhere, again and again, from byte `at` of a node on,
/// and leaves its size.
pub(crate) fn fill_bytes<S: Store>(
    s: &mut S,
    n: u32,
    at: u64,
    count: u32,
    same: &[u8],
) -> Result<(), StoreFault>
    requires live { IsLive (S.state s.old) }
    requires number { IsNumber (S.state s.old) n }
    requires there { HasInode (S.state s.old) n }
    requires end { at + count ≤ max_size_of (S.state s.old).origin.request }
    requires same { same.now ≡ replicate BLOCK_MOST (slice_index same.now 0) }
    ensures called { Called (S.state s.old) (S.state s.new) result }
    ensures point { KeepsPoint (S.state s.old) (S.state s.new) }
    ensures places { OnOk result (KeepsPlacesBut (S.state s.old) (S.state s.new) n) }
    ensures damage { TellsWhatIs (S.state s.old) (S.state s.new) result }
    ensures untangled { UntangledIf (S.state s.old) (IsNodeShaped (S.state s.old) n
        × RoomForBytes (S.state s.old) n at count) result }
    ensures tangled { TellsTangleOf (S.state s.old) (S.state s.new) n result }
    ensures undamaged { UndamagedIf (S.state s.old) (IsNodeShaped (S.state s.old) n)
        (RoomForBytes (S.state s.old) n at count) result }
    ensures heads { OnOk result (KeepsHeads (S.state s.old) (S.state s.new) n) }
    ensures there { OnOk result (HasInode (S.state s.new) n) }
    ensures written { OnOk result
        (WritesBytes (S.state s.old) (S.state s.new) n at
        (replicate count (slice_index same.now 0))) }
{
    let mut done = 0;
    while done < count {
        let piece = first_piece(s.geometry(), at + u64::from(done), (count - done) as usize);
        let part = &same[..piece.len];
        write_in_block(s, n, piece.index, piece.start, part)?;
        done += piece.len as u32;
    }
    Ok(())
}

/// Writes bytes of a file or a directory from byte `at` on. Where they end past its end, it ends
/// there then; what lies between stays what it was, which is zeros in a file that keeps its rules.
/// Where there are no bytes, the node is as long as the place all the same.
///
/// Each data block is looked up once. One that the last point uses is copied where a part of it is
/// written, and not read where all of it is. It takes as many free blocks as positions on the
/// chains of these data blocks are not new. Where fewer are free, the store ends with a tangled
/// node.
pub fn write_at<S: Store>(s: &mut S, n: u32, at: u64, bytes: &[u8]) -> Result<(), StoreFault>
    requires live { IsLive (S.state s.old) }
    requires number { IsNumber (S.state s.old) n }
    requires there { HasInode (S.state s.old) n }
    requires end { at + length bytes.now ≤ max_size_of (S.state s.old).origin.request }
    ensures called { Called (S.state s.old) (S.state s.new) result }
    ensures point { KeepsPoint (S.state s.old) (S.state s.new) }
    ensures places { OnOk result (KeepsPlacesBut (S.state s.old) (S.state s.new) n) }
    ensures damage { TellsWhatIs (S.state s.old) (S.state s.new) result }
    ensures untangled { UntangledIf (S.state s.old) (IsNodeShaped (S.state s.old) n
        × RoomForBytes (S.state s.old) n at (length bytes.now)) result }
    ensures tangled { TellsTangleOf (S.state s.old) (S.state s.new) n result }
    ensures undamaged { UndamagedIf (S.state s.old) (IsNodeSized (S.state s.old) n)
        (RoomForBytes (S.state s.old) n at (length bytes.now)) result }
    ensures inodes { OnOk result (KeepsInodesBut (S.state s.old) (S.state s.new) n) }
    ensures readable { OnOk result (IsReadable (S.state s.new) n) }
    ensures grown { OnOk result
        (GrowsTo (S.state s.old) (S.state s.new) n (at + length bytes.now)) }
    ensures written { OnOk result
        (WritesBytes (S.state s.old) (S.state s.new) n at bytes.now) }
{
    let head = sized_head(s, n)?;
    let end = end_of(s.geometry(), at, bytes.len() as u64);
    write_bytes(s, n, at, bytes)?;
    reach(s, n, head, end)
}

/// Writes one byte again and again, as `write_at` writes bytes.
pub fn fill_at<S: Store>(s: &mut S, n: u32, at: u64, count: u32, byte: u8) -> Result<(), StoreFault>
    requires live { IsLive (S.state s.old) }
    requires number { IsNumber (S.state s.old) n }
    requires there { HasInode (S.state s.old) n }
    requires end { at + count ≤ max_size_of (S.state s.old).origin.request }
    ensures called { Called (S.state s.old) (S.state s.new) result }
    ensures point { KeepsPoint (S.state s.old) (S.state s.new) }
    ensures places { OnOk result (KeepsPlacesBut (S.state s.old) (S.state s.new) n) }
    ensures damage { TellsWhatIs (S.state s.old) (S.state s.new) result }
    ensures untangled { UntangledIf (S.state s.old) (IsNodeShaped (S.state s.old) n
        × RoomForBytes (S.state s.old) n at count) result }
    ensures tangled { TellsTangleOf (S.state s.old) (S.state s.new) n result }
    ensures undamaged { UndamagedIf (S.state s.old) (IsNodeSized (S.state s.old) n)
        (RoomForBytes (S.state s.old) n at count) result }
    ensures inodes { OnOk result (KeepsInodesBut (S.state s.old) (S.state s.new) n) }
    ensures readable { OnOk result (IsReadable (S.state s.new) n) }
    ensures grown { OnOk result (GrowsTo (S.state s.old) (S.state s.new) n (at + count)) }
    ensures written { OnOk result
        (WritesBytes (S.state s.old) (S.state s.new) n at (replicate count byte)) }
{
    let same = [byte; BLOCK_MOST];
    let head = sized_head(s, n)?;
    let end = end_of(s.geometry(), at, u64::from(count));
    fill_bytes(s, n, at, count, &same)?;
    reach(s, n, head, end)
}

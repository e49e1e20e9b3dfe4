ghost use Rattle.std.specs.Prelude.{◌≡◌, ◌<◌, ◌≤◌, ◌+◌, ◌*◌, ◌^◌, length, IfOk, OnOk};
ghost use Rattle.edge_base.specs.layout.Places.{max_blocks_of, max_size_of};
ghost use Rattle.edge_base.specs.outside.Below.{SameBelow};
ghost use Rattle.edge_store.specs.Calls.{Called, KeepsPoint, Reads};
ghost use Rattle.edge_store.specs.State.{IsLive, IsNumber, HasInode};
ghost use Rattle.edge_tree.specs.Answers.{TellsWhatIs, NeverTangled, NeverOnShaped};
ghost use Rattle.edge_file.specs.Answers.{NeverOnSized, AreBytesAt, IsCountAt, ReadsInto};

use crate::head::sized_head;
use crate::piece::first_piece;
use edge_base::Form;
use edge_store::{Spot, Store, StoreFault};
use edge_tree::block_of;

/// Reads bytes of a data block from byte `start` on: zeros where it is absent.
fn read_in_block<S: Store>(
    s: &mut S,
    n: u32,
    i: u32,
    start: u32,
    out: &mut [u8],
) -> Result<(), StoreFault>
    requires live { IsLive (S.state s.old) }
    requires number { IsNumber (S.state s.old) n }
    requires there { HasInode (S.state s.old) n }
    requires index { i < max_blocks_of (S.state s.old).origin.request }
    requires range { start + length out.old ≤ (S.state s.old).origin.request.block_size }
    ensures called { Called (S.state s.old) (S.state s.new) result }
    ensures point { KeepsPoint (S.state s.old) (S.state s.new) }
    ensures reads { Reads (S.state s.old) (S.state s.new) result }
    ensures below { S.is_clean s.old → SameBelow
        (S.may_hold s.old) (S.may_hold s.new) (S.is_sure s.old) (S.is_sure s.new) }
    ensures clean { S.is_clean s.old → OnOk result (S.is_clean s.new) }
    ensures damage { TellsWhatIs (S.state s.old) (S.state s.new) result }
    ensures untangled { NeverTangled (S.state s.old) result }
    ensures undamaged { NeverOnShaped (S.state s.old) n result }
    ensures bytes { OnOk result (AreBytesAt (S.state s.old) n
        (i * (S.state s.old).origin.request.block_size + start) out.new) }
{
    let block = block_of(s, n, i)?;
    if block == 0 {
        out.fill(0);
        return Ok(());
    }
    let data = Spot {
        block,
        form: Form::Plain,
        owner: n,
    };
    s.read_block(data, start, out)
}

/// Reads bytes of a node from byte `at` on, whatever its size is. Each data block is looked up
/// once.
fn read_bytes<S: Store>(s: &mut S, n: u32, at: u64, out: &mut [u8]) -> Result<(), StoreFault>
    requires live { IsLive (S.state s.old) }
    requires number { IsNumber (S.state s.old) n }
    requires there { HasInode (S.state s.old) n }
    requires end { at + length out.old ≤ max_size_of (S.state s.old).origin.request }
    ensures called { Called (S.state s.old) (S.state s.new) result }
    ensures point { KeepsPoint (S.state s.old) (S.state s.new) }
    ensures reads { Reads (S.state s.old) (S.state s.new) result }
    ensures below { S.is_clean s.old → SameBelow
        (S.may_hold s.old) (S.may_hold s.new) (S.is_sure s.old) (S.is_sure s.new) }
    ensures clean { S.is_clean s.old → OnOk result (S.is_clean s.new) }
    ensures damage { TellsWhatIs (S.state s.old) (S.state s.new) result }
    ensures untangled { NeverTangled (S.state s.old) result }
    ensures undamaged { NeverOnShaped (S.state s.old) n result }
    ensures bytes { OnOk result (AreBytesAt (S.state s.old) n at out.new) }
{
    let mut done = 0;
    while done < out.len() {
        let piece = first_piece(s.geometry(), at + done as u64, out.len() - done);
        let part = &mut out[done..done + piece.len];
        read_in_block(s, n, piece.index, piece.start, part)?;
        done += piece.len;
    }
    Ok(())
}

/// Reads bytes of a file or a directory from byte `at` on, as many as there are up to its end, and
/// answers how many. Absent data blocks read as zeros.
///
/// The bytes of a directory are those of its blocks. A size that no file may have is damage.
pub fn read_at<S: Store>(s: &mut S, n: u32, at: u64, out: &mut [u8]) -> Result<u32, StoreFault>
    requires live { IsLive (S.state s.old) }
    requires number { IsNumber (S.state s.old) n }
    requires there { HasInode (S.state s.old) n }
    requires room { length out.old < 2 ^ 32 }
    ensures called { Called (S.state s.old) (S.state s.new) result }
    ensures point { KeepsPoint (S.state s.old) (S.state s.new) }
    ensures reads { Reads (S.state s.old) (S.state s.new) result }
    ensures below { S.is_clean s.old → SameBelow
        (S.may_hold s.old) (S.may_hold s.new) (S.is_sure s.old) (S.is_sure s.new) }
    ensures clean { S.is_clean s.old → OnOk result (S.is_clean s.new) }
    ensures damage { TellsWhatIs (S.state s.old) (S.state s.new) result }
    ensures untangled { NeverTangled (S.state s.old) result }
    ensures undamaged { NeverOnSized (S.state s.old) n result }
    ensures within { IfOk result (λ count. count ≤ length out.old) }
    ensures count { IfOk result (IsCountAt (S.state s.old) n at (length out.old)) }
    ensures bytes { IfOk result (ReadsInto (S.state s.old) n at out.old out.new) }
{
    let head = sized_head(s, n)?;
    if at >= head.size {
        return Ok(0);
    }
    let count = (head.size - at).min(out.len() as u64) as usize;
    read_bytes(s, n, at, &mut out[..count])?;
    Ok(count as u32)
}

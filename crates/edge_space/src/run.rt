ghost use Rattle.std.specs.Prelude.{◌≡◌, ◌<◌, ◌≤◌, ◌+◌, ◌-◌, ◌/◌, ◌^◌, IfOk, OnOk};
ghost use Rattle.edge_base.specs.layout.Places.{max_blocks_of, max_size_of};
ghost use Rattle.edge_base.specs.outside.Below.{SameBelow};
ghost use Rattle.edge_store.specs.Calls.{Called, KeepsPoint, Reads};
ghost use Rattle.edge_store.specs.State.{IsLive, IsNumber, HasInode};
ghost use Rattle.edge_tree.specs.Answers.{TellsWhatIs, NeverTangled, NeverOnShaped};
ghost use Rattle.edge_space.specs.Answers.{IsNeedOf};
ghost use Rattle.edge_space.specs.Counts.{IsFreshRun};
ghost use Rattle.edge_space.specs.declared.change.Change.TheVariants.{Bytes};

use crate::entries::fresh_entries;
use crate::nodes::fresh_rows;
use crate::rows::{Run, part_before, rows_of};
use edge_base::Geometry;
use edge_store::{Store, StoreFault};

/// The data blocks that have one of so many bytes.
fn run_under(g: Geometry, at: u64, len: u32) -> Run
    requires some { 0 < len }
    requires end { at + len ≤ max_size_of g }
    ensures first { result.first ≡ at / g.block_size }
    ensures end { result.first + result.count ≡ (at + len - 1) / g.block_size + 1 }
    ensures some { 0 < result.count }
    ensures few { result.count ≤ 2 ^ 24 }
    ensures most { result.first + result.count ≤ max_blocks_of g }
{
    let block_size = u64::from(g.request().block_size);
    let most = u64::from(g.max_blocks());
    prove!(at + u64::from(len) <= most * block_size);
    let first = at / block_size;
    let last = (at + u64::from(len) - 1) / block_size;
    prove!(first <= last && last < most);
    Run {
        first: first as u32,
        count: (last - first + 1) as u32,
    }
}

/// How many positions of a run of data blocks, and of the pointer nodes above it, are fresh. Each
/// pointer node is counted once, however many of its data blocks are in the run.
fn fresh_of_run<S: Store>(s: &mut S, n: u32, run: Run) -> Result<u32, StoreFault>
    requires live { IsLive (S.state s.old) }
    requires number { IsNumber (S.state s.old) n }
    requires there { HasInode (S.state s.old) n }
    requires some { 0 < run.count }
    requires few { run.count ≤ 2 ^ 24 }
    requires end { run.first + run.count ≤ max_blocks_of (S.state s.old).origin.request }
    ensures called { Called (S.state s.old) (S.state s.new) result }
    ensures point { KeepsPoint (S.state s.old) (S.state s.new) }
    ensures reads { Reads (S.state s.old) (S.state s.new) result }
    ensures below { S.is_clean s.old → SameBelow
        (S.may_hold s.old) (S.may_hold s.new) (S.is_sure s.old) (S.is_sure s.new) }
    ensures clean { S.is_clean s.old → OnOk result (S.is_clean s.new) }
    ensures damage { TellsWhatIs (S.state s.old) (S.state s.new) result }
    ensures untangled { NeverTangled (S.state s.old) result }
    ensures undamaged { NeverOnShaped (S.state s.old) n result }
    ensures fresh { IfOk result (IsFreshRun (S.state s.old) n run.first run.count) }
{
    let g = s.geometry();
    let r = g.request();
    let pointers = (r.block_size - 20) / 4;
    let _most = g.max_blocks();
    let rows = rows_of(run, r.direct, pointers);
    let tables = rows_of(rows, r.indirect, pointers);
    let direct = part_before(run, r.direct);
    let tops = Run {
        first: r.direct + r.indirect + tables.first,
        count: tables.count,
    };
    let plain = fresh_entries(s, n, direct)?;
    let behind = fresh_rows(s, n, run, rows)?;
    let above = fresh_entries(s, n, tops)?;
    Ok(plain + behind + above)
}

/// How many positions so many bytes of a node make dirty, where they are written, that are not
/// dirty yet.
pub(crate) fn fresh_of_bytes<S: Store>(
    s: &mut S,
    n: u32,
    at: u64,
    len: u32,
) -> Result<u32, StoreFault>
    requires live { IsLive (S.state s.old) }
    requires number { IsNumber (S.state s.old) n }
    requires there { HasInode (S.state s.old) n }
    requires some { 0 < len }
    requires end { at + len ≤ max_size_of (S.state s.old).origin.request }
    ensures called { Called (S.state s.old) (S.state s.new) result }
    ensures point { KeepsPoint (S.state s.old) (S.state s.new) }
    ensures reads { Reads (S.state s.old) (S.state s.new) result }
    ensures below { S.is_clean s.old → SameBelow
        (S.may_hold s.old) (S.may_hold s.new) (S.is_sure s.old) (S.is_sure s.new) }
    ensures clean { S.is_clean s.old → OnOk result (S.is_clean s.new) }
    ensures damage { TellsWhatIs (S.state s.old) (S.state s.new) result }
    ensures untangled { NeverTangled (S.state s.old) result }
    ensures undamaged { NeverOnShaped (S.state s.old) n result }
    ensures need { IfOk result (IsNeedOf (S.state s.old) (Bytes n at len)) }
{
    let run = run_under(s.geometry(), at, len);
    fresh_of_run(s, n, run)
}

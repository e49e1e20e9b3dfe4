ghost use Rattle.std.specs.Prelude.{◌≡◌, ◌≢◌, ◌<◌, ◌≤◌, ◌/◌, ◌%◌, IfOk, OnOk};
ghost use Rattle.edge_base.specs.layout.Places.{max_blocks_of, max_size_of};
ghost use Rattle.edge_base.specs.outside.Below.{SameBelow};
ghost use Rattle.edge_base.specs.tree.Slots.{pieces};
ghost use Rattle.edge_store.specs.Calls.{Called, KeepsPoint, Reads};
ghost use Rattle.edge_store.specs.State.{IsLive, IsNumber, HasInode};
ghost use Rattle.edge_tree.specs.Answers.{TellsWhatIs, NeverTangled, NeverOnShaped};
ghost use Rattle.edge_space.specs.Answers.{IsLonger, IsFreshInside, IsShorteningNeed, IsNeedOf};
ghost use Rattle.edge_space.specs.declared.change.Change.TheVariants.{Size};

use edge_base::Geometry;
use edge_cut::cut_cost;
use edge_store::{Store, StoreFault};
use edge_tree::chain_of;

/// How many data blocks so many bytes take.
fn blocks_of(g: Geometry, size: u64) -> u32
    requires { size ≤ max_size_of g }
    ensures count { result ≡ pieces g.block_size size }
    ensures most { result ≤ max_blocks_of g }
{
    let block_size = u64::from(g.request().block_size);
    let most = u64::from(g.max_blocks());
    prove!(size <= most * block_size);
    let blocks = (size + (block_size - 1)) / block_size;
    prove!(blocks <= most);
    blocks as u32
}

/// How many data blocks so many bytes fill.
fn whole_blocks(g: Geometry, size: u64) -> u32
    requires most { size ≤ max_size_of g }
    requires uneven { size % g.block_size ≢ 0 }
    ensures count { result ≡ size / g.block_size }
    ensures low { result < max_blocks_of g }
{
    let block_size = u64::from(g.request().block_size);
    let most = u64::from(g.max_blocks());
    prove!(size <= most * block_size);
    let blocks = size / block_size;
    prove!(blocks < most);
    blocks as u32
}

/// Whether a node goes past a size.
fn is_longer<S: Store>(s: &mut S, n: u32, size: u64) -> Result<bool, StoreFault>
    requires live { IsLive (S.state s.old) }
    requires number { IsNumber (S.state s.old) n }
    requires there { HasInode (S.state s.old) n }
    ensures called { Called (S.state s.old) (S.state s.new) result }
    ensures point { KeepsPoint (S.state s.old) (S.state s.new) }
    ensures reads { Reads (S.state s.old) (S.state s.new) result }
    ensures below { S.is_clean s.old → SameBelow
        (S.may_hold s.old) (S.may_hold s.new) (S.is_sure s.old) (S.is_sure s.new) }
    ensures clean { S.is_clean s.old → OnOk result (S.is_clean s.new) }
    ensures damage { TellsWhatIs (S.state s.old) (S.state s.new) result }
    ensures untangled { NeverTangled (S.state s.old) result }
    ensures undamaged { NeverOnShaped (S.state s.old) n result }
    ensures longer { IfOk result (IsLonger (S.state s.old) n size) }
{
    match s.head(n)? {
        Some(head) => Ok(size < head.size),
        None => Ok(false),
    }
}

/// How many positions are fresh on the chain of the data block that a size is within, if there is
/// one.
fn fresh_inside<S: Store>(s: &mut S, n: u32, size: u64) -> Result<Option<u32>, StoreFault>
    requires live { IsLive (S.state s.old) }
    requires number { IsNumber (S.state s.old) n }
    requires there { HasInode (S.state s.old) n }
    requires most { size ≤ max_size_of (S.state s.old).origin.request }
    ensures called { Called (S.state s.old) (S.state s.new) result }
    ensures point { KeepsPoint (S.state s.old) (S.state s.new) }
    ensures reads { Reads (S.state s.old) (S.state s.new) result }
    ensures below { S.is_clean s.old → SameBelow
        (S.may_hold s.old) (S.may_hold s.new) (S.is_sure s.old) (S.is_sure s.new) }
    ensures clean { S.is_clean s.old → OnOk result (S.is_clean s.new) }
    ensures damage { TellsWhatIs (S.state s.old) (S.state s.new) result }
    ensures untangled { NeverTangled (S.state s.old) result }
    ensures undamaged { NeverOnShaped (S.state s.old) n result }
    ensures fresh { IfOk result (IsFreshInside (S.state s.old) n size) }
{
    let block_size = s.geometry().request().block_size;
    if size % u64::from(block_size) == 0 {
        return Ok(None);
    }
    let index = whole_blocks(s.geometry(), size);
    let chain = chain_of(s, n, index)?;
    if chain.block == 0 {
        return Ok(None);
    }
    Ok(Some(chain.fresh))
}

/// How many positions are made dirty that are not dirty yet where a node is cut behind so many
/// bytes: those of the chain of a data block that is cut in two, or else those that the cut makes
/// new.
fn fresh_behind<S: Store>(s: &mut S, n: u32, size: u64) -> Result<u32, StoreFault>
    requires live { IsLive (S.state s.old) }
    requires number { IsNumber (S.state s.old) n }
    requires there { HasInode (S.state s.old) n }
    requires most { size ≤ max_size_of (S.state s.old).origin.request }
    ensures called { Called (S.state s.old) (S.state s.new) result }
    ensures point { KeepsPoint (S.state s.old) (S.state s.new) }
    ensures reads { Reads (S.state s.old) (S.state s.new) result }
    ensures below { S.is_clean s.old → SameBelow
        (S.may_hold s.old) (S.may_hold s.new) (S.is_sure s.old) (S.is_sure s.new) }
    ensures clean { S.is_clean s.old → OnOk result (S.is_clean s.new) }
    ensures damage { TellsWhatIs (S.state s.old) (S.state s.new) result }
    ensures untangled { NeverTangled (S.state s.old) result }
    ensures undamaged { NeverOnShaped (S.state s.old) n result }
    ensures need { IfOk result (IsShorteningNeed (S.state s.old) n size) }
{
    let blocks = blocks_of(s.geometry(), size);
    match fresh_inside(s, n, size)? {
        Some(fresh) => Ok(fresh),
        None => cut_cost(s, n, blocks),
    }
}

/// How many positions a new size of a node makes dirty that are not dirty yet. One that is no less
/// than it was makes none dirty.
pub(crate) fn fresh_of_size<S: Store>(s: &mut S, n: u32, size: u64) -> Result<u32, StoreFault>
    requires live { IsLive (S.state s.old) }
    requires number { IsNumber (S.state s.old) n }
    requires there { HasInode (S.state s.old) n }
    requires most { size ≤ max_size_of (S.state s.old).origin.request }
    ensures called { Called (S.state s.old) (S.state s.new) result }
    ensures point { KeepsPoint (S.state s.old) (S.state s.new) }
    ensures reads { Reads (S.state s.old) (S.state s.new) result }
    ensures below { S.is_clean s.old → SameBelow
        (S.may_hold s.old) (S.may_hold s.new) (S.is_sure s.old) (S.is_sure s.new) }
    ensures clean { S.is_clean s.old → OnOk result (S.is_clean s.new) }
    ensures damage { TellsWhatIs (S.state s.old) (S.state s.new) result }
    ensures untangled { NeverTangled (S.state s.old) result }
    ensures undamaged { NeverOnShaped (S.state s.old) n result }
    ensures need { IfOk result (IsNeedOf (S.state s.old) (Size n size)) }
{
    let longer = is_longer(s, n, size)?;
    if longer {
        fresh_behind(s, n, size)
    } else {
        Ok(0)
    }
}

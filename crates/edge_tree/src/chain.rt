ghost use Rattle.std.specs.Prelude.{◌≡◌, ◌≢◌, ◌<◌, ◌≤◌, ◌+◌, IfOk, OnOk};
ghost use Rattle.edge_base.specs.declared.form.Form.TheVariants.{Plain, Indirect, Double as DoubleForm};
ghost use Rattle.edge_base.specs.declared.way.Way.TheVariants.{Single, Double};
ghost use Rattle.edge_base.specs.layout.Places.{entries_of, pointers_of, max_blocks_of};
ghost use Rattle.edge_base.specs.outside.Below.{SameBelow};
ghost use Rattle.edge_store.specs.Calls.{Called, KeepsPoint, Reads};
ghost use Rattle.edge_store.specs.Damages.{form_of_entry, form_under};
ghost use Rattle.edge_store.specs.State.{IsLive, IsNumber, IsLink, HasInode};
ghost use Rattle.edge_store.specs.Told.{IsEntryOf, MeetsNone};
ghost use Rattle.edge_tree.specs.Answers.{TellsWhatIs, NeverTangled, NeverOnSound, NeverOnShaped, IsLinkedTo, IsLinkedSpot, IsPointerAt, IsDataBlock};
ghost use Rattle.edge_tree.specs.Chains.{IsOnWay, IsCostOf, IsCostOfWay, IsFreshOnChain};

use crate::link::{entry_link, pointer_link};
use edge_base::{Form, Way};
use edge_store::{Spot, Store, StoreFault};

/// The chain of a data block: the block itself and the pointer nodes above it.
#[derive(Clone, Copy, Debug, PartialEq, Eq)]
pub struct Chain {
    /// The data block, 0 where it is absent.
    pub block: u32,
    /// How many positions of the chain are not new, 0 to 3: their blocks are absent, or the last
    /// point uses them.
    pub fresh: u32,
}

/// What making a block new takes from the free blocks: 1 where it is absent or of the last point.
pub fn cost_of<S: Store>(s: &mut S, b: u32) -> Result<u32, StoreFault>
    requires live { IsLive (S.state s.old) }
    requires link { IsLink (S.state s.old) b }
    ensures called { Called (S.state s.old) (S.state s.new) result }
    ensures point { KeepsPoint (S.state s.old) (S.state s.new) }
    ensures reads { Reads (S.state s.old) (S.state s.new) result }
    ensures below { S.is_clean s.old → SameBelow
        (S.may_hold s.old) (S.may_hold s.new) (S.is_sure s.old) (S.is_sure s.new) }
    ensures clean { S.is_clean s.old → OnOk result (S.is_clean s.new) }
    ensures undamaged { MeetsNone (S.state s.old) result }
    ensures most { IfOk result (λ fresh. fresh ≤ 1) }
    ensures cost { IfOk result (IsCostOf (S.state s.old) b) }
{
    if b == 0 {
        return Ok(1);
    }
    Ok(u32::from(!s.is_new(b)?))
}

/// The block of an entry of an inode, and what making it new takes.
fn entry_chain<S: Store>(s: &mut S, n: u32, i: u32) -> Result<Chain, StoreFault>
    requires live { IsLive (S.state s.old) }
    requires number { IsNumber (S.state s.old) n }
    requires there { HasInode (S.state s.old) n }
    requires entry { i < entries_of (S.state s.old).origin.request }
    ensures called { Called (S.state s.old) (S.state s.new) result }
    ensures point { KeepsPoint (S.state s.old) (S.state s.new) }
    ensures reads { Reads (S.state s.old) (S.state s.new) result }
    ensures below { S.is_clean s.old → SameBelow
        (S.may_hold s.old) (S.may_hold s.new) (S.is_sure s.old) (S.is_sure s.new) }
    ensures clean { S.is_clean s.old → OnOk result (S.is_clean s.new) }
    ensures damage { TellsWhatIs (S.state s.old) (S.state s.new) result }
    ensures untangled { NeverTangled (S.state s.old) result }
    ensures undamaged { NeverOnSound (S.state s.old) n result }
    ensures link { IfOk result (λ chain. IsLink (S.state s.old) chain.block) }
    ensures entry { IfOk result (λ chain. IsEntryOf (S.state s.old) n i chain.block) }
    ensures linked { IfOk result (λ chain.
        IsLinkedTo (S.state s.old) n (form_of_entry (S.state s.old).origin.request i) chain.block) }
    ensures most { IfOk result (λ chain. chain.fresh ≤ 1) }
    ensures cost { IfOk result (λ chain. IsCostOf (S.state s.old) chain.block chain.fresh) }
{
    let block = entry_link(s, n, i)?;
    let fresh = cost_of(s, block)?;
    Ok(Chain { block, fresh })
}

/// The block in a place of a pointer node, and what making it new takes.
fn pointer_chain<S: Store>(s: &mut S, at: Spot, i: u32) -> Result<Chain, StoreFault>
    requires live { IsLive (S.state s.old) }
    requires block { IsLink (S.state s.old) at.block }
    requires owner { IsNumber (S.state s.old) at.owner }
    requires form { at.form ≢ Plain }
    requires place { i < pointers_of (S.state s.old).origin.request }
    requires linked { IsLinkedSpot (S.state s.old) at }
    ensures called { Called (S.state s.old) (S.state s.new) result }
    ensures point { KeepsPoint (S.state s.old) (S.state s.new) }
    ensures reads { Reads (S.state s.old) (S.state s.new) result }
    ensures below { S.is_clean s.old → SameBelow
        (S.may_hold s.old) (S.may_hold s.new) (S.is_sure s.old) (S.is_sure s.new) }
    ensures clean { S.is_clean s.old → OnOk result (S.is_clean s.new) }
    ensures damage { TellsWhatIs (S.state s.old) (S.state s.new) result }
    ensures untangled { NeverTangled (S.state s.old) result }
    ensures undamaged { NeverOnSound (S.state s.old) at.owner result }
    ensures link { IfOk result (λ chain. IsLink (S.state s.old) chain.block) }
    ensures pointer { IfOk result (λ chain. IsPointerAt (S.state s.old) at i chain.block) }
    ensures linked { IfOk result (λ chain.
        IsLinkedTo (S.state s.old) at.owner (form_under at.form) chain.block) }
    ensures most { IfOk result (λ chain. chain.fresh ≤ 1) }
    ensures cost { IfOk result (λ chain. IsCostOf (S.state s.old) chain.block chain.fresh) }
{
    let block = pointer_link(s, at, i)?;
    let fresh = cost_of(s, block)?;
    Ok(Chain { block, fresh })
}

/// The chain to a place of the indirect node of an entry.
fn chain_under<S: Store>(s: &mut S, n: u32, i: u32, place: u32) -> Result<Chain, StoreFault>
    requires live { IsLive (S.state s.old) }
    requires number { IsNumber (S.state s.old) n }
    requires there { HasInode (S.state s.old) n }
    requires entry { i < entries_of (S.state s.old).origin.request }
    requires form { form_of_entry (S.state s.old).origin.request i ≡ Indirect }
    requires place { place < pointers_of (S.state s.old).origin.request }
    ensures called { Called (S.state s.old) (S.state s.new) result }
    ensures point { KeepsPoint (S.state s.old) (S.state s.new) }
    ensures reads { Reads (S.state s.old) (S.state s.new) result }
    ensures below { S.is_clean s.old → SameBelow
        (S.may_hold s.old) (S.may_hold s.new) (S.is_sure s.old) (S.is_sure s.new) }
    ensures clean { S.is_clean s.old → OnOk result (S.is_clean s.new) }
    ensures damage { TellsWhatIs (S.state s.old) (S.state s.new) result }
    ensures untangled { NeverTangled (S.state s.old) result }
    ensures undamaged { NeverOnSound (S.state s.old) n result }
    ensures link { IfOk result (λ chain. IsLink (S.state s.old) chain.block) }
    ensures block { IfOk result (λ chain. IsOnWay (S.state s.old) n (Single i place) chain.block) }
    ensures linked { IfOk result (λ chain. IsLinkedTo (S.state s.old) n Plain chain.block) }
    ensures most { IfOk result (λ chain. chain.fresh ≤ 2) }
    ensures cost { IfOk result (λ chain.
        IsCostOfWay (S.state s.old) n (Single i place) chain.fresh) }
{
    let node = entry_chain(s, n, i)?;
    let at = Spot {
        block: node.block,
        form: Form::Indirect,
        owner: n,
    };
    let data = pointer_chain(s, at, place)?;
    Ok(Chain {
        block: data.block,
        fresh: node.fresh + data.fresh,
    })
}

/// The chain to a place of an indirect node below the double-indirect node of an entry.
fn chain_below<S: Store>(
    s: &mut S,
    n: u32,
    i: u32,
    outer: u32,
    place: u32,
) -> Result<Chain, StoreFault>
    requires live { IsLive (S.state s.old) }
    requires number { IsNumber (S.state s.old) n }
    requires there { HasInode (S.state s.old) n }
    requires entry { i < entries_of (S.state s.old).origin.request }
    requires form { form_of_entry (S.state s.old).origin.request i ≡ DoubleForm }
    requires outer { outer < pointers_of (S.state s.old).origin.request }
    requires place { place < pointers_of (S.state s.old).origin.request }
    ensures called { Called (S.state s.old) (S.state s.new) result }
    ensures point { KeepsPoint (S.state s.old) (S.state s.new) }
    ensures reads { Reads (S.state s.old) (S.state s.new) result }
    ensures below { S.is_clean s.old → SameBelow
        (S.may_hold s.old) (S.may_hold s.new) (S.is_sure s.old) (S.is_sure s.new) }
    ensures clean { S.is_clean s.old → OnOk result (S.is_clean s.new) }
    ensures damage { TellsWhatIs (S.state s.old) (S.state s.new) result }
    ensures untangled { NeverTangled (S.state s.old) result }
    ensures undamaged { NeverOnSound (S.state s.old) n result }
    ensures link { IfOk result (λ chain. IsLink (S.state s.old) chain.block) }
    ensures block { IfOk result (λ chain.
        IsOnWay (S.state s.old) n (Double i outer place) chain.block) }
    ensures linked { IfOk result (λ chain. IsLinkedTo (S.state s.old) n Plain chain.block) }
    ensures most { IfOk result (λ chain. chain.fresh ≤ 3) }
    ensures cost { IfOk result (λ chain.
        IsCostOfWay (S.state s.old) n (Double i outer place) chain.fresh) }
{
    let top = entry_chain(s, n, i)?;
    let at = Spot {
        block: top.block,
        form: Form::Double,
        owner: n,
    };
    let node = pointer_chain(s, at, outer)?;
    let at = Spot {
        block: node.block,
        form: Form::Indirect,
        owner: n,
    };
    let data = pointer_chain(s, at, place)?;
    Ok(Chain {
        block: data.block,
        fresh: top.fresh + node.fresh + data.fresh,
    })
}

/// The data block at an index, and how many positions of its chain are not new.
pub fn chain_of<S: Store>(s: &mut S, n: u32, i: u32) -> Result<Chain, StoreFault>
    requires live { IsLive (S.state s.old) }
    requires number { IsNumber (S.state s.old) n }
    requires there { HasInode (S.state s.old) n }
    requires index { i < max_blocks_of (S.state s.old).origin.request }
    ensures called { Called (S.state s.old) (S.state s.new) result }
    ensures point { KeepsPoint (S.state s.old) (S.state s.new) }
    ensures reads { Reads (S.state s.old) (S.state s.new) result }
    ensures below { S.is_clean s.old → SameBelow
        (S.may_hold s.old) (S.may_hold s.new) (S.is_sure s.old) (S.is_sure s.new) }
    ensures clean { S.is_clean s.old → OnOk result (S.is_clean s.new) }
    ensures damage { TellsWhatIs (S.state s.old) (S.state s.new) result }
    ensures untangled { NeverTangled (S.state s.old) result }
    ensures undamaged { NeverOnShaped (S.state s.old) n result }
    ensures link { IfOk result (λ chain. IsLink (S.state s.old) chain.block) }
    ensures block { IfOk result (λ chain. IsDataBlock (S.state s.old) n i chain.block) }
    ensures linked { IfOk result (λ chain. IsLinkedTo (S.state s.old) n Plain chain.block) }
    ensures most { IfOk result (λ chain. chain.fresh ≤ 3) }
    ensures fresh { IfOk result (λ chain. IsFreshOnChain (S.state s.old) n i chain.fresh) }
{
    match s.geometry().way(i) {
        Way::Direct { entry } => entry_chain(s, n, entry),
        Way::Single { entry, place } => chain_under(s, n, entry, place),
        Way::Double {
            entry,
            outer,
            place,
        } => chain_below(s, n, entry, outer, place),
    }
}

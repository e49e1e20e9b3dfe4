ghost use Rattle.std.specs.Prelude.{◌≡◌, ◌≢◌, ◌<◌, ◌≤◌, ◌-◌, ◌^◌, ℕ, ◌+◌, Bool, true, List, length, None, is_some, IfSome, IfOk, OnOk, Err};
ghost use Rattle.edge_base.specs.declared.form.Form.TheVariants.{Plain};
ghost use Rattle.edge_base.specs.layout.Places.{IsGeometry, entries_of, pointers_of, inode_place_of};
ghost use Rattle.edge_base.specs.outside.Below.{SameBelow};
ghost use Rattle.edge_store.specs.Calls.{Called, KeepsPoint, KeepsWorking, KeepsPlaces, KeepsPlacesBut, KeepsPlacesButFound, Reads, TakesPoint};
ghost use Rattle.edge_store.specs.State.{StoreState, Told, IsLive, IsNumber, IsAllocable, IsLink, HasInode, IsNew, HasRoom, HasDamage};
ghost use Rattle.edge_store.specs.Told.{MeetsInode, MeetsBlock, MeetsNone, IsHeadOf, IsPlaceOf, IsEntryOf, IsPointerOf, AreBytesOf, IsNewOf, AreFreeNow, AreFreeAfter, AreFreeInodes, SetsHead, SetsEntry, MakesInode, DropsInode, SetsPointer, SetsBytes, Takes, Copies, DropsBlock};
ghost use Rattle.edge_store.specs.View.{IsView, is_head, is_head_or_none};
ghost use Rattle.edge_store.specs.declared.fault.StoreFault.TheVariants.{Damaged};

use crate::fault::StoreFault;
use crate::spot::{Free, Spot};
use edge_base::{Damage, Form, Geometry, Head};

/// Inodes by number, and the blocks that pointers lead to, up to the first fault.
///
/// `state` says what a store is at a moment: the view of its last point, the working view, and the
/// view of a point that a fault cut short. Where it is not told what the disk below holds, these
/// views say nothing: `Told` is the premise of each clause and condition on what they hold.
/// `may_hold` and `is_sure` are the candidates of the disk below; `is_clean` says that no change
/// waits to be written to it.
///
/// A call answers `StoreFault::Device` only where the disk below has a fault in that call, and
/// `StoreFault::Damaged` only where what it names is damaged. Either ends the store.
pub trait Store {
    ghost state: { Self → StoreState };

    ghost may_hold: { Self → ℕ → List ℕ → Type 0 };

    ghost is_sure: { Self → ℕ → Type 0 };

    ghost is_clean: { Self → Type 0 };

    /// The geometry of the volume.
    fn geometry(&self) -> Geometry
        ensures { result ≡ (state self.now).origin.request };

    /// Whether it may be asked: no call has answered a fault.
    fn is_live(&self) -> bool
        ensures { result ≡ (state self.now).live };

    /// The number of points taken.
    fn points(&self) -> u64
        ensures { result ≡ (state self.now).points };

    /// The free blocks, now and after the next point. After a fault the numbers mean nothing.
    fn free(&self) -> Free
        ensures now { AreFreeNow (state self.now) result.now }
        ensures after { AreFreeAfter (state self.now) result.after };

    /// How many numbers have no inode. After a fault the number means nothing.
    fn free_inodes(&self) -> u32
        ensures { AreFreeInodes (state self.now) result };

    /// The head of an inode, and None exactly where the number has none.
    fn head(&mut self, n: u32) -> Result<Option<Head>, StoreFault>
        requires live { IsLive (state self.old) }
        requires number { IsNumber (state self.old) n }
        ensures called { Called (state self.old) (state self.new) result }
        ensures point { KeepsPoint (state self.old) (state self.new) }
        ensures reads { Reads (state self.old) (state self.new) result }
        ensures below { is_clean self.old → SameBelow
            (may_hold self.old) (may_hold self.new) (is_sure self.old) (is_sure self.new) }
        ensures clean { is_clean self.old → OnOk result (is_clean self.new) }
        ensures damage { MeetsInode (state self.old) (state self.new) n result }
        ensures head { IfOk result (IsHeadOf (state self.old) n) }
        ensures rules { IfOk result (λ found. is_head_or_none found ≡ true) };

    /// The place of an inode.
    fn inode_block(&mut self, n: u32) -> Result<u32, StoreFault>
        requires live { IsLive (state self.old) }
        requires number { IsNumber (state self.old) n }
        requires there { HasInode (state self.old) n }
        ensures called { Called (state self.old) (state self.new) result }
        ensures point { KeepsPoint (state self.old) (state self.new) }
        ensures reads { Reads (state self.old) (state self.new) result }
        ensures below { is_clean self.old → SameBelow
            (may_hold self.old) (may_hold self.new) (is_sure self.old) (is_sure self.new) }
        ensures clean { is_clean self.old → OnOk result (is_clean self.new) }
        ensures damage { MeetsInode (state self.old) (state self.new) n result }
        ensures place { IfOk result (IsPlaceOf (state self.old) n) };

    /// Gives an inode another head.
    fn set_head(&mut self, n: u32, head: Head) -> Result<(), StoreFault>
        requires live { IsLive (state self.old) }
        requires number { IsNumber (state self.old) n }
        requires there { HasInode (state self.old) n }
        requires head { is_head head ≡ true }
        ensures called { Called (state self.old) (state self.new) result }
        ensures point { KeepsPoint (state self.old) (state self.new) }
        ensures damage { MeetsInode (state self.old) (state self.new) n result }
        ensures places { OnOk result (KeepsPlacesBut (state self.old) (state self.new) n) }
        ensures set { OnOk result (SetsHead (state self.old) (state self.new) n head) };

    /// An entry of an inode, 0 where it is absent.
    fn entry(&mut self, n: u32, i: u32) -> Result<u32, StoreFault>
        requires live { IsLive (state self.old) }
        requires number { IsNumber (state self.old) n }
        requires there { HasInode (state self.old) n }
        requires entry { i < entries_of (state self.old).origin.request }
        ensures called { Called (state self.old) (state self.new) result }
        ensures point { KeepsPoint (state self.old) (state self.new) }
        ensures reads { Reads (state self.old) (state self.new) result }
        ensures below { is_clean self.old → SameBelow
            (may_hold self.old) (may_hold self.new) (is_sure self.old) (is_sure self.new) }
        ensures clean { is_clean self.old → OnOk result (is_clean self.new) }
        ensures damage { MeetsInode (state self.old) (state self.new) n result }
        ensures entry { IfOk result (IsEntryOf (state self.old) n i) };

    /// Sets an entry of an inode. 0 makes it absent.
    fn set_entry(&mut self, n: u32, i: u32, to: u32) -> Result<(), StoreFault>
        requires live { IsLive (state self.old) }
        requires number { IsNumber (state self.old) n }
        requires there { HasInode (state self.old) n }
        requires entry { i < entries_of (state self.old).origin.request }
        requires link { IsLink (state self.old) to }
        ensures called { Called (state self.old) (state self.new) result }
        ensures point { KeepsPoint (state self.old) (state self.new) }
        ensures damage { MeetsInode (state self.old) (state self.new) n result }
        ensures places { OnOk result (KeepsPlacesBut (state self.old) (state self.new) n) }
        ensures set { OnOk result (SetsEntry (state self.old) (state self.new) n i to) };

    /// Gives the least number without an inode one with this head and no entries, and answers the
    /// number. None exactly where each number has an inode.
    fn new_inode(&mut self, head: Head) -> Result<Option<u32>, StoreFault>
        requires live { IsLive (state self.old) }
        requires head { is_head head ≡ true }
        ensures called { Called (state self.old) (state self.new) result }
        ensures point { KeepsPoint (state self.old) (state self.new) }
        ensures undamaged { MeetsNone (state self.old) result }
        ensures number { IfOk result (λ found. IfSome found (IsNumber (state self.old))) }
        ensures places { IfOk result (KeepsPlacesButFound (state self.old) (state self.new)) }
        ensures made { IfOk result (MakesInode (state self.old) (state self.new) head) };

    /// Takes a number its inode.
    fn drop_inode(&mut self, n: u32) -> Result<(), StoreFault>
        requires live { IsLive (state self.old) }
        requires number { IsNumber (state self.old) n }
        requires there { HasInode (state self.old) n }
        ensures called { Called (state self.old) (state self.new) result }
        ensures point { KeepsPoint (state self.old) (state self.new) }
        ensures damage { MeetsInode (state self.old) (state self.new) n result }
        ensures places { OnOk result (KeepsPlacesBut (state self.old) (state self.new) n) }
        ensures dropped { OnOk result (DropsInode (state self.old) (state self.new) n) };

    /// A pointer of a pointer node, 0 where it is absent.
    fn pointer(&mut self, s: Spot, i: u32) -> Result<u32, StoreFault>
        requires live { IsLive (state self.old) }
        requires block { IsAllocable (state self.old) s.block }
        requires owner { IsNumber (state self.old) s.owner }
        requires form { s.form ≢ Plain }
        requires place { i < pointers_of (state self.old).origin.request }
        ensures called { Called (state self.old) (state self.new) result }
        ensures point { KeepsPoint (state self.old) (state self.new) }
        ensures reads { Reads (state self.old) (state self.new) result }
        ensures below { is_clean self.old → SameBelow
            (may_hold self.old) (may_hold self.new) (is_sure self.old) (is_sure self.new) }
        ensures clean { is_clean self.old → OnOk result (is_clean self.new) }
        ensures damage { MeetsBlock (state self.old) (state self.new) s result }
        ensures pointer { IfOk result (IsPointerOf (state self.old) s i) };

    /// Sets a pointer of a pointer node, which is new. 0 makes it absent.
    fn set_pointer(&mut self, s: Spot, i: u32, to: u32) -> Result<(), StoreFault>
        requires live { IsLive (state self.old) }
        requires block { IsAllocable (state self.old) s.block }
        requires owner { IsNumber (state self.old) s.owner }
        requires form { s.form ≢ Plain }
        requires place { i < pointers_of (state self.old).origin.request }
        requires link { IsLink (state self.old) to }
        requires is_new { IsNew (state self.old) s.block }
        ensures called { Called (state self.old) (state self.new) result }
        ensures point { KeepsPoint (state self.old) (state self.new) }
        ensures damage { MeetsBlock (state self.old) (state self.new) s result }
        ensures places { OnOk result (KeepsPlaces (state self.old) (state self.new)) }
        ensures set { OnOk result (SetsPointer (state self.old) (state self.new) s i to) };

    /// Reads bytes of a block, from byte `at` on.
    fn read_block(&mut self, s: Spot, at: u32, out: &mut [u8]) -> Result<(), StoreFault>
        requires live { IsLive (state self.old) }
        requires block { IsAllocable (state self.old) s.block }
        requires owner { IsNumber (state self.old) s.owner }
        requires form { s.form ≡ Plain }
        requires range { at + length out.old ≤ (state self.old).origin.request.block_size }
        ensures called { Called (state self.old) (state self.new) result }
        ensures point { KeepsPoint (state self.old) (state self.new) }
        ensures reads { Reads (state self.old) (state self.new) result }
        ensures below { is_clean self.old → SameBelow
            (may_hold self.old) (may_hold self.new) (is_sure self.old) (is_sure self.new) }
        ensures clean { is_clean self.old → OnOk result (is_clean self.new) }
        ensures damage { MeetsBlock (state self.old) (state self.new) s result }
        ensures bytes { OnOk result
            (AreBytesOf (state self.old) s at (at + length out.old) out.new) };

    /// Writes bytes of a block, which is new, from byte `at` on.
    fn write_block(&mut self, s: Spot, at: u32, bytes: &[u8]) -> Result<(), StoreFault>
        requires live { IsLive (state self.old) }
        requires block { IsAllocable (state self.old) s.block }
        requires owner { IsNumber (state self.old) s.owner }
        requires form { s.form ≡ Plain }
        requires range { at + length bytes.now ≤ (state self.old).origin.request.block_size }
        requires is_new { IsNew (state self.old) s.block }
        ensures called { Called (state self.old) (state self.new) result }
        ensures point { KeepsPoint (state self.old) (state self.new) }
        ensures damage { MeetsBlock (state self.old) (state self.new) s result }
        ensures places { OnOk result (KeepsPlaces (state self.old) (state self.new)) }
        ensures set { OnOk result (SetsBytes (state self.old) (state self.new) s at bytes.now) };

    /// Takes a block that neither view uses, with nothing in it.
    fn take(&mut self, form: Form, owner: u32) -> Result<u32, StoreFault>
        requires live { IsLive (state self.old) }
        requires owner { IsNumber (state self.old) owner }
        requires room { HasRoom (state self.old) }
        ensures called { Called (state self.old) (state self.new) result }
        ensures point { KeepsPoint (state self.old) (state self.new) }
        ensures undamaged { MeetsNone (state self.old) result }
        ensures block { IfOk result (IsAllocable (state self.old)) }
        ensures places { OnOk result (KeepsPlaces (state self.old) (state self.new)) }
        ensures taken { IfOk result (Takes (state self.old) (state self.new) form owner) };

    /// Takes a block that neither view uses, with the content of another, and drops that one.
    fn copy(&mut self, s: Spot) -> Result<u32, StoreFault>
        requires live { IsLive (state self.old) }
        requires block { IsAllocable (state self.old) s.block }
        requires owner { IsNumber (state self.old) s.owner }
        requires room { HasRoom (state self.old) }
        ensures called { Called (state self.old) (state self.new) result }
        ensures point { KeepsPoint (state self.old) (state self.new) }
        ensures damage { MeetsBlock (state self.old) (state self.new) s result }
        ensures block { IfOk result (IsAllocable (state self.old)) }
        ensures places { OnOk result (KeepsPlaces (state self.old) (state self.new)) }
        ensures copied { IfOk result (Copies (state self.old) (state self.new) s) };

    /// Drops a block from the working view.
    fn drop_block(&mut self, s: Spot) -> Result<(), StoreFault>
        requires live { IsLive (state self.old) }
        requires block { IsAllocable (state self.old) s.block }
        requires owner { IsNumber (state self.old) s.owner }
        ensures called { Called (state self.old) (state self.new) result }
        ensures point { KeepsPoint (state self.old) (state self.new) }
        ensures damage { MeetsBlock (state self.old) (state self.new) s result }
        ensures places { OnOk result (KeepsPlaces (state self.old) (state self.new)) }
        ensures dropped { OnOk result (DropsBlock (state self.old) (state self.new) s) };

    /// Whether the working view uses a block and the last point does not.
    fn is_new(&mut self, b: u32) -> Result<bool, StoreFault>
        requires live { IsLive (state self.old) }
        requires block { IsAllocable (state self.old) b }
        ensures called { Called (state self.old) (state self.new) result }
        ensures point { KeepsPoint (state self.old) (state self.new) }
        ensures reads { Reads (state self.old) (state self.new) result }
        ensures below { is_clean self.old → SameBelow
            (may_hold self.old) (may_hold self.new) (is_sure self.old) (is_sure self.new) }
        ensures clean { is_clean self.old → OnOk result (is_clean self.new) }
        ensures undamaged { MeetsNone (state self.old) result }
        ensures is_new { IfOk result (IsNewOf (state self.old) b) };

    /// Takes a point: the working view becomes the committed one.
    fn transact(&mut self) -> Result<(), StoreFault>
        requires live { IsLive (state self.old) }
        requires points { (state self.old).points < 2 ^ 63 - 1 }
        ensures called { Called (state self.old) (state self.new) result }
        ensures undamaged { MeetsNone (state self.old) result }
        ensures takes { TakesPoint (state self.old) (state self.new) result };

    /// Ends the store with damage that a layer above has found, and answers it.
    fn report(&mut self, damage: Damage) -> StoreFault
        requires live { IsLive (state self.old) }
        requires holds { Told (state self.old) → HasDamage (state self.old) damage }
        ensures answer { result ≡ Damaged damage }
        ensures called { Called {T = ⊥} (state self.old) (state self.new) (Err result) }
        ensures point { KeepsPoint (state self.old) (state self.new) }
        ensures working { KeepsWorking (state self.old) (state self.new) }
        ensures still_holds { Told (state self.old) → HasDamage (state self.new) damage }
        ensures below { is_clean self.old → SameBelow
            (may_hold self.old) (may_hold self.new) (is_sure self.old) (is_sure self.new) };

    ghost is_geometry: { (s : Self) → IsGeometry (state s).origin.request };

    // Where the views are told both have what every view has, the working one up to a fault.
    ghost committed_is_view: { (s : Self) → Told (state s)
        → IsView (state s).origin.request (state s).committed };

    ghost working_is_view: { (s : Self) → Told (state s) → IsLive (state s)
        → IsView (state s).origin.request (state s).working };

    // An inode lies at one of the two places of its number.
    ghost two_places: { (s : Self) (n : ℕ) → Told (state s) → IsLive (state s)
        → is_some ((state s).working.inodes n) ≡ true
        → (second : Bool)
        × ((state s).places n ≡ inode_place_of (state s).origin.request n second) };

    // A live store has no point under way, and no damage.
    ghost live_is_whole: { (s : Self) → IsLive (state s) → (state s).under_way ≡ None };

    ghost live_is_undamaged: { (s : Self) → IsLive (state s) → (state s).damage ≡ None };
}

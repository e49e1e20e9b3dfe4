ghost use Rattle.std.specs.Prelude.{◌≡◌, ◌≢◌, ◌<◌, ◌≤◌, ◌+◌, ◌-◌, ℕ, [], ◌∷◌, false, true, length, take, set, slice_index, remove, slice_range, IfOk, IfSome, IfNone, OnOk, OnErr, IsOk, IsTrue};
ghost use Rattle.edge_base.specs.outside.Below.{SameBelow};
ghost use Rattle.edge_base.specs.outside.Faults.{HasCause};
ghost use Rattle.edge_cache.specs.Blocks.{changed_by, given_bytes, marked, word_holds_in};
ghost use Rattle.edge_cache.specs.Given.{GivesUp, waiting, Writes};
ghost use Rattle.edge_cache.specs.Kept.{made};
ghost use Rattle.edge_cache.specs.Places.{kept_at, blocks_of, fronted, AllApart, AllHave};

use crate::buffer::Buffer;
use arrayvec::ArrayVec;
use edge_disk::{DeviceFault, Disk};
use std::alloc::{AllocError, Global};
use std::marker::Model;

/// How many buffers a cache has.
pub const BUFFERS: usize = 32;

/// The buffers. `order` has the places of all of them; those that hold a block come first, the last
/// used first. No buffer ever moves.
#[derive(Drop)]
pub(crate) struct Shelf {
    buffers: Vec<Buffer>,
    order: ArrayVec<u8, BUFFERS>,
    held: usize,
    size: usize,
}

impl Model for Shelf {
    ghost use Rattle.std.specs.Prelude.{take};
    ghost use Rattle.edge_cache.specs.Places.{Held, shelved, IsPlaced};

    ghost Value = { Held };

    ghost view = { λ s. shelved s.size s.buffers.items (take s.held s.order.items) };

    ghost invariant = { λ s. IsPlaced s.buffers.items s.order.items s.held s.size };
}

impl Shelf {
    /// Buffers of this size, none of which holds a block.
    pub fn new(alloc: Global, size: usize) -> Result<Shelf, AllocError>
        requires least { 8 ≤ size }
        requires most { size ≤ 4096 }
        ensures made { IfOk result (λ s. s ≡ record { size = size; list = [] }) }
    {
        let mut buffers = Vec::with_capacity(alloc, BUFFERS)?;
        let mut order = ArrayVec::new();
        for place in 0..BUFFERS {
            buffers.push(Buffer::new(alloc, size)?)?;
            order.push(place as u8);
        }
        Ok(Shelf {
            buffers,
            order,
            held: 0,
            size,
        })
    }

    /// How many blocks are held.
    #[tactic(auto, using(crate::proofs::PlaceLaws::shelf))]
    pub fn len(&self) -> usize
        ensures held { result ≡ length self.now.list }
        ensures most { result ≤ BUFFERS }
        ensures whole { AllHave self.now.size self.now.list }
    {
        self.held
    }

    /// The place in the order of the buffer that holds a block.
    pub fn find(&self, b: u32) -> Option<usize>
        ensures found { IfSome result (λ p. (p < length self.now.list)
            × ((kept_at self.now.list p).block ≡ b)) }
        ensures absent { IfNone result ((k : ℕ) → k < length self.now.list
            → (kept_at self.now.list k).block ≢ b) }
        ensures whole { AllHave self.now.size self.now.list }
    {
        for p in 0..self.held {
            let place = self.order[p] as usize;
            if self.buffers[place].block() == b {
                return Some(p);
            }
        }
        None
    }

    /// Makes the buffer of a place the last used.
    pub fn to_front(&mut self, p: usize)
        requires { p < length self.old.list }
        ensures size { self.new.size ≡ self.old.size }
        ensures list { self.new.list ≡ fronted self.old.list p }
    {
        if p > 0 {
            first(&mut self.order, p);
        }
    }

    /// Forgets the block that was used longest ago.
    #[tactic(auto, using(crate::proofs::PlaceLaws::shelf))]
    pub fn drop_last(&mut self)
        requires { 0 < length self.old.list }
        ensures size { self.new.size ≡ self.old.size }
        ensures list { self.new.list ≡ take (length self.old.list - 1) self.old.list }
    {
        self.held -= 1;
    }

    /// Writes the buffer of a place, if it is changed.
    pub fn write_at<D: Disk>(&mut self, disk: &mut D, p: usize) -> Result<(), DeviceFault>
        requires there { p < length self.old.list }
        requires apart { AllApart (blocks_of self.old.list) }
        requires in_range { (kept_at self.old.list p).block < (D.origin disk.old).blocks }
        requires size { self.old.size ≡ (D.origin disk.old).block_size }
        ensures origin { D.origin disk.new ≡ D.origin disk.old }
        ensures cause { HasCause (D.faults disk.old) (D.faults disk.new) result }
        ensures size { self.new.size ≡ self.old.size }
        ensures idle { (kept_at self.old.list p).changed ≡ false → IsOk result }
        ensures done { OnOk result (self.new.list ≡ set self.old.list p
            (made (kept_at self.old.list p).block (kept_at self.old.list p).bytes false)) }
        ensures kept { OnErr result (self.new.list ≡ self.old.list) }
        ensures writes { Writes (waiting (kept_at self.old.list p ∷ []))
            (D.shown disk.old) (D.shown disk.new) (D.may_hold disk.old) (D.may_hold disk.new)
            (D.is_sure disk.old) (D.is_sure disk.new) }
        ensures gives { GivesUp (D.origin disk.old).shows
            (waiting self.old.list) (waiting self.new.list) (D.shown disk.old) (D.shown disk.new)
            (D.may_hold disk.old) (D.may_hold disk.new) (D.is_sure disk.old) (D.is_sure disk.new) }
    {
        let place = self.order[p] as usize;
        self.buffers[place].write_to(disk)?;
        Ok(())
    }

    /// Reads a block of the disk into a buffer that holds none.
    pub fn add<D: Disk>(&mut self, disk: &mut D, b: u32) -> Result<(), DeviceFault>
        requires room { length self.old.list < BUFFERS }
        requires in_range { b < (D.origin disk.old).blocks }
        requires size { self.old.size ≡ (D.origin disk.old).block_size }
        ensures origin { D.origin disk.new ≡ D.origin disk.old }
        ensures cause { HasCause (D.faults disk.old) (D.faults disk.new) result }
        ensures shown { D.shown disk.new ≡ D.shown disk.old }
        ensures candidates { SameBelow (D.may_hold disk.old) (D.may_hold disk.new)
            (D.is_sure disk.old) (D.is_sure disk.new) }
        ensures size { self.new.size ≡ self.old.size }
        ensures rest { OnOk result
            (self.new.list ≡ made b (kept_at self.new.list 0).bytes false ∷ self.old.list) }
        ensures bytes { IsTrue (D.origin disk.old).shows
            → OnOk result ((kept_at self.new.list 0).bytes ≡ D.shown disk.old b) }
        ensures kept { OnErr result (self.new.list ≡ self.old.list) }
    {
        let p = self.held;
        let place = self.order[p] as usize;
        self.buffers[place].fill(disk, b)?;
        first(&mut self.order, p);
        self.held = p + 1;
        Ok(())
    }

    /// Takes a buffer that holds none for a block with these bytes, or zeros.
    pub fn add_new(&mut self, b: u32, bytes: Option<&[u8]>, node: bool)
        requires room { length self.old.list < BUFFERS }
        requires whole { IfSome bytes (λ s. length s.now ≡ self.old.size) }
        ensures size { self.new.size ≡ self.old.size }
        ensures list { self.new.list
            ≡ made b (marked node (given_bytes self.old.size bytes.entry)) true ∷ self.old.list }
        ensures word { IsTrue node → IsTrue (word_holds_in (kept_at self.new.list 0).bytes) }
    {
        let p = self.held;
        let place = self.order[p] as usize;
        self.buffers[place].set(b, bytes, node);
        first(&mut self.order, p);
        self.held = p + 1;
    }

    /// Gives the block that was used last these bytes, or zeros.
    pub fn set_first(&mut self, b: u32, bytes: Option<&[u8]>, node: bool)
        requires some { 0 < length self.old.list }
        requires whole { IfSome bytes (λ s. length s.now ≡ self.old.size) }
        ensures size { self.new.size ≡ self.old.size }
        ensures list { self.new.list ≡ set self.old.list 0
            (made b (marked node (given_bytes self.old.size bytes.entry)) true) }
        ensures word { IsTrue node → IsTrue (word_holds_in (kept_at self.new.list 0).bytes) }
    {
        let place = self.order[0] as usize;
        self.buffers[place].set(b, bytes, node);
    }

    /// Changes bytes of the block that was used last.
    pub fn write_first(&mut self, at: usize, bytes: &[u8], node: bool)
        requires some { 0 < length self.old.list }
        requires inside { at + length bytes.now ≤ self.old.size }
        ensures size { self.new.size ≡ self.old.size }
        ensures list { self.new.list ≡ set self.old.list 0 (made (kept_at self.old.list 0).block
            (changed_by at bytes.now node (kept_at self.old.list 0).bytes) true) }
        ensures word { IsTrue node → IsTrue (word_holds_in (kept_at self.new.list 0).bytes) }
    {
        let place = self.order[0] as usize;
        self.buffers[place].write(at, bytes, node);
    }

    /// Gives bytes of the block that was used last.
    pub fn read_first(&mut self, at: usize, out: &mut [u8])
        requires some { 0 < length self.old.list }
        requires inside { at + length out.old ≤ self.old.size }
        ensures same { self.new ≡ self.old }
        ensures bytes { out.new
            ≡ slice_range (kept_at self.old.list 0).bytes at (at + length out.old) }
    {
        let place = self.order[0] as usize;
        self.buffers[place].read(at, out);
    }

    /// Whether the block that was used last has its check word.
    pub fn word_first(&mut self) -> bool
        requires some { 0 < length self.old.list }
        ensures same { self.new ≡ self.old }
        ensures word { result ≡ word_holds_in (kept_at self.old.list 0).bytes }
    {
        let place = self.order[0] as usize;
        self.buffers[place].word_holds()
    }
}

// Moves a place of the order to its front.
fn first(order: &mut ArrayVec<u8, BUFFERS>, p: usize) -> u8
    requires in_range { p < length order.old.items }
    requires full { length order.old.items ≡ BUFFERS }
    ensures value { result ≡ slice_index order.old.items p }
    ensures items { order.new.items ≡ result ∷ remove order.old.items p }
{
    let place = order.remove(p);
    order.insert(0, place);
    place
}

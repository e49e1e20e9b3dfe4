ghost use Rattle.std.specs.Prelude.{◌≡◌, ◌≢◌, ◌<◌, ◌≤◌, ◌+◌, ◌-◌, ℕ, [], ◌∷◌, Some, Contains, true, false, length, take, slice_range, IfOk, IfErr, IfSome, OnOk, OnErr, IsOk, IsTrue};
ghost use Rattle.edge_base.specs.outside.Below.{SameBelow};
ghost use Rattle.edge_base.specs.outside.Faults.{HasCause};
ghost use Rattle.edge_cache.specs.Blocks.{changed_by, blank, given_bytes, marked, word_holds_in};
ghost use Rattle.edge_cache.specs.Cached.{IsClean, list_of, used_last, Lists};
ghost use Rattle.edge_cache.specs.Calls.{content_in, HasWholeBlocks, KeepsContents, Gives, OnlyGivesUp, OnlyChanges, StaysClean, WritesLast};
ghost use Rattle.edge_cache.specs.Given.{waiting};
ghost use Rattle.edge_cache.specs.Kept.{made};
ghost use Rattle.edge_cache.specs.Places.{kept_at, blocks_of, IsNew};
ghost use Rattle.edge_disk.specs.Disk.{MayAfterFlush, SureAfterFlush};

use crate::shelf::{BUFFERS, Shelf};
use edge_disk::{DeviceFault, Disk};
use std::alloc::{AllocError, Global};
use std::marker::Model;

/// Buffers over a disk, each of which holds a block of it.
///
/// `disk` is the disk below, and `held` is what the buffers hold, the last used first. A changed
/// buffer goes to the disk when its block makes room for another, at `write_out`, and at no other
/// time. No call takes memory but `new`.
///
/// A fault is one of the disk, and ends the call: no content changes then. `read`, `write`, `fresh`
/// and `word_holds` of a block that is held answer Ok, whatever the disk does.
#[derive(Drop)]
pub struct Cache<D: Disk> {
    disk: D,
    shelf: Shelf,
}

impl<D: Disk> Model for Cache<D> {
    ghost use Rattle.edge_cache.specs.Cached.{Cached, IsCache};

    ghost Value = { Cached D };

    ghost view = { λ s. record { disk = s.disk; held = s.shelf.list } };

    ghost invariant = { λ s. IsCache (D.origin s.disk) (D.shown s.disk) s.shelf.size s.shelf.list };
}

impl<D: Disk> Cache<D> {
    /// A cache that holds nothing. Where memory is wanting the disk comes back.
    pub fn new(alloc: Global, disk: D) -> Result<Cache<D>, (D, AllocError)>
        ensures disk { IfOk result (λ c. c.disk ≡ disk) }
        ensures empty { IfOk result (λ c. c.held ≡ []) }
        ensures clean { IfOk result (λ c. IsClean c.held) }
        ensures err { IfErr result (λ e. e.0 ≡ disk) }
    {
        let size = disk.block_size() as usize;
        let Ok(shelf) = Shelf::new(alloc, size) else {
            return Err((disk, AllocError));
        };
        Ok(Cache { disk, shelf })
    }

    /// Gives bytes of block `b` from byte `at` on: those last written through the cache, or else
    /// those that the disk shows.
    pub fn read(&mut self, b: u32, at: u32, out: &mut [u8]) -> Result<(), DeviceFault>
        requires in_range { b < (D.origin self.old.disk).blocks }
        requires inside { at + length out.old ≤ (D.origin self.old.disk).block_size }
        ensures origin { D.origin self.new.disk ≡ D.origin self.old.disk }
        ensures cause { HasCause (D.faults self.old.disk) (D.faults self.new.disk) result }
        ensures bytes { IsTrue (D.origin self.old.disk).shows → OnOk result
            (out.new ≡ slice_range (content_in D.Disk self.old b) at (at + length out.old)) }
        ensures untouched { OnErr result (out.new ≡ out.old) }

        // The buffers, and what goes to the disk.
        ensures list { Lists b result (list_of self.old.held) (list_of self.new.held) }
        ensures listed { Contains (list_of self.old.held) b → IsOk result }
        ensures only { OnlyGivesUp D.Disk self.old self.new }
        ensures clean { IsClean self.old.held → StaysClean D.Disk self.old self.new }
        ensures whole { HasWholeBlocks D.Disk self.old }
        ensures last { WritesLast D.Disk self.old self.new }
    {
        self.reach(b)?;
        self.shelf.read_first(at as usize, out);
        Ok(())
    }

    /// Changes bytes of block `b` from byte `at` on, and no others. Where the change is marked as a
    /// node's, bytes 4 to 7 are the block's check word afterwards. A block that is written whole is
    /// not read before.
    pub fn write(&mut self, b: u32, at: u32, bytes: &[u8], node: bool) -> Result<(), DeviceFault>
        requires in_range { b < (D.origin self.old.disk).blocks }
        requires inside { at + length bytes.now ≤ (D.origin self.old.disk).block_size }
        ensures origin { D.origin self.new.disk ≡ D.origin self.old.disk }
        ensures cause { HasCause (D.faults self.old.disk) (D.faults self.new.disk) result }
        ensures bytes { IsTrue (D.origin self.old.disk).shows → OnOk result
            (waiting self.new.held b
            ≡ Some (changed_by at bytes.now node (content_in D.Disk self.old b))) }
        ensures unread { length bytes.now ≡ (D.origin self.old.disk).block_size
            → (kept_at self.old.held (BUFFERS - 1)).changed ≡ false → IsOk result }
        ensures word { IsTrue node
            → OnOk result (IsTrue (word_holds_in (content_in D.Disk self.new b))) }

        // The buffers, and what goes to the disk.
        ensures list { Lists b result (list_of self.old.held) (list_of self.new.held) }
        ensures listed { Contains (list_of self.old.held) b → IsOk result }
        ensures changes { OnOk result (OnlyChanges D.Disk b self.old self.new) }
        ensures fault { OnErr result (OnlyGivesUp D.Disk self.old self.new) }
        ensures whole { HasWholeBlocks D.Disk self.old }
        ensures last { WritesLast D.Disk self.old self.new }
    {
        if bytes.len() == self.disk.block_size() as usize {
            return self.put(b, Some(bytes), node);
        }
        self.write_part(b, at, bytes, node)
    }

    /// Makes block `b` all zeros without reading it. Where the change is marked as a node's, bytes
    /// 4 to 7 are the block's check word afterwards.
    pub fn fresh(&mut self, b: u32, node: bool) -> Result<(), DeviceFault>
        requires in_range { b < (D.origin self.old.disk).blocks }
        ensures origin { D.origin self.new.disk ≡ D.origin self.old.disk }
        ensures cause { HasCause (D.faults self.old.disk) (D.faults self.new.disk) result }
        ensures unread { (kept_at self.old.held (BUFFERS - 1)).changed ≡ false → IsOk result }
        ensures bytes { OnOk result
            (waiting self.new.held b ≡ Some (blank (D.origin self.old.disk).block_size node)) }
        ensures word { IsTrue node
            → OnOk result (IsTrue (word_holds_in (content_in D.Disk self.new b))) }

        // The buffers, and what goes to the disk.
        ensures list { Lists b result (list_of self.old.held) (list_of self.new.held) }
        ensures listed { Contains (list_of self.old.held) b → IsOk result }
        ensures changes { OnOk result (OnlyChanges D.Disk b self.old self.new) }
        ensures fault { OnErr result (OnlyGivesUp D.Disk self.old self.new) }
        ensures whole { HasWholeBlocks D.Disk self.old }
        ensures last { WritesLast D.Disk self.old self.new }
    {
        self.put(b, None, node)
    }

    /// Whether bytes 4 to 7 of block `b`, as `read` gives them, are its check word.
    pub fn word_holds(&mut self, b: u32) -> Result<bool, DeviceFault>
        requires in_range { b < (D.origin self.old.disk).blocks }
        ensures origin { D.origin self.new.disk ≡ D.origin self.old.disk }
        ensures cause { HasCause (D.faults self.old.disk) (D.faults self.new.disk) result }
        ensures word { IsTrue (D.origin self.old.disk).shows
            → IfOk result (λ holds. holds ≡ word_holds_in (content_in D.Disk self.old b)) }

        // The buffers, and what goes to the disk.
        ensures list { Lists b result (list_of self.old.held) (list_of self.new.held) }
        ensures listed { Contains (list_of self.old.held) b → IsOk result }
        ensures only { OnlyGivesUp D.Disk self.old self.new }
        ensures clean { IsClean self.old.held → StaysClean D.Disk self.old self.new }
        ensures whole { HasWholeBlocks D.Disk self.old }
        ensures last { WritesLast D.Disk self.old self.new }
    {
        self.reach(b)?;
        Ok(self.shelf.word_first())
    }

    /// Writes each changed buffer to the disk.
    pub fn write_out(&mut self) -> Result<(), DeviceFault>
        ensures origin { D.origin self.new.disk ≡ D.origin self.old.disk }
        ensures cause { HasCause (D.faults self.old.disk) (D.faults self.new.disk) result }
        ensures clean { OnOk result (IsClean self.new.held) }
        ensures contents { KeepsContents D.Disk self.old self.new }
        ensures list { list_of self.new.held ≡ list_of self.old.held }
        ensures gives { Gives D.Disk self.old self.new }
        ensures whole { HasWholeBlocks D.Disk self.old }
    {
        for p in 0..self.shelf.len() {
            self.write_place(p)?;
        }
        Ok(())
    }

    /// Calls the disk's `flush` once, and answers as it does. No buffer changes.
    pub fn flush(&mut self) -> Result<(), DeviceFault>
        ensures origin { D.origin self.new.disk ≡ D.origin self.old.disk }
        ensures cause { HasCause (D.faults self.old.disk) (D.faults self.new.disk) result }
        ensures held { self.new.held ≡ self.old.held }
        ensures shown { D.shown self.new.disk ≡ D.shown self.old.disk }
        ensures candidates { MayAfterFlush result (D.faults self.old.disk)
            (D.may_hold self.old.disk) (D.may_hold self.new.disk) }
        ensures sure { SureAfterFlush (D.origin self.old.disk) result (D.faults self.old.disk)
            (D.is_sure self.old.disk) (D.is_sure self.new.disk) }
    {
        self.disk.flush()?;
        Ok(())
    }

    /// The disk, as it is. What waits in a buffer is not written.
    pub fn end(self) -> D
        ensures { result ≡ self.disk }
    {
        let Cache { disk, shelf: _ } = self;
        disk
    }

    // Makes a block the last used.
    fn reach(&mut self, b: u32) -> Result<(), DeviceFault>
        requires in_range { b < (D.origin self.old.disk).blocks }
        ensures origin { D.origin self.new.disk ≡ D.origin self.old.disk }
        ensures cause { HasCause (D.faults self.old.disk) (D.faults self.new.disk) result }
        ensures some { OnOk result (0 < length self.new.held) }
        ensures block { OnOk result ((kept_at self.new.held 0).block ≡ b) }
        ensures bytes { IsTrue (D.origin self.old.disk).shows → OnOk result
            ((kept_at self.new.held 0).bytes ≡ content_in D.Disk self.old b) }
        ensures list { Lists b result (list_of self.old.held) (list_of self.new.held) }
        ensures listed { Contains (list_of self.old.held) b → IsOk result }
        ensures only { OnlyGivesUp D.Disk self.old self.new }
        ensures clean { IsClean self.old.held → StaysClean D.Disk self.old self.new }
        ensures whole { HasWholeBlocks D.Disk self.old }
        ensures last { WritesLast D.Disk self.old self.new }
    {
        if let Some(p) = self.shelf.find(b) {
            self.hit(p);
            return Ok(());
        }
        self.miss(b)?;
        Ok(())
    }

    // Makes the block of a place the last used.
    fn hit(&mut self, p: usize)
        requires { p < length self.old.held }
        ensures disk { self.new.disk ≡ self.old.disk }
        ensures same { (k : ℕ) → waiting self.new.held k ≡ waiting self.old.held k }
        ensures some { 0 < length self.new.held }
        ensures block { (kept_at self.new.held 0).block ≡ (kept_at self.old.held p).block }
        ensures bytes { IsTrue (D.origin self.old.disk).shows → (kept_at self.new.held 0).bytes
            ≡ content_in D.Disk self.old (kept_at self.old.held p).block }
        ensures list { list_of self.new.held
            ≡ used_last (kept_at self.old.held p).block (list_of self.old.held) }
    {
        self.shelf.to_front(p);
    }

    // Reads a block that no buffer holds.
    fn miss(&mut self, b: u32) -> Result<(), DeviceFault>
        requires in_range { b < (D.origin self.old.disk).blocks }
        requires absent { IsNew b (list_of self.old.held) }
        ensures origin { D.origin self.new.disk ≡ D.origin self.old.disk }
        ensures cause { HasCause (D.faults self.old.disk) (D.faults self.new.disk) result }
        ensures some { OnOk result (0 < length self.new.held) }
        ensures block { OnOk result ((kept_at self.new.held 0).block ≡ b) }
        ensures bytes { IsTrue (D.origin self.old.disk).shows → OnOk result
            ((kept_at self.new.held 0).bytes ≡ content_in D.Disk self.old b) }
        ensures list { Lists b result (list_of self.old.held) (list_of self.new.held) }
        ensures only { OnlyGivesUp D.Disk self.old self.new }
        ensures last { WritesLast D.Disk self.old self.new }
    {
        self.make_room()?;
        self.bring(b)?;
        Ok(())
    }

    // Gives up the block that was used longest ago, where all buffers hold one.
    fn make_room(&mut self) -> Result<(), DeviceFault>
        ensures origin { D.origin self.new.disk ≡ D.origin self.old.disk }
        ensures cause { HasCause (D.faults self.old.disk) (D.faults self.new.disk) result }
        ensures unread { (kept_at self.old.held (BUFFERS - 1)).changed ≡ false → IsOk result }
        ensures room { OnOk result (length self.new.held < BUFFERS) }
        ensures list { OnOk result
            (list_of self.new.held ≡ take (BUFFERS - 1) (list_of self.old.held)) }
        ensures fault { OnErr result (list_of self.new.held ≡ list_of self.old.held) }
        ensures only { OnlyGivesUp D.Disk self.old self.new }
        ensures last { WritesLast D.Disk self.old self.new }
    {
        if self.shelf.len() == BUFFERS {
            self.shelf.write_at(&mut self.disk, BUFFERS - 1)?;
            self.shelf.drop_last();
        }
        Ok(())
    }

    // Reads a block into a buffer that holds none.
    fn bring(&mut self, b: u32) -> Result<(), DeviceFault>
        requires in_range { b < (D.origin self.old.disk).blocks }
        requires absent { IsNew b (list_of self.old.held) }
        requires room { length self.old.held < BUFFERS }
        ensures origin { D.origin self.new.disk ≡ D.origin self.old.disk }
        ensures cause { HasCause (D.faults self.old.disk) (D.faults self.new.disk) result }
        ensures shown { D.shown self.new.disk ≡ D.shown self.old.disk }
        ensures candidates { SameBelow (D.may_hold self.old.disk) (D.may_hold self.new.disk)
            (D.is_sure self.old.disk) (D.is_sure self.new.disk) }
        ensures same { (k : ℕ) → waiting self.new.held k ≡ waiting self.old.held k }
        ensures some { OnOk result (0 < length self.new.held) }
        ensures block { OnOk result ((kept_at self.new.held 0).block ≡ b) }
        ensures bytes { IsTrue (D.origin self.old.disk).shows
            → OnOk result ((kept_at self.new.held 0).bytes ≡ D.shown self.old.disk b) }
        ensures list { OnOk result (list_of self.new.held ≡ b ∷ list_of self.old.held) }
        ensures fault { OnErr result (list_of self.new.held ≡ list_of self.old.held) }
    {
        self.shelf.add(&mut self.disk, b)?;
        Ok(())
    }

    // Changes bytes of a block, which is read where no buffer holds it.
    fn write_part(&mut self, b: u32, at: u32, bytes: &[u8], node: bool) -> Result<(), DeviceFault>
        requires in_range { b < (D.origin self.old.disk).blocks }
        requires inside { at + length bytes.now ≤ (D.origin self.old.disk).block_size }
        ensures origin { D.origin self.new.disk ≡ D.origin self.old.disk }
        ensures cause { HasCause (D.faults self.old.disk) (D.faults self.new.disk) result }
        ensures bytes { IsTrue (D.origin self.old.disk).shows → OnOk result
            (waiting self.new.held b
            ≡ Some (changed_by at bytes.now node (content_in D.Disk self.old b))) }
        ensures word { IsTrue node
            → OnOk result (IsTrue (word_holds_in (content_in D.Disk self.new b))) }
        ensures list { Lists b result (list_of self.old.held) (list_of self.new.held) }
        ensures listed { Contains (list_of self.old.held) b → IsOk result }
        ensures changes { OnOk result (OnlyChanges D.Disk b self.old self.new) }
        ensures fault { OnErr result (OnlyGivesUp D.Disk self.old self.new) }
        ensures whole { HasWholeBlocks D.Disk self.old }
        ensures last { WritesLast D.Disk self.old self.new }
    {
        self.reach(b)?;
        self.shelf.write_first(at as usize, bytes, node);
        Ok(())
    }

    // Gives a whole block these bytes, or zeros, without reading it.
    fn put(&mut self, b: u32, bytes: Option<&[u8]>, node: bool) -> Result<(), DeviceFault>
        requires in_range { b < (D.origin self.old.disk).blocks }
        requires whole { IfSome bytes (λ s. length s.now ≡ (D.origin self.old.disk).block_size) }
        ensures origin { D.origin self.new.disk ≡ D.origin self.old.disk }
        ensures cause { HasCause (D.faults self.old.disk) (D.faults self.new.disk) result }
        ensures unread { (kept_at self.old.held (BUFFERS - 1)).changed ≡ false → IsOk result }
        ensures bytes { OnOk result (waiting self.new.held b
            ≡ Some (marked node (given_bytes (D.origin self.old.disk).block_size bytes.entry))) }
        ensures word { IsTrue node
            → OnOk result (IsTrue (word_holds_in (content_in D.Disk self.new b))) }
        ensures list { Lists b result (list_of self.old.held) (list_of self.new.held) }
        ensures listed { Contains (list_of self.old.held) b → IsOk result }
        ensures changes { OnOk result (OnlyChanges D.Disk b self.old self.new) }
        ensures fault { OnErr result (OnlyGivesUp D.Disk self.old self.new) }
        ensures whole { HasWholeBlocks D.Disk self.old }
        ensures last { WritesLast D.Disk self.old self.new }
    {
        if let Some(p) = self.shelf.find(b) {
            self.put_held(p, b, bytes, node);
            return Ok(());
        }
        self.make_room()?;
        self.put_new(b, bytes, node);
        Ok(())
    }

    // The same for the block of a place.
    fn put_held(&mut self, p: usize, b: u32, bytes: Option<&[u8]>, node: bool)
        requires there { p < length self.old.held }
        requires block { (kept_at self.old.held p).block ≡ b }
        requires whole { IfSome bytes (λ s. length s.now ≡ (D.origin self.old.disk).block_size) }
        ensures disk { self.new.disk ≡ self.old.disk }
        ensures bytes { waiting self.new.held b
            ≡ Some (marked node (given_bytes (D.origin self.old.disk).block_size bytes.entry)) }
        ensures word { IsTrue node → IsTrue (word_holds_in (content_in D.Disk self.new b)) }
        ensures others { (k : ℕ) → k ≢ b → waiting self.new.held k ≡ waiting self.old.held k }
        ensures list { list_of self.new.held ≡ used_last b (list_of self.old.held) }
    {
        self.hit(p);
        self.shelf.set_first(b, bytes, node);
    }

    // The same for a block that no buffer holds.
    fn put_new(&mut self, b: u32, bytes: Option<&[u8]>, node: bool)
        requires in_range { b < (D.origin self.old.disk).blocks }
        requires absent { IsNew b (list_of self.old.held) }
        requires room { length self.old.held < BUFFERS }
        requires whole { IfSome bytes (λ s. length s.now ≡ (D.origin self.old.disk).block_size) }
        ensures disk { self.new.disk ≡ self.old.disk }
        ensures bytes { waiting self.new.held b
            ≡ Some (marked node (given_bytes (D.origin self.old.disk).block_size bytes.entry)) }
        ensures word { IsTrue node → IsTrue (word_holds_in (content_in D.Disk self.new b)) }
        ensures others { (k : ℕ) → k ≢ b → waiting self.new.held k ≡ waiting self.old.held k }
        ensures list { list_of self.new.held ≡ b ∷ list_of self.old.held }
    {
        self.shelf.add_new(b, bytes, node);
    }

    // Writes the buffer of a place, if it is changed.
    fn write_place(&mut self, p: usize) -> Result<(), DeviceFault>
        requires { p < length self.old.held }
        ensures origin { D.origin self.new.disk ≡ D.origin self.old.disk }
        ensures cause { HasCause (D.faults self.old.disk) (D.faults self.new.disk) result }
        ensures list { list_of self.new.held ≡ list_of self.old.held }
        ensures gives { Gives D.Disk self.old self.new }
        ensures clean { OnOk result ((kept_at self.new.held p).changed ≡ false) }
        ensures others { (i : ℕ) → i ≢ p → kept_at self.new.held i ≡ kept_at self.old.held i }
    {
        self.shelf.write_at(&mut self.disk, p)?;
        Ok(())
    }
}

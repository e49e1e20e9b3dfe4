ghost use Rattle.std.specs.Prelude.{◌≡◌, ◌<◌, ◌≤◌, ◌+◌, ℕ, List, true, false, length, [], ◌∷◌, slice_range, IfOk, IfSome, OnOk, OnErr, IsOk, IsTrue};
ghost use Rattle.edge_base.specs.outside.Below.{SameBelow};
ghost use Rattle.edge_base.specs.outside.Faults.{HasCause};
ghost use Rattle.edge_cache.specs.Blocks.{put_at, sealed, marked, changed_by, given_bytes, word_holds_in};
ghost use Rattle.edge_cache.specs.Given.{GivesUp, waiting};
ghost use Rattle.edge_cache.specs.Kept.{as_read, made, IsRemembered};

use byteorder::{ByteOrder, LittleEndian};
use edge_disk::{DeviceFault, Disk};
use edge_word::check_word;
use std::alloc::{AllocError, Global};
use std::marker::Model;

/// What is known of a block's check word. `Due` is a node whose word is still to be put into its
/// bytes.
#[derive(Clone, Copy, Drop)]
pub(crate) enum Word {
    Due,
    Unknown,
    Holds,
    Differs,
}

// Writes bytes from a place on. What is then sealed has its check word.
#[tactic(auto, using(crate::proofs::SealLaws::holds))]
fn put(block: &mut [u8], at: usize, bytes: &[u8])
    requires short { length block.old ≤ 4096 }
    requires inside { at + length bytes.now ≤ length block.old }
    ensures bytes { block.new ≡ put_at at bytes.now block.old }
    ensures word { 8 ≤ length block.old → word_holds_in (sealed block.new) ≡ true }
{
    block[at..at + bytes.len()].copy_from_slice(bytes);
}

// Puts the check word into bytes 4 to 7.
fn seal(block: &mut [u8])
    requires room { 8 ≤ length block.old }
    requires short { length block.old ≤ 4096 }
    ensures { block.new ≡ sealed block.old }
{
    let mut word = [0u8; 4];
    LittleEndian::write_u32(&mut word, check_word(&block[8..]));
    put(block, 4, &word);
}

// Whether bytes 4 to 7 are the check word.
#[tactic(auto, unfolding(crate::specs::Blocks::word_holds_in, edge_base::specs::layout::Bytes::number_at))]
fn is_sealed(block: &[u8]) -> bool
    requires { 8 ≤ length block.now }
    ensures { result ≡ word_holds_in block.now }
{
    LittleEndian::read_u32(&block[4..8]) == check_word(&block[8..])
}

// Gives a block these bytes, or zeros. What is then sealed has its check word.
#[tactic(auto, using(crate::proofs::SealLaws::holds))]
fn put_whole(block: &mut [u8], bytes: Option<&[u8]>)
    requires { IfSome bytes (λ s. length s.now ≡ length block.old) }
    ensures bytes { block.new ≡ given_bytes (length block.old) bytes.entry }
    ensures word { 8 ≤ length block.old → word_holds_in (sealed block.new) ≡ true }
{
    match bytes {
        Some(bytes) => block.copy_from_slice(bytes),
        None => block.fill(0),
    }
}

// What is known of the check word after a change.
fn mark(node: bool) -> Word
    ensures read { (b : List ℕ) → as_read result b ≡ marked node b }
    ensures remembered { (b : List ℕ) → word_holds_in (sealed b) ≡ true → IsRemembered result b }
{
    if node { Word::Due } else { Word::Unknown }
}

// Puts the check word into bytes 4 to 7 where it is due.
fn settle(word: Word, bytes: &mut [u8]) -> Word
    requires room { 8 ≤ length bytes.old }
    requires short { length bytes.old ≤ 4096 }
    requires remembered { IsRemembered word bytes.old }
    ensures bytes { bytes.new ≡ as_read word bytes.old }
    ensures settled { as_read result bytes.new ≡ bytes.new }
    ensures remembered { IsRemembered result bytes.new }
{
    if let Word::Due = word {
        seal(bytes);
        return Word::Holds;
    }
    word
}

// Puts it in where it is due and any of bytes 4 to 7 are asked for.
#[tactic(auto, using(crate::proofs::SealLaws::seals))]
fn settle_for(word: Word, bytes: &mut [u8], at: usize, end: usize) -> Word
    requires room { 8 ≤ length bytes.old }
    requires short { length bytes.old ≤ 4096 }
    requires order { at ≤ end }
    requires remembered { IsRemembered word bytes.old }
    ensures read { slice_range bytes.new at end ≡ slice_range (as_read word bytes.old) at end }
    ensures same { as_read result bytes.new ≡ as_read word bytes.old }
    ensures remembered { IsRemembered result bytes.new }
{
    if at < 8 && 4 < end {
        return settle(word, bytes);
    }
    word
}

/// A buffer: the bytes of a block, and whether they are still to be written.
#[derive(Drop)]
pub(crate) struct Buffer {
    block: u32,
    bytes: Vec<u8>,
    changed: bool,
    word: Word,
}

impl Model for Buffer {
    ghost use Rattle.std.specs.Prelude.{◌≤◌, length};
    ghost use Rattle.edge_cache.specs.Kept.{Kept, made, as_read, IsRemembered};

    ghost Value = { Kept };

    ghost view = { λ s. made s.block (as_read s.word s.bytes.items) s.changed };

    ghost invariant = { λ s. (8 ≤ length s.bytes.items) × (length s.bytes.items ≤ 4096)
        × IsRemembered s.word s.bytes.items };
}

impl Buffer {
    pub fn new(alloc: Global, size: usize) -> Result<Buffer, AllocError>
        requires least { 8 ≤ size }
        requires most { size ≤ 4096 }
        ensures whole { IfOk result (λ s. length s.bytes ≡ size) }
        ensures same { IfOk result (λ s. s.changed ≡ false) }
    {
        let bytes = vec![in alloc; 0u8; size]?;
        Ok(Buffer {
            block: 0,
            bytes,
            changed: false,
            word: Word::Unknown,
        })
    }

    pub fn block(&self) -> u32
        ensures { result ≡ self.now.block }
    {
        self.block
    }

    /// Gives the bytes from a place on.
    #[tactic(auto, using(crate::proofs::SealLaws::seals))]
    pub fn read(&mut self, at: usize, out: &mut [u8])
        requires inside { at + length out.old ≤ length self.old.bytes }
        ensures same { self.new ≡ self.old }
        ensures bytes { out.new ≡ slice_range self.old.bytes at (at + length out.old) }
    {
        let word = self.word;
        let end = at + out.len();
        self.word = settle_for(word, &mut self.bytes, at, end);
        out.copy_from_slice(&self.bytes[at..end]);
    }

    /// Changes the bytes from a place on. A node's check word holds afterwards.
    pub fn write(&mut self, at: usize, bytes: &[u8], node: bool)
        requires { at + length bytes.now ≤ length self.old.bytes }
        ensures changed { self.new ≡ made self.old.block
            (changed_by at bytes.now node self.old.bytes) true }
        ensures word { IsTrue node → IsTrue (word_holds_in self.new.bytes) }
    {
        if node {
            self.write_node(at, bytes);
        } else {
            self.write_plain(at, bytes);
        }
    }

    // The check word is put in when the bytes are asked for or go out.
    #[tactic(auto, using(crate::proofs::SealLaws::seals))]
    fn write_node(&mut self, at: usize, bytes: &[u8])
        requires { at + length bytes.now ≤ length self.old.bytes }
        ensures changed { self.new ≡ made self.old.block
            (changed_by at bytes.now true self.old.bytes) true }
        ensures word { IsTrue (word_holds_in self.new.bytes) }
    {
        put(&mut self.bytes, at, bytes);
        self.word = Word::Due;
        self.changed = true;
    }

    #[tactic(auto, using(crate::proofs::SealLaws::seals))]
    fn write_plain(&mut self, at: usize, bytes: &[u8])
        requires { at + length bytes.now ≤ length self.old.bytes }
        ensures { self.new ≡ made self.old.block
            (changed_by at bytes.now false self.old.bytes) true }
    {
        settle(self.word, &mut self.bytes);
        self.word = Word::Unknown;
        put(&mut self.bytes, at, bytes);
        self.changed = true;
    }

    /// Holds a block with these bytes, or zeros. A node's check word holds afterwards.
    pub fn set(&mut self, block: u32, bytes: Option<&[u8]>, node: bool)
        requires { IfSome bytes (λ s. length s.now ≡ length self.old.bytes) }
        ensures changed { self.new ≡ made block
            (marked node (given_bytes (length self.old.bytes) bytes.entry)) true }
        ensures word { IsTrue node → IsTrue (word_holds_in self.new.bytes) }
    {
        put_whole(&mut self.bytes, bytes);
        self.block = block;
        self.word = mark(node);
        self.changed = true;
    }

    /// Whether bytes 4 to 7 are the check word of those from 8 on. The answer is remembered.
    pub fn word_holds(&mut self) -> bool
        ensures same { self.new ≡ self.old }
        ensures word { result ≡ word_holds_in self.old.bytes }
    {
        match self.word {
            Word::Due | Word::Holds => true,
            Word::Differs => false,
            Word::Unknown => {
                let holds = is_sealed(&self.bytes);
                self.word = if holds { Word::Holds } else { Word::Differs };
                holds
            }
        }
    }

    /// Reads a block of the disk.
    pub fn fill<D: Disk>(&mut self, disk: &mut D, b: u32) -> Result<(), DeviceFault>
        requires in_range { b < (D.origin disk.old).blocks }
        requires whole { length self.old.bytes ≡ (D.origin disk.old).block_size }
        ensures origin { D.origin disk.new ≡ D.origin disk.old }
        ensures cause { HasCause (D.faults disk.old) (D.faults disk.new) result }
        ensures shown { D.shown disk.new ≡ D.shown disk.old }
        ensures candidates { SameBelow (D.may_hold disk.old) (D.may_hold disk.new)
            (D.is_sure disk.old) (D.is_sure disk.new) }
        ensures len { length self.new.bytes ≡ length self.old.bytes }
        ensures block { self.new.block ≡ b }
        ensures same { self.new.changed ≡ false }
        ensures bytes { IsTrue (D.origin disk.old).shows
            → OnOk result (self.new.bytes ≡ D.shown disk.old b) }
    {
        self.block = b;
        self.changed = false;
        self.word = Word::Unknown;
        disk.read(b, &mut self.bytes)?;
        Ok(())
    }

    /// Writes the block, if it is changed.
    pub fn write_to<D: Disk>(&mut self, disk: &mut D) -> Result<(), DeviceFault>
        requires in_range { self.old.block < (D.origin disk.old).blocks }
        requires whole { length self.old.bytes ≡ (D.origin disk.old).block_size }
        ensures origin { D.origin disk.new ≡ D.origin disk.old }
        ensures cause { HasCause (D.faults disk.old) (D.faults disk.new) result }
        ensures idle { self.old.changed ≡ false → IsOk result }
        ensures done { OnOk result (self.new ≡ made self.old.block self.old.bytes false) }
        ensures kept { OnErr result (self.new ≡ self.old) }
        ensures gives { GivesUp (D.origin disk.old).shows
            (waiting (self.old ∷ [])) (waiting (self.new ∷ []))
            (D.shown disk.old) (D.shown disk.new)
            (D.may_hold disk.old) (D.may_hold disk.new) (D.is_sure disk.old) (D.is_sure disk.new) }
    {
        if self.changed {
            self.word = settle(self.word, &mut self.bytes);
            disk.write(self.block, &self.bytes)?;
            self.changed = false;
        }
        Ok(())
    }
}

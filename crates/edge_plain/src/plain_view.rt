ghost use Rattle.std.specs.Prelude.{◌≡◌, ◌≤◌, ◌<◌, ◌+◌, ◌*◌, length, true, All};
ghost use Rattle.edge_base.specs.layout.Places.{entries_of, pointers_of, IsGeometry, IsWithinLimits};
ghost use Rattle.edge_store.specs.View.{is_head, is_head_or_none};

use crate::rows::{copy_row, fill_row};
use edge_base::{Damage, DamageKind, Form, Geometry, Head};
use edge_store::Spot;
use std::alloc::{AllocError, Global};

/// A view that is kept in memory.
///
/// Number n has head n and row n of the entries; block b has row b of the pointers and of the
/// bytes. Nothing is asked of a row whose number has no inode, or whose block is not used.
#[derive(Drop)]
pub struct PlainView {
    pub geometry: Geometry,
    // None where a number has no inode.
    pub heads: Vec<Option<Head>>,
    pub entries: Vec<u32>,
    // What each block was taken as; None where it is not used.
    pub forms: Vec<Option<Form>>,
    pub owners: Vec<u32>,
    pub pointers: Vec<u32>,
    pub bytes: Vec<u8>,
    ghost good: { IsGeometry geometry },
    ghost limits: { IsWithinLimits geometry },
    ghost heads_length: { length heads.items ≡ 2 + geometry.inodes },
    ghost heads_kept: { All (λ head. is_head_or_none head ≡ true) heads.items },
    ghost entries_length: { length entries.items ≡ (2 + geometry.inodes) * entries_of geometry },
    ghost forms_length: { length forms.items ≡ geometry.blocks },
    ghost owners_length: { length owners.items ≡ geometry.blocks },
    ghost pointers_length: { length pointers.items ≡ geometry.blocks * pointers_of geometry },
    ghost bytes_length: { length bytes.items ≡ geometry.blocks * geometry.block_size },
}

impl PlainView {
    ghost use Rattle.std.specs.Prelude.{◌≢◌, ◌^◌, ℕ, is_some, slice_index, slice_range, IfOk, IfSome, IfNone, Option, Some, None};
    ghost use Rattle.edge_base.specs.declared.form.Form.TheVariants.{Plain};
    ghost use Rattle.edge_plain.specs.KeptView.{view_of};
    ghost use Rattle.edge_store.specs.Damages.{damage_at};
    ghost use Rattle.edge_store.specs.Effects.{HeadSet, EntrySet, InodeDropped, BlockDropped, IsLeastFree, PointerSet, BytesSet, SpellsNoOther};
    ghost use Rattle.edge_store.specs.Placed.{entry_at};
    ghost use Rattle.edge_store.specs.View.{View, no_view, content_at, entries_in, bytes_in, head_of_inode, is_allocable, is_number, is_spot, is_used, with_inode, with_block, empty_inode, empty_content};

    /// A view with nothing in it.
    pub fn new(alloc: Global, geometry: Geometry) -> Result<PlainView, AllocError>
        ensures geometry { IfOk result (λ v. v.geometry ≡ geometry) }
        ensures view { IfOk result (λ v. view_of v ≡ no_view) }
    {
        let r = geometry.request();
        let numbers = 2 + r.inodes as usize;
        let blocks = r.blocks as usize;
        let size = r.block_size as usize;
        Ok(PlainView {
            geometry,
            heads: vec![in alloc; None; numbers]?,
            entries: vec![in alloc; 0; numbers * ((size - 32) / 4)]?,
            forms: vec![in alloc; None; blocks]?,
            owners: vec![in alloc; 0; blocks]?,
            pointers: vec![in alloc; 0; blocks * ((size - 20) / 4)]?,
            bytes: vec![in alloc; 0; blocks * size]?,
        })
    }

    fn entry_count(&self) -> usize
        ensures count { result ≡ entries_of self.now.geometry }
        ensures small { result ≤ 1016 }
    {
        (self.geometry.request().block_size as usize - 32) / 4
    }

    fn pointer_count(&self) -> usize
        ensures count { result ≡ pointers_of self.now.geometry }
        ensures small { result ≤ 1019 }
    {
        (self.geometry.request().block_size as usize - 20) / 4
    }

    /// The head of an inode, and None where the number has none.
    pub fn head(&self, n: u32) -> Option<Head>
        requires { is_number self.now.geometry n ≡ true }
        ensures same { result ≡ head_of_inode ((view_of self.now).inodes n) }
        ensures rules { is_head_or_none result ≡ true }
    {
        self.heads[n as usize]
    }

    /// An entry of an inode.
    pub fn entry(&self, n: u32, i: u32) -> u32
        requires number { is_number self.now.geometry n ≡ true }
        requires there { is_some ((view_of self.now).inodes n) ≡ true }
        requires entry { i < entries_of self.now.geometry }
        ensures { result ≡ entry_at (view_of self.now) n i }
    {
        self.entries[n as usize * self.entry_count() + i as usize]
    }

    /// Sets an entry of an inode.
    pub fn set_entry(&mut self, n: u32, i: u32, to: u32)
        requires number { is_number self.old.geometry n ≡ true }
        requires there { is_some ((view_of self.old).inodes n) ≡ true }
        requires entry { i < entries_of self.old.geometry }
        ensures geometry { self.new.geometry ≡ self.old.geometry }
        ensures view { EntrySet (view_of self.old) (view_of self.new) n i to }
    {
        let count = self.entry_count();
        self.entries[n as usize * count + i as usize] = to;
    }

    /// The least number without an inode, where no number below `from` is without one.
    pub fn free_number(&self, from: u32) -> Option<u32>
        requires some { 2 ≤ from }
        requires below { (k : ℕ) → is_number self.now.geometry k ≡ true → k < from
            → (view_of self.now).inodes k ≢ None }
        ensures found { IfSome result (IsLeastFree self.now.geometry (view_of self.now)) }
        ensures none { IfNone result ((k : ℕ) → is_number self.now.geometry k ≡ true
            → (view_of self.now).inodes k ≢ None) }
    {
        for n in from..2 + self.geometry.request().inodes {
            if self.heads[n as usize].is_none() {
                return Some(n);
            }
        }
        None
    }

    /// Gives an inode another head.
    pub fn set_head(&mut self, n: u32, head: Head)
        requires number { is_number self.old.geometry n ≡ true }
        requires there { is_some ((view_of self.old).inodes n) ≡ true }
        requires head { is_head head ≡ true }
        ensures geometry { self.new.geometry ≡ self.old.geometry }
        ensures view { HeadSet (view_of self.old) (view_of self.new) n head }
    {
        self.heads[n as usize] = Some(head);
    }

    /// Gives a number an inode with no entries.
    pub fn put_inode(&mut self, n: u32, head: Head)
        requires number { is_number self.old.geometry n ≡ true }
        requires head { is_head head ≡ true }
        ensures geometry { self.new.geometry ≡ self.old.geometry }
        ensures view { view_of self.new
            ≡ with_inode (view_of self.old) n (Some (empty_inode self.old.geometry head)) }
    {
        let count = self.entry_count();
        self.heads[n as usize] = Some(head);
        fill_row(&mut self.entries, count, n as usize, 0);
    }

    /// Takes a number its inode.
    pub fn drop_inode(&mut self, n: u32)
        requires number { is_number self.old.geometry n ≡ true }
        ensures geometry { self.new.geometry ≡ self.old.geometry }
        ensures view { InodeDropped (view_of self.old) (view_of self.new) n }
    {
        self.heads[n as usize] = None;
    }

    /// The damage that is met where a block is read.
    pub fn damage(&self, s: Spot) -> Option<Damage>
        requires { is_allocable self.now.geometry s.block ≡ true }
        ensures { result ≡ damage_at (view_of self.now) s.form s.owner s.block }
    {
        let kind = match self.forms[s.block as usize] {
            None => DamageKind::NotUsed,
            Some(_) if s.form == Form::Plain => return None,
            Some(form) if s.form != form => DamageKind::WrongSignature,
            Some(_) if self.owners[s.block as usize] != s.owner => DamageKind::WrongOwner,
            Some(_) => return None,
        };
        Some(Damage {
            block: s.block,
            kind,
        })
    }

    /// A pointer of a pointer node.
    pub fn pointer(&self, s: Spot, i: u32) -> u32
        requires block { is_allocable self.now.geometry s.block ≡ true }
        requires form { s.form ≢ Plain }
        requires place { i < pointers_of self.now.geometry }
        requires spot { is_spot (view_of self.now) s.form s.owner s.block ≡ true }
        ensures { result ≡ slice_index
            (entries_in (content_at (view_of self.now) s.form s.block)) i }
    {
        self.pointers[s.block as usize * self.pointer_count() + i as usize]
    }

    /// Sets a pointer of a pointer node.
    pub fn set_pointer(&mut self, s: Spot, i: u32, to: u32)
        requires block { is_allocable self.old.geometry s.block ≡ true }
        requires form { s.form ≢ Plain }
        requires place { i < pointers_of self.old.geometry }
        requires spot { is_spot (view_of self.old) s.form s.owner s.block ≡ true }
        ensures geometry { self.new.geometry ≡ self.old.geometry }
        ensures set { PointerSet (view_of self.old) (view_of self.new) s.form s.owner s.block i to }
    {
        let count = self.pointer_count();
        self.pointers[s.block as usize * count + i as usize] = to;
    }

    /// Reads bytes of a used block, from byte `at` on.
    pub fn read(&self, b: u32, at: u32, out: &mut [u8])
        requires block { is_allocable self.now.geometry b ≡ true }
        requires used { is_used (view_of self.now) b ≡ true }
        requires range { at + length out.old ≤ self.now.geometry.block_size }
        ensures { out.new ≡ slice_range (bytes_in (content_at (view_of self.now) Plain b))
            at (at + length out.old) }
    {
        let from = b as usize * self.geometry.request().block_size as usize + at as usize;
        out.copy_from_slice(&self.bytes[from..from + out.len()]);
    }

    /// Writes bytes of a used block, from byte `at` on.
    pub fn write(&mut self, b: u32, at: u32, bytes: &[u8])
        requires block { is_allocable self.old.geometry b ≡ true }
        requires used { is_used (view_of self.old) b ≡ true }
        requires range { at + length bytes.now ≤ self.old.geometry.block_size }
        ensures geometry { self.new.geometry ≡ self.old.geometry }
        ensures set { BytesSet (view_of self.old) (view_of self.new) b at bytes.now }
    {
        let from = b as usize * self.geometry.request().block_size as usize + at as usize;
        self.bytes[from..from + bytes.len()].copy_from_slice(bytes);
    }

    /// Makes a block one with nothing in it.
    pub fn put_block(&mut self, b: u32, form: Form, owner: u32)
        requires block { is_allocable self.old.geometry b ≡ true }
        ensures geometry { self.new.geometry ≡ self.old.geometry }
        ensures working { view_of self.new
            ≡ with_block (view_of self.old) b ((view_of self.new).blocks b) }
        ensures content { content_at (view_of self.new) form b
            ≡ empty_content self.old.geometry form owner }
        ensures other { SpellsNoOther (view_of self.new) form b }
    {
        let count = self.pointer_count();
        let size = self.geometry.request().block_size as usize;
        self.forms[b as usize] = Some(form);
        self.owners[b as usize] = owner;
        fill_row(&mut self.pointers, count, b as usize, 0);
        fill_row(&mut self.bytes, size, b as usize, 0);
    }

    /// Copies a block over another.
    pub fn copy_block(&mut self, from: u32, to: u32)
        requires from { is_allocable self.old.geometry from ≡ true }
        requires to { is_allocable self.old.geometry to ≡ true }
        requires apart { from ≢ to }
        ensures geometry { self.new.geometry ≡ self.old.geometry }
        ensures view { view_of self.new
            ≡ with_block (view_of self.old) to ((view_of self.old).blocks from) }
    {
        let count = self.pointer_count();
        let size = self.geometry.request().block_size as usize;
        self.forms[to as usize] = self.forms[from as usize];
        self.owners[to as usize] = self.owners[from as usize];
        copy_row(&mut self.pointers, count, from as usize, to as usize);
        copy_row(&mut self.bytes, size, from as usize, to as usize);
    }

    /// Drops a block.
    pub fn drop_block(&mut self, b: u32)
        requires block { is_allocable self.old.geometry b ≡ true }
        ensures geometry { self.new.geometry ≡ self.old.geometry }
        ensures view { BlockDropped (view_of self.old) (view_of self.new) b }
    {
        self.forms[b as usize] = None;
    }

    /// Whether a block is used.
    pub fn is_used(&self, b: u32) -> bool
        requires block { is_allocable self.now.geometry b ≡ true }
        ensures { result ≡ is_used (view_of self.now) b }
    {
        self.forms[b as usize].is_some()
    }

    /// Becomes another view of the same geometry.
    pub fn copy_from(&mut self, other: &PlainView)
        requires { other.now.geometry ≡ self.old.geometry }
        ensures geometry { self.new.geometry ≡ self.old.geometry }
        ensures view { view_of self.new ≡ view_of other.now }
    {
        self.heads.copy_from_slice(&other.heads);
        self.entries.copy_from_slice(&other.entries);
        self.forms.copy_from_slice(&other.forms);
        self.owners.copy_from_slice(&other.owners);
        self.pointers.copy_from_slice(&other.pointers);
        self.bytes.copy_from_slice(&other.bytes);
    }
}

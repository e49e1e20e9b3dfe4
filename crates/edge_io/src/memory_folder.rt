ghost use Rattle.std.specs.Prelude.{◌≤◌, length};

use crate::calls::Calls;
use crate::folder::{Folder, FolderFault, Item};
use crate::folder_item::FolderItem;
use crate::kept::Kept;
use std::alloc::{AllocError, Global};
use std::collections::VecDeque;

/// A folder in memory, which tells its items. Its calls of `next` and `bytes`, numbered together
/// from 0, fail by a list.
#[derive(Drop)]
pub struct MemoryFolder {
    items: VecDeque<Kept>,
    // Those of the last item given, of which `given` were given.
    bytes: Vec<u8>,
    given: usize,
    calls: Calls,
    ghost within: { given ≤ length bytes.items },
}

impl MemoryFolder {
    ghost use Rattle.std.specs.Prelude.{◌≡◌, [], map, IfOk, IsTrue};
    ghost use Rattle.edge_io.specs.Kept.{entry_of, paths_fit};
    ghost use Rattle.edge_io.specs.MemoryFolder.{items_of, left_of, fails_of, calls_of, faults_of};

    /// A folder of these items, which it gives in this order. The calls with the numbers in
    /// `fails`, counted from 0, fail. Later calls take no memory.
    pub fn new(
        alloc: Global,
        items: &[FolderItem<'_>],
        fails: &[u64],
    ) -> Result<MemoryFolder, AllocError>
        requires { IsTrue (paths_fit items.now) }
        ensures items { IfOk result (λ f. items_of f ≡ map entry_of items.now) }
        ensures left { IfOk result (λ f. left_of f ≡ []) }
        ensures fails { IfOk result (λ f. fails_of f ≡ fails.now) }
        ensures calls { IfOk result (λ f. calls_of f ≡ 0) }
        ensures faults { IfOk result (λ f. faults_of f ≡ 0) }
    {
        Ok(MemoryFolder {
            items: Kept::all(alloc, items)?,
            bytes: Vec::new(alloc),
            given: 0,
            calls: Calls::new(alloc, fails)?,
        })
    }
}

impl Folder for MemoryFolder {
    ghost use Rattle.std.specs.Prelude.{◌≡◌, ◌+◌, ◌-◌, ◌^◌, ◌↔◌, min, true, drop, Contains, IsErr, IfOk, IfSome, OnErr};
    ghost use Rattle.edge_base.specs.outside.Faults.{HasCause};
    ghost use Rattle.edge_io.specs.Entries.{GivesItem};
    ghost use Rattle.edge_io.specs.MemoryFolder.{items_of, left_of, fails_of, calls_of, faults_of};
    ghost use Rattle.edge_io.specs.Streams.{Gives};

    ghost tells = { λ _. true };

    ghost items = { items_of };

    ghost left = { left_of };

    ghost faults = { faults_of };

    fn next(&mut self, path: &mut [u8]) -> Result<Option<Item>, FolderFault>
        requires { length path.old ≡ 4096 }
        ensures cause { HasCause (faults_of self.old) (faults_of self.new) result }
        ensures fits { IfOk result (λ given. IfSome given (λ item. item.path_len ≤ 4096)) }
        ensures given { IfOk result
            (λ given. GivesItem given path.old path.new (items_of self.old) (items_of self.new)
            (left_of self.old) (left_of self.new)) }
        ensures failed { OnErr result (items_of self.new ≡ items_of self.old) }
        ensures failed_left { OnErr result (left_of self.new ≡ left_of self.old) }

        ensures fails { IsErr result ↔ Contains (fails_of self.old) (calls_of self.old) }
        ensures untouched { OnErr result (path.new ≡ path.old) }
        ensures calls { calls_of self.new ≡ min (calls_of self.old + 1) (2 ^ 64 - 1) }
        ensures list { fails_of self.new ≡ fails_of self.old }
    {
        if self.calls.next_fails(false) {
            return Err(FolderFault);
        }
        let Some(kept) = self.items.pop_front() else {
            return Ok(None);
        };
        let Kept {
            path: name,
            kind,
            bytes,
        } = kept;
        let path_len = name.len();
        path[..path_len].copy_from_slice(&name);
        self.bytes = bytes;
        self.given = 0;
        Ok(Some(Item { kind, path_len }))
    }

    /// Gives as many bytes as are left and fit into `out`, and leaves the rest of `out` as it is.
    fn bytes(&mut self, out: &mut [u8]) -> Result<usize, FolderFault>
        ensures cause { HasCause (faults_of self.old) (faults_of self.new) result }
        ensures fits { IfOk result (λ n. n ≤ length out.old) }
        ensures given { IfOk result (λ n. Gives n out.new (left_of self.old) (left_of self.new)) }
        ensures items { items_of self.new ≡ items_of self.old }
        ensures failed { OnErr result (left_of self.new ≡ left_of self.old) }

        ensures fails { IsErr result ↔ Contains (fails_of self.old) (calls_of self.old) }
        ensures count { IfOk result (λ n. n ≡ min (length out.old) (length (left_of self.old))) }
        ensures rest { IfOk result (λ n. drop n out.new ≡ drop n out.old) }
        ensures untouched { OnErr result (out.new ≡ out.old) }
        ensures calls { calls_of self.new ≡ min (calls_of self.old + 1) (2 ^ 64 - 1) }
        ensures list { fails_of self.new ≡ fails_of self.old }
    {
        if self.calls.next_fails(false) {
            return Err(FolderFault);
        }
        let left = &self.bytes[self.given..];
        let count = left.len().min(out.len());
        out[..count].copy_from_slice(&left[..count]);
        self.given += count;
        Ok(count)
    }
}

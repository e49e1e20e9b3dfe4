ghost use Rattle.std.specs.Prelude.{◌≡◌, ◌≤◌, ℕ, Bool, List, length, IfOk, IfSome, OnErr, IsTrue};
ghost use Rattle.edge_base.specs.outside.Faults.{HasCause};
ghost use Rattle.edge_io.specs.Entries.{FolderEntry, GivesItem};
ghost use Rattle.edge_io.specs.Streams.{Gives};

use thiserror::Error;

/// A call of a folder failed.
#[derive(Clone, Copy, Debug, PartialEq, Eq, Error)]
#[error("FolderFault")]
pub struct FolderFault;

/// What an item of a folder is.
#[derive(Clone, Copy, Debug, PartialEq, Eq)]
pub enum ItemKind {
    File,
    Directory,
}

/// An item that a folder gave: what it is, and the length of its path in bytes, at most 4,096.
#[derive(Clone, Copy, Debug, PartialEq, Eq)]
pub struct Item {
    pub kind: ItemKind,
    pub path_len: usize,
}

/// Where files and directories come from, one after the other. `items` is the items that are left,
/// in any order, each with its path, relative and with `/` between names, its kind and the bytes of
/// a file. `left` is the bytes that are left of the last item given, at first none. Both mean this
/// where `tells` says that they are told; `faults` counts the faults so far. A path may have any
/// bytes.
pub trait Folder {
    ghost tells: { Self → Bool };

    ghost items: { Self → List FolderEntry };

    ghost left: { Self → List ℕ };

    ghost faults: { Self → ℕ };

    /// Takes the first of the items left, writes its path to the front of `path`, which has 4,096
    /// bytes, and answers what it is. The bytes left are then its own, none for a directory.
    /// Without an item left it answers None and changes nothing. Where it fails, it takes nothing
    /// and changes only the count.
    fn next(&mut self, path: &mut [u8]) -> Result<Option<Item>, FolderFault>
        requires { length path.old ≡ 4096 }
        ensures tells { tells self.new ≡ tells self.old }
        ensures cause { HasCause (faults self.old) (faults self.new) result }
        ensures fits { IfOk result (λ given. IfSome given (λ item. item.path_len ≤ 4096)) }
        ensures given { IsTrue (tells self.old)
            → IfOk result (λ given. GivesItem given path.old path.new (items self.old)
            (items self.new) (left self.old) (left self.new)) }
        ensures failed { OnErr result (items self.new ≡ items self.old) }
        ensures failed_left { OnErr result (left self.new ≡ left self.old) };

    /// Gives the first of the bytes left of the last item given, and answers how many. With room in
    /// `out`, 0 means that none is left. Where it fails, it gives nothing and changes only the
    /// count.
    fn bytes(&mut self, out: &mut [u8]) -> Result<usize, FolderFault>
        ensures tells { tells self.new ≡ tells self.old }
        ensures cause { HasCause (faults self.old) (faults self.new) result }
        ensures fits { IfOk result (λ n. n ≤ length out.old) }
        ensures given { IsTrue (tells self.old)
            → IfOk result (λ n. Gives n out.new (left self.old) (left self.new)) }
        ensures items { items self.new ≡ items self.old }
        ensures failed { OnErr result (left self.new ≡ left self.old) };
}

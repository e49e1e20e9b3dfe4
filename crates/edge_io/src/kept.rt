ghost use Rattle.std.specs.Prelude.{◌≡◌, ◌≤◌, [], length};
ghost use Rattle.edge_io.specs.declared.folder.ItemKind.TheVariants.{Directory};

use crate::folder::ItemKind;
use crate::folder_item::FolderItem;
use std::alloc::{AllocError, Global};
use std::collections::VecDeque;

/// An item that a folder in memory keeps.
#[derive(Drop)]
pub struct Kept {
    pub path: Vec<u8>,
    pub kind: ItemKind,
    pub bytes: Vec<u8>,
    ghost fits: { length path.items ≤ 4096 },
    ghost none: { kind ≡ Directory → bytes.items ≡ [] },
}

impl Kept {
    ghost use Rattle.std.specs.Prelude.{map, IfOk, IsTrue};
    ghost use Rattle.edge_io.specs.Kept.{entry_of, kept_entry, paths_fit};

    /// Keeps a copy of an item.
    pub fn new(alloc: Global, item: &FolderItem<'_>) -> Result<Kept, AllocError>
        requires { length item.now.path.now ≤ 4096 }
        ensures { IfOk result (λ k. kept_entry k ≡ entry_of item.now) }
    {
        let path = item.path.to_vec(alloc)?;
        let bytes = match item.kind {
            ItemKind::File => item.bytes.to_vec(alloc)?,
            ItemKind::Directory => Vec::new(alloc),
        };
        Ok(Kept {
            path,
            kind: item.kind,
            bytes,
        })
    }

    /// Keeps a copy of each of these items.
    pub fn all(alloc: Global, items: &[FolderItem<'_>]) -> Result<VecDeque<Kept>, AllocError>
        requires { IsTrue (paths_fit items.now) }
        ensures { IfOk result (λ kept. map kept_entry kept.items ≡ map entry_of items.now) }
    {
        let mut kept = VecDeque::new(alloc);
        for item in items {
            kept.push_back(Kept::new(alloc, item)?)?;
        }
        Ok(kept)
    }
}

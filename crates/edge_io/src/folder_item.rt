use crate::folder::ItemKind;

/// An item that a folder in memory is made of: a relative path with `/` between names, of at most
/// 4,096 bytes, what it is, and the bytes of a file. Those of a directory are passed over.
#[derive(Clone, Copy)]
pub struct FolderItem<'a> {
    pub path: &'a [u8],
    pub kind: ItemKind,
    pub bytes: &'a [u8],
}

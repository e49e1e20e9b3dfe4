use crate::geometry::Geometry;

/// What an inode is of.
#[derive(Clone, Copy, Debug, PartialEq, Eq)]
pub enum NodeType {
    File,
    Directory,
}

/// The head of an inode: its size in bytes, what it is of, how many slots name it, and the number
/// of the directory that names a directory. The parent of a file and of the root is 0.
#[derive(Clone, Copy, Debug, PartialEq, Eq)]
pub struct Head {
    pub size: u64,
    pub kind: NodeType,
    pub links: u16,
    pub parent: u32,
}

/// What the master block says: the geometry, and when the image was formatted, in seconds since
/// 1970.
#[derive(Clone, Copy, Debug, PartialEq, Eq)]
pub struct Master {
    pub geometry: Geometry,
    pub time: u32,
}

/// What a metaroot says beside its bitmap: its sequence number, the free allocable blocks, the free
/// inodes, and the next block to try.
#[derive(Clone, Copy, Debug, PartialEq, Eq)]
pub struct Metaroot {
    pub sequence: u64,
    pub free_blocks: u32,
    pub free_inodes: u32,
    pub next: u32,
}

/// Why a block spells no node of the kind that was asked.
#[derive(Clone, Copy, Debug, PartialEq, Eq)]
pub enum NodeFault {
    /// The first four bytes are another signature.
    WrongSignature,
    /// The check word differs.
    WrongWord,
    /// The offset of the first field that breaks its rule.
    WrongField(u32),
}

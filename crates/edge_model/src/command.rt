use edge_base::{NodeType, Refusal};

/// How a file is opened.
#[derive(Clone, Copy, Debug, PartialEq, Eq)]
pub struct OpenFlags {
    pub read: bool,
    pub write: bool,
    /// A file that is absent is made.
    pub create: bool,
    /// With `create`: a path that is there is refused.
    pub exclusive: bool,
    /// A file that is there is cut to no bytes.
    pub truncate: bool,
    /// Each write goes to the end.
    pub append: bool,
}

/// A command. `docs/DEFINITIONS.md` says what each does. `h` is the number of a descriptor.
#[derive(Clone, Copy, Debug)]
pub enum Command<'a> {
    OpenFile { path: &'a [u8], flags: OpenFlags },
    Close { h: u32 },
    /// 1 to 4,096 bytes.
    Read { h: u32, count: u32 },
    /// 1 to 4,096 bytes.
    Write { h: u32, bytes: &'a [u8] },
    /// 1 to 65,536 equal bytes.
    Fill { h: u32, count: u32, byte: u8 },
    Seek { h: u32, to: u64 },
    Truncate { h: u32, size: u64 },
    Fsync { h: u32 },
    Link { path: &'a [u8], to: &'a [u8] },
    Unlink { path: &'a [u8] },
    Rename { path: &'a [u8], to: &'a [u8] },
    MakeDir { path: &'a [u8] },
    RemoveDir { path: &'a [u8] },
    OpenDir { path: &'a [u8] },
    ReadDir { h: u32 },
    Rewind { h: u32 },
    Stat { path: &'a [u8] },
    Fstat { h: u32 },
    Space,
    Mask,
    SetMask { mask: u32 },
    Transact,
}

/// What `Stat` and `Fstat` tell of a node.
#[derive(Clone, Copy, Debug, PartialEq, Eq)]
pub struct Status {
    pub number: u32,
    pub kind: NodeType,
    /// In bytes.
    pub size: u64,
    pub links: u16,
}

/// What `Space` tells, in blocks and inodes.
#[derive(Clone, Copy, Debug, PartialEq, Eq)]
pub struct Room {
    /// Free before the next point.
    pub now: u32,
    /// Free after a point.
    pub after: u32,
    /// All that files and directories may use.
    pub blocks: u32,
    pub free_inodes: u32,
    pub inodes: u32,
}

/// What a command answers.
#[derive(Clone, Copy, Debug, PartialEq, Eq)]
pub enum Answer {
    Done,
    /// A descriptor, a mask or a number of bytes.
    Number(u64),
    /// So many bytes were read.
    Bytes(u32),
    /// Nothing is left to read.
    End,
    /// The node's number and the length of its name.
    Entry { number: u32, len: u32 },
    Stat(Status),
    Space(Room),
    No(Refusal),
}

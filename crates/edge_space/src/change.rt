/// A slot of a directory.
#[derive(Clone, Copy, Debug, PartialEq, Eq)]
pub struct SlotAt {
    pub dir: u32,
    pub slot: u64,
}

/// A change of nodes, before it is made.
#[derive(Clone, Copy, Debug, PartialEq, Eq)]
pub enum Change {
    /// So many bytes are written from byte `at` of a node on.
    Bytes {
        n: u32,
        at: u64,
        len: u32,
    },
    /// A node gets a size: its data blocks past that go, and the rest of one that is cut in two is
    /// zeroed.
    Size {
        n: u32,
        size: u64,
    },
    /// An entry is put into a slot, and then a filled slot is cleared: one of them, both, or none.
    /// They are not the same slot. Empty slots at the end of the directory that loses an entry are
    /// cut off, and so are its blocks that have no slot left.
    Slots {
        put: Option<SlotAt>,
        clear: Option<SlotAt>,
    },
}

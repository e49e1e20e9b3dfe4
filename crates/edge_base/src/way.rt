/// The way from an inode to a data block. An entry is one of the inode's, a place one of a pointer
/// node's.
#[derive(Clone, Copy, Debug, PartialEq, Eq)]
pub enum Way {
    /// The entry of the block itself.
    Direct { entry: u32 },
    /// The entry of an indirect node, and the block's place there.
    Single { entry: u32, place: u32 },
    /// The entry of a double-indirect node, the place of an indirect node there, and the block's
    /// place in that one.
    Double { entry: u32, outer: u32, place: u32 },
}

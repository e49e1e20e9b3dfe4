/// What is wrong with a block that was read. `kind as u8` is the number that is printed.
#[derive(Clone, Copy, Debug, PartialEq, Eq)]
pub enum DamageKind {
    /// It begins with another signature than its place asks.
    WrongSignature = 1,
    /// Its check word differs.
    WrongWord = 2,
    /// A field breaks its rule.
    WrongField = 3,
    /// It is a pointer node with another owner.
    WrongOwner = 4,
    /// It holds a pointer outside the allocable blocks.
    WrongPointer = 5,
    /// It is pointed to or named, and not used. Of a number without an inode, its first place.
    NotUsed = 6,
    /// It is the first place of an inode with both places used.
    TwoPlaces = 7,
    /// It is a directory block with a slot that is not allowed.
    WrongSlot = 8,
    /// It is an inode or a pointer node that breaks the shape of a file or a directory.
    WrongShape = 9,
    /// It is the place of an inode that a command was changing while too few blocks were free.
    Tangled = 10,
}

/// Damage that was met, and the block that it was met in.
#[derive(Clone, Copy, Debug, PartialEq, Eq)]
pub struct Damage {
    pub block: u32,
    pub kind: DamageKind,
}

/// Where a cut of a node goes through. The entries behind the last one that stays go whole, with
/// all that hangs under them. A place is one of a pointer node, counted from 0.
#[derive(Clone, Copy, Debug, PartialEq, Eq)]
pub enum Cut {
    /// All entries from this one on go.
    Whole { entry: u32 },
    /// The indirect node of an entry is cut from a place on.
    Node { entry: u32, place: u32 },
    /// The double-indirect node of an entry is cut from a place on.
    Top { entry: u32, place: u32 },
    /// The indirect node in the place `outer` of a double-indirect node is cut from a place on, and
    /// the double-indirect node behind `outer`.
    Both { entry: u32, outer: u32, place: u32 },
}

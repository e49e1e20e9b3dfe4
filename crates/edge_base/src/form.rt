/// What a block is read as: the bytes of a file or a directory, or a pointer node of either kind.
#[derive(Clone, Copy, Debug, PartialEq, Eq)]
pub enum Form {
    Plain,
    Indirect,
    Double,
}

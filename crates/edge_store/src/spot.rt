use edge_base::Form;

/// A block with the form and the owner that it is to have: the number of the inode that it belongs
/// to. Under `Form::Plain` a block has no owner, and may have any.
#[derive(Clone, Copy, Debug, PartialEq, Eq)]
pub struct Spot {
    pub block: u32,
    pub form: Form,
    pub owner: u32,
}

/// The free allocable blocks: `now` those that neither the last point nor the working view uses,
/// `after` those that will be free after the next point.
#[derive(Clone, Copy, Debug, PartialEq, Eq)]
pub struct Free {
    pub now: u32,
    pub after: u32,
}

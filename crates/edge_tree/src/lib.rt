//! Pointer trees over any store: where the data blocks of a node are, and blocks made writable.
#![tactic(auto)]

mod chain;
mod link;
mod own;
mod walk;
mod writable;

pub use chain::{Chain, chain_of, cost_of};
pub use link::{entry_link, pointer_link};
pub use own::{own_entry, own_pointer, tangled};
pub use walk::block_of;
pub use writable::{make_overwritable, make_writable};

//! A store in memory, on which the layers above a store can be run and tried out without a disk.
#![tactic(auto)]

mod laws;
mod plain;
mod plain_view;
mod rows;

pub use laws::{inodes_lie_at_their_first_places, no_call_fails};
pub use plain::PlainStore;

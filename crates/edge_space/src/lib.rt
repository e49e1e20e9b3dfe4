//! Exact space: how many free blocks a change of a node takes, over any store.
//!
//! A change writes or adds data blocks, and removes some. Its fresh positions are those that it
//! makes dirty and that are not dirty yet: each takes one of the free blocks. A change fits where
//! they, and the blocks that must stay free, are no more than the blocks that are free now. A node
//! that goes whole beside a change makes nothing dirty, so that it is no part of one.
#![tactic(auto)]

mod beside;
mod change;
mod entries;
mod fresh;
mod laws;
mod nodes;
mod rows;
mod run;
mod size;
mod slots;

pub use change::{Change, SlotAt};
pub use fresh::{fits, fresh_of};
pub use laws::{
    bytes_ask_for_their_fresh_positions, sizes_ask_for_their_fresh_positions,
    slots_ask_for_their_fresh_positions,
};

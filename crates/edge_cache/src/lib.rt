//! A cache of blocks over a disk: buffers, which are written when they make room for other blocks.
#![tactic(auto)]

mod buffer;
mod cache;
mod shelf;

pub use cache::Cache;
pub use shelf::BUFFERS;

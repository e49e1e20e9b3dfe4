//! A store over a disk, which takes transaction points.
#![tactic(auto)]

mod begin;
mod block;
mod change;
mod copied;
mod free;
mod inode;
mod look;
mod make;
mod parts;
mod point;
mod put;
mod read;
mod room;
mod set;
mod steps;
mod store;
mod taken;
mod transact;
mod views;
mod written;

pub use edge_mount::MountFault;
pub use parts::Parts;
pub use point::Point;
pub use views::{a_store_over_a_disk_is_a_store, a_view_over_whole_blocks_is_a_view};

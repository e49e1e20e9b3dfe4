//! The bytes of files and directories, over any store.
#![tactic(auto)]

mod head;
mod laws;
mod piece;
mod read;
mod shorten;
mod size;
mod write;

pub use head::sized_head;
pub use laws::{
    a_shortening_changes_its_node, a_write_changes_its_node, files_are_held_by_their_bytes,
    writes_follow_each_other,
};
pub use piece::block_count;
pub use read::read_at;
pub use shorten::set_size;
pub use size::grow;
pub use write::{fill_at, write_at};

//! The bitmap of used blocks, of the last point and working: in the metaroot, or in pairs of imap
//! nodes that are read and changed through a cache.
#![tactic(auto)]

mod change;
mod fault;
mod imap;
mod inodes;
mod laws;
mod load;
mod node;
mod pairs;
mod room;
mod search;
mod state;

pub use edge_alloc::Counts;
pub use fault::{BlockState, ImapFault, LoadFault};
pub use imap::{Imap, Loaded};
pub use laws::{
    a_block_that_is_counted_is_found, a_clean_cache_shows_the_nodes, others_keep_the_lists,
    others_keep_the_tie, the_counts_are_of_the_working_list, the_live_nodes_tell_the_list,
    the_spare_place_is_not_live, the_spare_place_is_of_the_nodes,
};
pub use room::Room;

//! What a store holds and what its calls do: the trait `Store`, over views of inodes and blocks.
//! `specs/` has the definitions that the layers above a store speak of; the functions of `laws` are
//! laws over them, without effects.
#![tactic(auto)]

mod fault;
mod laws;
mod spot;
mod store;

pub use edge_base::Form;
pub use fault::StoreFault;
pub use laws::{
    a_head_that_is_set_moves_no_block, a_kept_chain_keeps_its_block, a_node_may_stay_as_it_is,
    blocks_lie_on_their_ways, bytes_that_are_set_move_no_block, changes_at_a_node_add_up,
    changes_elsewhere_keep_pointers, changes_of_free_blocks_after, changes_of_free_blocks_now,
    changes_of_free_inodes, data_and_free_blocks_are_no_nodes, free_blocks_and_positions,
    free_inodes_are_somewhere, inodes_come_and_go_without_blocks, kept_pointers_keep_all_blocks,
    links_of_a_shaped_node_hold, lists_of_the_same_indices_say_the_same,
    only_allocable_blocks_are_used, room_is_somewhere, spots_have_no_damage, what_is_met_is_damage,
};
pub use spot::{Free, Spot};
pub use store::Store;

//! Laws of views that stand for trees: what a change at one node leaves, and what the room of a
//! store is in terms of a session's state. The functions have no effects.
#![tactic(auto)]

mod laws;

pub use laws::{
    a_point_gains_what_will_be_free, changes_at_one_node, changes_of_a_tree_add_up,
    dirty_positions_are_those_of_new_blocks, dropped_inodes, fits_by_free_blocks,
    fits_by_fresh_count, made_inodes, nodes_of_a_standing_view, numbers_are_free_where_inodes_are,
    room_is_left_where_three_are_free, set_heads, space_is_what_is_free, standing_with_links,
    views_stand_for_states,
};

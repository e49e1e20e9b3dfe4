//! Where the blocks of a node are after some of them moved: laws over views, without effects.
#![tactic(auto)]

mod laws;

pub use laws::{
    a_block_made_writable_changes_its_node, a_shaped_node_is_sound, a_way_made_new_makes_writable,
    blocks_are_where_pointers_lead, blocks_made_new_take_what_they_cost,
    blocks_of_a_sound_node_are_linked,
};

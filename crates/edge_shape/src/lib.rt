//! What a cut leaves of a node, and where its blocks move: laws over the views of a store.
//!
//! A node has the shape of one with some data blocks (`HasShape`) where its pointers lead to blocks
//! at the positions that these need, and nowhere else. `specs/` says what it is that pointers are
//! gone, that blocks move, and how a cut at an index goes through a node step by step; the
//! functions of `laws` say what shape the node has then.
#![tactic(auto)]

mod cut;
mod laws;

pub use cut::Cut;
pub use laws::{
    a_cut_changes_its_node, a_cut_goes_through_what_stays, a_cut_leaves_the_indices_before,
    a_layout_makes_a_shape, a_shape_is_of_members_alone, cut_pointers_leave_the_other_indices,
    gone_places_are_ranges, gone_pointers_leave_a_shape, moved_blocks_keep_the_shape,
    trees_of_a_shaped_node_are_sound, what_is_under_a_pointer_node_is_a_range,
};

//! How many positions a change makes dirty: laws over the views of a store.
//!
//! The fresh positions of a change are those that it makes dirty and that are not dirty yet. Each
//! needs a free block. The functions of `laws` count them for writes of data blocks and for cuts,
//! by forms and by chains, and say how the count of a change falls with each of its steps.
#![tactic(auto)]

mod laws;

pub use laws::{
    a_change_is_counted_by_what_it_names, a_change_that_fits_has_room_for_its_steps,
    a_cut_behind_a_write_adds_nothing, a_cut_needs_its_fresh_positions,
    a_cut_takes_no_more_than_it_needs, a_node_that_goes_whole_costs_nothing,
    a_step_keeps_other_nodes, a_step_takes_its_part_of_a_change,
    a_step_that_sets_no_pointer_keeps_nodes, a_write_and_a_cut_count_together,
    chains_of_a_node_count_together, positions_count_by_form, writes_make_their_chains_dirty,
};

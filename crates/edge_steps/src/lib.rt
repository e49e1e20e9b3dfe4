//! Laws of the steps of a session: each step of a tree leads to a tree that leaves room. The
//! functions have no effects; `specs/` has the rules of a session's state.
#![tactic(auto)]

mod laws;

pub use laws::{
    a_point_changes_no_plan, changes_list_their_blocks, fits_by_fresh_positions,
    freeing_dirties_three, freeing_finds_room, names_are_counted, nodes_are_set_number_by_number,
    runs_keep_trees, sessions_keep_their_rules, steps_keep_trees, steps_leave_room,
};

//! What a transaction point keeps of its disk, so that a cut of the power at any moment leaves the
//! last point or the one under way: laws over anchors, each a metaroot with all that hangs on it.
//! The functions have no effects.
#![tactic(auto)]

mod cuts;
mod points;
mod views;

pub use cuts::{
    an_image_that_opens_is_mounted, cuts_between_points_leave_the_last,
    cuts_inside_a_point_leave_one_of_two, the_shown_image_is_of_the_last_point,
};
pub use points::{
    a_flush_begins_a_point, a_flush_ends_a_point, a_mounted_volume_is_committed, calls_follow,
    free_places_are_not_needed, what_follows_keeps_points, what_follows_keeps_the_shown_point,
};
pub use views::{
    a_view_is_of_its_used_blocks, one_block_changes, one_inode_changes, what_used_places_tell,
};

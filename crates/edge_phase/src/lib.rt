//! The phases of a transaction point over a cache and its bitmap, and laws over what may be written
//! between two points.
#![tactic(auto)]

mod laws;
mod phase;

pub use laws::{
    a_tied_bitmap_may_follow, an_image_that_opens_has_its_tree, the_last_point_stays,
    the_next_point_is_on_the_disk, what_spares_the_last_point, writes_follow,
};
pub use phase::{commit, take_point};

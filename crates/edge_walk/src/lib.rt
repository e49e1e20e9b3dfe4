//! Walks along paths, in the tree that a store stands for: where a path leads, and what is there.
//! `specs/` has what is known of a number that a walk has come to.
#![tactic(auto)]

mod head;
mod spot;
mod walk;

pub use head::named_head;
pub use spot::{Spot, at_spot, place_at};
pub use walk::{Way, enter, locate, locate_through, reach, spot_at};

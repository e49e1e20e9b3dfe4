//! The judge of room: whether a change that a command plans fits, on a full volume once more after
//! a point. `specs/` says when a change is what an edit of the plan says.
#![tactic(auto)]

mod judge;

pub use judge::has_room;

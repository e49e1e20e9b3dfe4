//! Names put into directories and taken out, over a store that stands for a tree of files: what is
//! left of a command once it is known that nothing refuses it and that there is room.
#![tactic(auto)]

mod link;
mod make;
mod moves;
mod unname;

pub use link::add_name;
pub use make::make_node;
pub use moves::{Move, NamedNode, move_name};
pub use unname::{drop_node, remove_name};

//! What a volume is as one value, and what the parts of a command do to its store. `specs/` has the
//! definitions: when a volume stands for the state of a session, what it comes to over some points,
//! and the one relation of every command. `proofs/` has how parts follow one another.
#![tactic(auto)]

mod node;
mod point;
mod stop;

pub use node::node_head;
pub use point::take_point;
pub use stop::Stop;

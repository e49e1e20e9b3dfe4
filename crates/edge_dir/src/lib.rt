//! Directories over any store: the slots of one, a name looked up among them, and where a new one
//! goes. A directory's bytes are those of its data blocks, each of which is read once.
#![tactic(auto)]

mod block;
mod change;
mod clearing;
mod entries;
mod look;

pub use change::{place, replace};
pub use clearing::{blocks_when_cleared, clear};
pub use entries::{entry_at, is_empty, slots};
pub use look::{Found, Place, find, free_slot, look_up};

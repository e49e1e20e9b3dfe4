//! Laws of changes: what the calls over one file make of the tree that a store stands for. The
//! functions have no effects.
#![tactic(auto)]

mod laws;

pub use laws::files_are_written_and_sized;

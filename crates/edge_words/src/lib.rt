//! The words of the command line: which order they spell, and which of them names the image.
//! `specs/` has the grammar; `docs/COMMANDS.md` says the same in words.
#![tactic(auto)]

mod attached;
mod number;
mod options;
mod order;

pub use attached::{Attached, need};
pub use order::{BadWords, Order, one_order, read_words};

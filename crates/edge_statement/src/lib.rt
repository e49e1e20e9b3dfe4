//! The words and the texts of a statement in a table of cases, and how bytes are printed there.
//! `docs/TESTING.md` has the statements.
#![tactic(auto)]

mod text;
mod words;

pub use text::{byte, push_escaped, push_lines, unescaped};
pub use words::{number, number32, word};

//! Formatting: an image with an empty root directory, written so that a cut of the power leaves the
//! old image, no volume or the fresh one. `docs/FORMAT.md` has its bytes and the order of the
//! writes.
#![tactic(auto)]

mod formatter;
mod imaps;
mod nodes;
mod put;

pub use formatter::{FormatFault, format};

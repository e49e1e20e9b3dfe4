//! The program without its outside: the words, a script over the volume of an image, and the call
//! `edge`.
#![tactic(auto)]

mod format_command;
mod program;
mod report;
mod run_command;

pub use program::edge;
pub use report::{
    DAMAGED, DEVICE, DONE, GEOMETRY, LIMIT, MEMORY, NOT_A_VOLUME, Outcome, Report, SINK, SOURCE,
    WORDS, fault_line,
};

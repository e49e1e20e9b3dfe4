//! The text of a script: which command a line spells, and how a reply is written. `specs/` has the
//! grammar; `docs/COMMANDS.md` says the same in words. Nothing here takes memory.
#![tactic(auto)]

mod command;
mod flags;
mod hexadecimal;
mod laws;
mod number;
mod path;
mod reply;
mod verb;

pub use command::{BadLine, read_line};
pub use hexadecimal::read_hex;
pub use laws::{
    each_command_is_spelled, one_command, reads_what_is_spelled, spelled_commands_are_within_limits,
};
pub use number::read_number;
pub use path::{read_path, write_path};
pub use reply::{write_bad, write_reply};

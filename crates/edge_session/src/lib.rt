//! A session: the lines of a script, each answered by who answers commands, up to the end of the
//! script, a limit or the first fault.
#![tactic(auto)]

mod buffers;
mod ended;
mod lines;
mod reply;
mod serve;
mod turn;

pub use buffers::Buffers;
pub use ended::{Ended, How, Limit};
pub use lines::{LONGEST_LINE, LineReader, Next};
pub use serve::session;

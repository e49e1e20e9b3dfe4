//! A disk over a file of the host, the standard input and output as a source and a sink, a folder
//! of the host, and its clock. What they hold is told by no clause: these adapters are trusted.
#![tactic(auto)]

mod clock;
mod disk;
mod faults;
mod folder;
mod streams;
mod transfer;

pub use clock::HostClock;
pub use disk::HostDisk;
pub use folder::HostFolder;
pub use streams::{HostSink, HostSource};

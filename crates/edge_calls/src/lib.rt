//! Commands over any store: `Volume` answers each of them as the step of a plain tree of files
//! does. A command is a method, in the file of its kind; each ensures the one relation `Did`.
#![tactic(auto)]

mod ask;
mod descriptors;
mod directory;
mod handles;
mod link;
mod make;
mod open;
mod read;
mod rename;
mod resize;
mod session;
mod status;
mod unname;
mod vacant;
mod volume;
mod write;

pub use volume::Volume;

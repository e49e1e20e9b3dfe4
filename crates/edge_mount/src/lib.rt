//! Mounting: what a volume is, read off its disk through a cache, or the first reason why it is
//! none.
#![tactic(auto)]

mod bitmap;
mod fault;
mod live;
mod master;
mod rooms;
mod volume;

pub use fault::MountFault;
pub use volume::{Mounted, mount};

//! The disk, and two disks in memory.
#![tactic(auto)]

mod disk;
mod make;
mod memory;
mod slot;
mod sure;

pub use disk::{DeviceFault, Disk};
pub use memory::MemoryDisk;
pub use sure::SureDisk;

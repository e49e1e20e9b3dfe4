//! Where bytes, items of a folder and moments come from, and where bytes go to, with one of each in
//! memory.
#![tactic(auto)]

mod calls;
mod clock;
mod folder;
mod folder_item;
mod kept;
mod memory_clock;
mod memory_folder;
mod memory_sink;
mod memory_source;
mod sink;
mod source;

pub use clock::Clock;
pub use folder::{Folder, FolderFault, Item, ItemKind};
pub use folder_item::FolderItem;
pub use memory_clock::MemoryClock;
pub use memory_folder::MemoryFolder;
pub use memory_sink::MemorySink;
pub use memory_source::MemorySource;
pub use sink::{Sink, SinkFault, write_all};
pub use source::{Source, SourceFault};

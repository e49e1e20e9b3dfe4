//! Nodes as blocks: encode and decode. `docs/FORMAT.md` has the tables.
#![tactic(auto)]

mod bits;
mod block;
mod change;
mod imap;
mod inode;
mod master;
mod metaroot;
mod pointer;
mod reading;
mod writing;

pub use bits::{bit_of, bits_of, entry_of};
pub use change::{change_entry, change_head, change_pointer, change_sequence};
pub use edge_base::{Head, Master, Metaroot, NodeFault, NodeType};
pub use imap::{decode_imap, encode_imap};
pub use inode::{decode_inode, encode_inode};
pub use master::{decode_master, encode_master};
pub use metaroot::{decode_metaroot, encode_metaroot};
pub use pointer::{decode_pointer, encode_pointer};
pub use writing::seal;

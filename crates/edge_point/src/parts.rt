use edge_base::{Damage, Master, Metaroot};
use edge_cache::Cache;
use edge_disk::Disk;
use edge_imap::Imap;

/// What a store keeps over its disk.
#[derive(Drop)]
pub struct Parts<D: Disk> {
    pub(crate) cache: Cache<D>,
    pub(crate) imap: Imap,
    pub(crate) master: Master,
    // The metaroot of the last point, and the block that it lies in.
    pub(crate) place: u32,
    pub(crate) root: Metaroot,
    pub(crate) points: u64,
    // How many numbers have no inode, and the block to try next where one is taken.
    pub(crate) numbers: u32,
    pub(crate) next: u32,
    pub(crate) live: bool,
    // A fault cut a point short.
    pub(crate) torn: bool,
    pub(crate) damage: Option<Damage>,
    // Room for a block.
    pub(crate) block: Vec<u8>,
}

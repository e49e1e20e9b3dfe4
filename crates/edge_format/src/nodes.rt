ghost use Rattle.std.specs.Prelude.{◌≡◌, ◌<◌, length, Ok};
ghost use Rattle.edge_base.specs.layout.Places.{imap_nodes_of};
ghost use Rattle.edge_base.specs.layout.Spelling.{master_in};
ghost use Rattle.edge_image.specs.Formatted.{master_of, HasFirstMetaroot, HasFirstImap, HasEmptyRoot};

use edge_base::{Geometry, Head, Master, Metaroot, NodeType};
use edge_nodes::{encode_imap, encode_inode, encode_master, encode_metaroot};

// The bytes of the longest bitmaps of a metaroot and of an imap node, and the entries of the
// largest inode.
const MOST_BITS: usize = 4064;

const MOST_NODE_BITS: usize = 4080;

const MOST_ENTRIES: usize = 1016;

/// Writes the master over the whole of `out`.
pub fn fill_master(g: &Geometry, time: u32, out: &mut [u8])
    requires { length out.old ≡ g.now.block_size }
    ensures { master_in out.new ≡ Ok (master_of g.now time) }
{
    encode_master(&Master { geometry: *g, time }, out);
}

/// Writes the first metaroot over the whole of `out`: the root's place alone is used, or the first
/// of each pair of imap nodes is live.
pub fn fill_metaroot(g: &Geometry, out: &mut [u8])
    requires { length out.old ≡ g.now.block_size }
    ensures { HasFirstMetaroot g.now out.new }
{
    let request = g.request();
    let root = Metaroot {
        sequence: 1,
        free_blocks: g.allocable(),
        free_inodes: request.inodes - 1,
        next: g.first_allocable(),
    };
    let mut bits = [0; MOST_BITS];
    bits[0] = u8::from(g.is_inline());
    encode_metaroot(g, &root, &bits[..request.block_size as usize - 32], out);
}

/// Writes imap node `node` over the whole of `out`: the root's place alone is used.
pub fn fill_imap(g: &Geometry, node: u32, out: &mut [u8])
    requires in_range { node < imap_nodes_of g.now }
    requires whole { length out.old ≡ g.now.block_size }
    ensures { HasFirstImap g.now node out.new }
{
    let mut bits = [0; MOST_NODE_BITS];
    bits[0] = u8::from(node == 0);
    encode_imap(
        g,
        node,
        1,
        &bits[..g.request().block_size as usize - 16],
        out,
    );
}

/// Writes the inode of an empty root directory over the whole of `out`.
pub fn fill_root(g: &Geometry, out: &mut [u8])
    requires { length out.old ≡ g.now.block_size }
    ensures { HasEmptyRoot g.now out.new }
{
    let head = Head {
        size: 0,
        kind: NodeType::Directory,
        links: 1,
        parent: 0,
    };
    let count = (g.request().block_size as usize - 32) / 4;
    encode_inode(g, 1, &head, &[0; MOST_ENTRIES][..count], out);
}

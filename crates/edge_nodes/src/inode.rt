ghost use Rattle.std.specs.Prelude.{◌≡◌, ◌≤◌, ℕ, List, length, IfOk};
ghost use Rattle.edge_base.specs.layout.Bytes.{number_at, numbers_at};
ghost use Rattle.edge_base.specs.layout.Places.{entries_of};
ghost use Rattle.edge_base.specs.layout.Spelling.{inode_in, head_fields, number_of_kind, SpellsInode};
ghost use Rattle.edge_base.specs.declared.node.Head.{Head};
ghost use Rattle.edge_base.specs.declared.node.NodeType.TheVariants.{File};
ghost use Rattle.edge_nodes.specs.Writing.{ChangesOnly};

use crate::block::block_size;
use crate::reading::{check_header, u16_at, u32_at, u64_at};
use crate::writing::{put_header, put_numbers, put_u16, put_u32, put_u64, seal};
use edge_base::{Geometry, Head, NodeFault, NodeType};

// `INOD`
const INODE: u32 = 0x494e_4f44;

/// Writes an inode with its entries over the whole of `out`.
pub fn encode_inode(g: &Geometry, sequence: u64, head: &Head, entries: &[u32], out: &mut [u8])
    requires whole { length out.old ≡ g.now.block_size }
    requires count { length entries.now ≡ entries_of g.now }
    requires some_link { 1 ≤ head.now.links }
    requires no_parent { head.now.kind ≡ File → head.now.parent ≡ 0 }
    ensures { SpellsInode g.now sequence head.now entries.now out.new }
{
    prove!(out.len() == block_size(g));
    put_numbers(out, 32, entries);
    put_header(out, INODE, sequence);
    put_head(out, head);
    seal(out);
}

/// The head of the inode that a whole block spells, or the first thing that is wrong with it. Its
/// entries are read in place, by `entry_of` from 32 on.
pub fn decode_inode(g: &Geometry, b: &[u8]) -> Result<Head, NodeFault>
    requires { length b.now ≡ g.now.block_size }
    ensures exact { result ≡ inode_in b.now }
    ensures spelled { IfOk result (λ head. SpellsInode g.now (number_at 8 8 b.now) head
        (numbers_at 32 (entries_of g.now) b.now) b.now) }
    ensures only { (sequence : ℕ) (head : Head) (entries : List ℕ)
        → SpellsInode g.now sequence head entries b.now → result ≡ Ok head }
{
    prove!(b.len() == block_size(g));
    read_inode(b)
}

// Tests the fields in rising order.
#[tactic(auto, unfolding(edge_base::specs::layout::Spelling::inode_in, edge_base::specs::layout::Spelling::head_fields))]
fn read_inode(b: &[u8]) -> Result<Head, NodeFault>
    requires { 32 ≤ length b.now }
    ensures { result ≡ inode_in b.now }
{
    check_header(b, INODE)?;
    let kind = match u16_at(b, 24) {
        1 => NodeType::File,
        2 => NodeType::Directory,
        _ => return Err(NodeFault::WrongField(24)),
    };
    let links = u16_at(b, 26);
    if links == 0 {
        return Err(NodeFault::WrongField(26));
    }
    let parent = u32_at(b, 28);
    if kind == NodeType::File && parent != 0 {
        return Err(NodeFault::WrongField(28));
    }
    let size = u64_at(b, 16);
    Ok(Head {
        size,
        kind,
        links,
        parent,
    })
}

// Writes the fields of a head.
pub(crate) fn put_head(b: &mut [u8], head: &Head)
    requires { 32 ≤ length b.old }
    ensures size { number_at 16 8 b.new ≡ head.now.size }
    ensures mode { number_at 24 2 b.new ≡ number_of_kind head.now.kind }
    ensures links { number_at 26 2 b.new ≡ head.now.links }
    ensures parent { number_at 28 4 b.new ≡ head.now.parent }
    ensures kept { ChangesOnly 16 32 b.old b.new }
{
    put_u64(b, 16, head.size);
    put_u16(b, 24, mode_of(head.kind));
    put_u16(b, 26, head.links);
    put_u32(b, 28, head.parent);
}

fn mode_of(kind: NodeType) -> u16
    ensures { result ≡ number_of_kind kind }
{
    match kind {
        NodeType::File => 1,
        NodeType::Directory => 2,
    }
}

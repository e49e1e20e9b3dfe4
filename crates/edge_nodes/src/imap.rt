ghost use Rattle.std.specs.Prelude.{◌≡◌, ◌+◌, ◌*◌, ◌<◌, ◌≤◌, ℕ, List, false, length, drop, Ok, IfOk};
ghost use Rattle.edge_base.specs.layout.Bytes.{bit_in};
ghost use Rattle.edge_base.specs.layout.Places.{imap_nodes_of};
ghost use Rattle.edge_base.specs.layout.Spelling.{bits_of_node, imap_in, SpellsImap};

use crate::bits::are_clear;
use crate::block::block_size;
use crate::reading::{check_header, u64_at};
use crate::writing::{put_header, put_tail, seal};
use edge_base::{Geometry, NodeFault};

// `IMAP`
const IMAP: u32 = 0x494d_4150;

/// Writes imap node `node` with the bytes of its bits over the whole of `out`.
pub fn encode_imap(g: &Geometry, node: u32, sequence: u64, bits: &[u8], out: &mut [u8])
    requires in_range { node < imap_nodes_of g.now }
    requires whole { length out.old ≡ g.now.block_size }
    requires bitmap { length bits.now + 16 ≡ g.now.block_size }
    requires unused { (i : ℕ) → bits_of_node g.now node ≤ i
        → i < 8 * length bits.now → bit_in 0 bits.now i ≡ false }
    ensures { SpellsImap g.now node sequence bits.now out.new }
{
    prove!(out.len() == block_size(g));
    put_tail(out, 16, bits);
    put_header(out, IMAP, sequence);
    seal(out);
}

/// The sequence number of imap node `node` that a whole block spells, or the first thing that is
/// wrong with it. Its bits are read in place, by `bits_of` from 16 on.
pub fn decode_imap(g: &Geometry, node: u32, b: &[u8]) -> Result<u64, NodeFault>
    requires in_range { node < imap_nodes_of g.now }
    requires whole { length b.now ≡ g.now.block_size }
    ensures exact { result ≡ imap_in g.now node b.now }
    ensures spelled { IfOk result
        (λ sequence. SpellsImap g.now node sequence (drop 16 b.now) b.now) }
    ensures only { (sequence : ℕ) (bits : List ℕ)
        → SpellsImap g.now node sequence bits b.now → result ≡ Ok sequence }
{
    prove!(b.len() == block_size(g));
    read_imap(g, node, b)
}

// Tests the fields in rising order.
#[tactic(auto, unfolding(edge_base::specs::layout::Spelling::imap_in))]
fn read_imap(g: &Geometry, node: u32, b: &[u8]) -> Result<u64, NodeFault>
    requires in_range { node < imap_nodes_of g.now }
    requires least { 16 ≤ length b.now }
    requires most { length b.now ≤ 4096 }
    ensures { result ≡ imap_in g.now node b.now }
{
    check_header(b, IMAP)?;
    if !are_clear(b, 16, g.bits_of_node(node)) {
        return Err(NodeFault::WrongField(16));
    }
    Ok(u64_at(b, 8))
}

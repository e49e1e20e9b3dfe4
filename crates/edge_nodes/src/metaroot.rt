ghost use Rattle.std.specs.Prelude.{◌≡◌, ◌+◌, ◌*◌, ◌<◌, ◌≤◌, ℕ, List, false, length, drop, IfOk};
ghost use Rattle.edge_base.specs.layout.Bytes.{number_at, bit_in};
ghost use Rattle.edge_base.specs.layout.Places.{root_bits_of};
ghost use Rattle.edge_nodes.specs.Writing.{ChangesOnly};
ghost use Rattle.edge_base.specs.layout.Spelling.{metaroot_in, metaroot_fields, SpellsMetaroot};
ghost use Rattle.edge_base.specs.declared.node.Metaroot.{Metaroot};

use crate::bits::are_clear;
use crate::block::block_size;
use crate::reading::{check_header, u32_at, u64_at};
use crate::writing::{put_header, put_tail, put_u32, seal};
use edge_base::{Geometry, Metaroot, NodeFault};

// `META`
const METAROOT: u32 = 0x4d45_5441;

/// Writes a metaroot with the bytes of its bitmap over the whole of `out`.
pub fn encode_metaroot(g: &Geometry, r: &Metaroot, bits: &[u8], out: &mut [u8])
    requires whole { length out.old ≡ g.now.block_size }
    requires bitmap { length bits.now + 32 ≡ g.now.block_size }
    requires unused { (i : ℕ) → root_bits_of g.now ≤ i → i < 8 * length bits.now
        → bit_in 0 bits.now i ≡ false }
    ensures { SpellsMetaroot g.now r.now bits.now out.new }
{
    prove!(out.len() == block_size(g));
    put_tail(out, 32, bits);
    put_header(out, METAROOT, r.sequence);
    put_counts(out, r);
    seal(out);
}

/// The metaroot that a whole block spells, or the first thing that is wrong with it. Its bitmap is
/// read in place, by `bits_of` from 32 on.
pub fn decode_metaroot(g: &Geometry, b: &[u8]) -> Result<Metaroot, NodeFault>
    requires { length b.now ≡ g.now.block_size }
    ensures exact { result ≡ metaroot_in g.now b.now }
    ensures spelled { IfOk result (λ r. SpellsMetaroot g.now r (drop 32 b.now) b.now) }
    ensures only { (r : Metaroot) (bits : List ℕ) → SpellsMetaroot g.now r bits b.now
        → result ≡ Ok r }
{
    prove!(b.len() == block_size(g));
    read_metaroot(g, b)
}

// Tests the fields in rising order.
#[tactic(auto, unfolding(edge_base::specs::layout::Spelling::metaroot_in, edge_base::specs::layout::Spelling::metaroot_fields))]
fn read_metaroot(g: &Geometry, b: &[u8]) -> Result<Metaroot, NodeFault>
    requires least { 32 ≤ length b.now }
    requires most { length b.now ≤ 4096 }
    ensures { result ≡ metaroot_in g.now b.now }
{
    check_header(b, METAROOT)?;
    if u32_at(b, 28) != 0 {
        return Err(NodeFault::WrongField(28));
    }
    if !are_clear(b, 32, g.root_bits()) {
        return Err(NodeFault::WrongField(32));
    }
    Ok(Metaroot {
        sequence: u64_at(b, 8),
        free_blocks: u32_at(b, 16),
        free_inodes: u32_at(b, 20),
        next: u32_at(b, 24),
    })
}

// Writes the counts of a metaroot, and zeros up to its bitmap.
fn put_counts(b: &mut [u8], r: &Metaroot)
    requires { 32 ≤ length b.old }
    ensures free_blocks { number_at 16 4 b.new ≡ r.now.free_blocks }
    ensures free_inodes { number_at 20 4 b.new ≡ r.now.free_inodes }
    ensures next { number_at 24 4 b.new ≡ r.now.next }
    ensures reserved { number_at 28 4 b.new ≡ 0 }
    ensures kept { ChangesOnly 16 32 b.old b.new }
{
    put_u32(b, 16, r.free_blocks);
    put_u32(b, 20, r.free_inodes);
    put_u32(b, 24, r.next);
    put_u32(b, 28, 0);
}

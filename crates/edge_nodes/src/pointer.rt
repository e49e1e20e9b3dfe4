ghost use Rattle.std.specs.Prelude.{◌≡◌, ◌+◌, ◌<◌, ◌≤◌, ℕ, List, length, Ok, IfOk};
ghost use Rattle.edge_base.specs.layout.Bytes.{number_at, numbers_at};
ghost use Rattle.edge_base.specs.layout.Places.{pointers_of};
ghost use Rattle.edge_base.specs.layout.Spelling.{pointer_in, pointer_signature, SpellsPointer};
ghost use Rattle.edge_nodes.specs.Pointers.{owner_told};

use crate::block::block_size;
use crate::reading::{check_header, u32_at};
use crate::writing::{put_header, put_numbers, put_u32, seal};
use edge_base::{Geometry, NodeFault};

// `INDI` and `DBLI`
const INDIRECT: u32 = 0x494e_4449;

const DOUBLE_INDIRECT: u32 = 0x4442_4c49;

/// Writes a pointer node, an indirect or a double-indirect one, over the whole of `out`. Its owner
/// is the number of the inode that has it.
pub fn encode_pointer(
    g: &Geometry,
    double: bool,
    sequence: u64,
    owner: u32,
    entries: &[u32],
    out: &mut [u8],
)
    requires whole { length out.old ≡ g.now.block_size }
    requires count { length entries.now ≡ pointers_of g.now }
    requires owner_from { 2 ≤ owner }
    requires owner_below { owner < 2 + g.now.inodes }
    ensures { SpellsPointer g.now double sequence owner entries.now out.new }
{
    prove!(out.len() == block_size(g));
    put_numbers(out, 20, entries);
    put_header(out, signature_of(double), sequence);
    put_u32(out, 16, owner);
    seal(out);
}

/// The owner of the pointer node that a whole block spells, or the first thing that is wrong with
/// it. Its entries are read in place, by `entry_of` from 20 on.
pub fn decode_pointer(g: &Geometry, double: bool, b: &[u8]) -> Result<u32, NodeFault>
    requires { length b.now ≡ g.now.block_size }
    ensures exact { result ≡ owner_told (pointer_in g.now double b.now) }
    ensures spelled { IfOk result (λ owner. SpellsPointer g.now double (number_at 8 8 b.now) owner
        (numbers_at 20 (pointers_of g.now) b.now) b.now) }
    ensures only { (sequence owner : ℕ) (entries : List ℕ)
        → SpellsPointer g.now double sequence owner entries b.now → result ≡ Ok owner }
{
    prove!(b.len() == block_size(g));
    read_pointer(g, double, b)
}

// Tests the fields in rising order.
#[tactic(auto, unfolding(edge_base::specs::layout::Spelling::pointer_in, edge_base::specs::layout::Spelling::pointer_fields))]
fn read_pointer(g: &Geometry, double: bool, b: &[u8]) -> Result<u32, NodeFault>
    requires { 32 ≤ length b.now }
    ensures { result ≡ owner_told (pointer_in g.now double b.now) }
{
    check_header(b, signature_of(double))?;
    let owner = u32_at(b, 16);
    if owner < 2 || owner >= 2 + g.request().inodes {
        return Err(NodeFault::WrongField(16));
    }
    Ok(owner)
}

fn signature_of(double: bool) -> u32
    ensures { result ≡ pointer_signature double }
{
    if double { DOUBLE_INDIRECT } else { INDIRECT }
}

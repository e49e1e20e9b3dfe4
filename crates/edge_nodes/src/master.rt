ghost use Rattle.std.specs.Prelude.{◌≡◌, ◌≤◌, length, IsTrue, IfOk};
ghost use Rattle.edge_base.specs.declared.node.Master.{Master};
ghost use Rattle.edge_base.specs.layout.Sizes.{is_block_size};
ghost use Rattle.edge_nodes.specs.Writing.{ChangesOnly};
ghost use Rattle.edge_base.specs.layout.Spelling.{size_of_log, request_in, master_in, SpellsMaster};

use crate::block::block_size;
use crate::reading::{byte_at, check_header, is_zero_from, u16_at, u32_at, u64_at};
use crate::writing::{put_header, put_u8, put_u16, put_u32, put_u64, put_zeros, seal};
use edge_base::{Geometry, Master, NodeFault, Request};

// `MAST`
const MASTER: u32 = 0x4d41_5354;

/// Writes a master over the whole of `out`.
pub fn encode_master(m: &Master, out: &mut [u8])
    requires { length out.old ≡ m.now.geometry.block_size }
    ensures { SpellsMaster m.now out.new }
{
    prove!(out.len() == block_size(&m.geometry));
    put_zeros(out, 48);
    put_header(out, MASTER, 0);
    put_u32(out, 16, 1);
    put_u64(out, 20, 0);
    put_u32(out, 28, m.time);
    put_geometry(out, &m.geometry);
    put_u8(out, 47, 1);
    seal(out);
}

/// The master that a whole block spells, or the first thing that is wrong with it.
pub fn decode_master(b: &[u8]) -> Result<Master, NodeFault>
    requires { IsTrue (is_block_size (length b.now)) }
    ensures exact { result ≡ master_in b.now }
    ensures spelled { IfOk result (λ m. SpellsMaster m b.now) }
    ensures only { (m : Master) → SpellsMaster m b.now → result ≡ Ok m }
{
    read_master(b)
}

// Tests the fields in rising order.
#[tactic(auto, unfolding(edge_base::specs::layout::Spelling::master_in))]
fn read_master(b: &[u8]) -> Result<Master, NodeFault>
    requires { 48 ≤ length b.now }
    ensures { result ≡ master_in b.now }
{
    check_header(b, MASTER)?;
    if u64_at(b, 8) != 0 {
        return Err(NodeFault::WrongField(8));
    }
    if u32_at(b, 16) != 1 {
        return Err(NodeFault::WrongField(16));
    }
    if u64_at(b, 20) != 0 {
        return Err(NodeFault::WrongField(20));
    }
    let Ok(geometry) = Geometry::checked(request_of(b)) else {
        return Err(NodeFault::WrongField(32));
    };
    if byte_at(b, 47) != 1 {
        return Err(NodeFault::WrongField(47));
    }
    if !is_zero_from(b, 48) {
        return Err(NodeFault::WrongField(48));
    }
    let time = u32_at(b, 28);
    Ok(Master { geometry, time })
}

// The numbers of a geometry, whether or not they are one.
#[tactic(auto, unfolding(edge_base::specs::layout::Spelling::request_in))]
fn request_of(b: &[u8]) -> Request
    requires { 48 ≤ length b.now }
    ensures { result ≡ request_in b.now }
{
    Request {
        block_size: size_of(byte_at(b, 46)),
        blocks: u32_at(b, 36),
        inodes: u32_at(b, 32),
        name_max: u32::from(u16_at(b, 40)),
        direct: u32::from(u16_at(b, 42)),
        indirect: u32::from(u16_at(b, 44)),
    }
}

// The block size of a logarithm, and 0 where it is none.
fn size_of(log: u8) -> u32
    ensures { result ≡ size_of_log log }
{
    match log {
        9 => 512,
        10 => 1024,
        11 => 2048,
        12 => 4096,
        _ => 0,
    }
}

// Writes the numbers of a geometry.
#[tactic(auto, unfolding(edge_base::specs::layout::Spelling::request_in))]
fn put_geometry(b: &mut [u8], g: &Geometry)
    requires { 48 ≤ length b.old }
    ensures request { request_in b.new ≡ g.now }
    ensures kept { ChangesOnly 32 47 b.old b.new }
{
    let r = g.request();
    put_u32(b, 32, r.inodes);
    put_u32(b, 36, r.blocks);
    put_u16(b, 40, r.name_max as u16);
    put_u16(b, 42, r.direct as u16);
    put_u16(b, 44, r.indirect as u16);
    put_u8(b, 46, log_of(r.block_size));
}

// The logarithm of a block size.
fn log_of(block_size: u32) -> u8
    requires { IsTrue (is_block_size block_size) }
    ensures { size_of_log result ≡ block_size }
{
    match block_size {
        512 => 9,
        1024 => 10,
        2048 => 11,
        _ => 12,
    }
}

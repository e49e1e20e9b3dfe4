ghost use Rattle.std.specs.Prelude.{◌≡◌, ℕ, ◌+◌, ◌*◌, ◌<◌, ◌≤◌, length, take, drop, slice_index};
ghost use Rattle.edge_base.specs.layout.Bytes.{number_at, numbers_at, signature_in};
ghost use Rattle.edge_nodes.specs.Writing.{ChangesOnly, IsSealed};

use byteorder::{BigEndian, ByteOrder, LittleEndian};
use edge_word::check_word;

pub(crate) fn put_u8(b: &mut [u8], at: usize, x: u8)
    requires { at < length b.old }
    ensures here { number_at at 1 b.new ≡ x }
    ensures kept { ChangesOnly at (at + 1) b.old b.new }
{
    b[at] = x;
}

pub(crate) fn put_u16(b: &mut [u8], at: usize, x: u16)
    requires { at + 2 ≤ length b.old }
    ensures here { number_at at 2 b.new ≡ x }
    ensures kept { ChangesOnly at (at + 2) b.old b.new }
{
    LittleEndian::write_u16(&mut b[at..], x);
}

pub(crate) fn put_u32(b: &mut [u8], at: usize, x: u32)
    requires { at + 4 ≤ length b.old }
    ensures here { number_at at 4 b.new ≡ x }
    ensures kept { ChangesOnly at (at + 4) b.old b.new }
{
    LittleEndian::write_u32(&mut b[at..], x);
}

pub(crate) fn put_u64(b: &mut [u8], at: usize, x: u64)
    requires { at + 8 ≤ length b.old }
    ensures here { number_at at 8 b.new ≡ x }
    ensures kept { ChangesOnly at (at + 8) b.old b.new }
{
    LittleEndian::write_u64(&mut b[at..], x);
}

fn put_signature(b: &mut [u8], kind: u32)
    requires { 4 ≤ length b.old }
    ensures here { signature_in b.new ≡ kind }
    ensures kept { ChangesOnly 0 4 b.old b.new }
{
    BigEndian::write_u32(b, kind);
}

/// Writes the signature of a node's kind and its sequence number. The check word between them comes
/// last, by `seal`.
pub(crate) fn put_header(b: &mut [u8], kind: u32, sequence: u64)
    requires { 16 ≤ length b.old }
    ensures signature { signature_in b.new ≡ kind }
    ensures sequence { number_at 8 8 b.new ≡ sequence }
    ensures kept { ChangesOnly 0 16 b.old b.new }
{
    put_signature(b, kind);
    put_u64(b, 8, sequence);
}

/// Writes zeros from a place to the block's end.
pub(crate) fn put_zeros(b: &mut [u8], from: usize)
    requires { from ≤ length b.old }
    ensures zeros { (k : ℕ) → from ≤ k → slice_index b.new k ≡ 0 }
    ensures front { take from b.new ≡ take from b.old }
{
    b[from..].fill(0);
}

/// Writes bytes from a place to the block's end.
pub(crate) fn put_tail(b: &mut [u8], from: usize, tail: &[u8])
    requires { from + length tail.now ≡ length b.old }
    ensures tail { drop from b.new ≡ tail.now }
    ensures front { take from b.new ≡ take from b.old }
{
    b[from..].copy_from_slice(tail);
}

/// Writes numbers of four bytes from a place to the block's end.
pub(crate) fn put_numbers(b: &mut [u8], from: usize, numbers: &[u32])
    requires { from + 4 * length numbers.now ≡ length b.old }
    ensures numbers { numbers_at from (length numbers.now) b.new ≡ numbers.now }
    ensures front { take from b.new ≡ take from b.old }
{
    LittleEndian::write_u32_into(numbers, &mut b[from..]);
}

/// Puts the check word into bytes 4 to 7 and changes nothing else.
pub fn seal(b: &mut [u8])
    requires { 8 ≤ length b.old }
    ensures { IsSealed b.old b.new }
{
    let word = check_word(&b[8..]);
    put_u32(b, 4, word);
}

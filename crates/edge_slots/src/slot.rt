ghost use Rattle.std.specs.Prelude.{◌≡◌, ◌≤◌, ◌+◌, ◌==◌, ◌&&◌, ◌||◌, not, nat_le, nat_lt, false, length, IfOk, OnErr, Some};
ghost use Rattle.std.specs.List.{list_all, list_any, position_or_len};
ghost use Rattle.edge_base.specs.declared.geometry.Request.{Request};
ghost use Rattle.edge_base.specs.tree.Slots.{is_bad_name, slot_bytes};
ghost use Rattle.edge_slots.specs.Slot.{IsSlot, IsWrong, entry_of};

use byteorder::{ByteOrder, LittleEndian};
use edge_base::Geometry;

/// A filled slot: the name, lent from its bytes, and the number of the node that it names.
#[derive(Clone, Copy, Debug)]
pub struct Entry<'a> {
    pub name: &'a [u8],
    pub number: u32,
}

/// A slot that is neither empty nor filled as one may be.
#[derive(Clone, Copy, Debug, PartialEq, Eq)]
pub struct WrongSlot;

/// The bytes of the widest slot.
pub const SLOT_MOST: usize = 256;

/// The bytes of a slot: those of the number, and room for the longest name.
pub fn slot_width(g: &Geometry) -> usize
    ensures width { result ≡ 4 + g.now.name_max }
    ensures least { 16 ≤ result }
    ensures most { result ≤ SLOT_MOST }
{
    4 + g.request().name_max as usize
}

/// What the bytes of a slot say: an entry, or None where it is empty.
pub fn read_slot<'a>(g: &Geometry, bytes: &'a [u8]) -> Result<Option<Entry<'a>>, WrongSlot>
    requires width { length bytes.now ≡ 4 + g.now.name_max }
    ensures slot { IfOk result (IsSlot g.now bytes.now) }
    ensures wrong { OnErr result (IsWrong g.now bytes.now) }
{
    let _within_limits = g.request();
    let (number, text) = bytes.split_at(4);
    let number = LittleEndian::read_u32(number);
    let (name, rest) = text.split_at(first_zero(text));
    if !is_zero(rest) {
        return Err(WrongSlot);
    }
    if number == 0 && name.is_empty() {
        return Ok(None);
    }
    if is_bad(g, number, name) {
        return Err(WrongSlot);
    }
    Ok(Some(Entry { name, number }))
}

/// Writes the bytes of a slot with this name and number.
pub fn spell_slot(name: &[u8], number: u32, bytes: &mut [u8])
    requires room { 4 + length name.now ≤ length bytes.old }
    ensures { (g : Request) → length bytes.old ≡ 4 + g.name_max
        → bytes.new ≡ slot_bytes g (Some (entry_of name.now number)) }
{
    bytes.fill(0);
    LittleEndian::write_u32(bytes, number);
    bytes[4..4 + name.len()].copy_from_slice(name);
}

// The place of the first zero, or the end.
fn first_zero(text: &[u8]) -> usize
    ensures place { result ≡ position_or_len (λ b. b == 0) text.now }
    ensures within { result ≤ length text.now }
{
    text.iter().position(|b| *b == 0).unwrap_or(text.len())
}

// Whether each byte is zero.
fn is_zero(bytes: &[u8]) -> bool
    ensures { result ≡ list_all (λ b. b == 0) bytes.now }
{
    bytes.iter().all(|b| *b == 0)
}

// Whether no entry may have the number or the name, which has no zero.
fn is_bad(g: &Geometry, number: u32, name: &[u8]) -> bool
    requires { list_any (λ b. b == 0) name.now ≡ false }
    ensures { result ≡ not (nat_le 3 number && nat_lt number (2 + g.now.inodes))
        || (is_bad_name name.now || list_any (λ b. b == 47) name.now) }
{
    number < 3
        || number >= 2 + g.request().inodes
        || matches!(name, [] | [b'.'] | [b'.', b'.'])
        || name.contains(&b'/')
}

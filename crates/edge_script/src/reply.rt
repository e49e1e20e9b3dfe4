ghost use Rattle.std.specs.Prelude.{◌≡◌, ◌≤◌, ◌+◌, ◌*◌, ◌++◌, length, take, codes, decimal};
ghost use Rattle.edge_model.specs.Asked.{told_by};
ghost use Rattle.edge_script.specs.Replies.{number_of, letter_of, answer_text, bad_text, HoldsTold, status_text, room_text};
ghost use Rattle.edge_script.specs.Bytes.{hex_of, spelling_of};

use crate::path::write_path;
use edge_base::{NodeType, Refusal};
use edge_model::{Answer, Room, Status};
use itoa::Buffer;

/// Writes the reply of an answer, with its line feed, into the front of `out`, and tells its
/// length. `bytes` holds the bytes or the name that the answer tells, at most 4,096 and 252, and
/// `out` has at least 8,256 bytes.
pub fn write_reply(a: &Answer, bytes: &[u8], out: &mut [u8]) -> usize
    requires told { HoldsTold a.now bytes.now }
    requires room { 8256 ≤ length out.old }
    ensures inside { result ≤ length out.new }
    ensures text { take result out.new ≡ answer_text (told_by a.now bytes.now) }
{
    match a {
        Answer::Done => put(out, 0, b"ok\n"),
        Answer::Number(n) => {
            let end = put_ok(out, *n);
            put(out, end, b"\n")
        }
        Answer::Bytes(count) => put_data(out, &bytes[..*count as usize]),
        Answer::End => put(out, 0, b"end\n"),
        Answer::Entry { number, len } => put_entry(out, *number, &bytes[..*len as usize]),
        Answer::Stat(status) => put_status(out, status),
        Answer::Space(room) => put_room(out, room),
        Answer::No(refusal) => {
            let end = put(out, 0, b"no ");
            let end = put_number(out, end, u64::from(number_of(*refusal)));
            put(out, end, b"\n")
        }
    }
}

/// Writes the reply to a line that spells no command, as `write_reply` does.
pub fn write_bad(out: &mut [u8]) -> usize
    requires { 8256 ≤ length out.old }
    ensures inside { result ≤ length out.new }
    ensures text { take result out.new ≡ bad_text }
{
    put(out, 0, b"bad\n")
}

// The number that is printed of a refusal.
fn number_of(refusal: Refusal) -> u8
    ensures { result ≡ number_of refusal }
{
    refusal as u8
}

// The letter that is printed of a kind.
fn letter_of(kind: NodeType) -> &'static [u8]
    ensures { result.now ≡ letter_of kind }
{
    match kind {
        NodeType::File => b"f",
        NodeType::Directory => b"d",
    }
}

// Writes a text from a place on, and tells where it ends.
fn put(out: &mut [u8], at: usize, text: &[u8]) -> usize
    requires { at + length text.now ≤ length out.old }
    ensures end { result ≡ at + length text.now }
    ensures text { take result out.new ≡ take at out.old ++ text.now }
{
    let end = at + text.len();
    out[at..end].copy_from_slice(text);
    end
}

// Writes a number, which has at most 20 digits.
fn put_number(out: &mut [u8], at: usize, n: u64) -> usize
    requires { at + 20 ≤ length out.old }
    ensures end { result ≤ at + 20 }
    ensures text { take result out.new ≡ take at out.old ++ decimal n }
{
    let mut digits = Buffer::new();
    put(out, at, digits.format(n).as_bytes())
}

// Writes `ok` and a number.
fn put_ok(out: &mut [u8], n: u64) -> usize
    requires { 23 ≤ length out.old }
    ensures end { result ≤ 23 }
    ensures text { take result out.new ≡ codes "ok " ++ decimal n }
{
    let end = put(out, 0, b"ok ");
    put_number(out, end, n)
}

// Writes a space and a number.
fn put_next(out: &mut [u8], at: usize, n: u64) -> usize
    requires { at + 21 ≤ length out.old }
    ensures end { result ≤ at + 21 }
    ensures text { take result out.new ≡ take at out.old ++ codes " " ++ decimal n }
{
    let end = put(out, at, b" ");
    put_number(out, end, n)
}

// Writes the reply that tells bytes.
fn put_data(out: &mut [u8], bytes: &[u8]) -> usize
    requires few { length bytes.now ≤ 4096 }
    requires room { 8256 ≤ length out.old }
    ensures end { result ≤ length out.new }
    ensures text { take result out.new ≡ codes "data " ++ hex_of bytes.now ++ codes "\n" }
{
    let at = put(out, 0, b"data ");
    let end = put_hex(out, at, bytes);
    put(out, end, b"\n")
}

// Writes two digits for each byte, for which there is exactly room in the part.
fn put_hex(out: &mut [u8], at: usize, bytes: &[u8]) -> usize
    requires { at + 2 * length bytes.now ≤ length out.old }
    ensures end { result ≡ at + 2 * length bytes.now }
    ensures text { take result out.new ≡ take at out.old ++ hex_of bytes.now }
{
    let end = at + 2 * bytes.len();
    let _ = hex::encode_to_slice(bytes, &mut out[at..end]);
    end
}

// Writes the reply that tells an entry.
fn put_entry(out: &mut [u8], number: u32, name: &[u8]) -> usize
    requires few { length name.now ≤ 252 }
    requires room { 8256 ≤ length out.old }
    ensures end { result ≤ length out.new }
    ensures text { take result out.new
        ≡ codes "ok " ++ decimal number ++ codes " " ++ spelling_of name.now ++ codes "\n" }
{
    let end = put_ok(out, u64::from(number));
    let at = put(out, end, b" ");
    let end = at + write_path(name, &mut out[at..]);
    put(out, end, b"\n")
}

// Writes the reply that tells a node.
fn put_status(out: &mut [u8], status: &Status) -> usize
    requires { 8256 ≤ length out.old }
    ensures end { result ≤ length out.new }
    ensures text { take result out.new ≡ status_text status.now }
{
    let end = put_ok(out, u64::from(status.number));
    let end = put(out, end, b" ");
    let end = put(out, end, letter_of(status.kind));
    let end = put_next(out, end, status.size);
    let end = put_next(out, end, u64::from(status.links));
    put(out, end, b"\n")
}

// Writes the reply that tells the room.
fn put_room(out: &mut [u8], room: &Room) -> usize
    requires { 8256 ≤ length out.old }
    ensures end { result ≤ length out.new }
    ensures text { take result out.new ≡ room_text room.entry.now }
{
    let end = put_ok(out, u64::from(room.now));
    let end = put_next(out, end, u64::from(room.after));
    let end = put_next(out, end, u64::from(room.blocks));
    let end = put_next(out, end, u64::from(room.free_inodes));
    let end = put_next(out, end, u64::from(room.inodes));
    put(out, end, b"\n")
}

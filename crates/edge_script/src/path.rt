ghost use Rattle.std.specs.Prelude.{◌≡◌, ◌≤◌, ◌*◌, ◌+◌, ◌++◌, ℕ, List, length, take, option_map, IfSome, IfNone};
ghost use Rattle.edge_script.specs.Bytes.{SpellsPath, path_in, bytes_in, is_plain, pair_value, not_zero, spelling_of, spelled_byte, front_in};

use crate::hexadecimal::{read_pair, write_pair};

// Whether a byte stands for itself.
fn is_plain(b: u8) -> bool
    ensures { result ≡ is_plain b }
{
    b'!' <= b && b <= b'~' && b != b'%'
}

// The byte of two digits that is not zero.
fn read_escaped(high: u8, low: u8) -> Option<u8>
    ensures { result ≡ not_zero (pair_value high low) }
{
    let b = read_pair(high, low)?;
    if b == 0 { None } else { Some(b) }
}

// The byte that the front of a text spells, and what is behind it.
fn read_front(text: &[u8]) -> Option<(u8, &[u8])>
    ensures { option_map (λ front. (front.0, front.1.now)) result ≡ front_in text.now }
{
    if let [b'%', high, low, behind @ ..] = text {
        let b = read_escaped(*high, *low)?;
        return Some((b, behind));
    }
    let (b, behind) = text.split_first()?;
    if is_plain(*b) {
        Some((*b, behind))
    } else {
        None
    }
}

/// Reads the spelling of a path into the front of `out`, and tells how many bytes it is. `None`
/// exactly where the word spells no path. `out` is at least as long as the word.
pub fn read_path(word: &[u8], out: &mut [u8]) -> Option<usize>
    requires { length word.now ≤ length out.old }
    ensures inside { IfSome result (λ n. n ≤ length word.now) }
    ensures exact { option_map (λ n. take n out.new) result ≡ path_in word.now }
    ensures spelled { IfSome result (λ n. SpellsPath word.now (take n out.new)) }
    ensures refused { IfNone result ((path : List ℕ) → ¬ (SpellsPath word.now path)) }
{
    if word.is_empty() {
        return None;
    }
    read_bytes(word, out)
}

// Reads the spelling of bytes into the front of `out`, and tells how many they are.
fn read_bytes(word: &[u8], out: &mut [u8]) -> Option<usize>
    requires { length word.now ≤ length out.old }
    ensures inside { IfSome result (λ n. n ≤ length word.now) }
    ensures exact { option_map (λ n. take n out.new) result ≡ bytes_in word.now }
{
    let mut len = 0;
    let mut rest = word;
    while !rest.is_empty() {
        let (b, behind) = read_front(rest)?;
        out[len] = b;
        len += 1;
        rest = behind;
    }
    Some(len)
}

/// Writes the spelling of a path or a name into the front of `out`, and tells its length: a byte
/// from 21 to 7e (hexadecimal) but `%` as it is, any other as `%` and two digits in lower case.
/// `out` is at least three times as long as the path.
pub fn write_path(path: &[u8], out: &mut [u8]) -> usize
    requires { 3 * length path.now ≤ length out.old }
    ensures inside { result ≤ 3 * length path.now }
    ensures spelled { take result out.new ≡ spelling_of path.now }
{
    let mut len = 0;
    for b in path {
        len = write_byte(*b, out, len);
    }
    len
}

// Writes the spelling of a byte from a place on, and tells where it ends.
fn write_byte(b: u8, out: &mut [u8], at: usize) -> usize
    requires { at + 3 ≤ length out.old }
    ensures inside { result ≤ at + 3 }
    ensures spelled { take result out.new ≡ take at out.old ++ spelled_byte b }
{
    if is_plain(b) {
        out[at] = b;
        return at + 1;
    }
    let (high, low) = write_pair(b);
    out[at] = b'%';
    out[at + 1] = high;
    out[at + 2] = low;
    at + 3
}

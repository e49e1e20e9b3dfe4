ghost use Rattle.std.specs.Prelude.{◌≡◌, ◌≤◌, ◌<◌, ◌*◌, ℕ, List, [], ◌∷◌, length, take, Some, None, option_map, if◌then◌else◌, IfSome, IfNone};
ghost use Rattle.edge_script.specs.Bytes.{SpellsHex, hex_in, byte_in, digit_value, pair_value, digit_of, pair_of, pairs_in};

// The most bytes of one read or write.
const MOST_BYTES: usize = 4096;

// The value of each digit, and 255 of every other byte.
static VALUES: [u8; 256] = [
    255, 255, 255, 255, 255, 255, 255, 255, 255, 255, 255, 255, 255, 255, 255, 255, 255, 255, 255,
    255, 255, 255, 255, 255, 255, 255, 255, 255, 255, 255, 255, 255, 255, 255, 255, 255, 255, 255,
    255, 255, 255, 255, 255, 255, 255, 255, 255, 255, 0, 1, 2, 3, 4, 5, 6, 7, 8, 9, 255, 255, 255,
    255, 255, 255, 255, 10, 11, 12, 13, 14, 15, 255, 255, 255, 255, 255, 255, 255, 255, 255, 255,
    255, 255, 255, 255, 255, 255, 255, 255, 255, 255, 255, 255, 255, 255, 255, 255, 10, 11, 12, 13,
    14, 15, 255, 255, 255, 255, 255, 255, 255, 255, 255, 255, 255, 255, 255, 255, 255, 255, 255,
    255, 255, 255, 255, 255, 255, 255, 255, 255, 255, 255, 255, 255, 255, 255, 255, 255, 255, 255,
    255, 255, 255, 255, 255, 255, 255, 255, 255, 255, 255, 255, 255, 255, 255, 255, 255, 255, 255,
    255, 255, 255, 255, 255, 255, 255, 255, 255, 255, 255, 255, 255, 255, 255, 255, 255, 255, 255,
    255, 255, 255, 255, 255, 255, 255, 255, 255, 255, 255, 255, 255, 255, 255, 255, 255, 255, 255,
    255, 255, 255, 255, 255, 255, 255, 255, 255, 255, 255, 255, 255, 255, 255, 255, 255, 255, 255,
    255, 255, 255, 255, 255, 255, 255, 255, 255, 255, 255, 255, 255, 255, 255, 255, 255, 255, 255,
    255, 255, 255, 255, 255, 255, 255, 255, 255, 255, 255, 255, 255, 255, 255, 255, 255, 255, 255,
    255, 255, 255,
];

static DIGITS: [u8; 16] = *b"0123456789abcdef";

// The value of a digit.
fn read_digit(b: u8) -> Option<u8>
    ensures value { result ≡ digit_value b }
    ensures small { IfSome result (λ d. d ≤ 15) }
{
    let value = VALUES[b as usize];
    if value > 15 { None } else { Some(value) }
}

/// The byte of two digits, the high one first.
pub(crate) fn read_pair(high: u8, low: u8) -> Option<u8>
    ensures { result ≡ pair_value high low }
{
    let high = read_digit(high)?;
    let low = read_digit(low)?;
    Some(16 * high + low)
}

/// A digit in lower case.
fn write_digit(n: u8) -> u8
    requires { n < 16 }
    ensures { result ≡ digit_of n }
{
    DIGITS[n as usize]
}

/// The two digits of a byte, in lower case.
pub(crate) fn write_pair(b: u8) -> (u8, u8)
    ensures { pair_of b ≡ result.0 ∷ result.1 ∷ [] }
{
    (write_digit(b / 16), write_digit(b % 16))
}

/// Reads a word of 2 to 8,192 hexadecimal digits, an even number of either case, into the front of
/// `out`, and tells how many bytes they are. `None` exactly where the word is not such a word.
/// `out` is at least as long as the word.
pub fn read_hex(word: &[u8], out: &mut [u8]) -> Option<usize>
    requires { length word.now ≤ length out.old }
    ensures inside { IfSome result (λ n. n ≤ length out.new) }
    ensures exact { option_map (λ n. take n out.new) result ≡ hex_in word.now }
    ensures spelled { IfSome result (λ n. SpellsHex word.now (take n out.new)) }
    ensures refused { IfNone result ((bytes : List ℕ) → ¬ (SpellsHex word.now bytes)) }
{
    let len = word.len() / 2;
    if word.len() % 2 != 0 || len == 0 || len > MOST_BYTES {
        return None;
    }
    if read_pairs(word, &mut out[..len]) {
        Some(len)
    } else {
        None
    }
}

// Reads pairs of digits into as many bytes, and tells whether all are such.
fn read_pairs(word: &[u8], out: &mut [u8]) -> bool
    requires { length word.now ≡ 2 * length out.old }
    ensures { (if result then Some out.new else None) ≡ pairs_in word.now }
{
    for i in 0..out.len() {
        match read_pair(word[2 * i], word[2 * i + 1]) {
            Some(b) => out[i] = b,
            None => return false,
        }
    }
    true
}

/// A word of two hexadecimal digits.
pub(crate) fn read_byte(word: &[u8]) -> Option<u8>
    ensures { result ≡ byte_in word.now }
{
    match word {
        [high, low] => read_pair(*high, *low),
        _ => None,
    }
}

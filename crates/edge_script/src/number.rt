ghost use Rattle.std.specs.Prelude.{◌≡◌, ◌≤◌, ℕ, IfSome, IfNone};
ghost use Rattle.edge_script.specs.Numbers.{SpellsWithin, number_in, greatest_u64, greatest_u32, with_digit, is_padded, read_on};

// The greatest number of 32 bits.
const GREATEST_U32: u64 = 4_294_967_295;

/// The number that a word spells: decimal digits with no sign and no zero in front, up to
/// 18,446,744,073,709,551,615. `None` exactly where the word is not such a number.
pub fn read_number(word: &[u8]) -> Option<u64>
    ensures exact { result ≡ number_in 0 greatest_u64 word.now }
    ensures spelled { IfSome result (λ n. SpellsWithin 0 greatest_u64 word.now n) }
    ensures refused { IfNone result ((n : ℕ) → ¬ (SpellsWithin 0 greatest_u64 word.now n)) }
{
    if is_padded(word) {
        return None;
    }
    digits(word)
}

// No digit, or a zero in front of others.
fn is_padded(word: &[u8]) -> bool
    ensures { result ≡ is_padded word.now }
{
    matches!(word, [] | [b'0', _, ..])
}

// The number that digits make, where it fits.
fn digits(word: &[u8]) -> Option<u64>
    ensures { result ≡ read_on 0 word.now }
{
    let mut n: u64 = 0;
    for b in word {
        n = with_digit(n, *b)?;
    }
    Some(n)
}

// The number behind which a further digit stands, where it is a digit and the number fits.
fn with_digit(n: u64, b: u8) -> Option<u64>
    ensures { result ≡ with_digit n b }
{
    if !b.is_ascii_digit() {
        return None;
    }
    n.checked_mul(10)?.checked_add(u64::from(b - b'0'))
}

/// The same within bounds.
pub(crate) fn number_between(word: &[u8], least: u64, most: u64) -> Option<u64>
    ensures exact { result ≡ number_in least most word.now }
    ensures bounded { IfSome result (λ n. n ≤ most) }
{
    let n = read_number(word)?;
    if least <= n && n <= most {
        Some(n)
    } else {
        None
    }
}

/// A number of 32 bits: a descriptor, or a mask.
pub(crate) fn read_u32(word: &[u8]) -> Option<u32>
    ensures { result ≡ number_in 0 greatest_u32 word.now }
{
    let n = number_between(word, 0, GREATEST_U32)?;
    Some(n as u32)
}

/// A count, from 1 on.
pub(crate) fn read_count(word: &[u8], most: u32) -> Option<u32>
    ensures { result ≡ number_in 1 most word.now }
{
    let n = number_between(word, 1, u64::from(most))?;
    Some(n as u32)
}

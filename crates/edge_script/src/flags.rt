ghost use Rattle.std.specs.Prelude.{◌≡◌};
ghost use Rattle.std.specs.List.{list_all};
ghost use Rattle.edge_script.specs.Flags.{flags_in, flags_of, is_flags, are_different, has_byte, flag_letters};

use edge_model::OpenFlags;

/// The flags that a word spells: one to six different letters, in any order.
pub fn read_flags(word: &[u8]) -> Option<OpenFlags>
    ensures { result ≡ flags_in word.now }
{
    if is_flags(word) {
        Some(flags_of(word))
    } else {
        None
    }
}

// Whether a word is such letters.
fn is_flags(word: &[u8]) -> bool
    ensures { result ≡ is_flags word.now }
{
    1 <= word.len() && word.len() <= 6 && are_letters(word) && are_different(word)
}

// Whether each byte is the letter of a flag.
fn are_letters(word: &[u8]) -> bool
    ensures { result ≡ list_all (λ b. has_byte b flag_letters) word.now }
{
    word.iter().all(|b| has(b"rwcxta", *b))
}

// Whether a word has a byte.
fn has(word: &[u8], b: u8) -> bool
    ensures { result ≡ has_byte b word.now }
{
    word.contains(&b)
}

// The flags whose letters a word has.
fn flags_of(word: &[u8]) -> OpenFlags
    ensures { result ≡ flags_of word.now }
{
    OpenFlags {
        read: has(word, b'r'),
        write: has(word, b'w'),
        create: has(word, b'c'),
        exclusive: has(word, b'x'),
        truncate: has(word, b't'),
        append: has(word, b'a'),
    }
}

// No byte stands twice.
fn are_different(word: &[u8]) -> bool
    ensures { result ≡ are_different word.now }
{
    let mut rest = word;
    while let [b, behind @ ..] = rest {
        if has(behind, *b) {
            return false;
        }
        rest = behind;
    }
    true
}

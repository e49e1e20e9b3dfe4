//! The check word of a list of bytes, by which a node shows that it was written whole.
//! `edge_base`'s `specs/Word.antt` defines it one bit at a time.
#![tactic(auto)]

mod tables;

ghost use Rattle.std.specs.Prelude.{◌≡◌, ℕ, fold};
ghost use Rattle.edge_base.specs.layout.Word.{after_byte, check_word_of};

use tables::STEPS;

/// The check word: the usual reflected CRC-32, with 0xFFFFFFFF as the first word and as the last
/// exclusive-or. Of no bytes it is 0.
#[tactic(auto, unfolding(edge_base::specs::layout::Word::check_word_of))]
pub fn check_word(bytes: &[u8]) -> u32
    ensures { result ≡ check_word_of bytes.now }
{
    let (eights, rest) = bytes.as_chunks::<8>();
    let word = eights.iter().copied().fold(0xFFFF_FFFF, word_after_eight);
    rest.iter().copied().fold(word, word_after) ^ 0xFFFF_FFFF
}

// The word goes into the low four of the eight bytes, the first byte lowest, and 64 steps are due.
// What these make of the number is the exclusive-or of what they make of each byte at its place:
// those that move the byte down to the lowest place add nothing, and a table has the others.
fn word_after_eight(word: u32, bytes: [u8; 8]) -> u32
    ensures { result ≡ fold after_byte word bytes }
{
    let mixed = u64::from(word) ^ u64::from_le_bytes(bytes);
    let [a, b, c, d, e, f, g, h] = mixed.to_le_bytes();
    STEPS[7][usize::from(a)]
        ^ STEPS[6][usize::from(b)]
        ^ STEPS[5][usize::from(c)]
        ^ STEPS[4][usize::from(d)]
        ^ STEPS[3][usize::from(e)]
        ^ STEPS[2][usize::from(f)]
        ^ STEPS[1][usize::from(g)]
        ^ STEPS[0][usize::from(h)]
}

// The byte goes into the low eight bits. Eight steps then move the bits above these down, and add
// what the table has for these.
fn word_after(word: u32, byte: u8) -> u32
    ensures { result ≡ after_byte word byte }
{
    let mixed = word ^ u32::from(byte);
    (mixed >> 8) ^ STEPS[0][(mixed & 0xFF) as usize]
}

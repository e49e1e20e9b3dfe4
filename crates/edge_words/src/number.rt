ghost use Rattle.std.specs.Prelude.{ℕ, MatchOption};
ghost use Rattle.edge_words.specs.Words.{SpellsNumber};

use itoa::Buffer;

/// The number that a word spells: the one that prints as the word.
pub fn number_of(word: &str) -> Option<u32>
    ensures { MatchOption result ((n : ℕ) → ¬ (SpellsNumber word.now n))
        (λ n. SpellsNumber word.now n) }
{
    let n = word.parse().ok()?;
    if Buffer::new().format(n) == word {
        Some(n)
    } else {
        None
    }
}

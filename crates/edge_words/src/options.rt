ghost use Rattle.std.specs.Prelude.{◌≡◌, ◌≤◌, ◌↔◌, [], ◌∷◌, List, IsTrue, IfSome, IfNone, IfOk, OnErr, length};
ghost use Rattle.edge_words.specs.Words.{Word, Given, Interleaved, Says, SaysOr, is_option, is_one_of, values_of, words_of, HaveNames};
ghost use Rattle.edge_words.specs.Needs.{IsFirstArgument};
ghost use Rattle.edge_words.specs.Reading.{SkipsOptions, OfOptions, Tells, value_list};

use crate::number::number_of;
use crate::order::BadWords;

// Whether a word is an option: it begins with `-`.
fn is_option(word: &str) -> bool
    ensures { result ≡ is_option word.now }
{
    word.as_bytes().first() == Some(&b'-')
}

// Whether a word is one of these.
fn is_one_of<'a>(names: &[&'a str], word: &'a str) -> bool
    ensures { result ≡ is_one_of (words_of names.now) word.now }
{
    names.contains(&word)
}

/// The words behind the options that stand first, each with its value.
pub fn skip_options<'a>(words: &'a [&'a str]) -> &'a [&'a str]
    ensures { SkipsOptions (words_of words.now) (words_of result.now) }
{
    let mut rest = words;
    while let [option, _, behind @ ..] = rest {
        if !is_option(option) {
            break;
        }
        rest = behind;
    }
    rest
}

/// The argument, where there is one and no other.
pub fn only_argument<'a>(words: &'a [&'a str]) -> Option<&'a str>
    ensures found { IfSome result
        (λ argument. (options : List Given)
        × Interleaved (words_of words.now) options (argument.now ∷ [])) }
    ensures refused { IfNone result
        ((options : List Given) (argument : Word)
        → ¬ (Interleaved (words_of words.now) options (argument ∷ []))) }
{
    let [argument, behind @ ..] = skip_options(words) else {
        return None;
    };
    if is_option(argument) {
        return None;
    }
    if skip_options(behind).is_empty() {
        Some(argument)
    } else {
        None
    }
}

/// The place of the first argument, where there is one.
pub fn first_argument(words: &[&str]) -> usize
    ensures { (options : List Given) (argument : Word) (others : List Word)
        → Interleaved (words_of words.now) options (argument ∷ others)
        → IsFirstArgument (words_of words.now) result argument }
{
    words.len() - skip_options(words).len()
}

/// Whether each option has one of these names.
pub fn have_names<'a>(words: &'a [&'a str], names: &[&'a str]) -> bool
    ensures { OfOptions (words_of words.now)
        (λ options. IsTrue result ↔ HaveNames (words_of names.now) options) }
{
    let mut rest = words;
    loop {
        rest = match rest {
            [word, behind @ ..] if !is_option(word) => behind,
            [option, _, behind @ ..] if is_one_of(names, option) => behind,
            [_, _, ..] => return false,
            _ => return true,
        };
    }
}

// The value of the option of this name, where it stands once.
fn value_of<'a>(words: &'a [&'a str], name: &str) -> Result<Option<&'a str>, BadWords>
    ensures ok { IfOk result (λ found. OfOptions (words_of words.now)
        (λ options. values_of name.now options ≡ value_list found)) }
    ensures err { OnErr result
        (OfOptions (words_of words.now) (λ options. 2 ≤ length (values_of name.now options))) }
{
    let mut found = None;
    let mut rest = words;
    loop {
        rest = match rest {
            [word, behind @ ..] if !is_option(word) => behind,
            [option, value, behind @ ..] => {
                if *option == name && found.replace(*value).is_some() {
                    return Err(BadWords);
                }
                behind
            }
            _ => return Ok(found),
        };
    }
}

/// The number that the option of this name says.
pub fn number(words: &[&str], name: &str) -> Result<u32, BadWords>
    ensures { Tells (words_of words.now) (λ options. Says options name.now) result }
{
    let value = value_of(words, name)?.ok_or(BadWords)?;
    number_of(value).ok_or(BadWords)
}

/// The same, or the default where the option is missing.
pub fn number_or(words: &[&str], name: &str, default: u32) -> Result<u32, BadWords>
    ensures { Tells (words_of words.now) (λ options. SaysOr options name.now default) result }
{
    match value_of(words, name)? {
        Some(value) => number_of(value).ok_or(BadWords),
        None => Ok(default),
    }
}

ghost use Rattle.std.specs.Prelude.{◌≡◌, ◌∷◌, ℕ, List, IfOk, OnErr, codes};
ghost use Rattle.edge_base.specs.declared.geometry.Request.{Request};
ghost use Rattle.edge_words.specs.Words.{Word, Given, words_of};
ghost use Rattle.edge_words.specs.Reading.{Tells};
ghost use Rattle.edge_words.specs.Orders.{Wanted, wanted_by, block_size_of, HasParts, SaysBlockSize, SaysRequest, SpellsRun, SpellsFormat, Spells};

use crate::options::{have_names, number, number_or, only_argument};
use edge_base::Request;
use thiserror::Error;

/// What the words ask for, with the word that names the image.
#[derive(Clone, Copy, Debug, PartialEq, Eq)]
pub enum Order<'a> {
    /// To mount the image and answer a script.
    Run { image: &'a str, block_size: u32 },
    /// To make an empty image. The request may break a limit of geometries.
    Format { image: &'a str, request: Request },
}

impl Order<'_> {
    /// Bytes of a block.
    pub fn block_size(&self) -> u32
        ensures { result ≡ block_size_of (wanted_by self.now) }
    {
        match self {
            Order::Run { block_size, .. } => *block_size,
            Order::Format { request, .. } => request.block_size,
        }
    }
}

/// The words spell no order.
#[derive(Clone, Copy, Debug, PartialEq, Eq, Error)]
#[error("BadWords")]
pub struct BadWords;

/// The order that the words behind the program's name spell.
pub fn read_words<'a>(words: &'a [&'a str]) -> Result<Order<'a>, BadWords>
    ensures spelled { IfOk result (λ order. Spells (words_of words.now) (wanted_by order)) }
    ensures refused { OnErr result ((wanted : Wanted) → ¬ (Spells (words_of words.now) wanted)) }
{
    match words {
        ["run", rest @ ..] => run(rest),
        ["format", rest @ ..] => format(rest),
        _ => Err(BadWords),
    }
}

fn run<'a>(words: &'a [&'a str]) -> Result<Order<'a>, BadWords>
    ensures spelled { IfOk result
        (λ order. Spells (codes "run" ∷ words_of words.now) (wanted_by order)) }
    ensures refused { OnErr result
        ((image : Word) (block_size : ℕ) → ¬ (SpellsRun (words_of words.now) image block_size)) }
{
    let image = image_in(words, &["-b"])?;
    let block_size = block_size(words)?;
    Ok(Order::Run { image, block_size })
}

fn format<'a>(words: &'a [&'a str]) -> Result<Order<'a>, BadWords>
    ensures spelled { IfOk result
        (λ order. Spells (codes "format" ∷ words_of words.now) (wanted_by order)) }
    ensures refused { OnErr result
        ((image : Word) (request : Request) → ¬ (SpellsFormat (words_of words.now) image request)) }
{
    let image = image_in(words, &["-b", "-n", "-m", "-l", "-a", "-i"])?;
    let request = request(words)?;
    Ok(Order::Format { image, request })
}

// The image's name, where it is the one argument among options of these names.
fn image_in<'a>(words: &'a [&'a str], names: &[&'a str]) -> Result<&'a str, BadWords>
    ensures parts { IfOk result
        (λ image. (options : List Given)
        × HasParts (words_of names.now) (words_of words.now) options image.now) }
    ensures refused { OnErr result
        ((options : List Given) (image : Word)
        → ¬ (HasParts (words_of names.now) (words_of words.now) options image)) }
{
    match only_argument(words) {
        Some(image) if !image.is_empty() && have_names(words, names) => Ok(image),
        _ => Err(BadWords),
    }
}

fn block_size(words: &[&str]) -> Result<u32, BadWords>
    ensures { Tells (words_of words.now) SaysBlockSize result }
{
    let size = number_or(words, "-b", 512)?;
    if [512, 1024, 2048, 4096].contains(&size) {
        Ok(size)
    } else {
        Err(BadWords)
    }
}

fn request(words: &[&str]) -> Result<Request, BadWords>
    ensures { Tells (words_of words.now) SaysRequest result }
{
    Ok(Request {
        block_size: block_size(words)?,
        blocks: number(words, "-n")?,
        inodes: number(words, "-m")?,
        name_max: number_or(words, "-l", 28)?,
        direct: number_or(words, "-a", 4)?,
        indirect: number_or(words, "-i", 32)?,
    })
}

/// Words spell one order alone.
pub fn one_order()
    ensures { (words : List Word) (one two : Wanted) → Spells words one → Spells words two
        → one ≡ two }
{}

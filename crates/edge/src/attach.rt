ghost use Rattle.std.specs.Prelude.{◌≡◌, ◌≤◌, ◌⊎◌, slice_get, IfSome, IsNone, IsTrue};
ghost use Rattle.edge_base.specs.layout.Sizes.{is_block_size};
ghost use Rattle.edge_words.specs.Orders.{Wanted, Spells};
ghost use Rattle.edge_words.specs.Words.{words_of};
ghost use Rattle.edge_host.specs.HostDisk.{origin_of, faults_of};

use edge_host::HostDisk;
use edge_words::need;
use std::fs::File;
use std::rt::Files;

fn word_at<'a>(words: &'a [&'a str], place: usize) -> Option<&'a str>
    ensures { result ≡ slice_get words.now place }
{
    words.get(place).copied()
}

/// The image that the words name, and how its disk is opened.
#[derive(Clone, Copy)]
pub struct Attachment<'a> {
    pub image: Option<&'a str>,
    pub block_size: u32,
    /// The blocks that the image is made with, where it is made.
    pub make_blocks: Option<u32>,
}

impl<'a> Attachment<'a> {
    ghost use Rattle.edge.specs.Attachment.{IsFor, nothing};

    /// What is attached for the words behind the program's name.
    pub fn of_words(words: &'a [&'a str]) -> Attachment<'a>
        ensures spelled { (wanted : Wanted) → Spells (words_of words.now) wanted
            → IsFor wanted result }
        ensures refused { ((wanted : Wanted) → ¬ (Spells (words_of words.now) wanted))
            → result ≡ nothing }
        ensures size { IsTrue (is_block_size result.block_size) }
    {
        let attached = need(words);
        let image = match attached.image {
            Some(place) => word_at(words, place),
            None => None,
        };
        Attachment {
            image,
            block_size: attached.block_size,
            make_blocks: attached.make_blocks,
        }
    }
}

/// The disk over the image, with the blocks that it is made with.
pub fn open_disk(files: &impl Files<File = File>, a: Attachment<'_>) -> HostDisk
    requires { IsTrue (is_block_size a.block_size) }
    ensures block_size { (origin_of result).block_size ≡ a.entry.block_size }
    ensures no_file { IsNone a.entry.image → (origin_of result).blocks ≡ 0 }
    ensures made { IfSome a.entry.make_blocks (λ n. ((origin_of result).blocks ≡ 0)
        ⊎ (n ≤ (origin_of result).blocks)) }
    ensures faults { faults_of result ≡ 0 }
{
    HostDisk::open(files, a.image, a.block_size, a.make_blocks)
}

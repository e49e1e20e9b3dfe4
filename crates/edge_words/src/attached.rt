ghost use Rattle.std.specs.Prelude.{◌≡◌, IsTrue};
ghost use Rattle.edge_base.specs.layout.Sizes.{is_block_size};
ghost use Rattle.edge_words.specs.Words.{words_of};
ghost use Rattle.edge_words.specs.Orders.{Wanted, Spells, wanted_by};
ghost use Rattle.edge_words.specs.Needs.{IsNeedOf, no_need, make_blocks_of};

use crate::options::first_argument;
use crate::order::{Order, read_words};
use edge_base::Geometry;

/// What has to be attached for the words.
#[derive(Clone, Copy, Debug, PartialEq, Eq)]
pub struct Attached {
    /// The place of the image's name among the words, where they spell an order.
    pub image: Option<usize>,
    /// Bytes of a block, 512 where they spell none.
    pub block_size: u32,
    /// The blocks that the image is made with, where they spell a `format` whose geometry is within
    /// the limits.
    pub make_blocks: Option<u32>,
}

/// What has to be attached for the words behind the program's name.
pub fn need(words: &[&str]) -> Attached
    ensures spelled { (wanted : Wanted) → Spells (words_of words.now) wanted
        → IsNeedOf (words_of words.now) wanted result }
    ensures size { IsTrue (is_block_size result.block_size) }
    ensures refused { ((wanted : Wanted) → ¬ (Spells (words_of words.now) wanted))
        → result ≡ no_need }
{
    match (read_words(words), words) {
        (Ok(order), [_, rest @ ..]) => Attached {
            image: Some(1 + first_argument(rest)),
            block_size: order.block_size(),
            make_blocks: make_blocks(&order),
        },
        _ => Attached {
            image: None,
            block_size: 512,
            make_blocks: None,
        },
    }
}

fn make_blocks(order: &Order<'_>) -> Option<u32>
    ensures { result ≡ make_blocks_of (wanted_by order.now) }
{
    match order {
        Order::Run { .. } => None,
        Order::Format { request, .. } => match Geometry::checked(*request) {
            Ok(_) => Some(request.blocks),
            Err(_) => None,
        },
    }
}

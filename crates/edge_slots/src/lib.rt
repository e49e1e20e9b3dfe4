//! The slots of a directory: what the bytes of one say, and a search through those of a block.
//! `docs/FORMAT.md`, "Directories", has their form.
#![tactic(auto)]

mod block;
mod laws;
mod slot;

pub use block::{Search, last_filled, seek, slot_at, slots_in_block};
pub use laws::{a_block_has_its_slots, a_slot_says_one_thing};
pub use slot::{Entry, SLOT_MOST, WrongSlot, read_slot, slot_width, spell_slot};

#[cfg(test)]
mod tests;

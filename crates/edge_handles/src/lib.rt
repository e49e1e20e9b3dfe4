//! The table of open descriptors.
#![tactic(auto)]

ghost use Rattle.std.specs.Prelude.{◌≡◌, ◌↔◌, ◌<◌, ℕ, slice_get, slice_set, Some, None, IsTrue, IsSome, IsNone, IfSome, IfNone};
ghost use Rattle.std.specs.Bool.{OnTrue, OnFalse};
ghost use Rattle.std.specs.Option.{option_map};
ghost use Rattle.edge_base.specs.commands.Descriptors.{Descriptor, Descriptors, descriptor_at, first_empty, is_full, is_open, most_open, none_open};
ghost use Rattle.edge_handles.specs.Table.{descriptor_of, descriptors_of};

use std::marker::Model;

#[cfg(test)]
mod tests;

// How many may be open.
const MOST_OPEN: usize = 16;

/// An open node: its number, what was asked for, and the position, of a file in bytes and of a
/// directory in slots.
#[derive(Clone, Copy, PartialEq, Eq, Debug)]
pub struct Slot {
    pub number: u32,
    pub directory: bool,
    pub read: bool,
    pub write: bool,
    pub append: bool,
    pub at: u64,
}

/// A table of 16 descriptors: descriptor h is the one in place h.
#[derive(Drop)]
pub struct Handles {
    slots: [Option<Slot>; MOST_OPEN],
}

impl Model for Handles {
    ghost use Rattle.edge_base.specs.commands.Descriptors.{Descriptors};
    ghost use Rattle.edge_handles.specs.Table.{descriptors_of};

    ghost Value = { Descriptors };

    ghost view = { λ t. descriptors_of t.slots };
}

impl Handles {
    /// A table with nothing open.
    pub fn new() -> Handles
        ensures { result ≡ none_open }
    {
        Handles {
            slots: [None; MOST_OPEN],
        }
    }

    /// Whether no place is free.
    pub fn is_full(&self) -> bool
        ensures { result ≡ is_full self.now }
    {
        first_free(&self.slots) >= MOST_OPEN
    }

    /// Opens the least free descriptor and gives it; None where the table is full.
    pub fn enter(&mut self, s: Slot) -> Option<u32>
        ensures least { IfSome result (λ h. h ≡ first_empty self.old) }
        ensures below { IfSome result (λ h. h < most_open) }
        ensures free { IfSome result (λ h. slice_get self.old h ≡ Some None) }
        ensures entered { IfSome result
            (λ h. self.new ≡ slice_set self.old h (Some (descriptor_of s))) }
        ensures full { IsNone result ↔ IsTrue (is_full self.old) }
        ensures refused { IfNone result (self.new ≡ self.old) }
    {
        let h = first_free(&self.slots);
        if h >= MOST_OPEN {
            return None;
        }
        self.slots[h] = Some(s);
        Some(h as u32)
    }

    /// The slot of descriptor h; None where it is not open.
    pub fn get(&self, h: u32) -> Option<Slot>
        ensures { option_map descriptor_of result ≡ descriptor_at self.now h }
    {
        *self.slots.get(h as usize)?
    }

    /// Moves descriptor h to a position; false where it is not open.
    pub fn move_to(&mut self, h: u32, at: u64) -> bool
        ensures open { IsTrue result ↔ IsSome (descriptor_at self.old h) }
        ensures moved { (d : Descriptor) → descriptor_at self.old h ≡ Some d
            → self.new ≡ slice_set self.old h (Some (record d { at = at })) }
        ensures refused { OnFalse result (self.new ≡ self.old) }
    {
        let Some(slot) = self.get(h) else {
            return false;
        };
        self.slots[h as usize] = Some(Slot { at, ..slot });
        true
    }

    /// Closes descriptor h; false where it is not open.
    pub fn leave(&mut self, h: u32) -> bool
        ensures open { IsTrue result ↔ IsSome (descriptor_at self.old h) }
        ensures left { OnTrue result (self.new ≡ slice_set self.old h None) }
        ensures refused { OnFalse result (self.new ≡ self.old) }
    {
        if self.get(h).is_none() {
            return false;
        }
        self.slots[h as usize] = None;
        true
    }

    /// Whether a node has an open descriptor.
    pub fn holds(&self, number: u32) -> bool
        ensures { result ≡ is_open self.now number }
    {
        self.slots.iter().any(|slot| match slot {
            Some(s) => s.number == number,
            None => false,
        })
    }
}

// The first place that has nothing, or the end.
fn first_free(slots: &[Option<Slot>]) -> usize
    ensures { result ≡ first_empty (descriptors_of slots.now) }
{
    slots
        .iter()
        .position(|slot| slot.is_none())
        .unwrap_or(slots.len())
}

impl Default for Handles {
    fn default() -> Handles
        ensures { result ≡ none_open }
    {
        Handles::new()
    }
}

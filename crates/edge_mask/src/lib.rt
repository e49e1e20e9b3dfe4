//! Sets of the events after which a point may be taken.
#![tactic(auto)]

ghost use Rattle.std.specs.Prelude.{⊤, ◌≡◌, ◌<◌, ◌↔◌, [], ◌∷◌, codes, IsTrue, IsNone, IfSome};
ghost use Rattle.edge_base.specs.commands.Events as event;
ghost use Rattle.edge_base.specs.commands.Events.{Event, bit_of, has_event, default_mask, greatest_mask};
ghost use Rattle.edge_mask.specs.Mask.{mask_of, HasAll};

use bitflags::{Flag, Flags, bitflag_items};

#[cfg(test)]
mod tests;

/// A set of the events after which a point may be taken, as a mask.
#[derive(Clone, Copy, PartialEq, Eq, Debug)]
pub struct Events(u32);

bitflag_items! {
    impl Events: u32 {
        const UMOUNT = 1;
        const CREATE = 2;
        const UNLINK = 4;
        const MKDIR = 8;
        const RENAME = 16;
        const LINK = 32;
        const CLOSE = 64;
        const WRITE = 128;
        const FSYNC = 256;
        const TRUNCATE = 512;
        const FULL = 1024;
    }
}

impl Flags for Events {
    type Bits = u32;

    ghost exact = { ⊤ };

    ghost table = { (codes "UMOUNT", bit_of event.umount) ∷ (codes "CREATE", bit_of event.create)
        ∷ (codes "UNLINK", bit_of event.unlink) ∷ (codes "MKDIR", bit_of event.mkdir)
        ∷ (codes "RENAME", bit_of event.rename) ∷ (codes "LINK", bit_of event.link)
        ∷ (codes "CLOSE", bit_of event.close) ∷ (codes "WRITE", bit_of event.write)
        ∷ (codes "FSYNC", bit_of event.fsync) ∷ (codes "TRUNCATE", bit_of event.truncate)
        ∷ (codes "FULL", bit_of event.full) ∷ [] };

    ghost set_of = { mask_of };

    fn flags<'a>() -> &'a [Flag<Events>] {
        Events::FLAGS
    }

    fn bits(&self) -> u32 {
        self.0
    }

    fn from_bits_retain(bits: u32) -> Events {
        Events(bits)
    }
}

impl Events {
    /// The mask at mounting: umount, fsync and full.
    pub const DEFAULT: Events = Events(1281);

    /// The set that a mask says; None above the greatest mask.
    pub fn from_number(n: u32) -> Option<Events>
        ensures mask { IfSome result (λ events. mask_of events ≡ n) }
        ensures above { IsNone result ↔ (greatest_mask < n) }
    {
        Events::from_bits(n)
    }

    /// The mask.
    pub fn number(&self) -> u32
        ensures { result ≡ mask_of self.now }
    {
        self.bits()
    }

    /// Whether every event of `event` is in the set.
    pub fn has(&self, event: Events) -> bool
        ensures every { IsTrue result ↔ HasAll (mask_of self.now) (mask_of event) }
        ensures one { (e : Event) → mask_of event ≡ bit_of e
            → result ≡ has_event (mask_of self.now) e }
    {
        self.contains(event)
    }
}

impl Default for Events {
    fn default() -> Events
        ensures { mask_of result ≡ default_mask }
    {
        Events::DEFAULT
    }
}

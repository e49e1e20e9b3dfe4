//! Laws over the definitions of `specs/`: functions without effects.

ghost use Rattle.std.specs.Prelude.{◌≡◌, ◌≢◌, ℕ, false, Err};
ghost use Rattle.edge_base.specs.layout.Places.{inode_place_of};
ghost use Rattle.edge_plain.specs.Plain.{state_of};
ghost use Rattle.edge_plain.specs.declared.plain.PlainStore.{PlainStore};
ghost use Rattle.edge_store.specs.Calls.{Called};
ghost use Rattle.edge_store.specs.declared.fault.StoreFault.{StoreFault};
ghost use Rattle.edge_store.specs.declared.fault.StoreFault.TheVariants.{Device};

/// No call of a store in memory answers `StoreFault::Device`: each fault has its cause, and there
/// is no disk whose count of faults could rise.
pub fn no_call_fails()
    ensures { (s t : PlainStore) (fault : StoreFault)
        → Called {T = ⊥} (state_of s) (state_of t) (Err fault) → fault ≢ Device }
{}

/// Each inode of a store in memory lies at the first place of its number.
pub fn inodes_lie_at_their_first_places()
    ensures { (s : PlainStore) (n : ℕ)
        → (state_of s).places n ≡ inode_place_of (state_of s).origin.request n false }
{}

use anyhow::Result;
use edge_base::{DamageKind, Refusal};

/// Appends the numbers that are printed of refusals and of kinds of damage.
pub fn push_numbers(out: &mut String) -> Result<()> {
    for refusal in REFUSALS {
        writeln!(out, "  {refusal:?} {}", refusal as u8)?;
    }
    for kind in KINDS {
        writeln!(out, "  {kind:?} {}", kind as u8)?;
    }
    Ok(())
}

/// Each refusal, in the order of the numbers.
pub const REFUSALS: [Refusal; 15] = [
    Refusal::NoEntry,
    Refusal::BadDescriptor,
    Refusal::Busy,
    Refusal::Exists,
    Refusal::CrossVolume,
    Refusal::NotDir,
    Refusal::IsDir,
    Refusal::Invalid,
    Refusal::NoInodes,
    Refusal::TooManyOpen,
    Refusal::TooBig,
    Refusal::NoSpace,
    Refusal::TooManyLinks,
    Refusal::NameTooLong,
    Refusal::NotEmpty,
];

const KINDS: [DamageKind; 10] = [
    DamageKind::WrongSignature,
    DamageKind::WrongWord,
    DamageKind::WrongField,
    DamageKind::WrongOwner,
    DamageKind::WrongPointer,
    DamageKind::NotUsed,
    DamageKind::TwoPlaces,
    DamageKind::WrongSlot,
    DamageKind::WrongShape,
    DamageKind::Tangled,
];

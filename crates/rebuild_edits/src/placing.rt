//! Names that are added to a table in the making, with their places.

ghost use Rattle.std.specs.Prelude.{◌≡◌, ◌≢◌, true, false, All, IfOk, IfErr};
ghost use Rattle.std.specs.Option.{option_copied};
ghost use Rattle.elf_types.specs.declared.errors.ElfError.TheVariants.{Memory};
ghost use Rattle.rebuild_changes.specs.elf_object.Strings as strings;
ghost use Rattle.rebuild_names.specs.Known.{NotesName};
ghost use Rattle.rebuild_names.specs.Names.{is_too_large_error, IsAddedAt};

use elf_types::{ElfError, Words};
use rebuild_names::prelude::SharedStrings;
use rebuild_names::{KnownPlaces, note_place, push_place};

/// A table of names in the making.
#[derive(Drop)]
pub struct Making {
    /// The names.
    pub strings: SharedStrings,
    /// The place of the name of each section so far, in bytes.
    pub places: Words,
    /// The places of names that are in an older table, by where they are there.
    pub known: KnownPlaces,
}

/// False where an error says that a table is too large, and else the error.
fn false_if_large(e: ElfError) -> Result<bool, ElfError>
    ensures large { IfOk result (λ fits. (fits ≡ false) × (is_too_large_error e ≡ true)) }
    ensures err { IfErr result (λ other. (other ≡ e) × (is_too_large_error e ≡ false)) }
{
    match e {
        ElfError::TooLarge => Ok(false),
        _ => Err(e),
    }
}

/// Holds the text of an older table, in which names are, once the table is as long. It fails with
/// `Memory` alone.
pub fn hold_names(making: &mut Making, text: &[u8]) -> Result<(), ElfError>
    ensures strings { making.new.strings ≡ making.old.strings }
    ensures places { making.new.places ≡ making.old.places }
    ensures known { making.new.known ≡ making.old.known }
    ensures err { IfErr result (λ e. e ≡ Memory) }
{
    making.strings.hold_late(text)
}

/// Adds a name to a table, which may be at a place of the text that is held, appends its place in
/// the table to the others, and returns whether the table is not too large. It fails with `Memory`
/// alone.
pub fn place_text(making: &mut Making, name: &[u8], near: u64) -> Result<bool, ElfError>
    requires { All (λ b. b ≢ 0) name.now }
    ensures placed { IfOk result (λ fits. IsAddedAt making.old.strings making.new.strings
        making.old.places making.new.places name.now fits) }
    ensures known { making.new.known ≡ making.old.known }
    ensures err { IfErr result (λ e. e ≡ Memory) }
{
    match making.strings.add(name, near) {
        Ok(place) => push_place(&mut making.places, place),
        Err(e) => false_if_large(e),
    }
}

/// Adds a name as `place_text` does, and notes its place under that at which it is in an older
/// table. It fails with `Memory` alone.
fn place_noted(making: &mut Making, at: u32, name: &[u8], near: u64) -> Result<bool, ElfError>
    requires { All (λ b. b ≢ 0) name.now }
    ensures placed { IfOk result (λ fits. IsAddedAt making.old.strings making.new.strings
        making.old.places making.new.places name.now fits) }
    ensures noted { IfOk result (NotesName at name.now making.new.strings
        making.old.known making.new.known) }
    ensures err { IfErr result (λ e. e ≡ Memory) }
{
    match making.strings.add(name, near) {
        Ok(place) => note_place(&mut making.places, &mut making.known, at, place),
        Err(e) => false_if_large(e),
    }
}

/// Adds a name that was found at a place of an older table, or the empty one where there is none,
/// and notes its place.
pub fn place_found(
    making: &mut Making,
    at: u32,
    name: Option<&[u8]>,
    near: u64,
) -> Result<bool, ElfError>
    requires { All (λ b. b ≢ 0) (strings.or_empty_name (option_copied name)) }
    ensures placed { IfOk result (λ fits. IsAddedAt making.old.strings making.new.strings
        making.old.places making.new.places
        (strings.or_empty_name (option_copied name.entry)) fits) }
    ensures noted { IfOk result (NotesName at
        (strings.or_empty_name (option_copied name.entry)) making.new.strings
        making.old.known making.new.known) }
    ensures err { IfErr result (λ e. e ≡ Memory) }
{
    match name {
        Some(name) => place_noted(making, at, name, near),
        None => place_noted(making, at, &[], near),
    }
}

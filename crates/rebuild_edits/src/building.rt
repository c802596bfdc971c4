//! The new table of all names.

ghost use Rattle.std.specs.Prelude.{◌≡◌, ◌==◌, ◌+◌, ◌∷◌, ℕ, List as Seq, [], true, None, drop, length, map, IfOk, IfErr};
ghost use Rattle.std.specs.List.{list_all};
ghost use Rattle.elf_types.specs.declared.errors.ElfError.TheVariants.{Memory};
ghost use Rattle.rebuild_changes.specs.Names.{is_section_name};
ghost use Rattle.rebuild_changes.specs.rebuild_model.Copied.{changes_names};
ghost use Rattle.rebuild_changes.specs.Stated.{bytes_pair, stated_changes};
ghost use Rattle.rebuild_names.specs.Known.{known_at};
ghost use Rattle.rebuild_edits.specs.Texts.{AreTextsAdded, AddsTo};
ghost use Rattle.rebuild_edits.specs.Stores.{IsBuilt};

use crate::naming::{Naming, NewNameTable};
use crate::placing::{Making, place_text};
use elf_types::{ElfError, List};
use rebuild_changes::{ChangeLists, NameBytes};
use rebuild_names::KnownPlaces;
use rebuild_names::prelude::{NOWHERE, SharedStrings};
use std::alloc::Global;

/// A table in the making without names, and the place of section 0, which has none. It fails with
/// `Memory` alone.
pub fn begin_table(alloc: Global) -> Result<Making, ElfError>
    ensures begun { IfOk result (λ making. (making.strings ≡ []) × (making.places ≡ 0 ∷ [])) }
    ensures known { IfOk result (λ making. (at : ℕ) → known_at making.known at ≡ None) }
    ensures err { IfErr result (λ e. e ≡ Memory) }
{
    let mut places = List::new(alloc);
    match places.push(0) {
        Ok(()) => Ok(Making {
            strings: SharedStrings::new(alloc),
            places,
            known: KnownPlaces::new(alloc),
        }),
        Err(e) => Err(e),
    }
}

/// Adds the names of sections that are to come, and returns whether the table is not too large. It
/// fails with `Memory` alone.
pub fn place_added(adds: &[NameBytes], making: &mut Making) -> Result<bool, ElfError>
    requires { list_all (λ n. is_section_name n.name) adds.now ≡ true }
    ensures added { (texts : Seq (Seq ℕ)) (n : ℕ)
        → drop n texts ≡ map (λ a. a.name) adds.now
        → AreTextsAdded texts making.old.strings making.old.places n
        → IfOk result (AddsTo texts making.new.strings making.new.places
        (n + length adds.now)) }
    ensures err { IfErr result (λ e. e ≡ Memory) }
{
    for change in adds {
        match place_text(making, change.name.as_slice(), NOWHERE) {
            Ok(fits) => {
                if !fits {
                    return Ok(false);
                }
            }
            Err(e) => return Err(e),
        }
    }
    Ok(true)
}

/// The table of names that were added, and their places. It fails with `Memory` alone.
fn finish_table(making: Making) -> Result<Naming, ElfError>
    ensures built { (texts : Seq (Seq ℕ))
        → AddsTo texts making.strings making.places (length texts) true
        → IfOk result (IsBuilt texts) }
    ensures err { IfErr result (λ e. e ≡ Memory) }
{
    let Making {
        strings,
        places,
        known: _known,
    } = making;
    match strings.finish() {
        Ok(table) => Ok(Naming::Anew(NewNameTable { table, places })),
        Err(e) => Err(e),
    }
}

/// What becomes of names that were added: they are in the table, or that is too large. It fails
/// with `Memory` alone.
pub fn finish_names(making: Making, fits: bool) -> Result<Naming, ElfError>
    ensures built { (texts : Seq (Seq ℕ))
        → AddsTo texts making.strings making.places (length texts) fits
        → IfOk result (IsBuilt texts) }
    ensures err { IfErr result (λ e. e ≡ Memory) }
{
    if fits {
        return finish_table(making);
    }
    Ok(Naming::TooLarge)
}

/// Whether a list holds nothing.
fn holds_none(list: &List<NameBytes>) -> bool
    ensures { result ≡ (length (map bytes_pair list.now) == 0) }
{
    list.is_empty()
}

/// Whether names change: sections are renamed or added.
pub fn changes_names(changes: &ChangeLists) -> bool
    ensures { result ≡ changes_names (stated_changes changes.now) }
{
    !(holds_none(&changes.rename) && holds_none(&changes.add))
}

//! The table of the names, section by section.

ghost use Rattle.std.specs.Prelude.{◌≡◌, ◌≢◌, ◌<◌, ◌⊎◌, ℕ, [], true, false, None, Some, length, All, IsTrue, IfOk, OnOk, IfErr};
ghost use Rattle.elf_types.specs.declared.errors.ElfError.TheVariants.{Memory, TooLarge};
ghost use Rattle.rebuild_numbers.specs.elf_object.Strings.{section_name, or_empty_name};
ghost use Rattle.rebuild_numbers.specs.elf_object.Words.{AnswersRead};
ghost use Rattle.rebuild_numbers.specs.elf_descriptor.Reads.{Queries, wanted};
ghost use Rattle.rebuild_numbers.specs.rebuild_select.Calls.{ReadsNames};
ghost use Rattle.rebuild_names.specs.Known.{known_at, KnowsMore, NotesIf, NotesName};
ghost use Rattle.rebuild_names.specs.Names.{AreNamed, AddsSection, HasNameAdded, IsAdded, IsPlaceAppended, IsAddedAt, IsFinished, KnowsNames};
ghost use Rattle.rebuild_names.specs.Calls as calls;

use crate::adding::add_name;
use crate::copying::copy_name;
use crate::known::{KnownPlaces, name_field, note_place, push_place};
use elf_types::{DataId, ElfError, List, Octets, ScnId, Words};
use rebuild_numbers::kept::is_kept;
use rebuild_numbers::prelude::{Elf, Held, SectionSet, Source};
use std::alloc::Global;
use strtab_shared::SharedStrings;
use strtab_shared::bytes::SharedBytes;

/// The table of the names of the sections that are kept.
#[derive(Drop)]
pub struct NewNames {
    /// The table's bytes: names that share one NUL in the old table are held once.
    pub table: SharedBytes,
    /// For each section by its old number the place of its name in the table, in bytes; 0 for
    /// section 0 and for one that is removed.
    pub places: Words,
}

/// A table of names in the making.
#[derive(Drop)]
struct Making {
    /// The names.
    strings: SharedStrings,
    /// The place of the name of each section so far.
    places: Words,
    /// The places of these names, by where they are in the old table.
    known: KnownPlaces,
    /// The name that is added, a copy.
    copy: Octets,
}

/// The bytes of the old table, where they are in memory. Nothing but the memory depends on them.
fn old_table<S: Source>(elf: &Elf<S>) -> Option<&[u8]> {
    let d = DataId {
        section: elf.shstrndx(),
        piece: 0,
    };
    match elf.held(d) {
        Ok(Held::Raw(bytes)) => Some(bytes),
        Ok(Held::Edited(_)) => None,
        Ok(Held::Unread) => None,
        Err(_) => None,
    }
}

/// Holds the text of the old table, in which the names are, once the new one is as long. It fails
/// with `Memory` alone.
fn begin_text<S: Source>(elf: &Elf<S>, making: &mut Making) -> Result<(), ElfError>
    ensures strings { making.new.strings ≡ making.old.strings }
    ensures places { making.new.places ≡ making.old.places }
    ensures known { making.new.known ≡ making.old.known }
    ensures copy { making.new.copy ≡ making.old.copy }
    ensures err { IfErr result (λ e. e ≡ Memory) }
{
    match old_table(elf) {
        Some(text) => making.strings.hold_late(text),
        None => Ok(()),
    }
}

/// Adds the name that was copied, which is at a place of the old table, and returns its place, or
/// None where the table would be too large. It fails with `Memory` alone.
fn add_copied<S: Source>(
    elf: &Elf<S>,
    at: u32,
    making: &mut Making,
) -> Result<Option<u32>, ElfError>
    requires { All (λ b. b ≢ 0) making.old.copy }
    ensures added { IfOk result
        (IsAdded making.old.strings making.new.strings making.old.copy) }
    ensures places { making.new.places ≡ making.old.places }
    ensures known { making.new.known ≡ making.old.known }
    ensures err { IfErr result (λ e. e ≡ Memory) }
{
    match begin_text(elf, making) {
        Ok(()) => add_name(&mut making.strings, making.copy.as_slice(), u64::from(at)),
        Err(e) => Err(e),
    }
}

/// Appends the place of a name that was added, if there is one, notes it under that at which the
/// name is in the old table, and returns whether there is. It fails with `Memory` alone.
fn put_place(at: u32, place: Option<u32>, making: &mut Making) -> Result<bool, ElfError>
    ensures strings { making.new.strings ≡ making.old.strings }
    ensures pushed { IfOk result (IsPlaceAppended making.old.places making.new.places place) }
    ensures noted { OnOk result (NotesIf at place making.old.known making.new.known) }
    ensures err { IfErr result (λ e. e ≡ Memory) }
{
    match place {
        Some(place) => note_place(&mut making.places, &mut making.known, at, place),
        None => Ok(false),
    }
}

/// Adds the name that was copied, which is at a place of the old table, notes its place, and
/// returns whether the table is not too large. It fails with `Memory` alone.
fn place_copied<S: Source>(elf: &Elf<S>, at: u32, making: &mut Making) -> Result<bool, ElfError>
    requires { All (λ b. b ≢ 0) making.old.copy }
    ensures placed { IfOk result (λ fits. IsAddedAt making.old.strings making.new.strings
        making.old.places making.new.places making.old.copy fits) }
    ensures noted { IfOk result (NotesName at making.old.copy making.new.strings
        making.old.known making.new.known) }
    ensures err { IfErr result (λ e. e ≡ Memory) }
{
    match add_copied(elf, at, making) {
        Ok(place) => put_place(at, place, making),
        Err(e) => Err(e),
    }
}

/// Adds the name of a section that is there, as it is read at its place of the old table, notes its
/// place, and returns whether the table is not too large.
fn add_read<S: Source>(
    elf: &mut Elf<S>,
    s: ScnId,
    at: u32,
    making: &mut Making,
) -> Result<bool, ElfError>
    requires { s.0 < length elf.old.o.sections }
    ensures told { IsTrue elf.old.told → IfOk result
        (HasNameAdded elf.old.o s.0 making.old making.new) }
    ensures noted { IsTrue elf.old.told → IfOk result
        (NotesName at (or_empty_name (section_name elf.old.o s.0)) making.new.strings
        making.old.known making.new.known) }
    ensures reads { ReadsNames S.Source result elf.old elf.new }
{
    making.copy.truncate(0);
    match copy_name(elf, s, &mut making.copy) {
        Ok(()) => place_copied(elf, at, making),
        Err(e) => Err(e),
    }
}

/// Adds the name of a section that is there and kept, and returns whether the table is not too
/// large. A name that was added before, from the same place of the old table, is not looked at.
fn add_kept<S: Source>(elf: &mut Elf<S>, s: ScnId, making: &mut Making) -> Result<bool, ElfError>
    requires there { s.0 < length elf.old.o.sections }
    requires known { IsTrue elf.old.told → KnowsNames elf.old.o making.old }
    ensures told { IsTrue elf.old.told → IfOk result
        (HasNameAdded elf.old.o s.0 making.old making.new) }
    ensures known { IsTrue elf.old.told → IfOk result
        (λ fits. fits ≡ true → KnowsNames elf.old.o making.new) }
    ensures reads { ReadsNames S.Source result elf.old elf.new }
{
    let at = name_field(elf, s);
    match making.known.find(at) {
        Some(place) => push_place(&mut making.places, place),
        None => add_read(elf, s, at, making),
    }
}

/// Appends the place of the name of a section that is there, which is added where the section is
/// kept, and returns whether the table is not too large.
fn add_section<S: Source>(
    elf: &mut Elf<S>,
    removed: &SectionSet,
    s: ScnId,
    making: &mut Making,
) -> Result<bool, ElfError>
    requires there { s.0 < length elf.old.o.sections }
    requires known { IsTrue elf.old.told → KnowsNames elf.old.o making.old }
    ensures told { IsTrue elf.old.told → IfOk result
        (AddsSection elf.old.o removed.now s.0 making.old making.new) }
    ensures known { IsTrue elf.old.told → IfOk result
        (λ fits. fits ≡ true → KnowsNames elf.old.o making.new) }
    ensures reads { ReadsNames S.Source result elf.old elf.new }
{
    if is_kept(elf, removed, s.0) {
        return add_kept(elf, s, making);
    }
    match making.places.push(0) {
        Ok(()) => Ok(true),
        Err(e) => Err(e),
    }
}

/// Adds the names of all sections that are kept, and returns whether the table is not too large.
fn add_all<S: Source>(
    elf: &mut Elf<S>,
    removed: &SectionSet,
    making: &mut Making,
) -> Result<bool, ElfError>
    requires strings { making.old.strings ≡ [] }
    requires places { making.old.places ≡ [] }
    requires known { (at : ℕ) → known_at making.old.known at ≡ None }
    ensures told { IsTrue elf.old.told → IfOk result
        (AreNamed elf.old.o removed.now making.new) }
    ensures reads { ReadsNames S.Source result elf.old elf.new }
{
    for s in 0..elf.shnum() {
        match add_section(elf, removed, ScnId(s), making) {
            Ok(fits) => {
                if !fits {
                    return Ok(false);
                }
            }
            Err(e) => return Err(e),
        }
    }
    Ok(true)
}

/// The table of names that were added, and their places. It fails with `Memory` alone.
fn finish(making: Making) -> Result<NewNames, ElfError>
    ensures ok { IfOk result (λ names. IsFinished making names) }
    ensures err { IfErr result (λ e. e ≡ Memory) }
{
    let Making {
        strings,
        places,
        known: _known,
        copy: _copy,
    } = making;
    match strings.finish() {
        Ok(table) => Ok(NewNames { table, places }),
        Err(e) => Err(e),
    }
}

/// The table of names that were added, and their places, where it is not too large, and else
/// `TooLarge`.
fn finish_if(making: Making, fits: bool) -> Result<NewNames, ElfError>
    ensures ok { IfOk result (λ names. (fits ≡ true) × IsFinished making names) }
    ensures err { IfErr result (λ e. (e ≡ Memory) ⊎ ((fits ≡ false) × (e ≡ TooLarge))) }
{
    if fits {
        return finish(making);
    }
    Err(ElfError::TooLarge)
}

/// The table of the names of the sections from 1 on that are kept, each once and in order of first
/// use, where a name that can not be read counts as the empty one, and the places of the names. It
/// fails with `TooLarge` where the table would pass 2^32 - 1 bytes, `Memory`, and `Read` where the
/// names are not loaded. It reads the home of the names at the first use, looks at each section
/// once, and at a name at one place of the old table once, and marks nothing dirty.
///
/// Source: gABI chapter 4, "String Table", and "Section Header", sh_name.
pub fn build_names<S: Source>(
    alloc: Global,
    elf: &mut Elf<S>,
    removed: &SectionSet,
) -> Result<NewNames, ElfError>
    ensures answer { AnswersRead elf.old.told (wanted (calls.new_names removed.now) elf.old)
        calls.names_refusals result ((calls.new_names removed.now).answer elf.old.o) }
    ensures queries { Queries S.Source (calls.new_names removed.now) [] result elf.old elf.new }
{
    let mut making = Making {
        strings: SharedStrings::new(alloc),
        places: List::new(alloc),
        known: KnownPlaces::new(alloc),
        copy: List::new(alloc),
    };
    match add_all(elf, removed, &mut making) {
        Ok(fits) => finish_if(making, fits),
        Err(e) => Err(e),
    }
}

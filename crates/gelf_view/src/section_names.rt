//! The names of sections.

ghost use Rattle.std.specs.Prelude.{◌≡◌, ◌<◌, ◌+◌, length, [], true, IsTrue};
ghost use Rattle.std.specs.Borrow.{sem};
ghost use Rattle.std.specs.Option.{option_copied};
ghost use Rattle.elf_descriptor.specs.elf_object.Object.{section_at};
ghost use Rattle.elf_descriptor.specs.elf_object.Words.{Answers};
ghost use Rattle.elf_descriptor.specs.elf_object.Strings.{is_name, readable, string_answer};
ghost use Rattle.elf_descriptor.specs.Reads.{Queries, wanted};
ghost use Rattle.elf_descriptor.specs.Rests.{Rests};
ghost use Rattle.elf_descriptor.specs.Tables.{IsHeldTable};
ghost use Rattle.gelf_view.specs.Records.{first_bytes_of};
ghost use Rattle.gelf_view.specs.SectionNames.{is_refusal, seen_name, readable_string, read_section_name, section_name_front, is_section_named};

use crate::string_calls::strptr;
use crate::strings::{front_of_found, front_of_string_at, is_string_at};
use elf_descriptor::Elf;
use elf_descriptor::prelude::Source;
use elf_types::{ElfError, ScnId};

/// Whether an error is a refusal that a definition states.
fn is_refusal(e: &ElfError) -> bool
    ensures { result ≡ is_refusal e.now }
{
    !matches!(e, ElfError::Memory | ElfError::Read | ElfError::Write)
}

/// The string at an offset of a section, or None where `strptr` rejects it. `Memory` and `Read` may
/// come where it may want them.
fn readable_string<S: Source>(
    elf: &mut Elf<S>,
    s: ScnId,
    offset: u64,
) -> Result<Option<&[u8]>, ElfError>
    ensures answer { Answers elf.old.told (wanted (readable_string s.0 offset) elf.old)
        (seen_name result) ((readable_string s.0 offset).answer elf.old.o) }
    ensures* rests { sem 𝓛 (Rests S.row S.Source elf.entry (λ new.
        Queries S.Source (readable_string s.0 offset) [] result elf.old new)) }
{
    match strptr(elf, s, offset) {
        Ok(name) => Ok(Some(name)),
        Err(e) => { if is_refusal(&e) { Ok(None) } else { Err(e) } }
    }
}

/// The name field of the present header of a section that is there.
#[tactic(auto, unfolding(elf_descriptor::specs::Passed::shdr_answer))]
fn name_field<S: Source>(elf: &Elf<S>, s: ScnId) -> u32
    requires { s.0 < length elf.now.o.sections }
    ensures { result ≡ (section_at elf.now.o s.0).header.name }
{
    match elf.shdr(s) {
        Ok(header) => header.name,
        Err(_) => unreachable!(),
    }
}

/// The name of a section that is there: the string at its `sh_name` in the section of the names, or
/// None where there is no such section or `strptr` rejects the string. `Memory` and `Read` may come
/// where the names are not in memory, and nothing is rejected. It reads the home of the names at
/// the first use, and marks nothing dirty.
///
/// Source: gABI chapter 4, "Section Header", sh_name, and "Special Sections", e_shstrndx.
pub fn section_name<S: Source>(elf: &mut Elf<S>, s: ScnId) -> Result<Option<&[u8]>, ElfError>
    requires { s.0 < length elf.old.o.sections }
    ensures answer { Answers elf.old.told (wanted (read_section_name s.0) elf.old)
        (seen_name result) ((read_section_name s.0).answer elf.old.o) }
    ensures* rests { sem 𝓛 (Rests S.row S.Source elf.entry (λ new.
        Queries S.Source (read_section_name s.0) [] result elf.old new)) }
{
    let names = elf.shstrndx();
    if names == 0 {
        return Ok(None);
    }
    let at = name_field(elf, s);
    readable_string(elf, ScnId(names), u64::from(at))
}

/// Whether the names of sections are in a table that is held, which is longer than an offset.
fn holds_name<S: Source>(elf: &Elf<S>, names: u32, at: u64) -> bool
    ensures some { result ≡ true → names ≡ 0 → ⊥ }
    ensures held { result ≡ true → IsHeldTable elf.now names at }
{
    if names == 0 {
        return false;
    }
    elf.holds_table(ScnId(names), at)
}

/// Whether the string at an offset of a table that is held is this one.
fn held_is<S: Source>(elf: &Elf<S>, s: ScnId, offset: u64, name: &[u8]) -> bool
    requires { IsHeldTable elf.now s.0 offset }
    ensures { IsTrue elf.now.told → result
        ≡ is_name name.now (readable (string_answer elf.now.o s.0 offset)) }
{
    is_string_at(elf.ended_bytes(s), offset, name)
}

/// The first `longest + 1` bytes of the string at an offset of a table that is held.
fn held_front<S: Source>(elf: &Elf<S>, s: ScnId, offset: u64, longest: usize) -> Option<&[u8]>
    requires { IsHeldTable elf.now s.0 offset }
    ensures { IsTrue elf.now.told → option_copied result
        ≡ first_bytes_of (longest + 1) (readable (string_answer elf.now.o s.0 offset)) }
{
    front_of_string_at(elf.ended_bytes(s), offset, longest)
}

/// The first `longest + 1` bytes of the name of a section that is there, or all of it where it has
/// no more; so one that is longer than `longest` is seen to be. None where `section_name` gives
/// none. It reads, and needs memory, as `section_name` does, and rejects nothing. Where the names
/// are held it looks at no more than so many bytes, and at the last one of the table.
///
/// Source: gABI chapter 4, "Section Header", sh_name.
pub fn section_name_front<S: Source>(
    elf: &mut Elf<S>,
    s: ScnId,
    longest: usize,
) -> Result<Option<&[u8]>, ElfError>
    requires { s.0 < length elf.old.o.sections }
    ensures answer { Answers elf.old.told
        (wanted (section_name_front s.0 (longest + 1)) elf.old) (seen_name result)
        ((section_name_front s.0 (longest + 1)).answer elf.old.o) }
    ensures* rests { sem 𝓛 (Rests S.row S.Source elf.entry (λ new.
        Queries S.Source (section_name_front s.0 (longest + 1)) [] result elf.old new)) }
{
    let names = elf.shstrndx();
    let at = u64::from(name_field(elf, s));
    if holds_name(elf, names, at) {
        return Ok(held_front(elf, ScnId(names), at, longest));
    }
    match section_name(elf, s) {
        Ok(name) => Ok(front_of_found(name, longest)),
        Err(e) => Err(e),
    }
}

/// Whether a section that is there has this name. It reads, and needs memory, as `section_name`
/// does, and rejects nothing. Where the names are held it looks at as many bytes as this one has,
/// and at one more.
///
/// Source: gABI chapter 4, "Section Header", sh_name.
pub fn is_named<S: Source>(elf: &mut Elf<S>, s: ScnId, name: &[u8]) -> Result<bool, ElfError>
    requires { s.0 < length elf.old.o.sections }
    ensures answer { Answers elf.old.told (wanted (is_section_named s.0 name.now) elf.old) result
        ((is_section_named s.0 name.now).answer elf.old.o) }
    ensures queries { Queries S.Source (is_section_named s.0 name.now) [] result elf.old elf.new }
{
    let names = elf.shstrndx();
    let at = u64::from(name_field(elf, s));
    if holds_name(elf, names, at) {
        return Ok(held_is(elf, ScnId(names), at, name));
    }
    match section_name(elf, s) {
        Ok(Some(found)) => Ok(found == name),
        Ok(None) => Ok(false),
        Err(e) => Err(e),
    }
}

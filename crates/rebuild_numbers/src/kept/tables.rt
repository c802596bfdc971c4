//! The extended indexes of each symbol table.

ghost use Rattle.std.specs.Prelude.{◌≡◌, ◌<◌, ◌==◌, ◌&&◌, not, length, slice_index, slice_set, IfOk, IfErr, if◌then◌else◌};
ghost use Rattle.elf_types.specs.declared.errors.ElfError.TheVariants.{Memory};
ghost use Rattle.rebuild_numbers.specs.Kept.Tables.{has_indexes, no_numbers, with_first_linking, AreFirstLinking, extended_tables};

use crate::kept::headers::is_index_table;
use elf_types::{ElfError, List, ScnId, Words};
use rebuild_select::SectionSet;
use rebuild_select::prelude::{Elf, Source};
use std::alloc::Global;

/// Whether a section that is there is a table of extended indexes that is kept.
#[tactic(auto, unfolding(crate::specs::Kept::Tables::has_indexes))]
fn has_indexes<S: Source>(elf: &Elf<S>, removed: &SectionSet, s: ScnId) -> bool
    requires { s.0 < length elf.now.o.sections }
    ensures { result ≡ has_indexes elf.now.o removed.now s.0 }
{
    !removed.contains(s.0) && is_index_table(&elf.section_header(s))
}

/// Whether a section that is there counts: it is not section 0, and has extended indexes.
fn counts<S: Source>(elf: &Elf<S>, removed: &SectionSet, s: ScnId) -> bool
    requires { s.0 < length elf.now.o.sections }
    ensures { result ≡ (not (s.0 == 0) && has_indexes elf.now.o removed.now s.0) }
{
    s.0 != 0 && has_indexes(elf, removed, s)
}

/// As many numbers as there are sections, each 0. It fails with `Memory` alone.
fn no_numbers(alloc: Global, count: u32) -> Result<Words, ElfError>
    ensures ok { IfOk result (λ numbers. numbers ≡ no_numbers count) }
    ensures err { IfErr result (λ e. e ≡ Memory) }
{
    let numbers = vec![in alloc; 0u32; count as usize]?;
    Ok(List::from_vec(numbers))
}

/// Puts a number in the place of a 0 at an index that is there.
fn keep_first(first: &mut Words, t: u32, s: u32)
    requires { t < length first.old }
    ensures { first.new
        ≡ if slice_index first.old t == 0 then slice_set first.old t s else first.old }
{
    if first.as_slice()[t as usize] == 0 {
        first.as_mut_slice()[t as usize] = s;
    }
}

/// Notes a section for the one to which it links, where none is noted for that and it is there.
#[tactic(auto, unfolding(crate::specs::Kept::Tables::with_first_linking))]
fn note_first(first: &mut Words, t: u32, s: u32)
    ensures { first.new ≡ with_first_linking first.old t s }
{
    if u64::from(t) < first.len() {
        keep_first(first, t, s);
    }
}

/// Notes for each section the first table of extended indexes that links to it.
fn note_tables<S: Source>(elf: &Elf<S>, removed: &SectionSet, first: &mut Words)
    requires { first.old ≡ no_numbers (length elf.now.o.sections) }
    ensures { AreFirstLinking elf.now.o (has_indexes elf.now.o removed.now) first.new
        (length elf.now.o.sections) }
{
    for s in 0..elf.shnum() {
        if counts(elf, removed, ScnId(s)) {
            note_first(first, elf.section_header(ScnId(s)).link, s);
        }
    }
}

/// For each section the number of its extended indexes, the first such section from 1 on that is
/// kept and links to it, and 0 where there is none. It looks at each section once. It fails with
/// `Memory` alone and reads nothing.
///
/// Source: gABI chapter 4, SHT_SYMTAB_SHNDX.
pub fn extended_tables<S: Source>(
    alloc: Global,
    elf: &Elf<S>,
    removed: &SectionSet,
) -> Result<Words, ElfError>
    ensures ok { IfOk result (λ tables. tables ≡ extended_tables elf.now.o removed.now) }
    ensures err { IfErr result (λ e. e ≡ Memory) }
{
    match no_numbers(alloc, elf.shnum()) {
        Ok(mut tables) => {
            note_tables(elf, removed, &mut tables);
            Ok(tables)
        }
        Err(e) => Err(e),
    }
}

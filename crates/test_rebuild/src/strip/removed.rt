//! Which sections strip and copy remove.

use elf_descriptor::Elf;
use elf_outside::{MemSource, Source};
use elf_types::constants::{
    SHF_ALLOC, SHT_PROGBITS, SHT_RELA, SHT_STRTAB, SHT_SYMTAB, SHT_SYMTAB_SHNDX,
};
use elf_types::{ElfError, NULL_SECTION, Octets, Shdr};
use rebuild_select::{SectionSet, removed, removed_by_name};
use std::alloc::Global;
use test_kit_images::{
    BuiltImage, ClassAndOrder, Content, ImageStart, NARROW, Put, Recipe, WIDE, image_in,
};
use test_kit_rows::{failed, in_row, other, same, within};
use test_kit_sources::source;
use tool_text::Args;

/// The names of the sections, and the places of some of them.
const NAMES: &[u8] = b"\0.debug_line_str\0.line\0.text\0mine\0";

const DEBUG: u32 = 1;

const LINE: u32 = 17;

const TEXT: u32 = 23;

const MINE: u32 = 29;

/// An image whose section 12 has the names; its section headers are empty.
const EMPTY: Recipe = Recipe {
    form: WIDE,
    start: ImageStart::Table(64, COUNT, 12),
    puts: &[],
};

/// The number of its sections.
pub const COUNT: u32 = 16;

/// The type, the name, the flags, the link and the info of each section from 1 on. Relocations 3
/// change debug data, and 4 do not; the symbols 5 are those of the former, with the strings 7 and
/// the extended indexes 9, and the symbols 6 those of the latter.
const SECTIONS: [(u32, u32, u64, u32, u32); 15] = [
    (SHT_PROGBITS, TEXT, SHF_ALLOC, 0, 0),
    (SHT_PROGBITS, DEBUG, 0, 0, 0),
    (SHT_RELA, 0, 0, 5, 2),
    (SHT_RELA, 0, 0, 6, 1),
    (SHT_SYMTAB, 0, 0, 7, 0),
    (SHT_SYMTAB, 0, 0, 8, 0),
    (SHT_STRTAB, 0, 0, 0, 0),
    (SHT_STRTAB, 0, 0, 0, 0),
    (SHT_SYMTAB_SHNDX, 0, 0, 5, 0),
    (SHT_SYMTAB_SHNDX, 0, 0, 6, 0),
    (SHT_PROGBITS, MINE, SHF_ALLOC, 0, 0),
    (SHT_STRTAB, LINE, 0, 0, 0),
    (SHT_PROGBITS, DEBUG, SHF_ALLOC, 0, 0),
    (SHT_PROGBITS, LINE, 0, 0, 0),
    (SHT_STRTAB, 0, 0, 0, 0),
];

/// The section of a row.
fn section(row: &(u32, u32, u64, u32, u32)) -> Shdr {
    let (stype, name, flags, link, info) = *row;
    Shdr {
        name,
        stype,
        flags,
        link,
        info,
        ..NULL_SECTION
    }
}

/// Puts the names and the section headers, of which that of section 15 links to another one.
fn put_parts(image: &mut BuiltImage, link: u32) -> Result<(), ElfError> {
    for (i, row) in SECTIONS.iter().enumerate() {
        image.put_section(i as u64 + 1, &section(row))?;
    }
    image.put_section(15, &section(&(SHT_STRTAB, 0, 0, link, 0)))?;
    image.put(&Put::Home(12, Content::Bytes(NAMES)))
}

/// The bytes of the image in a form, where section 15 links to another one.
pub fn bytes_linked(alloc: Global, form: ClassAndOrder, link: u32) -> Result<Octets, ElfError> {
    let mut image = image_in(alloc, form, &EMPTY)?;
    match put_parts(&mut image, link) {
        Ok(()) => Ok(image.bytes),
        Err(e) => Err(e),
    }
}

/// The bytes of the image in a form.
pub fn bytes_in(alloc: Global, form: ClassAndOrder) -> Result<Octets, ElfError> {
    bytes_linked(alloc, form, 0)
}

/// What is removed.
enum By {
    /// By strip.
    Strip,
    /// By strip -g.
    DebugOnly,
    /// By copy.
    Copy,
}

/// Who removes, a name that is given, and what goes.
type Row = (By, &'static str, &'static [u32]);

/// The names table stays though it is named, as section 0 does; a name that no section has does
/// nothing, not even where a section's begins with it; what is allocated goes by a name that is
/// given alone.
const ROWS: [Row; 10] = [
    (By::Strip, "none", &[2, 3, 5, 7, 9, 14]),
    (By::DebugOnly, "none", &[2, 3, 14]),
    (By::Strip, "mine", &[2, 3, 5, 7, 9, 11, 14]),
    (By::Strip, ".line", &[2, 3, 5, 7, 9, 14]),
    (By::DebugOnly, ".debug_line_str", &[2, 3, 13, 14]),
    (By::DebugOnly, ".debug_line", &[2, 3, 14]),
    (By::Copy, "none", &[]),
    (By::Copy, "mine", &[11]),
    (By::Copy, ".debug_line_str", &[2, 3, 13]),
    (By::Copy, ".debug_line", &[]),
];

/// Whether a set has these numbers, and no other of the sections.
fn has_just(rt: &HostRuntime, set: &SectionSet, numbers: &[u32]) -> bool {
    for s in 0..COUNT {
        if !within(rt, &s, same(rt, &set.contains(s), &numbers.contains(&s))) {
            return false;
        }
    }
    true
}

/// What a row removes.
fn removed_by<S: Source>(
    alloc: Global,
    elf: &mut Elf<S>,
    row: &Row,
    names: &Args,
) -> Result<SectionSet, ElfError> {
    match row.0 {
        By::Strip => removed(alloc, elf, false, names),
        By::DebugOnly => removed(alloc, elf, true, names),
        By::Copy => removed_by_name(alloc, elf, names),
    }
}

/// Whether a row removes what it should, by the names that are given.
fn removes<S: Source>(rt: &HostRuntime, elf: &mut Elf<S>, row: &Row, names: &Args) -> bool {
    match removed_by(rt.alloc(), elf, row, names) {
        Ok(set) => has_just(rt, &set, row.2),
        Err(e) => failed(rt, e),
    }
}

/// Whether a row removes what it should.
fn is_removed<S: Source>(rt: &HostRuntime, elf: &mut Elf<S>, row: &Row) -> bool {
    let mut names = Args::new(rt.alloc());
    match names.add(row.1) {
        Ok(()) => removes(rt, elf, row, &names),
        Err(e) => failed(rt, e),
    }
}

/// Whether the sections of all rows are removed.
fn are_removed<S: Source>(rt: &HostRuntime, elf: &mut Elf<S>) -> bool {
    for (n, row) in ROWS.iter().enumerate() {
        if !in_row(rt, n, is_removed(rt, elf, row)) {
            return false;
        }
    }
    true
}

/// Whether the sections of all rows are removed over a source.
fn are_removed_over<S: Source + Drop>(rt: &HostRuntime, src: S) -> bool {
    match Elf::begin(rt.alloc(), src) {
        Ok(mut elf) => {
            let removed = are_removed(rt, &mut elf);
            let _src = elf.end();
            removed
        }
        Err((_src, e)) => failed(rt, e),
    }
}

/// A source of the image in a form, of which the read of a number fails, or none where that is 0.
fn source_in(alloc: Global, form: ClassAndOrder, bad_read: u64) -> Result<MemSource, ElfError> {
    match bytes_in(alloc, form) {
        Ok(bytes) => source(alloc, bytes, bad_read),
        Err(e) => Err(e),
    }
}

/// Whether the sections of all rows are removed over the image in a form.
fn are_removed_in(rt: &HostRuntime, form: ClassAndOrder) -> bool {
    match source_in(rt.alloc(), form, 0) {
        Ok(src) => are_removed_over(rt, src),
        Err(e) => failed(rt, e),
    }
}

#[test]
fn sections_go_with_those_that_they_serve(rt: HostRuntime) {
    assert!(rt; are_removed_in(&rt, WIDE));
    assert!(rt; are_removed_in(&rt, NARROW));
}

/// Whether a failed read is told.
fn is_told<S: Source>(rt: &HostRuntime, elf: &mut Elf<S>) -> bool {
    match removed_by_name(rt.alloc(), elf, &Args::new(rt.alloc())) {
        Ok(_) => other(rt, &"a set of sections", "a failed read"),
        Err(e) => same(rt, &e, &ElfError::Read),
    }
}

/// Whether it is told over a source.
fn is_told_over<S: Source + Drop>(rt: &HostRuntime, src: S) -> bool {
    match Elf::begin(rt.alloc(), src) {
        Ok(mut elf) => {
            let told = is_told(rt, &mut elf);
            let _src = elf.end();
            told
        }
        Err((_src, e)) => failed(rt, e),
    }
}

/// Whether a read that fails is told: the tables are read, and then the names.
fn is_fault_told(rt: &HostRuntime) -> bool {
    match source_in(rt.alloc(), WIDE, 4) {
        Ok(src) => is_told_over(rt, src),
        Err(e) => failed(rt, e),
    }
}

#[test]
fn names_that_cannot_be_read_stop_it(rt: HostRuntime) {
    assert!(rt; is_fault_told(&rt));
}

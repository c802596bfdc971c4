//! Updates that are rejected put nothing.

use crate::counts::append_sections;
use crate::created::is_refused;
use elf_descriptor::Elf;
use elf_outside::{MemSource, Source};
use elf_types::constants::SHT_PROGBITS;
use elf_types::{DIRTY, DataId, ElfError, Part};
use std::alloc::Global;
use test_kit_images::{Field, ImageStart, NARROW, OBJECT, Put, Recipe, SectionField, image_of};
use test_kit_rows::{failed, in_row, other};
use test_kit_sources::source;

/// What is done to an object, so that its update is rejected.
#[derive(Clone, Copy)]
enum Spoil {
    /// The object is marked.
    Mark,
    /// The values of its symbols do not fit class 32.
    Values,
    /// An address of its first program header does not.
    Address,
    /// There are more sections than the header counts.
    Sections,
}

/// Raises the values of the symbols that are lent.
fn raise_values<S: Source>(rt: &HostRuntime, elf: &mut Elf<S>) -> bool {
    match elf.syms_mut(DataId {
        section: 2,
        piece: 0,
    }) {
        Ok(symbols) => {
            for symbol in symbols.as_mut_slice().iter_mut() {
                symbol.value = symbol.value.wrapping_add(1 << 32);
            }
            true
        }
        Err(e) => failed(rt, e),
    }
}

/// Raises the address of the first program header that is lent.
fn raise_address<S: Source>(elf: &mut Elf<S>) -> bool {
    match elf.phdrs_mut().get_mut(0) {
        Some(first) => {
            first.vaddr = 1 << 32;
            true
        }
        None => false,
    }
}

/// Does so to an object.
fn is_spoilt<S: Source>(rt: &HostRuntime, elf: &mut Elf<S>, spoil: Spoil) -> bool {
    match spoil {
        Spoil::Mark => elf.flag(Part::Object, true, DIRTY).is_ok(),
        Spoil::Values => raise_values(rt, elf),
        Spoil::Address => raise_address(elf),
        Spoil::Sections => append_sections(elf, 65_300),
    }
}

/// An image, what is done to its object, and the refusal of the update.
struct Row {
    recipe: Recipe,
    spoil: Spoil,
    by: ElfError,
}

/// A section that passes the end of the file.
static OUT: [Row; 1] = [Row {
    recipe: Recipe {
        puts: &[Put::Field(Field::Section(2, SectionField::Offset), u64::MAX)],
        ..OBJECT
    },
    spoil: Spoil::Mark,
    by: ElfError::OutOfFile { section: 2 },
}];

#[test]
fn a_section_out_of_the_file_is_refused(rt: HostRuntime) {
    assert!(rt; are_rows(&rt, &OUT));
}

/// What does not fit class 32, and a section 0 that would have bytes where it counts the sections.
static ROWS: [Row; 3] = [
    Row {
        recipe: Recipe {
            form: NARROW,
            ..OBJECT
        },
        spoil: Spoil::Values,
        by: ElfError::Unfit {
            part: Part::Piece(2, 0),
            index: 0,
        },
    },
    Row {
        recipe: Recipe {
            form: NARROW,
            start: ImageStart::TwoTables,
            ..OBJECT
        },
        spoil: Spoil::Address,
        by: ElfError::Unfit {
            part: Part::Segments,
            index: 0,
        },
    },
    Row {
        recipe: Recipe {
            puts: &[Put::Field(Field::Section(0, SectionField::Type), SHT_PROGBITS as u64)],
            ..OBJECT
        },
        spoil: Spoil::Sections,
        by: ElfError::TooMany,
    },
];

/// Whether the update of a row's object over a source is rejected.
fn is_row_over(rt: &HostRuntime, row: &Row, src: MemSource) -> bool {
    match Elf::begin(rt.alloc(), src) {
        Ok(mut elf) => is_spoilt(rt, &mut elf, row.spoil) && is_refused(rt, &mut elf, row.by),
        Err((_src, e)) => failed(rt, e),
    }
}

/// A source of the image of a row.
fn source_of(alloc: Global, row: &Row) -> Option<MemSource> {
    match image_of(alloc, &row.recipe) {
        Ok(image) => source(alloc, image.bytes, 0).ok(),
        Err(_) => None,
    }
}

/// Whether the object of a row is rejected as stated.
fn is_row(rt: &HostRuntime, row: &Row) -> bool {
    match source_of(rt.alloc(), row) {
        Some(src) => is_row_over(rt, row, src),
        None => other(rt, &"no source", "one of the image"),
    }
}

/// Whether the object of each row is rejected as stated.
fn are_rows(rt: &HostRuntime, rows: &[Row]) -> bool {
    for (n, row) in rows.iter().enumerate() {
        if !in_row(rt, n, is_row(rt, row)) {
            return false;
        }
    }
    true
}

#[test]
fn what_does_not_fit_is_refused(rt: HostRuntime) {
    assert!(rt; are_rows(&rt, &ROWS));
}

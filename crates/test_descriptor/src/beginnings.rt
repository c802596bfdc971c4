//! Descriptors that begin over images of all forms, and each refusal, with the source handed back.

use crate::rows::{DescriptorRow, Due, ROW, rows_are_so};
use crate::steps::{DescriptorStep, SYMBOLS_PIECE};
use elf_descriptor::Elf;
use elf_outside::{MemSource, Source};
use elf_types::constants::{EI_CLASS, EI_DATA, EI_VERSION, MAX_IMAGE, MAX_SECTIONS};
use elf_types::{ElfError, Kind};
use std::alloc::Global;
use test_kit_images::{
    BuiltImage, ClassAndOrder, FORMS, Field, HeaderField, ImageStart, OBJECT, Recipe, SectionField,
    WIDE, numbers_in_section_0,
};
use test_kit_rows::{failed, in_row, same, within};
use test_kit_sources::{Sparse, source};

/// There are two program headers and three sections, and no mark.
const FRONT_STEPS: &[DescriptorStep] = &[
    DescriptorStep::Counts(2, 3),
    DescriptorStep::Dirty(false),
    DescriptorStep::Pad(*b"padding"),
];

/// Fronts, of which nothing else is read.
static FRONTS: [DescriptorRow; 2] = [
    // the counts are in the header
    DescriptorRow {
        recipe: Recipe {
            start: ImageStart::TwoTables,
            ..OBJECT
        },
        steps: FRONT_STEPS,
        due: Some(Due {
            segments: 2,
            sections: 3,
            more: 0,
        }),
        ..ROW
    },
    // they are in section 0, which is read besides
    DescriptorRow {
        recipe: Recipe {
            start: ImageStart::NumbersInSection0,
            ..OBJECT
        },
        steps: FRONT_STEPS,
        due: Some(Due {
            segments: 2,
            sections: 4,
            more: 0,
        }),
        ..ROW
    },
];

#[test]
fn the_headers_are_read_and_nothing_else(rt: HostRuntime) {
    assert!(rt; rows_are_so(&rt, &FRONTS));
}

/// The symbol table has its home and one piece.
static TABLE: [DescriptorRow; 1] = [DescriptorRow {
    steps: &[
        DescriptorStep::SymbolsHome,
        DescriptorStep::Kind(SYMBOLS_PIECE, Ok(Kind::Sym)),
        DescriptorStep::Pieces(2, Ok(1)),
    ],
    ..ROW
}];

#[test]
fn each_section_has_its_home_and_one_piece(rt: HostRuntime) {
    assert!(rt; rows_are_so(&rt, &TABLE));
}

/// A field of an image, a number for it, the length of the source, and the refusal then.
type Fault = (Field, u64, u64, ElfError);

const FIRST_SIZE: Field = Field::Section(0, SectionField::Size);

/// Each refusal of a front, in its order, but for those of a read and for lack of memory.
const FAULTS: [Fault; 10] = [
    (Field::Ident(0), 0x7f, 15, ElfError::Short),
    (Field::Ident(0), 0x7e, 4096, ElfError::Magic),
    (Field::Ident(EI_CLASS), 3, 4096, ElfError::Class),
    (Field::Ident(EI_DATA), 0, 4096, ElfError::Order),
    (Field::Ident(EI_VERSION), 2, 4096, ElfError::Version),
    (
        Field::Header(HeaderField::Version),
        2,
        4096,
        ElfError::Version,
    ),
    (FIRST_SIZE, 3, MAX_IMAGE + 1, ElfError::TooLarge),
    (
        Field::Header(HeaderField::Shentsize),
        63,
        4096,
        ElfError::ShTable,
    ),
    (
        Field::Header(HeaderField::Phentsize),
        63,
        4096,
        ElfError::PhTable,
    ),
    (FIRST_SIZE, MAX_SECTIONS + 1, MAX_IMAGE, ElfError::TooMany),
];

/// More sections than any file has room for.
const HUGE_COUNT: Fault = (FIRST_SIZE, 1 << 60, 4096, ElfError::ShTable);

/// The source once more, and how it is rejected, if it is.
fn refusal<S: Source>(alloc: Global, src: S) -> (S, Option<ElfError>) {
    match Elf::begin(alloc, src) {
        Ok(elf) => (elf.end(), None),
        Err((src, e)) => (src, Some(e)),
    }
}

/// Whether a source is rejected so, comes back with its length, and is rejected again alike.
fn is_refused_twice(rt: &HostRuntime, src: Sparse, e: ElfError) -> bool {
    let len = src.len();
    let (src, first) = refusal(rt.alloc(), src);
    let (src, second) = refusal(rt.alloc(), src);
    same(rt, &first, &Some(e)) && same(rt, &second, &Some(e)) && same(rt, &src.len(), &len)
}

/// Whether an image, in which a fault is put, is rejected as stated.
fn is_refused_with(rt: &HostRuntime, mut image: BuiltImage, fault: &Fault) -> bool {
    image.put_field(fault.0, fault.1);
    is_refused_twice(rt, Sparse::new(image.bytes, fault.2), fault.3)
}

/// Whether a fault of an image is rejected as stated.
fn is_refused(rt: &HostRuntime, form: ClassAndOrder, fault: &Fault) -> bool {
    match numbers_in_section_0(rt.alloc(), form.0, form.1) {
        Ok(image) => is_refused_with(rt, image, fault),
        Err(e) => failed(rt, e),
    }
}

/// Whether each fault is rejected, in a form.
fn are_refused_in(rt: &HostRuntime, form: ClassAndOrder, faults: &[Fault]) -> bool {
    for (n, fault) in faults.iter().enumerate() {
        if !in_row(rt, n, is_refused(rt, form, fault)) {
            return false;
        }
    }
    true
}

/// Whether each fault is rejected, in all forms.
fn are_refused(rt: &HostRuntime, faults: &[Fault]) -> bool {
    for form in FORMS.iter() {
        if !within(rt, form, are_refused_in(rt, *form, faults)) {
            return false;
        }
    }
    true
}

#[test]
fn a_refused_source_comes_back(rt: HostRuntime) {
    assert!(rt; are_refused(&rt, &FAULTS));
    assert!(rt; is_refused(&rt, WIDE, &HUGE_COUNT));
}

/// How a source is rejected, and how it is when it came back.
type Twice = (Option<ElfError>, Option<ElfError>);

/// How a source is rejected twice.
fn refused_twice(alloc: Global, src: MemSource) -> Twice {
    let (src, first) = refusal(alloc, src);
    let (_src, second) = refusal(alloc, src);
    (first, second)
}

/// How a source is rejected whose read of a number fails.
fn refused_by_read(alloc: Global, bad_read: u64) -> Result<Twice, ElfError> {
    let image = numbers_in_section_0(alloc, WIDE.0, WIDE.1)?;
    match source(alloc, image.bytes, bad_read) {
        Ok(src) => Ok(refused_twice(alloc, src)),
        Err(e) => Err(e),
    }
}

/// The read fails, and the source that came back is not rejected.
const AT_FIRST: Twice = (Some(ElfError::Read), None);

/// The first read of the descriptor after it fails.
const AT_LAST: Twice = (None, Some(ElfError::Read));

/// Reads that fail, and the refusals then: of the identification, the rest of the header, section 0
/// and the two tables, and the sixth.
const READS: [(u64, Twice); 6] = [
    (1, AT_FIRST),
    (2, AT_FIRST),
    (3, AT_FIRST),
    (4, AT_FIRST),
    (5, AT_FIRST),
    (6, AT_LAST),
];

/// Whether reads that fail are rejected so.
fn come_back(rt: &HostRuntime, reads: &[(u64, Twice)]) -> bool {
    for (n, (bad_read, twice)) in reads.iter().enumerate() {
        if !in_row(
            rt,
            n,
            same(rt, &refused_by_read(rt.alloc(), *bad_read), &Ok(*twice)),
        ) {
            return false;
        }
    }
    true
}

#[test]
fn a_source_whose_read_failed_comes_back(rt: HostRuntime) {
    assert!(rt; come_back(&rt, &READS));
}

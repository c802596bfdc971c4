//! Tables for which no hash section is built.

use crate::hashes::images::{
    GNU, Question, SORTED, SYMBOLS, SYSV, is_answered, is_answered_within, is_refusal,
};
use elf_descriptor::Elf;
use elf_outside::Source;
use elf_types::{ElfError, Kind, ScnId};
use hash_build::{GnuShape, build_gnu, build_sysv, gnu_order};
use test_kit_images::{Field, ImageStart, Put, Recipe, SectionField, WIDE};

/// A shape.
const SHAPE: GnuShape = GnuShape {
    nbuckets: 2,
    bloom: 1,
    shift: 6,
};

/// Whether each call rejects a section so.
fn are_refused<S: Source>(rt: &HostRuntime, elf: &mut Elf<S>, s: ScnId, e: ElfError) -> bool {
    is_refusal(rt, &build_sysv(elf, s, 1), e)
        && is_refusal(rt, &gnu_order(elf, s, 1), e)
        && is_refusal(rt, &build_gnu(elf, s, SHAPE), e)
}

/// Sections that have no symbols, or are not there.
struct NoTable;

impl Question for NoTable {
    fn is_answered<S: Source>(&self, rt: &HostRuntime, elf: &mut Elf<S>) -> bool {
        let nowhere = ElfError::NoSection { index: 9, count: 5 };
        are_refused(rt, elf, ScnId(9), nowhere)
            && are_refused(rt, elf, SYSV, ElfError::WrongKind { held: Kind::Word })
            && are_refused(rt, elf, GNU, ElfError::WrongKind { held: Kind::Bytes })
    }
}

#[test]
fn other_sections_are_refused(rt: HostRuntime) {
    assert!(rt; is_answered(&rt, &NoTable, WIDE, &SORTED));
}

/// The length of a source that holds 2^32 symbols after the first 1,024 bytes.
const LONG: u64 = 1024 + 24 * 0x1_0000_0000;

/// The object with two symbols, whose table has 2^32 symbols there.
static MANY: Recipe = Recipe {
    form: WIDE,
    start: ImageStart::Symbols,
    puts: &[
        Put::Field(Field::Section(2, SectionField::Offset), 1024),
        Put::Field(Field::Section(2, SectionField::Size), 24 * 0x1_0000_0000),
    ],
};

/// More symbols than a section's words tell.
struct TooMany;

impl Question for TooMany {
    fn is_answered<S: Source>(&self, rt: &HostRuntime, elf: &mut Elf<S>) -> bool {
        are_refused(rt, elf, SYMBOLS, ElfError::TooMany)
    }
}

#[test]
fn more_symbols_than_words_tell_are_refused(rt: HostRuntime) {
    assert!(rt; is_answered_within(&rt, &TooMany, &MANY, LONG));
}

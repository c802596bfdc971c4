//! What elflint asks for of sections that overlap, and of sections that do not.

use elf_types::ElfError;
use elf_types::constants::SHT_STRTAB;
use std::alloc::Global;
use test_kit_images::{Field, ImageStart, OBJECT, Put, Recipe, SectionField, image_of};
use test_kit_rows::same;
use test_kit_runs::asked_by_elflint;

/// An object of 488 bytes with five sections of eight bytes, of which no rule reads one.
const FIVE: Recipe = Recipe {
    start: ImageStart::FiveSections,
    ..OBJECT
};

/// The object with five sections, where the first two are string tables, which rules 13 and 14
/// read.
static TWO_TABLES: Recipe = Recipe {
    puts: &[
        Put::Field(Field::Section(1, SectionField::Type), SHT_STRTAB as u64),
        Put::Field(Field::Section(2, SectionField::Type), SHT_STRTAB as u64),
    ],
    ..FIVE
};

/// The object with two string tables, where each of the two is the whole file.
static TWO_OVER_ONE_HOME: Recipe = Recipe {
    puts: &[
        Put::Field(Field::Section(1, SectionField::Type), SHT_STRTAB as u64),
        Put::Field(Field::Section(2, SectionField::Type), SHT_STRTAB as u64),
        Put::Field(Field::Section(1, SectionField::Offset), 0),
        Put::Field(Field::Section(1, SectionField::Size), 488),
        Put::Field(Field::Section(2, SectionField::Offset), 0),
        Put::Field(Field::Section(2, SectionField::Size), 488),
    ],
    ..FIVE
};

/// The five sections, which are lent.
static FRONT: Recipe = Recipe { ..FIVE };

/// How many bytes of an image elflint asks for.
fn asked_of(alloc: Global, recipe: &Recipe) -> Result<u64, ElfError> {
    match image_of(alloc, recipe) {
        Ok(image) => asked_by_elflint(alloc, image.bytes.as_slice()),
        Err(e) => Err(e),
    }
}

/// How many more it reads than of the five sections.
fn more_of(alloc: Global, recipe: &Recipe) -> Result<u64, ElfError> {
    let front = asked_of(alloc, &FRONT)?;
    let all = asked_of(alloc, recipe)?;
    Ok(all.saturating_sub(front))
}

#[test]
fn a_home_is_read_once_for_all_rules(rt: HostRuntime) {
    assert!(rt; same(&rt, &more_of(rt.alloc(), &TWO_TABLES), &Ok(16)));
}

#[test]
fn overlapping_homes_are_released_after_each_rule(rt: HostRuntime) {
    assert!(rt; same(&rt, &more_of(rt.alloc(), &TWO_OVER_ONE_HOME), &Ok(4 * 488)));
}

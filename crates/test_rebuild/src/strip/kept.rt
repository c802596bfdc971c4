//! The extended indexes and the names of the sections that are kept.

use crate::stream::sharing::is_shared;
use crate::strip::removed::{bytes_in, bytes_linked};
use elf_descriptor::Elf;
use elf_outside::Source;
use elf_types::{ElfError, Octets};
use rebuild_names::build_names;
use rebuild_numbers::kept::{extended_tables, renews_names};
use rebuild_select::{SectionSet, removed, removed_by_name};
use std::alloc::Global;
use test_kit_images::{ClassAndOrder, NARROW, WIDE};
use test_kit_rows::{failed, same, same_items};
use test_kit_sources::source;
use tool_text::Args;

/// The extended indexes of each section: 9 and 10 are such tables, of the symbols 5 and 6, and 9
/// goes.
const TABLES: [u32; 16] = [0, 0, 0, 0, 0, 0, 10, 0, 0, 0, 0, 0, 0, 0, 0, 0];

/// The names of the sections that are kept, in their order.
const TABLE: &[u8] = b"\0.text\0mine\0.line\0.debug_line_str\0";

/// The place of each section's name in that table.
const PLACES: [u32; 16] = [0, 1, 0, 0, 0, 0, 0, 0, 0, 0, 0, 7, 12, 18, 0, 0];

/// Whether the extended indexes are found.
fn has_tables<S: Source>(rt: &HostRuntime, elf: &Elf<S>, gone: &SectionSet) -> bool {
    match extended_tables(rt.alloc(), elf, gone) {
        Ok(tables) => same_items(rt, tables.as_slice(), TABLES.as_slice()),
        Err(e) => failed(rt, e),
    }
}

/// The names of all sections: two have a name of debug data, two one of a line table, and the
/// others that have none of their own have the empty one.
const ALL_NAMES: &[u8] = b"\0.text\0.debug_line_str\0mine\0.line\0";

/// The place of each section's name in that table.
const ALL_PLACES: [u32; 16] = [0, 1, 7, 0, 0, 0, 0, 0, 0, 0, 0, 23, 28, 7, 28, 0];

/// Whether the table of the names is rebuilt as this one, and the names have these places.
fn has_names<S: Source>(
    rt: &HostRuntime,
    elf: &mut Elf<S>,
    gone: &SectionSet,
    table: &[u8],
    places: &[u32],
) -> bool {
    match build_names(rt.alloc(), elf, gone) {
        Ok(names) => is_shared(rt, &names.table, table)
            && same_items(rt, names.places.as_slice(), places),
        Err(e) => failed(rt, e),
    }
}

/// What is asked of an image.
#[derive(Clone, Copy)]
enum Asked {
    /// Whether the extended indexes are found.
    Tables,
    /// Whether the names are rebuilt, or stay.
    Renews(bool),
    /// Whether they are rebuilt as they should.
    Names,
    /// Whether the names are rebuilt as they should where no section goes.
    AllNames,
}

/// What goes: nothing where all names are asked for, and else what strip removes.
fn gone_for<S: Source>(
    alloc: Global,
    elf: &mut Elf<S>,
    asked: Asked,
) -> Result<SectionSet, ElfError> {
    match asked {
        Asked::AllNames => removed_by_name(alloc, elf, &Args::new(alloc)),
        _ => removed(alloc, elf, false, &Args::new(alloc)),
    }
}

/// Whether it is so, where sections go.
fn answer_on<S: Source>(rt: &HostRuntime, elf: &mut Elf<S>, asked: Asked) -> bool {
    match gone_for(rt.alloc(), elf, asked) {
        Ok(gone) => match asked {
            Asked::Tables => has_tables(rt, elf, &gone),
            Asked::Renews(renews) => same(rt, &renews_names(elf, &gone), &renews),
            Asked::Names => has_names(rt, elf, &gone, TABLE, &PLACES),
            Asked::AllNames => has_names(rt, elf, &gone, ALL_NAMES, &ALL_PLACES),
        },
        Err(e) => failed(rt, e),
    }
}

/// Whether it is so of the image of a source.
fn answer_over<S: Source + Drop>(rt: &HostRuntime, src: S, asked: Asked) -> bool {
    match Elf::begin(rt.alloc(), src) {
        Ok(mut elf) => {
            let answer = answer_on(rt, &mut elf, asked);
            let _src = elf.end();
            answer
        }
        Err((_src, e)) => failed(rt, e),
    }
}

/// Whether it is so of an image of these bytes.
fn answer_of(rt: &HostRuntime, bytes: Octets, asked: Asked) -> bool {
    match source(rt.alloc(), bytes, 0) {
        Ok(src) => answer_over(rt, src, asked),
        Err(e) => failed(rt, e),
    }
}

/// Whether it is so of the image in a form.
fn answer_in(rt: &HostRuntime, form: ClassAndOrder, asked: Asked) -> bool {
    match bytes_in(rt.alloc(), form) {
        Ok(bytes) => answer_of(rt, bytes, asked),
        Err(e) => failed(rt, e),
    }
}

#[test]
fn extended_indexes_are_those_that_stay(rt: HostRuntime) {
    assert!(rt; answer_in(&rt, WIDE, Asked::Tables));
}

#[test]
fn names_are_rebuilt(rt: HostRuntime) {
    assert!(rt; answer_in(&rt, WIDE, Asked::Renews(true)));
    assert!(rt; answer_in(&rt, WIDE, Asked::Names));
    assert!(rt; answer_in(&rt, NARROW, Asked::Names));
}

#[test]
fn sections_of_one_name_have_one_place(rt: HostRuntime) {
    assert!(rt; answer_in(&rt, WIDE, Asked::AllNames));
    assert!(rt; answer_in(&rt, NARROW, Asked::AllNames));
}

/// Whether the names stay where a section that is kept links to them.
fn stay_linked(rt: &HostRuntime) -> bool {
    match bytes_linked(rt.alloc(), WIDE, 12) {
        Ok(bytes) => answer_of(rt, bytes, Asked::Renews(false)),
        Err(e) => failed(rt, e),
    }
}

#[test]
fn names_that_others_use_stay(rt: HostRuntime) {
    assert!(rt; stay_linked(&rt));
}

//! The places of what follows the base of a program.

ghost use Rattle.std.specs.Prelude.{◌≡◌, ◌==◌, ◌-◌, ◌^◌, ◌<◌, ◌≤◌, ◌⊎◌, length, min, true, false, Some};
ghost use Rattle.std.specs.Option.{SomeIff};
ghost use Rattle.elf_types.specs.Answers.{answered};
ghost use Rattle.rebuild_model.specs.elf_layout.Layout.{place_of, end_after, limit_of, some_above};
ghost use Rattle.rebuild_model.specs.elf_object.Words.{result_map};
ghost use Rattle.rebuild_model.specs.elf_object.Joined.{pieces_end};
ghost use Rattle.rebuild_model.specs.elf_object.Layout as stated;
ghost use Rattle.rebuild_model.specs.elf_object.Calls as calls;
ghost use Rattle.elf_update_plan.specs.elf_descriptor.Edits.{StepsTo, stepped};
ghost use Rattle.rebuild_model.specs.elf_object.Sections.{is_allocated, header_at};
ghost use Rattle.rebuild_model.specs.Arranged.{arranged, parts_from, table_place_from, tail_refusal};
ghost use Rattle.rebuild_making.specs.Placing.{is_movable, end_with, FitsBehind, MayStand, with_place, sections_from, made_of, arranged_refusal, placed_state, arranged_state};

use elf_types::constants::SHT_NULL;
use elf_types::{Class, Ehdr, ElfError, ScnId, Shdr};
use elf_update_plan::prelude::Elf;
use rebuild_model::prelude::{Source, occupies_file, rounded_within};

// ---- Where they are

/// The greatest place of a class.
#[tactic(auto, unfolding(rebuild_model::specs::Passed::limit_of))]
fn greatest_place(class: Class) -> u64
    ensures { result ≡ limit_of class }
{
    match class {
        Class::C32 => u32::MAX as u64,
        Class::C64 => 1 << 40,
    }
}

/// The alignment of the section header table.
fn table_alignment(class: Class) -> u64
    ensures { result ≡ stated.table_alignment class }
{
    match class {
        Class::C32 => 4,
        Class::C64 => 8,
    }
}

/// Whether a section is in memory when the program runs.
fn is_allocated(h: &Shdr) -> bool
    ensures { result ≡ is_allocated h.now }
{
    rebuild_model::prelude::elf_object_is_allocated(h)
}

/// Whether a section that is there must be placed: it is neither `SHT_NULL` nor allocated.
fn is_movable<S: Source>(elf: &Elf<S>, s: ScnId) -> bool
    requires { s.0 < length elf.now.o.sections }
    ensures { result ≡ is_movable elf.now.o s.0 }
{
    let h = elf.section_header(s);
    h.stype != SHT_NULL && !is_allocated(&h)
}

/// The size of the data of a section that is there, and 2^64 - 1 where it is more.
fn size_of_data<S: Source>(elf: &Elf<S>, s: ScnId) -> u64
    requires { s.0 < length elf.now.o.sections }
    ensures { result ≡ min (pieces_end elf.now.o s.0) (2 ^ 64 - 1) }
{
    match elf.data_size(s) {
        Ok(size) => size,
        Err(_) => unreachable!(),
    }
}

/// Where a section follows an end, one that is there and must be placed, and the end after it; None
/// exactly where one of the two is above the limit.
fn next_behind<S: Source>(elf: &Elf<S>, s: ScnId, end: u64, limit: u64) -> Option<(u64, u64)>
    requires there { s.0 < length elf.now.o.sections }
    requires first { 0 < s.0 }
    requires movable { is_movable elf.now.o s.0 ≡ true }
    requires limit { limit ≡ limit_of elf.now.o.header.class }
    ensures { SomeIff result (FitsBehind limit end (stated.section_part elf.now.o s.0)) (
      place_of end (stated.section_part elf.now.o s.0),
      end_after end (stated.section_part elf.now.o s.0),
    ) }
{
    let h = elf.section_header(s);
    let Some(place) = rounded_within(end, h.addralign, limit) else {
        return None;
    };
    if !occupies_file(&h) {
        return Some((place, end));
    }
    let len = size_of_data(elf, s);
    if len > limit - place {
        return None;
    }
    Some((place, place + len))
}

/// The end after a section that is there, where it must be placed after an end; None exactly where
/// its place or that end is above the limit.
fn next_end<S: Source>(elf: &Elf<S>, s: ScnId, end: u64, limit: u64) -> Option<u64>
    requires there { s.0 < length elf.now.o.sections }
    requires first { 0 < s.0 }
    requires limit { limit ≡ limit_of elf.now.o.header.class }
    ensures { SomeIff result (MayStand elf.now.o limit end s.0) (end_with elf.now.o end s.0) }
{
    if !is_movable(elf, s) {
        return Some(end);
    }
    match next_behind(elf, s, end, limit) {
        Some((_place, after)) => Some(after),
        None => None,
    }
}

/// Where the section header table follows the sections that must be placed after a tail; None
/// exactly where its place or that of one of them is above the limit. There are sections.
fn find_table_place<S: Source>(elf: &Elf<S>, tail: u64, limit: u64) -> Option<u64>
    requires some { 0 < length elf.now.o.sections }
    requires limit { limit ≡ limit_of elf.now.o.header.class }
    ensures { SomeIff result (some_above limit (parts_from elf.now.o tail) ≡ false)
        (table_place_from elf.now.o tail) }
{
    let mut end = tail;
    for s in 1..elf.shnum() {
        match next_end(elf, ScnId(s), end, limit) {
            Some(after) => end = after,
            None => return None,
        }
    }
    rounded_within(end, table_alignment(elf.ehdr().class), limit)
}

// ---- Places that are stored

/// Stores the place of a section that is there, after section 0; it is not above the limit.
fn store_place<S: Source>(elf: &mut Elf<S>, s: ScnId, place: u64)
    requires there { s.0 < length elf.old.o.sections }
    requires first { 0 < s.0 }
    requires fits { place ≤ limit_of elf.old.o.header.class }
    ensures { elf.new ≡ stepped
        (calls.update_shdr s.0 (record (header_at elf.old.o s.0) { offset = place })) elf.old }
{
    let _sound = elf.is_out_of_file(s);
    let h = Shdr {
        offset: place,
        ..elf.section_header(s)
    };
    match elf.update_shdr(s, &h) {
        Ok(()) => {}
        Err(_) => unreachable!(),
    }
}

/// Stores the place of a section after an end, where it must be placed, and returns the end after
/// it; neither is above the limit.
fn store_behind<S: Source>(elf: &mut Elf<S>, s: ScnId, end: u64, limit: u64) -> u64
    requires there { s.0 < length elf.old.o.sections }
    requires first { 0 < s.0 }
    requires limit { limit ≡ limit_of elf.old.o.header.class }
    requires fits { MayStand elf.old.o limit end s.0 }
    ensures end { result ≡ end_with elf.old.o end s.0 }
    ensures state { elf.new
        ≡ record elf.old { o = with_place elf.old.o end s.0; ready = elf.new.ready } }
{
    if !is_movable(elf, s) {
        return end;
    }
    match next_behind(elf, s, end, limit) {
        Some((place, after)) => {
            store_place(elf, s, place);
            after
        }
        None => unreachable!(),
    }
}

/// Stores the places of the sections that must be placed after a tail, none of which is above the
/// limit. There are sections.
fn store_places<S: Source>(elf: &mut Elf<S>, tail: u64, limit: u64)
    requires some { 0 < length elf.old.o.sections }
    requires limit { limit ≡ limit_of elf.old.o.header.class }
    requires fits { some_above limit (parts_from elf.old.o tail) ≡ false }
    ensures { elf.new ≡ record elf.old {
      o = record elf.old.o { sections = sections_from elf.old.o tail };
      ready = elf.new.ready;
    } }
{
    let mut end = tail;
    for s in 1..elf.shnum() {
        end = store_behind(elf, ScnId(s), end, limit);
    }
}

/// Stores the place of the section header table, which is not above the limit.
fn store_table_place<S: Source>(elf: &mut Elf<S>, place: u64)
    requires index { elf.old.o.header.shstrndx < length elf.old.o.sections }
    requires fits { place ≤ limit_of elf.old.o.header.class }
    ensures { elf.new
        ≡ stepped (calls.update_ehdr (record elf.old.o.header { shoff = place })) elf.old }
{
    let _sound = elf.is_out_of_file(ScnId(0));
    let header = Ehdr {
        shoff: place,
        ..elf.ehdr()
    };
    match elf.update_ehdr(&header) {
        Ok(()) => {}
        Err(_) => unreachable!(),
    }
}

/// Gives what is not loaded its places after a tail, as `arrange` does.
fn arrange_behind<S: Source>(elf: &mut Elf<S>, tail: u64) -> Result<(), ElfError>
    requires { (elf.old.o.header.shstrndx ≡ 0)
        ⊎ (elf.old.o.header.shstrndx < length elf.old.o.sections) }
    ensures answer { result ≡ answered (tail_refusal elf.old.o tail) tt }
    ensures state { StepsTo result elf.old elf.new (placed_state elf.old tail) }
{
    let count = elf.shnum();
    if count == 0 {
        return Ok(());
    }
    let limit = greatest_place(elf.ehdr().class);
    match find_table_place(elf, tail, limit) {
        Some(place) => {
            store_places(elf, tail, limit);
            store_table_place(elf, place);
            Ok(())
        }
        None => Err(ElfError::TooLarge),
    }
}

/// Gives the sections of a program that are not loaded, and then the section header table, their
/// places: one after the other, each at a multiple of its alignment, from the tail on. `SHT_NULL`
/// and allocated sections keep theirs; what is placed is marked. Without a tail, and without
/// sections, it changes nothing. The string index is 0 or below the count of sections. It fails
/// with `TooLarge` exactly where one of these places is above 2^40 (class 64) or 2^32 - 1 (class
/// 32), and then changes nothing. It reads nothing, takes no memory, and looks at each section
/// twice.
///
/// Source: gABI chapter 4, "Section Header", sh_offset and sh_addralign; gelf_update_shdr of
/// gelf(3E).
pub fn arrange<S: Source>(elf: &mut Elf<S>, tail: Option<u64>) -> Result<(), ElfError>
    requires { (elf.old.o.header.shstrndx ≡ 0)
        ⊎ (elf.old.o.header.shstrndx < length elf.old.o.sections) }
    ensures arranged { result_map (λ _. made_of elf.new.o tail) result
        ≡ arranged (made_of elf.old.o tail) }
    ensures answer { result ≡ answered (arranged_refusal elf.old.o tail) tt }
    ensures state { StepsTo result elf.old elf.new (arranged_state elf.old tail) }
{
    match tail {
        Some(from) => arrange_behind(elf, from),
        None => Ok(()),
    }
}

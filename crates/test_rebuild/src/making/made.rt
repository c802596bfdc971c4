//! Objects that are made, and where their parts are.

use elf_descriptor::Elf;
use elf_outside::Source;
use elf_types::constants::{SHF_ALLOC, SHT_NOBITS, SHT_PROGBITS};
use elf_types::{Class, ElfError, NULL_SECTION, Octets, Order, ScnId, Shdr};
use elf_xlate::Items;
use rebuild_making::{add_section, arrange, copy_segments, create_over_base, finish_header};
use test_kit_images::{OBJECT, image_of};
use test_kit_rows::{failed, in_row, other, same};
use test_kit_sources::source;

/// A section: its type, its flags, its alignment and its bytes.
type Row = (u32, u64, u64, &'static [u8]);

/// One that is loaded, and three that are not, of which one has no bytes in the file.
const SECTIONS: [Row; 4] = [
    (SHT_PROGBITS, SHF_ALLOC, 16, &[1, 2, 3]),
    (SHT_PROGBITS, 0, 8, &[4, 5, 6, 7, 8]),
    (SHT_NOBITS, 0, 64, &[]),
    (SHT_PROGBITS, 0, 1, &[9]),
];

/// Where they and section 0 are, when what is not loaded follows 100.
const PLACES: [u64; 5] = [0, 0, 104, 128, 109];

/// Where the table of their headers is then.
const TABLE: u64 = 112;

/// Whether a section is added.
fn is_added<S: Source>(rt: &HostRuntime, elf: &mut Elf<S>, row: &Row) -> bool {
    if elf.shnum() == 0 {
        return other(rt, &"no section", "section 0");
    }
    let (stype, flags, addralign, bytes) = *row;
    let header = Shdr {
        stype,
        flags,
        addralign,
        ..NULL_SECTION
    };
    match Octets::from_slice(elf.alloc(), bytes) {
        Ok(bytes) => same(rt, &add_section(elf, &header, Items::Bytes(bytes)), &Ok(())),
        Err(e) => failed(rt, e),
    }
}

/// Whether the sections are added, after section 0.
fn are_added<S: Source>(rt: &HostRuntime, elf: &mut Elf<S>) -> bool {
    if let Err(e) = elf.newnull() {
        return failed(rt, e);
    }
    for (n, row) in SECTIONS.iter().enumerate() {
        if !in_row(rt, n, is_added(rt, elf, row)) {
            return false;
        }
    }
    true
}

/// Whether a section is at a place.
fn stands_at<S: Source>(rt: &HostRuntime, elf: &Elf<S>, s: u32, place: u64) -> bool {
    match elf.shdr(ScnId(s)) {
        Ok(header) => same(rt, &header.offset, &place),
        Err(e) => failed(rt, e),
    }
}

/// Whether the sections are at their places, and so is the table of their headers.
fn stand<S: Source>(rt: &HostRuntime, elf: &Elf<S>) -> bool {
    for (s, place) in PLACES.iter().enumerate() {
        if !in_row(rt, s, stands_at(rt, elf, s as u32, *place)) {
            return false;
        }
    }
    same(rt, &elf.ehdr().shoff, &TABLE)
}

/// What giving places after a tail answers, where the header names no section.
fn arranged<S: Source>(elf: &mut Elf<S>, tail: u64) -> Result<(), ElfError> {
    if elf.shstrndx() != 0 {
        return Err(ElfError::Reserved);
    }
    arrange(elf, Some(tail))
}

/// Whether sections are added to an object and get their places, and not above the limit of the
/// class.
fn are_placed_in<S: Source>(rt: &HostRuntime, elf: &mut Elf<S>) -> bool {
    let mut placed = are_added(rt, elf);
    placed &= same(rt, &arranged(elf, 100), &Ok(()));
    placed &= stand(rt, elf);
    let too_large = arranged(elf, u32::MAX as u64);
    placed &= same(rt, &too_large, &Err(ElfError::TooLarge));
    placed && stand(rt, elf)
}

/// Whether they do in an object of class 32.
fn are_placed(rt: &HostRuntime) -> bool {
    let mut elf = Elf::create(rt.alloc(), Class::C32, Order::Greatest);
    are_placed_in(rt, &mut elf)
}

#[test]
fn sections_stand_behind_a_tail(rt: HostRuntime) {
    assert!(rt; are_placed(&rt));
}

/// Whether the program headers and the header of an object follow in another one.
fn follow_in<S: Source, T: Source>(rt: &HostRuntime, elf: &Elf<S>, made: &mut Elf<T>) -> bool {
    let mut followed = same(rt, &copy_segments(elf, made), &Ok(()));
    followed &= same(rt, &finish_header(elf, made, 4), &Ok(()));
    followed &= same(rt, &(made.phnum(), made.shstrndx()), &(2, 4));
    let refused = finish_header(elf, made, 5);
    followed
        && same(
            rt,
            &refused,
            &Err(ElfError::NoSection { index: 5, count: 5 }),
        )
}

/// Whether they do where the one has two program headers and the other one has the sections.
fn are_followed<S: Source, T: Source>(
    rt: &HostRuntime,
    elf: &mut Elf<S>,
    made: &mut Elf<T>,
) -> bool {
    same(rt, &elf.newphdr(2), &Ok(())) && are_added(rt, made) && follow_in(rt, elf, made)
}

/// Whether a new object gets the program headers and the header of another one.
fn is_followed_by_new<S: Source>(rt: &HostRuntime, elf: &mut Elf<S>) -> bool {
    let mut made = Elf::create(rt.alloc(), Class::C64, Order::Least);
    are_followed(rt, elf, &mut made)
}

/// Whether it gets those of an object that is new too.
fn is_followed(rt: &HostRuntime) -> bool {
    let mut elf = Elf::create(rt.alloc(), Class::C64, Order::Least);
    is_followed_by_new(rt, &mut elf)
}

#[test]
fn program_headers_and_the_header_follow(rt: HostRuntime) {
    assert!(rt; is_followed(&rt));
}

/// Whether an object has so many base bytes and no section.
fn has_base_alone<S: Source>(rt: &HostRuntime, made: &Elf<S>, n: u64) -> bool {
    same(rt, &(made.base_len(), made.shnum()), &(n, 0))
}

/// Whether an object is created over the first bytes of another one.
fn is_created_over<S: Source>(rt: &HostRuntime, elf: &mut Elf<S>, n: u64) -> bool {
    if elf.base_len() < n {
        return other(rt, &elf.base_len(), "a longer base");
    }
    match create_over_base(rt.alloc(), elf, Some(n)) {
        Ok(made) => {
            let so = has_base_alone(rt, &made, n);
            drop(made);
            so
        }
        Err(e) => failed(rt, e),
    }
}

/// Whether one is created over the header of the image of a source.
fn is_created_over_source<S: Source + Drop>(rt: &HostRuntime, src: S) -> bool {
    match Elf::begin(rt.alloc(), src) {
        Ok(mut elf) => {
            let created = is_created_over(rt, &mut elf, 64);
            let _src = elf.end();
            created
        }
        Err((_src, e)) => failed(rt, e),
    }
}

/// Whether one is created over the header of an image.
fn is_created_over_header(rt: &HostRuntime, bytes: Octets) -> bool {
    match source(rt.alloc(), bytes, 0) {
        Ok(src) => is_created_over_source(rt, src),
        Err(e) => failed(rt, e),
    }
}

#[test]
fn an_object_is_created_over_a_base(rt: HostRuntime) {
    let created = match image_of(rt.alloc(), &OBJECT) {
        Ok(image) => is_created_over_header(&rt, image.bytes),
        Err(e) => failed(&rt, e),
    };
    assert!(rt; created);
}

//! Objects that are made.

use crate::counts::append_sections;
use crate::puts::{are_all, has_bytes_at, image_put, put_by, puts, stops};
use elf_descriptor::Elf;
use elf_outside::{NoSource, Source};
use elf_types::constants::SHT_PROGBITS;
use elf_types::{Class, Ehdr, ElfError, LAYOUT, NULL_SECTION, Octets, Order, Part, ScnId, Shdr};
use elf_update_to::update_null;
use elf_xlate::Items;
use std::alloc::Global;
use test_kit_rows::{failed, other, same};

/// An object that is made.
#[derive(Clone, Copy)]
pub enum CreatedObject {
    /// Class 32 with two sections: one of three bytes at 64, and one of a byte at 68. The table of
    /// their headers is at 72. Gaps have the byte 170.
    TwoSections,
    /// Class 32 with so many sections that its header does not count them.
    ManySections,
    /// Class 64 with a section at 800,000 and the table of section headers before it, with a fill
    /// byte between them.
    FarSection(u8),
    /// The section at 800,000, and a second one that shares a place with it.
    SharedPlace,
    /// Class 32 with a section that ends at 2^32.
    LongSection,
}

/// Adds a piece of bytes.
fn add_bytes(elf: &mut Elf<NoSource>, s: ScnId, bytes: &[u8]) -> Result<(), ElfError> {
    let bytes = Octets::from_slice(elf.alloc(), bytes)?;
    match elf.newdata(s, Items::Bytes(bytes)) {
        Ok(_) => Ok(()),
        Err((_, e)) => Err(e),
    }
}

/// Adds a section of bytes with an alignment.
fn add_section(elf: &mut Elf<NoSource>, addralign: u64, bytes: &[u8]) -> Result<ScnId, ElfError> {
    let s = elf.newscn()?;
    let header = Shdr {
        stype: SHT_PROGBITS,
        addralign,
        ..NULL_SECTION
    };
    elf.update_shdr(s, &header)?;
    add_bytes(elf, s, bytes)?;
    Ok(s)
}

/// Adds two sections.
fn add_two(elf: &mut Elf<NoSource>) -> Result<(), ElfError> {
    elf.set_fill(170);
    add_section(elf, 16, &[1, 2, 3])?;
    add_section(elf, 4, &[4])?;
    Ok(())
}

/// Adds a section of bytes at a place.
fn add_at(elf: &mut Elf<NoSource>, offset: u64, bytes: &[u8]) -> Result<(), ElfError> {
    let s = add_section(elf, 1, bytes)?;
    let header = elf.shdr(s)?;
    elf.update_shdr(s, &Shdr { offset, ..header })
}

/// Puts the table of section headers to a place, under the caller's layout.
fn put_table(elf: &mut Elf<NoSource>, shoff: u64) -> Result<(), ElfError> {
    elf.flag(Part::Object, true, LAYOUT)?;
    let header = elf.ehdr();
    elf.update_ehdr(&Ehdr { shoff, ..header })
}

/// Adds the section at 800,000.
fn add_far(elf: &mut Elf<NoSource>, fill: u8) -> Result<(), ElfError> {
    elf.set_fill(fill);
    add_at(elf, 800_000, &[1, 2, 3])?;
    put_table(elf, 64)
}

/// Adds that section and one that shares its place.
fn add_shared(elf: &mut Elf<NoSource>) -> Result<(), ElfError> {
    add_far(elf, 0)?;
    add_at(elf, 800_001, &[4])?;
    put_table(elf, 300_000)
}

/// Adds the section that ends at 2^32.
fn add_long(elf: &mut Elf<NoSource>) -> Result<(), ElfError> {
    add_at(elf, 0xffff_fffc, &[1, 2, 3, 4])?;
    put_table(elf, 64)
}

/// Whether what an object has is put into it.
fn is_filled(elf: &mut Elf<NoSource>, made: CreatedObject) -> bool {
    match made {
        CreatedObject::TwoSections => add_two(elf).is_ok(),
        CreatedObject::ManySections => append_sections(elf, 65_299),
        CreatedObject::FarSection(fill) => add_far(elf, fill).is_ok(),
        CreatedObject::SharedPlace => add_shared(elf).is_ok(),
        CreatedObject::LongSection => add_long(elf).is_ok(),
    }
}

/// The object without anything in it.
fn empty(alloc: Global, made: CreatedObject) -> Elf<NoSource> {
    match made {
        CreatedObject::FarSection(_) | CreatedObject::SharedPlace => {
            Elf::create(alloc, Class::C64, Order::Greatest)
        }
        _ => Elf::create(alloc, Class::C32, Order::Least),
    }
}

/// What is asked of an object that is made.
#[derive(Clone, Copy)]
pub enum CreatedQuestion {
    /// Whether two sections are written, and in the same way again.
    Two,
    /// Whether an update that writes nothing stores the places of two sections and keeps marks.
    Places,
    /// Whether section 0 counts the sections in the image.
    Counts,
    /// Whether it is written with a gap, and where a put fails, the next time.
    Gap(u8),
    /// Whether an update is rejected by an error, and puts nothing.
    Refused(ElfError),
}

/// Whether an image has these two sections.
fn has_two_sections(rt: &HostRuntime, image: &Octets) -> bool {
    same(rt, &image.len(), &192)
        && has_bytes_at(rt, image, 52, &[170; 12])
        && has_bytes_at(rt, image, 64, &[1, 2, 3, 170, 4, 170, 170, 170, 0])
}

/// The place of a section, if it is there.
fn place_of(elf: &Elf<NoSource>, s: u32) -> Option<u64> {
    match elf.shdr(ScnId(s)) {
        Ok(header) => Some(header.offset),
        Err(_) => None,
    }
}

/// Whether an update that writes nothing stores their places, and keeps the marks.
fn are_placed(rt: &HostRuntime, elf: &mut Elf<NoSource>) -> bool {
    same(rt, &update_null(elf), &Ok(192))
        && same(rt, &place_of(elf, 1), &Some(64))
        && same(rt, &place_of(elf, 2), &Some(68))
        && same(rt, &elf.ehdr().shoff, &72)
        && elf.dirty()
}

/// Whether section 0 counts 65,300 sections in an image.
fn has_counts(rt: &HostRuntime, image: &Octets) -> bool {
    same(rt, &image.len(), &(52 + 65_300 * 40))
        && has_bytes_at(rt, image, 48, &[0, 0])
        && has_bytes_at(rt, image, 72, &[20, 255, 0, 0])
}

/// Whether an image has a gap of bytes between its table and its section.
fn has_gap(rt: &HostRuntime, image: &Octets, fill: u8) -> bool {
    same(rt, &image.len(), &800_003)
        && are_all(rt, image, 192, 800_000, fill)
        && has_bytes_at(rt, image, 800_000, &[1, 2, 3])
}

/// Whether the first update puts an image, and those that follow, where puts fail and none does.
fn is_put_again(rt: &HostRuntime, elf: &mut Elf<NoSource>, image: &[u8]) -> bool {
    puts(rt, elf, image)
        && stops(rt, elf, 1, image)
        && stops(rt, elf, 2, image)
        && stops(rt, elf, 3, image)
}

/// Whether an image that an object puts is as it should be.
fn is_as_asked(
    rt: &HostRuntime,
    elf: &mut Elf<NoSource>,
    image: &Octets,
    asked: CreatedQuestion,
) -> bool {
    match asked {
        CreatedQuestion::Two => has_two_sections(rt, image) && puts(rt, elf, image.as_slice()),
        CreatedQuestion::Counts => has_counts(rt, image),
        CreatedQuestion::Gap(fill) => has_gap(rt, image, fill)
            && is_put_again(rt, elf, image.as_slice()),
        _ => false,
    }
}

/// Whether an object puts such an image.
fn is_written(rt: &HostRuntime, elf: &mut Elf<NoSource>, asked: CreatedQuestion) -> bool {
    match image_put(elf) {
        Some(image) => is_as_asked(rt, elf, &image, asked),
        None => other(rt, &"no image", "an update that ends"),
    }
}

/// Whether an update is rejected by an error, and puts nothing.
pub fn is_refused<S: Source>(rt: &HostRuntime, elf: &mut Elf<S>, e: ElfError) -> bool {
    match put_by(elf, 0) {
        Ok((answer, bytes)) => same(rt, &answer, &Err(e)) && same(rt, &bytes.len(), &0),
        Err(e) => failed(rt, e),
    }
}

/// Whether an object answers so.
fn answers(rt: &HostRuntime, elf: &mut Elf<NoSource>, asked: CreatedQuestion) -> bool {
    match asked {
        CreatedQuestion::Places => are_placed(rt, elf),
        CreatedQuestion::Refused(e) => is_refused(rt, elf, e),
        _ => is_written(rt, elf, asked),
    }
}

/// Whether an object that is made is updated so.
pub fn created_answers(rt: &HostRuntime, made: CreatedObject, asked: CreatedQuestion) -> bool {
    let mut elf = empty(rt.alloc(), made);
    is_filled(&mut elf, made) && answers(rt, &mut elf, asked)
}

/// The image of one that is made.
pub fn image_of_made(alloc: Global, made: CreatedObject) -> Option<Octets> {
    let mut elf = empty(alloc, made);
    if is_filled(&mut elf, made) {
        return image_put(&mut elf);
    }
    None
}

#[test]
fn sections_are_aligned(rt: HostRuntime) {
    assert!(rt; created_answers(&rt, CreatedObject::TwoSections, CreatedQuestion::Two));
}

#[test]
fn places_are_stored(rt: HostRuntime) {
    assert!(rt; created_answers(&rt, CreatedObject::TwoSections, CreatedQuestion::Places));
}

#[test]
fn more_sections_than_a_header_counts_are_written(rt: HostRuntime) {
    assert!(rt; created_answers(&rt, CreatedObject::ManySections, CreatedQuestion::Counts));
}

#[test]
fn a_gap_of_pages_is_written(rt: HostRuntime) {
    assert!(rt; created_answers(&rt, CreatedObject::FarSection(0), CreatedQuestion::Gap(0)));
    assert!(rt; created_answers(&rt, CreatedObject::FarSection(9), CreatedQuestion::Gap(9)));
}

/// Two sections share a place.
const PAIR: ElfError = ElfError::Overlap {
    a: Part::Section(1),
    b: Part::Section(2),
};

#[test]
fn sections_that_share_a_place_are_refused(rt: HostRuntime) {
    assert!(rt;
        created_answers(
            &rt,
            CreatedObject::SharedPlace,
            CreatedQuestion::Refused(PAIR)
        )
    );
}

#[test]
fn an_image_past_the_range_of_its_class_is_refused(rt: HostRuntime) {
    assert!(rt;
        created_answers(
            &rt,
            CreatedObject::LongSection,
            CreatedQuestion::Refused(ElfError::TooLarge)
        )
    );
}

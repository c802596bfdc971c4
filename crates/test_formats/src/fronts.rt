//! Fronts that are read, in both classes and both orders.

mod refusals;

use elf_ident::{FileKind, Front, kind_of_source, read_front};
use elf_outside::MemSource;
use elf_types::{Class, Ehdr, ElfError, Octets, Order, Shdr};
use elf_xlate::{ehdr_size, phdr_size, shdr_size};
use std::alloc::Global;
use test_kit_images::{
    BuiltImage, FORMS, Field, NULL_SECTION, SectionField, SegmentField, filled, header_alone,
    header_of, numbers_in_section_0, two_tables,
};
use test_kit_rows::{failed, in_row, same, within};
use test_kit_sources::source;

/// First bytes of a file, its kind, and how many of them are asked for.
type Start = (&'static [u8], FileKind, u64);

static STARTS: [Start; 6] = [
    (b"!<arch>\n\x7fELF", FileKind::Archive, 8),
    (b"!<arch>", FileKind::Other, 7),
    (b"!<thin>\n", FileKind::Other, 8),
    (b"\x7fELF", FileKind::Elf, 4),
    (b"\x7fEL", FileKind::Other, 3),
    (b"", FileKind::Other, 0),
];

/// Whether a source is of a kind, and is asked for so many bytes for that.
fn is_of_kind(rt: &HostRuntime, src: &mut MemSource, kind: FileKind, asked: u64) -> bool {
    same(rt, &kind_of_source(src), &Ok(kind)) && same(rt, &src.asked(), &asked)
}

/// Whether the kind is told as stated.
fn is_told(rt: &HostRuntime, start: &Start) -> bool {
    match source_of(rt.alloc(), start.0) {
        Ok(mut src) => is_of_kind(rt, &mut src, start.1, start.2),
        Err(e) => failed(rt, e),
    }
}

/// A source of a text.
fn source_of(alloc: Global, text: &[u8]) -> Result<MemSource, ElfError> {
    match Octets::from_slice(alloc, text) {
        Ok(bytes) => source(alloc, bytes, 0),
        Err(e) => Err(e),
    }
}

/// Whether the kind of each start is told.
fn kinds_are_told(rt: &HostRuntime, starts: &[Start]) -> bool {
    for (n, start) in starts.iter().enumerate() {
        if !in_row(rt, n, is_told(rt, start)) {
            return false;
        }
    }
    true
}

#[test]
fn a_kind_is_told_by_eight_bytes(rt: HostRuntime) {
    assert!(rt; kinds_are_told(&rt, &STARTS));
}

/// An image, and how its front is.
#[derive(Clone, Copy)]
enum Shape {
    /// It is a header alone.
    Alone,
    /// It is a header with both tables, two program headers and three section headers.
    WithTables,
    /// The counts and the string index are those of section 0.
    Extended,
}

/// The bytes of a header, so many program headers and so many section headers.
fn tables_size(class: Class, segments: u64, sections: u64) -> u64 {
    let (header, segment, section) = (ehdr_size(class), phdr_size(class), shdr_size(class));
    (header as u64)
        .saturating_add(segments.saturating_mul(segment as u64))
        .saturating_add(sections.saturating_mul(section as u64))
}

/// How many bytes are read for the front.
fn size_of_front(shape: Shape, class: Class) -> u64 {
    match shape {
        Shape::Alone => tables_size(class, 0, 0),
        Shape::WithTables => tables_size(class, 2, 3),
        Shape::Extended => tables_size(class, 2, 4),
    }
}

/// Numbers, each byte of which is another.
const NUMBERS: [u64; 3] = [0x0102_0304, 0x0506_0708, 0x090a_0b0c];

/// An image with fields set in its first program header and its last section header.
fn with_numbers(alloc: Global, class: Class, order: Order) -> Result<BuiltImage, ElfError> {
    let mut image = two_tables(alloc, class, order)?;
    image.put_field(Field::Segment(0, SegmentField::Flags), NUMBERS[0]);
    image.put_field(Field::Segment(0, SegmentField::Align), NUMBERS[1]);
    image.put_field(Field::Section(2, SectionField::Entsize), NUMBERS[2]);
    Ok(image)
}

/// The image.
fn image_of(
    alloc: Global,
    shape: Shape,
    class: Class,
    order: Order,
) -> Result<BuiltImage, ElfError> {
    match shape {
        Shape::Alone => header_alone(alloc, class, order),
        Shape::WithTables => with_numbers(alloc, class, order),
        Shape::Extended => numbers_in_section_0(alloc, class, order),
    }
}

/// Whether a front has those fields.
fn has_numbers(rt: &HostRuntime, front: &Front) -> bool {
    let (Some(segment), Some(section)) = (front.phdrs.get(0), front.shdrs.get(2)) else {
        return false;
    };
    same(rt, &u64::from(segment.flags), &NUMBERS[0])
        && same(rt, &segment.align, &NUMBERS[1])
        && same(rt, &section.entsize, &NUMBERS[2])
}

/// Whether a front is that header alone.
fn is_alone(rt: &HostRuntime, front: &Front, header: &Ehdr) -> bool {
    same(rt, &front.ehdr, header) && front.phdrs.is_empty() && front.shdrs.is_empty()
}

/// Whether a front is that header, with both tables.
fn has_tables(rt: &HostRuntime, front: &Front, header: &Ehdr) -> bool {
    let whole = same(rt, &front.phdrs.len(), &2)
        && same(rt, &front.shdrs.len(), &3)
        && has_numbers(rt, front);
    let stands = same(rt, &front.written, &[2, 3, 1]) && same(rt, &front.pad, &*b"padding");
    same(rt, &front.ehdr, header) && whole && stands
}

/// Whether the counts and the string index are those of section 0.
fn is_extended(rt: &HostRuntime, front: &Front) -> bool {
    let counts = same(rt, &front.ehdr.phnum, &2) && same(rt, &front.ehdr.shnum, &3);
    counts
        && same(rt, &front.ehdr.shstrndx, &70_000)
        && same(rt, &front.written, &[0xffff, 0, 0xffff])
}

/// Whether a front is as stated.
fn is_front(rt: &HostRuntime, front: &Front, shape: Shape, header: &Ehdr) -> bool {
    match shape {
        Shape::Alone => is_alone(rt, front, header),
        Shape::WithTables => has_tables(rt, front, header),
        Shape::Extended => is_extended(rt, front),
    }
}

/// Whether the front of a source is, and nothing else is read.
fn is_read(rt: &HostRuntime, src: &mut MemSource, shape: Shape, header: &Ehdr) -> bool {
    match read_front(rt.alloc(), src) {
        Ok(front) => {
            is_front(rt, &front, shape, header)
                && same(rt, &src.asked(), &size_of_front(shape, header.class))
        }
        Err(e) => failed(rt, e),
    }
}

/// Whether the front of an image is read.
fn is_read_of(rt: &HostRuntime, shape: Shape, header: &Ehdr, bytes: Octets) -> bool {
    match source(rt.alloc(), bytes, 0) {
        Ok(mut src) => is_read(rt, &mut src, shape, header),
        Err(e) => failed(rt, e),
    }
}

/// Whether the front of the image in a form is read.
fn is_read_in(rt: &HostRuntime, shape: Shape, class: Class, order: Order) -> bool {
    match image_of(rt.alloc(), shape, class, order) {
        Ok(image) => {
            let header = image.header;
            is_read_of(rt, shape, &header, image.bytes)
        }
        Err(e) => failed(rt, e),
    }
}

/// Whether the front of the image is read in all forms.
fn are_read(rt: &HostRuntime, shape: Shape) -> bool {
    for (class, order) in FORMS.iter() {
        if !within(rt, &(class, order), is_read_in(rt, shape, *class, *order)) {
            return false;
        }
    }
    true
}

#[test]
fn a_header_alone_is_read(rt: HostRuntime) {
    assert!(rt; are_read(&rt, Shape::Alone));
}

#[test]
fn a_header_with_both_tables_is_read(rt: HostRuntime) {
    assert!(rt; are_read(&rt, Shape::WithTables));
}

#[test]
fn numbers_in_section_0_count(rt: HostRuntime) {
    assert!(rt; are_read(&rt, Shape::Extended));
}

/// Whether a front is rejected as `Read`, and then is read.
fn is_read_again(rt: &HostRuntime, src: &mut MemSource) -> bool {
    let refusal = read_front(rt.alloc(), src).err();
    same(rt, &refusal, &Some(ElfError::Read)) && read_front(rt.alloc(), src).is_ok()
}

/// Whether the front of these bytes is read after a failed read, which has a number.
fn is_named_of(rt: &HostRuntime, bytes: Octets, bad_read: u64) -> bool {
    match source(rt.alloc(), bytes, bad_read) {
        Ok(mut src) => is_read_again(rt, &mut src),
        Err(e) => failed(rt, e),
    }
}

/// Whether the front of the image whose numbers are in section 0 is read after a failed read.
fn is_named(rt: &HostRuntime, bad_read: u64) -> bool {
    match numbers_in_section_0(rt.alloc(), Class::C64, Order::Least) {
        Ok(image) => is_named_of(rt, image.bytes, bad_read),
        Err(e) => failed(rt, e),
    }
}

/// Whether the front is read after any failed read.
fn failed_reads_are_named(rt: &HostRuntime) -> bool {
    // The identification, the rest of the header, section 0, and the two tables.
    for bad_read in 1..6 {
        if !within(rt, &bad_read, is_named(rt, bad_read)) {
            return false;
        }
    }
    true
}

#[test]
fn a_failed_read_is_named(rt: HostRuntime) {
    assert!(rt; failed_reads_are_named(&rt));
}

/// How many section headers there are in a large table: those of two reads, and some more.
const LARGE: u32 = 2500;

/// The numbers of the first and the last section header of each read of it. They have their number
/// as their address, and the others are zeros.
static ENDS: [u64; 6] = [0, 1023, 1024, 2047, 2048, 2499];

/// Puts those section headers.
fn put_ends(image: &mut BuiltImage) -> Result<(), ElfError> {
    for number in ENDS.iter() {
        let header = Shdr {
            addr: *number,
            ..NULL_SECTION
        };
        image.put_section(*number, &header)?;
    }
    Ok(())
}

/// An image that is a header and a large table.
fn large_table(alloc: Global, class: Class, order: Order) -> Result<BuiltImage, ElfError> {
    let header = Ehdr {
        shoff: ehdr_size(class) as u64,
        shentsize: shdr_size(class) as u16,
        shnum: LARGE,
        ..header_of(class, order)
    };
    let mut image = BuiltImage::new(alloc, header, [0; 7])?;
    let put = put_ends(&mut image);
    filled(image, put)
}

/// The address of a section header of a large table.
fn address_of(number: u64) -> u64 {
    if ENDS.contains(&number) { number } else { 0 }
}

/// Whether a front has a large table.
fn has_large_table(rt: &HostRuntime, front: &Front) -> bool {
    for number in 0..u64::from(LARGE) {
        let Some(header) = front.shdrs.get(number) else {
            return false;
        };
        if header.addr != address_of(number) {
            return false;
        }
    }
    same(rt, &front.shdrs.len(), &u64::from(LARGE))
}

/// Whether the front of a source with a large table is read, and nothing else.
fn is_large(rt: &HostRuntime, src: &mut MemSource, class: Class) -> bool {
    match read_front(rt.alloc(), src) {
        Ok(front) => {
            has_large_table(rt, &front)
                && same(rt, &src.asked(), &tables_size(class, 0, u64::from(LARGE)))
        }
        Err(e) => failed(rt, e),
    }
}

/// Whether the front of these bytes, with a large table, is read.
fn is_large_of(rt: &HostRuntime, bytes: Octets, class: Class) -> bool {
    match source(rt.alloc(), bytes, 0) {
        Ok(mut src) => is_large(rt, &mut src, class),
        Err(e) => failed(rt, e),
    }
}

/// Whether the front with a large table is read in a form.
fn is_large_in(rt: &HostRuntime, class: Class, order: Order) -> bool {
    match large_table(rt.alloc(), class, order) {
        Ok(image) => is_large_of(rt, image.bytes, class),
        Err(e) => failed(rt, e),
    }
}

/// Whether the front with a large table is read in all forms.
fn large_tables_are_read(rt: &HostRuntime) -> bool {
    for (class, order) in FORMS.iter() {
        if !within(rt, &(class, order), is_large_in(rt, *class, *order)) {
            return false;
        }
    }
    true
}

#[test]
fn a_table_of_several_reads_is_whole(rt: HostRuntime) {
    assert!(rt; large_tables_are_read(&rt));
}

/// Whether a failed read of a large table is named.
fn is_large_named(rt: &HostRuntime, bad_read: u64) -> bool {
    match large_table(rt.alloc(), Class::C64, Order::Least) {
        Ok(image) => is_named_of(rt, image.bytes, bad_read),
        Err(e) => failed(rt, e),
    }
}

#[test]
fn a_failed_read_in_a_table_is_named(rt: HostRuntime) {
    // After the two of the header, the first and the last of the three of the table.
    assert!(rt; is_large_named(&rt, 3));
    assert!(rt; is_large_named(&rt, 5));
}

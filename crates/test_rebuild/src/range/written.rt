//! An image of four parts, two of which are ranges of the base.

use elf_layout::{PartAt, Parts};
use elf_outside::{MemSink, MemSource};
use elf_types::{Addrs, Class, ElfError, List, Octets, Order, Part};
use rebuild_image::ranges::{ByteRange, PartRanges, RangedImage, RangedParts};
use std::alloc::Global;
use strtab_shared::bytes::SharedBytes;
use test_kit_images::{ImageStart, Recipe, image_in};
use test_kit_rows::{in_row, other, same, within};
use test_kit_sources::source;
use tool_files::Image;

/// The image of which ranges are copied.
const FIVE: Recipe = Recipe {
    form: (Class::C64, Order::Least),
    start: ImageStart::FiveSections,
    puts: &[],
};

/// The bytes that are held.
const HELD: &[u8] = b"head-new";

/// What one image differs in from the next.
#[derive(Clone, Copy)]
struct Setting {
    /// The number of the read that fails, and 0 where none does.
    bad_read: u64,
    /// How many first bytes of the base are between the parts.
    kept: u64,
    /// The range of the section.
    section: ByteRange,
    /// The place of the section.
    at: u64,
}

/// A setting in which all fits: the section is at 10.
const WHOLE: Setting = Setting {
    bad_read: 0,
    kept: 18,
    section: ByteRange {
        held: false,
        at: 20,
        len: 6,
    },
    at: 10,
};

/// Settings in which something does not: the base has fewer bytes, the range ends after it, the
/// section has another length than its part, it is over the one before it or after the end.
const UNFIT: [Setting; 5] = [
    Setting {
        kept: 1_000_000,
        ..WHOLE
    },
    Setting {
        section: ByteRange {
            held: false,
            at: 1_000_000,
            len: 6,
        },
        ..WHOLE
    },
    Setting {
        section: ByteRange {
            held: false,
            at: 20,
            len: 5,
        },
        ..WHOLE
    },
    Setting { at: 3, ..WHOLE },
    Setting { at: 35, ..WHOLE },
];

/// A part of a plan.
fn part_at(part: Part, at: u64, len: u64) -> PartAt {
    PartAt {
        part,
        at,
        len,
        align: 1,
        filled: true,
    }
}

/// A range of the bytes that are held.
fn held(at: u64, len: u64) -> ByteRange {
    ByteRange {
        held: true,
        at,
        len,
    }
}

/// The plan: the header, section 1, and two tables.
fn plan_of(alloc: Global, setting: &Setting) -> Result<Parts, ElfError> {
    let parts = [
        part_at(Part::Header, 0, 4),
        part_at(Part::Section(1), setting.at, 6),
        part_at(Part::Segments, 20, 3),
        part_at(Part::Table, 30, 5),
    ];
    Parts::from_slice(alloc, &parts)
}

/// The ranges of the planned parts, of which these are the sections'.
fn ranges_with(sections: List<ByteRange>) -> PartRanges {
    PartRanges {
        header: held(0, 4),
        segments: held(5, 3),
        table: ByteRange {
            held: false,
            at: 0,
            len: 5,
        },
        sections,
    }
}

/// The ranges of the planned parts.
fn ranges_of(alloc: Global, setting: &Setting) -> Result<PartRanges, ElfError> {
    match List::from_slice(alloc, &[held(0, 0), setting.section]) {
        Ok(sections) => Ok(ranges_with(sections)),
        Err(e) => Err(e),
    }
}

/// Puts the bytes that are held, as two ranges of a text.
fn put_held(held: &mut SharedBytes) -> Result<(), ElfError> {
    held.hold(HELD)?;
    held.extend_near(&HELD[..6], 0)?;
    held.extend_near(&HELD[6..], 6)
}

/// The bytes that are held.
fn held_bytes(alloc: Global) -> Result<SharedBytes, ElfError> {
    let mut held = SharedBytes::new(alloc);
    match put_held(&mut held) {
        Ok(()) => Ok(held),
        Err(e) => Err(e),
    }
}

/// The bytes of the base.
fn base(alloc: Global) -> Result<Octets, ElfError> {
    match image_in(alloc, FIVE.form, &FIVE) {
        Ok(image) => Ok(image.bytes),
        Err(e) => Err(e),
    }
}

/// The source of the base.
fn source_of(alloc: Global, setting: &Setting) -> Result<MemSource, ElfError> {
    match base(alloc) {
        Ok(bytes) => source(alloc, bytes, setting.bad_read),
        Err(e) => Err(e),
    }
}

/// The parts of the image of a setting.
fn parts_of(alloc: Global, setting: &Setting) -> Result<RangedParts<MemSource>, ElfError> {
    let held = held_bytes(alloc)?;
    let ranges = ranges_of(alloc, setting)?;
    match source_of(alloc, setting) {
        Ok(source) => Ok(RangedParts {
            source,
            held,
            ranges,
            kept: setting.kept,
        }),
        Err(e) => Err(e),
    }
}

/// The image of a setting.
fn image_of(alloc: Global, setting: &Setting) -> Result<RangedImage<MemSource>, ElfError> {
    let plan = plan_of(alloc, setting)?;
    match parts_of(alloc, setting) {
        Ok(parts) => Ok(RangedImage {
            parts,
            plan,
            end: 40,
            alloc,
        }),
        Err(e) => Err(e),
    }
}

/// Puts the bytes that the whole image has over a base; none, where the base is too short.
fn put_expected(bytes: &mut Octets, base: &[u8]) -> Result<(), ElfError> {
    if base.len() < 64 {
        return Ok(());
    }
    bytes.extend(b"head")?;
    bytes.extend(&base[4..10])?;
    bytes.extend(&base[20..26])?;
    bytes.extend(&base[16..18])?;
    bytes.extend(&[0; 2])?;
    bytes.extend(b"new")?;
    bytes.extend(&[0; 7])?;
    bytes.extend(&base[0..5])?;
    bytes.extend(&[0; 5])
}

/// The bytes that the whole image has over a base.
fn expected_over(alloc: Global, base: &[u8]) -> Result<Octets, ElfError> {
    let mut bytes = Octets::new(alloc);
    match put_expected(&mut bytes, base) {
        Ok(()) => Ok(bytes),
        Err(e) => Err(e),
    }
}

/// The bytes that the whole image has.
fn expected(alloc: Global) -> Result<Octets, ElfError> {
    match base(alloc) {
        Ok(base) => expected_over(alloc, base.as_slice()),
        Err(e) => Err(e),
    }
}

/// What came of the writing of an image.
#[derive(Clone, Copy, Debug, PartialEq, Eq)]
enum Outcome {
    /// It can not be written.
    Unfit,
    /// It was written whole.
    Written,
    /// A read failed, and a prefix of it was written.
    Stopped,
    /// Anything else.
    Other,
}

/// How an image is written, by what a call returned, what it put, and the bytes of the image.
fn outcome_from(answer: Result<(), ElfError>, put: &[u8], bytes: &[u8]) -> Outcome {
    if answer == Ok(()) && put == bytes {
        return Outcome::Written;
    }
    if answer == Err(ElfError::Read) && bytes.starts_with(put) {
        return Outcome::Stopped;
    }
    Outcome::Other
}

/// How an image is written.
fn outcome_by(
    alloc: Global,
    image: &mut RangedImage<MemSource>,
    bytes: &[u8],
) -> Result<Outcome, ElfError> {
    if !image.is_ready() {
        return Ok(Outcome::Unfit);
    }
    let mut sink = MemSink::new(alloc, 64, Addrs::new(alloc))?;
    let answer = image.put_to(&mut sink);
    let put = sink.into_bytes();
    Ok(outcome_from(answer, put.as_slice(), bytes))
}

/// How the image of a setting is.
fn outcome_of(alloc: Global, setting: &Setting) -> Result<Outcome, ElfError> {
    let bytes = expected(alloc)?;
    let mut image = image_of(alloc, setting)?;
    outcome_by(alloc, &mut image, bytes.as_slice())
}

/// How many of the first twenty reads stop the writing where they fail; none where one of them
/// does anything else.
fn stops(rt: &HostRuntime) -> u32 {
    let mut count = 0u32;
    for bad_read in 1..21 {
        match outcome_of(rt.alloc(), &Setting { bad_read, ..WHOLE }) {
            Ok(Outcome::Stopped) => count = count.saturating_add(1),
            Ok(Outcome::Written) => {}
            answer => {
                let _said = within(rt, &bad_read, other(rt, &answer, "a read that stops it"));
                return 0;
            }
        }
    }
    count
}

/// Whether each of these settings does not fit.
fn are_unfit(rt: &HostRuntime, settings: &[Setting]) -> bool {
    for (n, setting) in settings.iter().enumerate() {
        let outcome = outcome_of(rt.alloc(), setting);
        if !in_row(rt, n, same(rt, &outcome, &Ok(Outcome::Unfit))) {
            return false;
        }
    }
    true
}

#[test]
fn an_image_is_written_from_ranges(rt: HostRuntime) {
    assert!(rt; same(&rt, &outcome_of(rt.alloc(), &WHOLE), &Ok(Outcome::Written)));
}

#[test]
fn each_read_that_fails_stops_it(rt: HostRuntime) {
    assert!(rt; same(&rt, &stops(&rt), &4));
}

#[test]
fn what_does_not_fit_is_told(rt: HostRuntime) {
    assert!(rt; are_unfit(&rt, &UNFIT));
}

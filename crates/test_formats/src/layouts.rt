//! The places of the parts of worked images, and the parts that share bytes.

mod limits;

use elf_layout::{PartAt, Parts, Places, overlap, place, ranks_by_position, rounded_within};
use elf_types::{Class, ElfError, Part};
use std::alloc::Global;
use test_kit_rows::{failed, in_row, same, same_items};

/// A number, an alignment, a limit, and the next multiple within the limit.
type Rounding = (u64, u64, u64, Option<u64>);

static ROUNDINGS: [Rounding; 9] = [
    (67, 0, 100, Some(67)),
    (67, 1, 100, Some(67)),
    (67, 8, 72, Some(72)),
    (67, 8, 71, None),
    (72, 8, 72, Some(72)),
    (67, 3, 100, Some(69)),
    (1, u64::MAX, u64::MAX, Some(u64::MAX)),
    (u64::MAX, 2, u64::MAX, None),
    (101, 1, 100, None),
];

/// Whether the numbers are rounded as stated.
fn are_rounded(rt: &HostRuntime, roundings: &[Rounding]) -> bool {
    for (k, (n, align, limit, multiple)) in roundings.iter().enumerate() {
        if !in_row(
            rt,
            k,
            same(rt, &rounded_within(*n, *align, *limit), multiple),
        ) {
            return false;
        }
    }
    true
}

#[test]
fn rounds_up_to_any_alignment(rt: HostRuntime) {
    assert!(rt; are_rounded(&rt, &ROUNDINGS));
}

/// A part with bytes in the file: its position, its length and its alignment.
type Row = (Part, u64, u64, u64);

/// A part that has its bytes in the file.
fn filled(row: Row) -> PartAt {
    let (part, at, len, align) = row;
    PartAt {
        part,
        at,
        len,
        align,
        filled: true,
    }
}

/// A part that has no bytes in the file.
fn bare(row: Row) -> PartAt {
    let (part, at, len, align) = row;
    PartAt {
        part,
        at,
        len,
        align,
        filled: false,
    }
}

/// Adds parts with bytes.
fn add(parts: &mut Parts, rows: &[Row]) -> Result<(), ElfError> {
    for row in rows {
        parts.push(filled(*row))?;
    }
    Ok(())
}

/// Parts with bytes.
fn parts_of(alloc: Global, rows: &[Row]) -> Result<Parts, ElfError> {
    let mut parts = Parts::new(alloc);
    add(&mut parts, rows)?;
    Ok(parts)
}

/// Whether parts are placed at these positions, and the image ends there.
fn stand_at(
    rt: &HostRuntime,
    placed: Result<Places, ElfError>,
    positions: &[u64],
    end: u64,
) -> bool {
    match placed {
        Ok(places) => same_items(rt, places.at.as_slice(), positions)
            && same(rt, &places.end, &end),
        Err(e) => failed(rt, e),
    }
}

/// A string table and a symbol table in class 64, in an image of 312 bytes.
static WIDE: [Row; 5] = [
    (Part::Header, 0, 64, 1),
    (Part::Segments, 64, 0, 1),
    (Part::Section(1), 64, 3, 1),
    (Part::Section(2), 72, 48, 8),
    (Part::Table, 120, 192, 8),
];

/// The positions of the parts in class 64.
static WIDE_AT: [u64; 5] = [0, 64, 64, 72, 120];

/// A string table and a symbol table in class 32, in an image of 208 bytes.
static NARROW: [Row; 5] = [
    (Part::Header, 0, 52, 1),
    (Part::Segments, 52, 0, 1),
    (Part::Section(1), 52, 3, 1),
    (Part::Section(2), 56, 32, 4),
    (Part::Table, 88, 120, 4),
];

/// The positions of the parts in class 32.
static NARROW_AT: [u64; 5] = [0, 52, 52, 56, 88];

/// Whether parts are placed at these positions, in order and where the caller puts them.
fn stay_at(rt: &HostRuntime, parts: &Parts, positions: &[u64], length: u64, class: Class) -> bool {
    let moved = place(rt.alloc(), parts, false, length, class);
    stand_at(rt, moved, positions, length)
        && stand_at(
            rt,
            place(rt.alloc(), parts, true, length, class),
            positions,
            length,
        )
}

/// Whether each part is placed where it is, and the image keeps its length.
fn stays(rt: &HostRuntime, rows: &[Row], positions: &[u64], length: u64, class: Class) -> bool {
    match parts_of(rt.alloc(), rows) {
        Ok(parts) => stay_at(rt, &parts, positions, length, class),
        Err(e) => failed(rt, e),
    }
}

#[test]
fn an_image_stands_where_it_stood(rt: HostRuntime) {
    assert!(rt; stays(&rt, &WIDE, &WIDE_AT, 312, Class::C64));
    assert!(rt; stays(&rt, &NARROW, &NARROW_AT, 208, Class::C32));
}

/// The parts of an image of class 64, the position of each, and the image's length.
struct Image {
    parts: &'static [Row],
    positions: &'static [u64],
    end: u64,
}

static IMAGES: [Image; 4] = [
    // data, a symbol table and two string tables
    Image {
        parts: &[
            (Part::Header, 0, 64, 1),
            (Part::Segments, 0, 0, 1),
            (Part::Section(1), 0, 2, 1),
            (Part::Section(2), 0, 48, 8),
            (Part::Section(3), 0, 4, 1),
            (Part::Section(4), 0, 31, 1),
            (Part::Table, 0, 320, 8),
        ],
        positions: &[0, 64, 64, 72, 120, 124, 160],
        end: 480,
    },
    // a program header and a third section with an alignment of 4
    Image {
        parts: &[
            (Part::Header, 0, 64, 1),
            (Part::Segments, 0, 56, 1),
            (Part::Section(1), 0, 3, 1),
            (Part::Section(2), 0, 48, 8),
            (Part::Section(3), 0, 2, 4),
            (Part::Table, 0, 256, 8),
        ],
        positions: &[0, 64, 120, 128, 176, 184],
        end: 440,
    },
    // one section of two pieces moves those after it
    Image {
        parts: &[
            (Part::Header, 0, 64, 1),
            (Part::Segments, 0, 0, 1),
            (Part::Section(1), 0, 8, 8),
            (Part::Section(2), 0, 16, 8),
            (Part::Section(3), 0, 8, 8),
            (Part::Table, 0, 256, 8),
        ],
        positions: &[0, 64, 64, 72, 88, 96],
        end: 352,
    },
    // a name table without names
    Image {
        parts: &[
            (Part::Header, 0, 64, 1),
            (Part::Segments, 0, 0, 1),
            (Part::Section(1), 0, 1, 1),
            (Part::Table, 0, 128, 8),
        ],
        positions: &[0, 64, 64, 72],
        end: 200,
    },
];

/// Whether an image is laid out as stated.
fn is_laid_out(rt: &HostRuntime, image: &Image) -> bool {
    match parts_of(rt.alloc(), image.parts) {
        Ok(parts) => stand_at(
            rt,
            place(rt.alloc(), &parts, false, 0, Class::C64),
            image.positions,
            image.end,
        ),
        Err(e) => failed(rt, e),
    }
}

/// Whether the images are laid out as stated.
fn are_laid_out(rt: &HostRuntime, images: &[Image]) -> bool {
    for (n, image) in images.iter().enumerate() {
        if !in_row(rt, n, is_laid_out(rt, image)) {
            return false;
        }
    }
    true
}

#[test]
fn sections_follow_the_program_headers(rt: HostRuntime) {
    assert!(rt; are_laid_out(&rt, &IMAGES));
}

/// The position, the length and the alignment of sections 1 to 3.
type Three = &'static [(u64, u64, u64)];

/// Adds sections, the first as number 1.
fn add_numbered(parts: &mut Parts, rows: &[(u64, u64, u64)]) -> Result<(), ElfError> {
    let mut number = 0u32;
    for (at, len, align) in rows {
        number = number.saturating_add(1);
        parts.push(filled((Part::Section(number), *at, *len, *align)))?;
    }
    Ok(())
}

/// Sections 1 to 3.
fn three(alloc: Global, rows: &[(u64, u64, u64)]) -> Result<Parts, ElfError> {
    let mut parts = Parts::new(alloc);
    add_numbered(&mut parts, rows)?;
    Ok(parts)
}

/// Three sections, their positions after one another, and where they end.
type Following = (Three, &'static [u64], u64);

static FOLLOWING: [Following; 3] = [
    // alignments of 0 and 3
    (&[(9, 64, 0), (9, 3, 0), (9, 5, 3)], &[0, 64, 69], 74),
    // an empty section moves the end to its alignment, and is no part of the length
    (&[(9, 65, 1), (9, 0, 16), (9, 1, 1)], &[0, 80, 80], 81),
    (&[(9, 65, 1), (9, 0, 16), (9, 0, 1)], &[0, 80, 80], 65),
];

/// Whether sections follow one another as stated.
fn follow(rt: &HostRuntime, following: &Following) -> bool {
    match three(rt.alloc(), following.0) {
        Ok(parts) => stand_at(
            rt,
            place(rt.alloc(), &parts, false, 1000, Class::C32),
            following.1,
            following.2,
        ),
        Err(e) => failed(rt, e),
    }
}

/// Adds sections 1 to 3, of which the second has no bytes in the file.
fn add_around_bare(parts: &mut Parts) -> Result<(), ElfError> {
    parts.push(filled((Part::Section(1), 9, 65, 1)))?;
    parts.push(bare((Part::Section(2), 9, 100, 16)))?;
    parts.push(filled((Part::Section(3), 9, 1, 1)))
}

/// The positions of those.
const AROUND_BARE: [u64; 3] = [0, 80, 65];

/// Whether a section without bytes has a position of its own and moves nothing.
fn bare_moves_nothing(rt: &HostRuntime) -> bool {
    let mut parts = Parts::new(rt.alloc());
    same(rt, &add_around_bare(&mut parts), &Ok(()))
        && stand_at(
            rt,
            place(rt.alloc(), &parts, false, 1000, Class::C32),
            &AROUND_BARE,
            66,
        )
}

/// Whether the sections of all rows follow one another as stated.
fn all_follow(rt: &HostRuntime, rows: &[Following]) -> bool {
    for (n, following) in rows.iter().enumerate() {
        if !in_row(rt, n, follow(rt, following)) {
            return false;
        }
    }
    true
}

#[test]
fn parts_follow_one_another(rt: HostRuntime) {
    assert!(rt; all_follow(&rt, &FOLLOWING));
}

#[test]
fn a_part_without_bytes_moves_nothing(rt: HostRuntime) {
    assert!(rt; bare_moves_nothing(&rt));
}

/// Three sections, and the first of them that a later one meets, with that one.
type Meeting = (Three, Option<(Part, Part)>);

static MEETINGS: [Meeting; 8] = [
    // they touch, and share one byte
    (&[(0, 64, 1), (64, 3, 1), (67, 1, 1)], None),
    (&[(0, 64, 1), (63, 1, 1), (64, 1, 1)], FIRST_TWO),
    // an empty part lies anywhere
    (&[(0, 64, 1), (10, 0, 1), (64, 1, 1)], None),
    // at one position the rank decides
    (&[(8, 4, 1), (8, 4, 1), (0, 8, 1)], FIRST_TWO),
    // the first that a later one meets, and the one next after it
    (&[(40, 2, 1), (0, 50, 1), (20, 5, 1)], LAST_TWO),
    (&[(0, 5, 1), (10, 9, 1), (12, 1, 1)], LAST_TWO),
    // ends past 2^64
    (&[(u64::MAX, 2, 1), (u64::MAX - 1, 1, 1), (0, 1, 1)], None),
    (
        &[(u64::MAX - 1, u64::MAX, 1), (u64::MAX, 1, 1), (0, 1, 1)],
        FIRST_TWO,
    ),
];

/// The second section meets the first.
const FIRST_TWO: Option<(Part, Part)> = Some((Part::Section(1), Part::Section(2)));

/// The third section meets the second.
const LAST_TWO: Option<(Part, Part)> = Some((Part::Section(2), Part::Section(3)));

/// The parts that share bytes where the caller places them, if that is what is rejected, and none
/// where nothing is but the length.
fn refused_pair(placed: Result<Places, ElfError>) -> Result<Option<(Part, Part)>, ElfError> {
    match placed {
        Ok(_) | Err(ElfError::TooLarge) => Ok(None),
        Err(ElfError::Overlap { a, b }) => Ok(Some((a, b))),
        Err(e) => Err(e),
    }
}

/// Whether sections meet as stated, and are rejected so where the caller places them.
fn meet(rt: &HostRuntime, parts: &Parts, pair: Option<(Part, Part)>) -> bool {
    same(
        rt,
        &refused_pair(place(rt.alloc(), parts, true, 0, Class::C64)),
        &Ok(pair),
    ) && same(rt, &overlap(rt.alloc(), parts.as_slice()), &Ok(pair))
}

/// Whether three parts meet as stated.
fn three_meet(rt: &HostRuntime, meeting: &Meeting) -> bool {
    match three(rt.alloc(), meeting.0) {
        Ok(parts) => meet(rt, &parts, meeting.1),
        Err(e) => failed(rt, e),
    }
}

/// Whether the parts of all rows meet as stated.
fn all_meet(rt: &HostRuntime, meetings: &[Meeting]) -> bool {
    for (n, meeting) in meetings.iter().enumerate() {
        if !in_row(rt, n, three_meet(rt, meeting)) {
            return false;
        }
    }
    true
}

#[test]
fn parts_share_no_byte(rt: HostRuntime) {
    assert!(rt; all_meet(&rt, &MEETINGS));
}

/// Three sections, and the ranks of those that are not empty, by their positions.
type Ranking = (Three, &'static [usize]);

static RANKINGS: [Ranking; 3] = [
    (&[(40, 2, 1), (0, 50, 1), (20, 5, 1)], &[1, 2, 0]),
    // at one position the rank decides
    (&[(8, 4, 1), (8, 4, 1), (0, 8, 1)], &[2, 0, 1]),
    // an empty part has none
    (&[(5, 1, 1), (0, 0, 1), (4, 9, 1)], &[2, 0]),
];

/// Whether parts are ranked as stated.
fn have_ranks(rt: &HostRuntime, parts: &[PartAt], ranks: &[usize]) -> bool {
    match ranks_by_position(rt.alloc(), parts) {
        Ok(found) => same_items(rt, found.as_slice(), ranks),
        Err(e) => failed(rt, e),
    }
}

/// Whether sections are ranked as stated.
fn are_ranked(rt: &HostRuntime, ranking: &Ranking) -> bool {
    match three(rt.alloc(), ranking.0) {
        Ok(parts) => have_ranks(rt, parts.as_slice(), ranking.1),
        Err(e) => failed(rt, e),
    }
}

/// Whether the sections of all rows are ranked as stated.
fn all_are_ranked(rt: &HostRuntime, rankings: &[Ranking]) -> bool {
    for (n, ranking) in rankings.iter().enumerate() {
        if !in_row(rt, n, are_ranked(rt, ranking)) {
            return false;
        }
    }
    true
}

#[test]
fn ranks_go_by_position(rt: HostRuntime) {
    assert!(rt; all_are_ranked(&rt, &RANKINGS));
}

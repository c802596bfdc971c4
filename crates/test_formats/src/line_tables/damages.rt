//! Units that are damaged, and the place and the cause by which each is rejected.

use super::{SMALL_UNIT, UNIT_OF_EVERY_OPCODE, WIDE, next_of};
use elf_types::{Class, ElfError, Octets, Order};
use line_table::{LineFault, LineWhy, unit_at};
use std::alloc::Global;
use test_kit_rows::{failed, in_row, same};

/// Bytes that are changed.
type Changes = &'static [(usize, u8)];

/// Changes of bytes of the small unit, and the place and the cause of the fault that they make.
type Damage = (Changes, u64, LineWhy);

/// Damages of each field.
static DAMAGES: [Damage; 21] = [
    (
        &[(0, 0xf0), (1, 0xff), (2, 0xff), (3, 0xff)],
        0,
        LineWhy::Form,
    ),
    (
        &[(0, 0xef), (1, 0xff), (2, 0xff), (3, 0xff)],
        0,
        LineWhy::Cut,
    ),
    (&[(0, 0x2f)], 0, LineWhy::Cut),
    (&[(0, 1)], 0, LineWhy::Cut),
    (&[(4, 1)], 0, LineWhy::Version),
    (&[(4, 5), (0, 2)], 0, LineWhy::Version),
    (&[(0, 0x13)], 0, LineWhy::Cut),
    (&[(4, 4), (11, 2), (0, 0x10)], 0, LineWhy::Ops),
    (&[(4, 4), (0, 0x10)], 0, LineWhy::Cut),
    (&[(0, 0x14), (14, 0)], 0, LineWhy::Cut),
    (&[(14, 0)], 0, LineWhy::Header),
    (&[(6, 0x29)], 0, LineWhy::Header),
    (&[(6, 0x16)], 0, LineWhy::Header),
    (&[(13, 0), (48, 0)], 44, LineWhy::Range),
    (&[(13, 0), (44, 8)], 44, LineWhy::Range),
    (&[(48, 0)], 47, LineWhy::Cut),
    (&[(34, 0x10)], 33, LineWhy::Cut),
    (&[(34, 0x0f)], 33, LineWhy::Address),
    (&[(34, 8)], 33, LineWhy::Address),
    (&[(49, 3)], 47, LineWhy::Cut),
    (&[(47, 2), (48, 0x80), (49, 0x80)], 47, LineWhy::Cut),
];

/// Changes a byte, where it is there.
fn change(bytes: &mut [u8], place: usize, byte: u8) {
    if let Some(changed) = bytes.get_mut(place) {
        *changed = byte;
    }
}

/// A unit with some bytes changed.
fn damaged(alloc: Global, unit: &[u8], changes: &[(usize, u8)]) -> Result<Octets, ElfError> {
    let mut bytes = Octets::from_slice(alloc, unit)?;
    for (place, byte) in changes {
        change(bytes.as_mut_slice(), *place, *byte);
    }
    Ok(bytes)
}

/// Whether a unit with some bytes changed is rejected so.
fn is_refused(
    rt: &HostRuntime,
    unit: &[u8],
    changes: &[(usize, u8)],
    at: u64,
    why: LineWhy,
) -> bool {
    match damaged(rt.alloc(), unit, changes) {
        Ok(bytes) => same(
            rt,
            &next_of(rt.alloc(), bytes.as_slice(), 0),
            &Err(LineFault::Bad { at, why }),
        ),
        Err(e) => failed(rt, e),
    }
}

/// Whether the damages of a unit are.
fn damages_are_refused(rt: &HostRuntime, unit: &[u8], damages: &[Damage]) -> bool {
    for (n, (changes, at, why)) in damages.iter().enumerate() {
        if !in_row(rt, n, is_refused(rt, unit, changes, *at, *why)) {
            return false;
        }
    }
    true
}

#[test]
fn names_the_first_fault(rt: HostRuntime) {
    assert!(rt; damages_are_refused(&rt, SMALL_UNIT, &DAMAGES));
}

/// Opcode 13 of the unit of every opcode, which is at 84, is to have 255 operands.
static OPERANDS: [Damage; 1] = [(&[(28, 255)], 84, LineWhy::Cut)];

#[test]
fn operands_that_pass_the_unit_are_a_fault(rt: HostRuntime) {
    assert!(rt; damages_are_refused(&rt, UNIT_OF_EVERY_OPCODE, &OPERANDS));
}

#[test]
fn causes_have_texts(rt: HostRuntime) {
    assert!(rt; LineWhy::Cut.text() == "cut");
}

/// A range of lines of 0, which is no fault where nothing is divided by it, and a program that does
/// not divide.
const UNDIVIDED: [(usize, u8); 2] = [(13, 0), (44, 1)];

/// How many rows a unit has.
fn rows_in(alloc: Global, section: &[u8]) -> Option<u64> {
    match unit_at(alloc, section, 0, WIDE.0, WIDE.1) {
        Ok(Some(unit)) => Some(unit.rows.len()),
        _ => None,
    }
}

/// How many rows the unit has that does not divide.
fn undivided_rows(alloc: Global) -> Option<u64> {
    match damaged(alloc, SMALL_UNIT, &UNDIVIDED) {
        Ok(unit) => rows_in(alloc, unit.as_slice()),
        Err(_) => None,
    }
}

#[test]
fn divides_by_the_range_of_lines_alone(rt: HostRuntime) {
    assert!(rt; undivided_rows(rt.alloc()) == Some(2));
}

/// What is changed of three units: nothing, a range of lines of 0, and the version.
const THREE: [Changes; 3] = [&[], &[(13, 0)], &[(4, 5)]];

/// Appends the small unit with some bytes changed.
fn put_damaged(alloc: Global, section: &mut Octets, changes: Changes) -> Result<(), ElfError> {
    let unit = damaged(alloc, SMALL_UNIT, changes)?;
    section.extend(unit.as_slice())
}

/// Appends the three units.
fn put_three(alloc: Global, section: &mut Octets) -> Result<(), ElfError> {
    for changes in THREE {
        put_damaged(alloc, section, changes)?;
    }
    Ok(())
}

/// The units of the section at their places: where the first ends, and two faults.
static PLACES: [(usize, Result<u64, LineFault>); 3] = [
    (0, Ok(50)),
    (
        50,
        Err(LineFault::Bad {
            at: 94,
            why: LineWhy::Range,
        }),
    ),
    (
        100,
        Err(LineFault::Bad {
            at: 100,
            why: LineWhy::Version,
        }),
    ),
];

/// Whether the units are told so.
fn are_placed(
    rt: &HostRuntime,
    section: &[u8],
    places: &[(usize, Result<u64, LineFault>)],
) -> bool {
    for (n, (place, told)) in places.iter().enumerate() {
        if !in_row(rt, n, same(rt, &next_of(rt.alloc(), section, *place), told)) {
            return false;
        }
    }
    true
}

/// Whether the three units are told so.
fn three_are_placed(rt: &HostRuntime, places: &[(usize, Result<u64, LineFault>)]) -> bool {
    let mut section = Octets::new(rt.alloc());
    same(rt, &put_three(rt.alloc(), &mut section), &Ok(()))
        && are_placed(rt, section.as_slice(), places)
}

#[test]
fn places_are_those_in_the_section(rt: HostRuntime) {
    assert!(rt; three_are_placed(&rt, &PLACES));
}

/// The fault of a unit in a class.
fn fault_in(alloc: Global, section: &[u8], class: Class) -> Option<LineFault> {
    unit_at(alloc, section, 0, class, Order::Least).err()
}

/// The length is cut.
const CUT: LineFault = LineFault::Bad {
    at: 0,
    why: LineWhy::Cut,
};

/// An address is too wide.
const ADDRESS: LineFault = LineFault::Bad {
    at: 33,
    why: LineWhy::Address,
};

/// Whether a section that is too short is rejected, and a class whose addresses are.
fn too_small_is_refused(rt: &HostRuntime) -> bool {
    let shorter = SMALL_UNIT.get(..49).unwrap_or(&[]);
    let cut = same(rt, &fault_in(rt.alloc(), shorter, Class::C64), &Some(CUT));
    cut && same(
        rt,
        &fault_in(rt.alloc(), SMALL_UNIT, Class::C32),
        &Some(ADDRESS),
    )
}

#[test]
fn refuses_what_the_section_or_the_class_is_too_small_for(rt: HostRuntime) {
    assert!(rt; too_small_is_refused(&rt));
}

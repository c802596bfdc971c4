//! Objects without sections and program headers, and the most of them that there may be.

use crate::steps::{DescriptorStep, Given, answers_all};
use elf_descriptor::Elf;
use elf_types::constants::{MAX_PIECES, MAX_SECTIONS, PN_XNUM};
use elf_types::{Class, DIRTY, ElfError, Order, Part, ScnId};

/// Whether an object without sections and program headers answers steps.
fn are_answered(rt: &HostRuntime, steps: &[DescriptorStep]) -> bool {
    answers_all(
        rt,
        &mut Elf::create(rt.alloc(), Class::C32, Order::Least),
        steps,
    )
}

/// As many program headers as the header can count, 2^20 sections with section 0, and 2^20 pieces
/// of section 1, and no more.
static MOST: [DescriptorStep; 9] = [
    DescriptorStep::Newphdr(PN_XNUM - 1, Ok(())),
    DescriptorStep::Newphdr(PN_XNUM, Err(ElfError::TooMany)),
    DescriptorStep::Counts(PN_XNUM - 1, 0),
    DescriptorStep::Sections(MAX_SECTIONS - 1),
    DescriptorStep::Counts(PN_XNUM - 1, MAX_SECTIONS as u32),
    DescriptorStep::Newscn(Err(ElfError::TooMany)),
    DescriptorStep::EmptyPieces(1, MAX_PIECES),
    DescriptorStep::Add(1, None, Given::Bytes(&[]), Err(ElfError::TooMany)),
    DescriptorStep::Pieces(1, Ok(MAX_PIECES as u32)),
];

#[test]
fn program_headers_sections_and_pieces_end_at_their_greatest_number(rt: HostRuntime) {
    assert!(rt; are_answered(&rt, &MOST));
}

/// The first two sections of an object have the numbers 1 and 2, after section 0.
static NUMBERED: [DescriptorStep; 4] = [
    DescriptorStep::Newscn(Ok(ScnId(1))),
    DescriptorStep::Newscn(Ok(ScnId(2))),
    DescriptorStep::Counts(0, 3),
    DescriptorStep::Flags(Part::Section(0), Ok(DIRTY)),
];

/// Section 0 is made where there is none, and nothing where it is there.
static MADE_ONCE: [DescriptorStep; 5] = [
    DescriptorStep::Newnull(Ok(())),
    DescriptorStep::Flags(Part::Section(0), Ok(DIRTY)),
    DescriptorStep::Newscn(Ok(ScnId(1))),
    DescriptorStep::Newnull(Ok(())),
    DescriptorStep::Counts(0, 2),
];

#[test]
fn section_0_comes_with_the_first_or_alone(rt: HostRuntime) {
    assert!(rt; are_answered(&rt, &NUMBERED));
    assert!(rt; are_answered(&rt, &MADE_ONCE));
}

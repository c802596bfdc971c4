//! Files that are no halves of one program.

use crate::split::answers::{UnstripAnswer, comes_of, comes_of_twists};
use crate::split::images::{Twist, program};
use rebuild_join::joined::UnstripFault;
use test_kit_images::{FORMS, Field, HeaderField, SectionField, SegmentField};
use test_kit_rows::{failed, in_row, within};

/// Two files that do not match.
const MISMATCH: UnstripAnswer = UnstripAnswer::Fault(UnstripFault::Mismatch);

/// Fields that differ between two files that do not match.
static TWISTS: [Twist; 23] = [
    (Field::Ident(7), 3),
    (Field::Ident(8), 1),
    (Field::Header(HeaderField::Type), 3),
    (Field::Header(HeaderField::Machine), 3),
    (Field::Header(HeaderField::Entry), 8),
    (Field::Header(HeaderField::Flags), 1),
    (Field::Header(HeaderField::Phnum), 0),
    (Field::Segment(0, SegmentField::Type), 2),
    (Field::Segment(0, SegmentField::Flags), 4),
    (Field::Segment(0, SegmentField::Offset), 8),
    (Field::Segment(0, SegmentField::Vaddr), 8),
    (Field::Segment(0, SegmentField::Paddr), 8),
    (Field::Segment(0, SegmentField::Filesz), 7),
    (Field::Segment(0, SegmentField::Memsz), 9),
    (Field::Segment(0, SegmentField::Align), 8),
    (Field::Section(1, SectionField::Flags), 6),
    (Field::Section(1, SectionField::Addr), 8),
    (Field::Section(2, SectionField::Size), 7),
    (Field::Section(2, SectionField::Addralign), 4),
    (Field::Section(3, SectionField::Entsize), 1),
    (Field::Section(3, SectionField::Size), 33),
    (Field::Section(4, SectionField::Flags), 2),
    (Field::Section(2, SectionField::Flags), 1),
];

/// Whether the program does not match itself with such a field, as the one half and as the other.
fn differs(rt: &HostRuntime, twist: Twist) -> bool {
    comes_of_twists(rt, &[twist], &[], MISMATCH) && comes_of_twists(rt, &[], &[twist], MISMATCH)
}

/// Whether each such field tells.
fn each_field_tells(rt: &HostRuntime, twists: &[Twist]) -> bool {
    for (n, twist) in twists.iter().enumerate() {
        if !in_row(rt, n, differs(rt, *twist)) {
            return false;
        }
    }
    true
}

#[test]
fn each_field_of_a_half_tells(rt: HostRuntime) {
    assert!(rt; each_field_tells(&rt, &TWISTS));
}

/// Whether programs of two forms match exactly where that is one form; then they are merged to the
/// program.
fn forms_tell(rt: &HostRuntime, one: usize, other: usize) -> bool {
    let whole = match program(rt.alloc(), FORMS[one % 4], &[]) {
        Ok(whole) => whole,
        Err(e) => return failed(rt, e),
    };
    let answer = if one == other {
        UnstripAnswer::Debug
    } else {
        MISMATCH
    };
    match program(rt.alloc(), FORMS[other % 4], &[]) {
        Ok(next) => comes_of(rt, &whole, &next, answer),
        Err(e) => failed(rt, e),
    }
}

/// Whether programs of each two forms match exactly where these are one form.
fn each_form_tells(rt: &HostRuntime) -> bool {
    for one in 0..4usize {
        for other in 0..4usize {
            if !within(rt, &(one, other), forms_tell(rt, one, other)) {
                return false;
            }
        }
    }
    true
}

#[test]
fn class_and_order_tell(rt: HostRuntime) {
    assert!(rt; each_form_tells(&rt));
}

/// Fields that may differ, besides the bytes of loaded sections: a name, and what the others are.
static FREE: [Twist; 4] = [
    (Field::Section(1, SectionField::Name), 1),
    (Field::Section(4, SectionField::Info), 7),
    (Field::Section(4, SectionField::Addr), 9),
    (Field::Section(4, SectionField::Flags), 1),
];

/// Whether the debug half may differ in each such field, and then the joined file does.
fn each_other_is_free(rt: &HostRuntime, twists: &[Twist]) -> bool {
    for (n, twist) in twists.iter().enumerate() {
        let so = comes_of_twists(rt, &[], &[*twist], UnstripAnswer::Debug);
        if !in_row(rt, n, so) {
            return false;
        }
    }
    true
}

#[test]
fn other_fields_are_those_of_the_debug_file(rt: HostRuntime) {
    assert!(rt; each_other_is_free(&rt, &FREE));
}

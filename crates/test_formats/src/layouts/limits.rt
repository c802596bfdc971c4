//! How far images may reach.

use super::{Row, bare, filled};
use elf_layout::{PartAt, Parts, place};
use elf_types::{Class, ElfError, Part};
use std::alloc::Global;
use test_kit_rows::{in_row, same};

/// How parts are rejected, if they are.
fn refusal_of(alloc: Global, parts: &[PartAt], layout: bool, class: Class) -> Option<ElfError> {
    match Parts::from_slice(alloc, parts) {
        Ok(parts) => place(alloc, &parts, layout, 0, class).err(),
        Err(e) => Some(e),
    }
}

/// The header of an image of class 64.
const HEADER: Row = (Part::Header, 0, 64, 1);

/// Whether an image is rejected as stated that reaches an end by its header, in order and where the
/// caller places it.
fn long_header_is(rt: &HostRuntime, class: Class, end: u64, stated: Option<ElfError>) -> bool {
    let long = [filled((Part::Header, 0, end, 1))];
    same(rt, &refusal_of(rt.alloc(), &long, false, class), &stated)
        && same(rt, &refusal_of(rt.alloc(), &long, true, class), &stated)
}

/// Whether one is that reaches it by the bytes that are there already.
fn long_base_is(rt: &HostRuntime, class: Class, end: u64, stated: Option<ElfError>) -> bool {
    same(
        rt,
        &place(rt.alloc(), &Parts::new(rt.alloc()), true, end, class).err(),
        &stated,
    )
}

/// Whether one is that reaches it by the alignment of a part without bytes, whose position is not
/// the caller's; the caller's is free.
fn far_part_is(rt: &HostRuntime, class: Class, end: u64, stated: Option<ElfError>) -> bool {
    let far = bare((Part::Section(1), 0, 9, end));
    let free = bare((Part::Section(1), u64::MAX, 9, end));
    same(
        rt,
        &refusal_of(rt.alloc(), &[filled(HEADER), far], false, class),
        &stated,
    ) && same(
        rt,
        &refusal_of(rt.alloc(), &[filled(HEADER), free], true, class),
        &None,
    )
}

/// Whether a part is rejected whose numbers are the greatest that there are.
fn is_past(rt: &HostRuntime, class: Class, layout: bool) -> bool {
    let past = filled((Part::Section(1), u64::MAX, u64::MAX, u64::MAX));
    same(
        rt,
        &refusal_of(rt.alloc(), &[filled(HEADER), past], layout, class),
        &Some(ElfError::TooLarge),
    )
}

/// A class, an end, and the refusal of an image that reaches it.
static LIMITS: [(Class, u64, Option<ElfError>); 4] = [
    (Class::C32, (1 << 32) - 1, None),
    (Class::C32, 1 << 32, Some(ElfError::TooLarge)),
    (Class::C64, 1 << 40, None),
    (Class::C64, (1 << 40) + 1, Some(ElfError::TooLarge)),
];

/// Whether images are limited so.
fn is_limited(rt: &HostRuntime, class: Class, end: u64, refusal: Option<ElfError>) -> bool {
    long_header_is(rt, class, end, refusal)
        && long_base_is(rt, class, end, refusal)
        && far_part_is(rt, class, end, refusal)
        && is_past(rt, class, false)
        && is_past(rt, class, true)
}

/// Whether images are limited so by each row.
fn are_limited(rt: &HostRuntime, limits: &[(Class, u64, Option<ElfError>)]) -> bool {
    for (n, (class, end, refusal)) in limits.iter().enumerate() {
        if !in_row(rt, n, is_limited(rt, *class, *end, *refusal)) {
            return false;
        }
    }
    true
}

#[test]
fn images_have_limits(rt: HostRuntime) {
    assert!(rt; are_limited(&rt, &LIMITS));
}

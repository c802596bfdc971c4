//! Updates in place that are rejected leave device and object.

use crate::in_place::edits::{Edit, are_made};
use crate::in_place::rows::{Which, table};
use crate::in_place::tasks::Task;
use elf_descriptor::Elf;
use elf_outside::{Device, Source};
use elf_types::{ElfError, Part};
use elf_update_in_place::update_in_place;
use test_kit_descriptors::{Setting, all_agree, is_done_in};
use test_kit_images::WIDE;
use test_kit_rows::{in_row, same};

/// Whether an update after edits is rejected, and leaves the object as another one after them.
pub fn is_refused<D: Device, F: Source>(
    rt: &HostRuntime,
    elf: &mut Elf<D>,
    fresh: &mut Elf<F>,
    edits: &[Edit],
    by: ElfError,
) -> bool {
    let stated = are_made(rt, elf, edits) && are_made(rt, fresh, edits);
    stated && same(rt, &update_in_place(elf), &Err(by)) && all_agree(rt, elf, fresh)
}

/// Sections that share a place with the header and with one another, and one that ends past the
/// greatest image.
static REFUSALS: [Task; 3] = [
    Task::Refused(
        &[Edit::Layout, Edit::Place(1, 8)],
        ElfError::Overlap {
            a: Part::Header,
            b: Part::Section(1),
        },
    ),
    Task::Refused(
        &[Edit::Layout, Edit::Place(4, 97)],
        ElfError::Overlap {
            a: Part::Section(5),
            b: Part::Section(4),
        },
    ),
    Task::Refused(&[Edit::Layout, Edit::Place(3, 1 << 40)], ElfError::TooLarge),
];

/// Whether each is rejected.
fn are_refused(rt: &HostRuntime, setting: &Setting, refusals: &[Task]) -> bool {
    for (n, refused) in refusals.iter().enumerate() {
        if !in_row(rt, n, is_done_in(rt, setting, WIDE, refused)) {
            return false;
        }
    }
    true
}

#[test]
fn a_refused_update_leaves_the_device(rt: HostRuntime) {
    assert!(rt; are_refused(&rt, &table(Which::Five).setting, &REFUSALS));
}

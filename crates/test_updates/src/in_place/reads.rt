//! Reads that fail: the device is as before, and the update can be done again.

use crate::in_place::edits::{Edit, are_made};
use crate::in_place::rows::{ALL, UpdateRow, expect, table, update_ends};
use crate::in_place::tasks::Task;
use elf_descriptor::Elf;
use elf_outside::{Device, Source};
use elf_types::ElfError;
use elf_update_in_place::update_in_place;
use std::alloc::Global;
use test_kit_descriptors::{Setting, all_agree, is_done_in};
use test_kit_images::{BuiltImage, WIDE};
use test_kit_rows::{in_row, same, within};

/// Whether an update fails to read.
fn fails<D: Device>(rt: &HostRuntime, elf: &mut Elf<D>) -> bool {
    same(rt, &update_in_place(elf), &Err(ElfError::Read))
}

/// Whether an update that fails leaves the object as another one whose places are stored, marks
/// included, and the next one ends.
fn is_repeated<D: Device, F: Source>(
    rt: &HostRuntime,
    elf: &mut Elf<D>,
    fresh: &mut Elf<F>,
    image: &mut BuiltImage,
    edits: &[Edit],
) -> bool {
    expect(rt, fresh, edits, image)
        && fails(rt, elf)
        && all_agree(rt, elf, fresh)
        && update_ends(rt, elf, image)
}

/// Whether an update after edits fails to read, and can be done again where that is asked.
pub fn fails_to_read<D: Device, F: Source>(
    rt: &HostRuntime,
    elf: &mut Elf<D>,
    fresh: &mut Elf<F>,
    image: &mut BuiltImage,
    edits: &[Edit],
    again: bool,
) -> bool {
    if !are_made(rt, elf, edits) {
        return false;
    }
    if again {
        return is_repeated(rt, elf, fresh, image, edits);
    }
    fails(rt, elf)
}

/// Whether the update of a row fails by its read with this number, and is done again or not. Three
/// reads are those of the front, and then come those of the edits.
fn is_unread(rt: &HostRuntime, setting: &Setting, row: &UpdateRow, read: u64, again: bool) -> bool {
    let bad = row.loads.saturating_add(read).saturating_add(3);
    is_done_in(rt, setting, WIDE, &Task::Unread(*row, bad, again))
}

/// Whether the update of each row does by each of its reads.
fn are_unread(rt: &HostRuntime, setting: &Setting, rows: &[UpdateRow]) -> bool {
    for (n, row) in rows.iter().enumerate() {
        for read in 1..row.reads.saturating_add(1) {
            let left = is_unread(rt, setting, row, read, false)
                && is_unread(rt, setting, row, read, true);
            if !in_row(rt, n, within(rt, &read, left)) {
                return false;
            }
        }
    }
    true
}

/// Whether the updates of all objects fail so by each of their reads.
fn all_are_unread(rt: &HostRuntime) -> bool {
    for which in ALL.iter() {
        let made = table(*which);
        if !are_unread(rt, &made.setting, made.rows) {
            return false;
        }
    }
    true
}

#[test]
fn an_update_that_fails_to_read_leaves_the_device(rt: HostRuntime) {
    assert!(rt; all_are_unread(&rt));
}

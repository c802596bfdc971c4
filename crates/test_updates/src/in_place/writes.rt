//! Writes that fail, once and in several updates one after the other, and updates that are done
//! again.

use crate::in_place::edits::{Edit, are_made};
use crate::in_place::rows::{
    ALL, UpdateRow, Which, expect, expect_image, has_image, table, update_ends,
};
use crate::in_place::tasks::Task;
use elf_descriptor::Elf;
use elf_outside::{Device, Source};
use elf_types::ElfError;
use elf_types::constants::{SHT_NOTE, SHT_PROGBITS};
use elf_update_in_place::update_in_place;
use std::alloc::Global;
use test_kit_descriptors::{Setting, all_but_marks_agree, is_done_by, is_done_in};
use test_kit_images::{BuiltImage, WIDE};
use test_kit_rows::{in_row, other, same, within};

/// Updates of which some fail, with edits after those, and one that ends.
#[derive(Clone, Copy)]
pub struct Repeated {
    /// The edits before.
    edits: &'static [Edit],
    /// The writes that fail, by their numbers from the first update on.
    pub writes: [u64; 3],
    /// How many updates fail.
    fails: u64,
    /// The edits after those.
    then: &'static [Edit],
    /// How many updates fail after these.
    more: u64,
    /// Whether the image is then that of an object with both edits over the bytes that the device
    /// had at first. Under the caller's layout what no part covers is the base's, which is torn.
    alike: bool,
}

/// Whether an update fails to write, and the object behaves as another one whose places are stored,
/// and has its image.
fn fails<D: Device, F: Source>(
    rt: &HostRuntime,
    elf: &mut Elf<D>,
    fresh: &Elf<F>,
    image: &BuiltImage,
) -> bool {
    let fails = same(rt, &update_in_place(elf), &Err(ElfError::Write));
    fails && all_but_marks_agree(rt, elf, fresh) && has_image(rt, elf, image)
}

/// Whether so many updates fail.
fn all_fail<D: Device, F: Source>(
    rt: &HostRuntime,
    elf: &mut Elf<D>,
    fresh: &Elf<F>,
    image: &BuiltImage,
    count: u64,
) -> bool {
    for number in 0..count {
        if !within(rt, &number, fails(rt, elf, fresh, image)) {
            return false;
        }
    }
    true
}

impl Repeated {
    /// Makes the edits after a failed update, and finds out what the device is to hold then.
    fn edit_again<D: Device, F: Source>(
        &self,
        rt: &HostRuntime,
        elf: &mut Elf<D>,
        fresh: &mut Elf<F>,
        image: &mut BuiltImage,
    ) -> bool {
        if !are_made(rt, elf, self.then) {
            return false;
        }
        if self.alike {
            return expect(rt, fresh, self.then, image) && has_image(rt, elf, image);
        }
        expect_image(elf, image)
    }

    /// Whether the updates fail and end so.
    pub fn is_done<D: Device, F: Source>(
        &self,
        rt: &HostRuntime,
        elf: &mut Elf<D>,
        fresh: &mut Elf<F>,
        image: &mut BuiltImage,
    ) -> bool {
        expect(rt, fresh, self.edits, image)
            && are_made(rt, elf, self.edits)
            && all_fail(rt, elf, fresh, image, self.fails)
            && self.edit_again(rt, elf, fresh, image)
            && all_fail(rt, elf, fresh, image, self.more)
            && update_ends(rt, elf, image)
            && update_ends(rt, elf, image)
    }
}

/// Whether updates of an object fail by these writes, so many, and the next one ends.
fn is_repeated(
    rt: &HostRuntime,
    setting: &Setting,
    row: &UpdateRow,
    writes: [u64; 3],
    fails: u64,
) -> bool {
    let work = Repeated {
        edits: row.edits,
        writes,
        fails,
        then: &[],
        more: 0,
        alike: true,
    };
    is_done_by(rt, setting, WIDE, &Task::Repeated(work), fails == 2)
}

/// Whether an update whose write with this number fails can be repeated, also where one more fails,
/// by its first write, and where two more do: by each of their writes, after the first and the last
/// one of the update.
fn is_repeated_after(rt: &HostRuntime, setting: &Setting, row: &UpdateRow, bad: u64) -> bool {
    for step in 1..row.again.saturating_add(1) {
        let second = bad.saturating_add(step);
        let third = second.saturating_add(step);
        let tried = bad == 1 || bad == row.writes || bad == step;
        if tried && !is_repeated(rt, setting, row, [bad, second, third], 3) {
            return false;
        }
    }
    let next = bad.saturating_add(1);
    is_repeated(rt, setting, row, [bad, 0, 0], 1)
        && is_repeated(rt, setting, row, [bad, next, 0], 2)
}

/// Whether the update of each row can be repeated after each of its writes failed, and makes no
/// more.
fn are_repeated(rt: &HostRuntime, setting: &Setting, rows: &[UpdateRow]) -> bool {
    for row in rows {
        let writes = row.writes.saturating_add(1);
        for bad in 1..writes {
            if !within(rt, &bad, is_repeated_after(rt, setting, row, bad)) {
                return false;
            }
        }
        if !is_repeated(rt, setting, row, [writes, 0, 0], 0) {
            return false;
        }
    }
    true
}

/// Whether the updates of all objects can be repeated.
fn all_are_repeated(rt: &HostRuntime) -> bool {
    for which in ALL.iter() {
        let made = table(*which);
        if !are_repeated(rt, &made.setting, made.rows) {
            return false;
        }
    }
    true
}

#[test]
fn an_update_that_fails_to_write_can_be_repeated(rt: HostRuntime) {
    assert!(rt; all_are_repeated(&rt));
}

/// Edits after a failed update: the image gets shorter than the device, or longer, or as long, with
/// other sections that move.
static NEXT: [&[Edit]; 7] = [
    &[Edit::Bytes(2, 0)],
    &[Edit::Bytes(2, 300)],
    &[Edit::Section(5)],
    &[Edit::Entry(9)],
    &[Edit::Type(3, SHT_PROGBITS)],
    &[Edit::Type(3, SHT_NOTE), Edit::Bytes(5, 20)],
    &[Edit::Bytes(1, 1), Edit::Bytes(4, 40), Edit::Segments(2)],
];

/// Whether an object is edited after the write of its update with a number failed, and then
/// written, where the first write of so many updates after the edits fails too.
fn is_edited_after(
    rt: &HostRuntime,
    setting: &Setting,
    row: &UpdateRow,
    bad: u64,
    then: &'static [Edit],
    more: u64,
    alike: bool,
) -> bool {
    let work = Repeated {
        edits: row.edits,
        writes: [bad, bad.saturating_add(more), 0],
        fails: 1,
        then,
        more,
        alike,
    };
    is_done_by(rt, setting, WIDE, &Task::Repeated(work), false)
}

/// Whether an object is edited after each write of its update failed; after every second one an
/// update fails once more.
fn is_edited_between(
    rt: &HostRuntime,
    setting: &Setting,
    row: &UpdateRow,
    then: &'static [Edit],
    alike: bool,
) -> bool {
    for bad in 1..row.writes.saturating_add(1) {
        let more = if alike { bad % 2 } else { 0 };
        if !within(
            rt,
            &bad,
            is_edited_after(rt, setting, row, bad, then, more, alike),
        ) {
            return false;
        }
    }
    true
}

/// Whether an object is, by each of these edits, and by the flag of the caller's layout.
fn is_edited_by_all(
    rt: &HostRuntime,
    setting: &Setting,
    row: &UpdateRow,
    next: &[&'static [Edit]],
) -> bool {
    for (n, then) in next.iter().enumerate() {
        if !in_row(rt, n, is_edited_between(rt, setting, row, then, true)) {
            return false;
        }
    }
    is_edited_between(rt, setting, row, &[Edit::Layout], false)
}

/// Whether each object of a table is edited between failed writes.
fn are_edited_between(rt: &HostRuntime, which: Which, next: &[&'static [Edit]]) -> bool {
    let made = table(which);
    for (n, row) in made.rows.iter().enumerate() {
        if !in_row(rt, n, is_edited_by_all(rt, &made.setting, row, next)) {
            return false;
        }
    }
    true
}

/// Whether each object under the caller's layout is, by another entry point.
fn are_laid_between(rt: &HostRuntime) -> bool {
    let laid = table(Which::Laid);
    for (n, row) in laid.rows.iter().enumerate() {
        if !in_row(
            rt,
            n,
            is_edited_between(rt, &laid.setting, row, &[Edit::Entry(9)], false),
        ) {
            return false;
        }
    }
    true
}

#[test]
fn an_object_is_edited_between_two_updates(rt: HostRuntime) {
    assert!(rt; are_edited_between(&rt, Which::Five, &NEXT));
    assert!(rt; are_laid_between(&rt));
}

/// Zeros in place of another fill byte, which a failed update may have put after the base.
static ZEROS: [&[Edit]; 1] = [&[Edit::Fill(0)]];

#[test]
fn what_a_failed_update_put_behind_the_base_is_written_over(rt: HostRuntime) {
    assert!(rt; are_edited_between(&rt, Which::Gaps, &ZEROS));
}

/// Whether an update after edits fails to write.
pub fn is_torn<D: Device, F: Source>(
    rt: &HostRuntime,
    elf: &mut Elf<D>,
    fresh: &mut Elf<F>,
    image: &mut BuiltImage,
    edits: &[Edit],
) -> bool {
    expect(rt, fresh, edits, image)
        && are_made(rt, elf, edits)
        && same(rt, &update_in_place(elf), &Err(ElfError::Write))
}

/// Whether a byte is that of its place, or what is said where that is past the end.
fn is_at(byte: u8, there: Option<&u8>, past: bool) -> bool {
    match there {
        Some(there) => *there == byte,
        None => past,
    }
}

/// Whether each byte that is held is an old one or a new one.
pub fn leaves_old_or_new(rt: &HostRuntime, held: &[u8], old: &[u8], new: &[u8]) -> bool {
    if held.len() != old.len() && held.len() != new.len() {
        return other(rt, &held.len(), "the length before or after");
    }
    for (i, byte) in held.iter().enumerate() {
        let is_old = is_at(*byte, old.get(i), *byte == 0);
        if !is_old && !is_at(*byte, new.get(i), false) {
            return other(rt, &(i, *byte), "an old byte or a new one there");
        }
    }
    true
}

/// Whether each byte is an old or a new one where a write fails, by each of the writes.
fn are_torn(rt: &HostRuntime, setting: &Setting, rows: &[UpdateRow]) -> bool {
    for (n, row) in rows.iter().enumerate() {
        for bad in 1..row.writes.saturating_add(1) {
            let torn = is_done_in(rt, setting, WIDE, &Task::Torn(*row, bad));
            if !in_row(rt, n, within(rt, &bad, torn)) {
                return false;
            }
        }
    }
    true
}

/// Whether each byte of all objects is an old or a new one where a write fails.
fn all_are_torn(rt: &HostRuntime) -> bool {
    for which in ALL.iter() {
        let made = table(*which);
        if !are_torn(rt, &made.setting, made.rows) {
            return false;
        }
    }
    true
}

#[test]
fn a_write_that_fails_leaves_old_or_new_bytes(rt: HostRuntime) {
    assert!(rt; all_are_torn(&rt));
}

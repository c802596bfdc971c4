//! What is done with a descriptor over a device.

ghost use Rattle.std.specs.Prelude.{◌≡◌, length};

use crate::in_place::edits::{Edit, are_made};
use crate::in_place::endings::{grows, is_written_twice};
use crate::in_place::reads::fails_to_read;
use crate::in_place::refusals::is_refused;
use crate::in_place::rows::{UpdateRow, expect, update_ends};
use crate::in_place::writes::{Repeated, is_torn, leaves_old_or_new};
use elf_descriptor::Elf;
use elf_outside::{Device, Source};
use elf_types::ElfError;
use test_kit_descriptors::{DescriptorWork, DeviceFaults, NONE};
use test_kit_images::BuiltImage;
use test_kit_rows::same_bytes;

/// What is done.
#[derive(Clone, Copy)]
pub enum Task {
    /// An update ends, after which a second one has nothing to do.
    Ends(UpdateRow),
    /// An update ends after edits, and another one after other edits.
    Twice(&'static [Edit], &'static [Edit]),
    /// An object that is not edited is updated, over a device whose first write would fail.
    Left,
    /// A section gets a second piece, and those after it move.
    Grows,
    /// Updates fail to write, and one ends.
    Repeated(Repeated),
    /// The write with a number fails.
    Torn(UpdateRow, u64),
    /// The read with a number fails, and the update is done again or not.
    Unread(UpdateRow, u64, bool),
    /// An update is rejected after edits, over a device of which no call would do.
    Refused(&'static [Edit], ElfError),
}

/// The calls that fail, where these writes do.
fn with_bad_writes(writes: [u64; 3]) -> DeviceFaults {
    DeviceFaults { writes, ..NONE }
}

/// Whether an update ends, and then one that has nothing to do.
fn ends_twice<D: Device, F: Source>(
    rt: &HostRuntime,
    elf: &mut Elf<D>,
    fresh: &mut Elf<F>,
    image: &mut BuiltImage,
    edits: &[Edit],
) -> bool {
    expect(rt, fresh, edits, image)
        && are_made(rt, elf, edits)
        && update_ends(rt, elf, image)
        && update_ends(rt, elf, image)
}

impl DescriptorWork for Task {
    fn bad(&self) -> DeviceFaults {
        match *self {
            Task::Left => with_bad_writes([1, 0, 0]),
            Task::Repeated(repeated) => with_bad_writes(repeated.writes),
            Task::Torn(_, bad) => with_bad_writes([bad, 0, 0]),
            Task::Unread(_, bad, _) => DeviceFaults {
                reads: [bad, 0, 0],
                ..NONE
            },
            Task::Refused(..) => DeviceFaults {
                reads: [4, 5, 6],
                writes: [1, 2, 3],
            },
            _ => NONE,
        }
    }

    fn asked(&self) -> Option<u64> {
        match *self {
            Task::Ends(row) => Some(row.loads.saturating_add(row.reads).saturating_mul(8)),
            Task::Left | Task::Refused(..) => Some(0),
            Task::Grows => Some(24),
            _ => None,
        }
    }

    fn is_done<D: Device, F: Source>(
        &self,
        rt: &HostRuntime,
        elf: &mut Elf<D>,
        fresh: &mut Elf<F>,
        image: &mut BuiltImage,
    ) -> bool
        requires { length elf.old.room ≡ length elf.old.o.sections }
    {
        match *self {
            Task::Ends(row) => ends_twice(rt, elf, fresh, image, row.edits),
            Task::Twice(first, second) => is_written_twice(rt, elf, fresh, image, first, second),
            Task::Left => update_ends(rt, elf, image),
            Task::Grows => grows(rt, elf, image),
            Task::Repeated(repeated) => repeated.is_done(rt, elf, fresh, image),
            Task::Torn(row, _) => is_torn(rt, elf, fresh, image, row.edits),
            Task::Unread(row, _, again) => fails_to_read(rt, elf, fresh, image, row.edits, again),
            Task::Refused(edits, by) => is_refused(rt, elf, fresh, edits, by),
        }
    }

    fn may_leave(&self, rt: &HostRuntime, held: &[u8], old: &[u8], new: &[u8]) -> bool {
        match *self {
            Task::Torn(..) => leaves_old_or_new(rt, held, old, new),
            _ => same_bytes(rt, held, new),
        }
    }
}

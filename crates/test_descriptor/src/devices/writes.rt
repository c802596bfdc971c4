//! Writes of the device that a descriptor is over, and its length.

ghost use Rattle.std.specs.Prelude.{◌≡◌, length};

use crate::callers::writes::{extend, give_length, write_over};
use crate::devices::homes::{TWO_HOMES, keep};
use elf_descriptor::{Elf, Held};
use elf_outside::{Device, Source};
use elf_types::{DIRTY, DataId, ElfError, Part};
use test_kit_descriptors::{DescriptorWork, DeviceFaults, NONE, all_but_bases_agree, are_done};
use test_kit_images::BuiltImage;
use test_kit_rows::same;

/// A step over a device.
#[derive(Clone, Copy)]
enum Step {
    /// The home of a section is read, and its piece marked.
    Keep(u32),
    /// Bytes are put over the base at a place.
    Write(u64, &'static [u8]),
    /// The device gets a length.
    Size(u64),
    /// The device gets a length, and then these bytes are at its end.
    Extend(u64, &'static [u8]),
}

/// Makes a step.
fn make<D: Device>(elf: &mut Elf<D>, step: Step) -> Result<(), ElfError> {
    match step {
        Step::Keep(s) => keep(elf, s),
        Step::Write(at, buf) => write_over(elf, at, buf),
        Step::Size(n) => give_length(elf, n),
        Step::Extend(end, buf) => extend(elf, end, buf),
    }
}

/// Does to an image what a step does to a device of its bytes.
fn put(image: &mut BuiltImage, step: Step) -> Result<(), ElfError> {
    match step {
        Step::Keep(_) => Ok(()),
        Step::Write(at, buf) => image.put_bytes(at, buf),
        Step::Size(n) => {
            image.bytes.truncate(n);
            image.grow(n)
        }
        Step::Extend(end, buf) => {
            image.bytes.truncate(end);
            image.put_bytes(end.saturating_sub(buf.len() as u64), buf)
        }
    }
}

/// Steps with their results, over a device of which some calls fail.
struct Row {
    bad: DeviceFaults,
    steps: &'static [(Step, Result<(), ElfError>)],
    /// How many base bytes are left; none where there are as many as at first.
    base: Option<u64>,
}

/// Whether each step is answered so, and the image has what those that ended have put.
fn are_made<D: Device>(
    rt: &HostRuntime,
    elf: &mut Elf<D>,
    image: &mut BuiltImage,
    row: &Row,
) -> bool {
    for (step, told) in row.steps {
        if make(elf, *step) != *told {
            return false;
        }
        if told.is_ok() && put(image, *step) != Ok(()) {
            return false;
        }
    }
    true
}

/// Keeps those homes that the steps keep, of another descriptor.
fn keep_alike<S: Source>(rt: &HostRuntime, elf: &mut Elf<S>, row: &Row) -> bool {
    for (step, _) in row.steps {
        if let Step::Keep(s) = step {
            if keep(elf, *s) != Ok(()) {
                return false;
            }
        }
    }
    same(rt, &elf.flag(Part::Object, true, DIRTY), &Ok(DIRTY))
}

/// Whether two descriptors hold the same of a home.
fn homes_agree<S: Source, F: Source>(
    rt: &HostRuntime,
    a: &Elf<S>,
    b: &Elf<F>,
    section: u32,
) -> bool {
    let d = DataId { section, piece: 0 };
    match (a.held(d), b.held(d)) {
        (Ok(Held::Unread), Ok(Held::Unread)) => true,
        (Ok(Held::Raw(first)), Ok(Held::Raw(second))) => same(rt, &first, &second),
        _ => false,
    }
}

/// Whether the base bytes are the first ones of these.
fn has_base<S: Source>(elf: &mut Elf<S>, bytes: &[u8]) -> Result<bool, ElfError> {
    let mut base = vec![in elf.alloc(); 0u8; elf.base_len() as usize]?;
    elf.copy_base(0, base.as_mut_slice())?;
    Ok(bytes.starts_with(base.as_slice()))
}

/// Whether a descriptor has these base bytes, so many, and else is as another one over the image
/// that the device began with.
fn is_left<S: Source, F: Source>(
    rt: &HostRuntime,
    elf: &mut Elf<S>,
    fresh: &mut Elf<F>,
    image: &BuiltImage,
    row: &Row,
) -> bool {
    let base = match row.base {
        Some(len) => len,
        None => fresh.base_len(),
    };
    let mut stated = keep_alike(rt, fresh, row) && all_but_bases_agree(rt, elf, fresh);
    stated &= homes_agree(rt, elf, fresh, 1) && homes_agree(rt, elf, fresh, 2);
    stated &= same(rt, &elf.base_len(), &base);
    stated && same(rt, &has_base(elf, image.bytes.as_slice()), &Ok(true))
}

impl DescriptorWork for Row {
    fn bad(&self) -> DeviceFaults {
        self.bad
    }

    fn is_done<D: Device, F: Source>(
        &self,
        rt: &HostRuntime,
        elf: &mut Elf<D>,
        fresh: &mut Elf<F>,
        image: &mut BuiltImage,
    ) -> bool
        requires { length elf.old.room ≡ length elf.old.o.sections }
    {
        let marked = same(rt, &elf.flag(Part::Object, true, DIRTY), &Ok(DIRTY));
        marked && are_made(rt, elf, image, self) && is_left(rt, elf, fresh, image, self)
    }
}

/// The write that fails.
const FAILED: Result<(), ElfError> = Err(ElfError::Write);

/// What no caller may do.
const NOT_MADE: Result<(), ElfError> = Err(ElfError::Short);

/// Writes over the header, between two homes, over one of them, and of no byte.
static WRITES: [Row; 3] = [
    Row {
        bad: NONE,
        steps: &[
            (Step::Write(0, &[7; 52]), Ok(())),
            (Step::Write(74, b"XY"), Ok(())),
            (Step::Write(76, b""), Ok(())),
            (Step::Write(215, b"Z"), Ok(())),
        ],
        base: None,
    },
    Row {
        bad: NONE,
        steps: &[
            (Step::Write(72, b"XYZXYZXYZ"), NOT_MADE),
            (Step::Keep(2), Ok(())),
            (Step::Write(72, b"XYZXYZXYZ"), Ok(())),
            (Step::Write(71, b"X"), NOT_MADE),
        ],
        base: None,
    },
    Row {
        bad: DeviceFaults {
            writes: [2, 0, 0],
            ..NONE
        },
        steps: &[
            (Step::Write(72, b"XY"), Ok(())),
            (Step::Write(74, b"XY"), FAILED),
            (Step::Write(74, b"xy"), Ok(())),
        ],
        base: None,
    },
];

#[test]
fn bytes_are_written_at_their_place_and_nothing_else(rt: HostRuntime) {
    assert!(rt; are_done(&rt, &TWO_HOMES, &WRITES));
}

/// Devices that get longer and shorter.
static LENGTHS: [Row; 5] = [
    Row {
        bad: NONE,
        steps: &[
            (Step::Size(300), Ok(())),
            (Step::Extend(310, b"XYZ"), Ok(())),
        ],
        base: None,
    },
    Row {
        bad: NONE,
        steps: &[(Step::Size(200), Ok(())), (Step::Size(210), Ok(()))],
        base: Some(200),
    },
    Row {
        bad: NONE,
        steps: &[
            (Step::Size(87), NOT_MADE),
            (Step::Keep(2), Ok(())),
            (Step::Size(87), Ok(())),
            (Step::Size(71), NOT_MADE),
            (Step::Keep(1), Ok(())),
            (Step::Size(0), Ok(())),
        ],
        base: Some(0),
    },
    Row {
        bad: DeviceFaults {
            writes: [1, 3, 5],
            ..NONE
        },
        steps: &[
            (Step::Size(300), FAILED),
            (Step::Size(300), Ok(())),
            (Step::Size(100), FAILED),
            (Step::Size(100), Ok(())),
            (Step::Write(99, b"X"), FAILED),
        ],
        base: Some(100),
    },
    Row {
        bad: NONE,
        steps: &[(Step::Size(401), FAILED), (Step::Size(400), Ok(()))],
        base: None,
    },
];

#[test]
fn a_device_gets_its_length(rt: HostRuntime) {
    assert!(rt; are_done(&rt, &TWO_HOMES, &LENGTHS));
}

//! Work that is done with a descriptor over a device in memory.

ghost use Rattle.std.specs.Prelude.{◌≡◌, length};

use crate::beginning::opened_on;
use elf_descriptor::Elf;
use elf_outside::{Device, MemDevice, Source};
use elf_types::{Addrs, Class, Ehdr, ElfError, Octets};
use elf_xlate::{ehdr_size, phdr_size, shdr_size};
use std::alloc::Global;
use test_kit_images::{BuiltImage, ClassAndOrder, FORMS, Recipe, image_in};
use test_kit_rows::{failed, in_row, same, same_bytes, within};
use test_kit_sources::Hidden;

/// The calls of a device that fail, by their numbers from 1; none where there is a 0.
#[derive(Clone, Copy)]
pub struct DeviceFaults {
    /// The reads; three read the headers of an object without program headers.
    pub reads: [u64; 3],
    /// The writes, and the changes of its length.
    pub writes: [u64; 3],
}

/// No call fails.
pub const NONE: DeviceFaults = DeviceFaults {
    reads: [0; 3],
    writes: [0; 3],
};

/// What work is done on.
#[derive(Drop)]
pub struct Setting {
    /// The image that the device holds before.
    pub recipe: Recipe,
    /// How long the device can get.
    pub room: u64,
}

/// What is done with a descriptor that began over a device.
pub trait DescriptorWork {
    /// The calls of the device that fail; none, where nothing else is said.
    fn bad(&self) -> DeviceFaults {
        NONE
    }

    /// How many bytes are asked for besides the front, where that is looked at.
    fn asked(&self) -> Option<u64> {
        None
    }

    /// Whether all is answered as it should be, beside another descriptor over the bytes that the
    /// device had. The image has these bytes, and becomes those that the device is to have.
    fn is_done<D: Device, F: Source>(
        &self,
        rt: &HostRuntime,
        elf: &mut Elf<D>,
        fresh: &mut Elf<F>,
        image: &mut BuiltImage,
    ) -> bool
        requires { length elf.old.room ≡ length elf.old.o.sections };

    /// Whether the device may hold these bytes afterwards, where it had the old ones and is to have
    /// the new ones: it holds the new ones, where nothing else is said.
    fn may_leave(&self, rt: &HostRuntime, held: &[u8], _old: &[u8], new: &[u8]) -> bool {
        same_bytes(rt, held, new)
    }
}

/// The bytes of a header, so many program headers and so many section headers.
pub fn front_size(class: Class, segments: u64, sections: u64) -> u64 {
    let (header, segment, section) = (ehdr_size(class), phdr_size(class), shdr_size(class));
    (header as u64)
        .saturating_add(segments.saturating_mul(segment as u64))
        .saturating_add(sections.saturating_mul(section as u64))
}

/// The bytes of the front that a header begins, whose counts are in it.
fn front_of(header: &Ehdr) -> u64 {
    front_size(
        header.class,
        u64::from(header.phnum),
        u64::from(header.shnum),
    )
}

/// A device with these bytes.
fn device(
    alloc: Global,
    bytes: &[u8],
    room: u64,
    bad: DeviceFaults,
) -> Result<MemDevice, ElfError> {
    if bytes.len() as u64 > room {
        return Err(ElfError::TooLarge);
    }
    let bad_reads = Addrs::from_slice(alloc, &bad.reads)?;
    let bad_writes = Addrs::from_slice(alloc, &bad.writes)?;
    MemDevice::new(alloc, bytes, room, bad_reads, bad_writes)
}

/// Whether work is done over a device beside a descriptor over another source; the device comes
/// back.
#[tactic(auto, using(crate::proofs::Begun::begun_rooms))]
fn done_beside<W: DescriptorWork, D: Device, F: Source>(
    rt: &HostRuntime,
    work: &W,
    device: D,
    fresh: &mut Elf<F>,
    image: &mut BuiltImage,
) -> (D, bool) {
    match Elf::begin(rt.alloc(), device) {
        Ok(mut elf) => {
            let done = work.is_done(rt, &mut elf, fresh, image);
            (elf.end(), done)
        }
        Err((device, e)) => (device, failed(rt, e)),
    }
}

/// Whether work is done over a device that has the bytes of an image, beside a descriptor over a
/// source of them; the device comes back.
pub fn done_over<W: DescriptorWork, D: Device>(
    rt: &HostRuntime,
    work: &W,
    device: D,
    image: &mut BuiltImage,
) -> (D, bool) {
    match opened_on(rt.alloc(), image.bytes.as_slice()) {
        Ok(mut fresh) => done_beside(rt, work, device, &mut fresh, image),
        Err(e) => (device, failed(rt, e)),
    }
}

/// Whether work is done as `done_over` tells it, over a device that tells its bytes or does not.
fn done_with<W: DescriptorWork>(
    rt: &HostRuntime,
    work: &W,
    hidden: bool,
    device: MemDevice,
    image: &mut BuiltImage,
) -> (MemDevice, bool) {
    if hidden {
        let (device, done) = done_over(rt, work, Hidden::new(device), image);
        return (device.into_inner(), done);
    }
    done_over(rt, work, device, image)
}

/// Whether a device was asked for so many bytes as work says, and holds what it may leave.
fn is_left<W: DescriptorWork>(
    rt: &HostRuntime,
    work: &W,
    device: MemDevice,
    old: &[u8],
    image: &BuiltImage,
) -> bool {
    let stated = match work.asked() {
        Some(n) => same(
            rt,
            &device.asked(),
            &front_of(&image.header).saturating_add(n),
        ),
        None => true,
    };
    let held = device.into_bytes();
    stated && work.may_leave(rt, held.as_slice(), old, image.bytes.as_slice())
}

/// Whether work is done over a device that has the bytes of an image, and leaves it what it may.
fn is_done_over<W: DescriptorWork>(
    rt: &HostRuntime,
    work: &W,
    hidden: bool,
    device: MemDevice,
    image: &mut BuiltImage,
) -> bool {
    let old = match Octets::from_slice(rt.alloc(), image.bytes.as_slice()) {
        Ok(old) => old,
        Err(e) => return failed(rt, e),
    };
    let (device, done) = done_with(rt, work, hidden, device, image);
    let left = is_left(rt, work, device, old.as_slice(), image);
    done && left
}

/// Whether work is done in a form, over a device that tells its bytes or does not.
pub fn is_done_by<W: DescriptorWork>(
    rt: &HostRuntime,
    setting: &Setting,
    form: ClassAndOrder,
    work: &W,
    hidden: bool,
) -> bool {
    let mut image = match image_in(rt.alloc(), form, &setting.recipe) {
        Ok(image) => image,
        Err(e) => return failed(rt, e),
    };
    match device(rt.alloc(), image.bytes.as_slice(), setting.room, work.bad()) {
        Ok(device) => is_done_over(rt, work, hidden, device, &mut image),
        Err(e) => failed(rt, e),
    }
}

/// Whether work is done in a form, over a device that tells its bytes and over one that does not.
pub fn is_done_in<W: DescriptorWork>(
    rt: &HostRuntime,
    setting: &Setting,
    form: ClassAndOrder,
    work: &W,
) -> bool {
    is_done_by(rt, setting, form, work, false) && is_done_by(rt, setting, form, work, true)
}

/// Whether work is done in all forms.
pub fn is_done<W: DescriptorWork>(rt: &HostRuntime, setting: &Setting, work: &W) -> bool {
    for form in FORMS.iter() {
        if !within(rt, form, is_done_in(rt, setting, *form, work)) {
            return false;
        }
    }
    true
}

/// Whether each work is done in all forms.
pub fn are_done<W: DescriptorWork>(rt: &HostRuntime, setting: &Setting, works: &[W]) -> bool {
    for (n, work) in works.iter().enumerate() {
        if !in_row(rt, n, is_done(rt, setting, work)) {
            return false;
        }
    }
    true
}

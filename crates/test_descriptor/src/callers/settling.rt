//! What a caller does to settle a descriptor over a device that holds its image.

ghost use Rattle.std.specs.Prelude.{◌≡◌, length, IsTrue, OnOk, IfSome};
ghost use Rattle.elf_object.specs.Layout.{placed};
ghost use Rattle.elf_object.specs.Settled.{settled};
ghost use Rattle.elf_descriptor.specs.Settling.{cleared};
ghost use Rattle.test_descriptor.specs.Callers.Settles.{TellsImage};

use crate::callers::ranges::{may_size, may_write};
use elf_descriptor::Elf;
use elf_outside::{Device, MemSink, Source};
use elf_types::{Addrs, ElfError, Octets};
use elf_update_to::update_to;

/// The image of an object, of at most so many bytes; its places are stored.
pub fn tell_image<S: Source>(elf: &mut Elf<S>, room: u64) -> Result<Octets, ElfError>
    ensures { TellsImage S.Source result elf.old elf.new }
{
    let alloc = elf.alloc();
    let mut sink = match MemSink::new(alloc, room, Addrs::new(alloc)) {
        Ok(sink) => sink,
        Err(e) => return Err(e),
    };
    match update_to(elf, &mut sink) {
        Ok(_) => Ok(sink.into_bytes()),
        Err(e) => Err(e),
    }
}

/// Gives a device these bytes and no others; `Short` where a home rests on what they go over.
pub fn cover<D: Device>(elf: &mut Elf<D>, bytes: &[u8]) -> Result<(), ElfError>
    ensures long { OnOk result (D.size elf.new.source ≡ length bytes.now) }
    ensures holds { OnOk result
        (IfSome (D.holds elf.new.source) (λ held. held ≡ bytes.now)) }
{
    if let Err(e) = elf.reserve() {
        return Err(e);
    }
    let n = bytes.len() as u64;
    if !may_size(elf, n) {
        return Err(ElfError::Short);
    }
    if let Err(e) = elf.size_base(n) {
        return Err(e);
    }
    if !may_write(elf, 0, n) {
        return Err(ElfError::Short);
    }
    elf.write_base(0, bytes)
}

/// Whether two slices have the same bytes.
fn are_same(a: &[u8], b: &[u8]) -> bool
    ensures { IsTrue result → a.now ≡ b.now }
{
    a == b
}

/// Settles a descriptor over a device that holds these bytes; `Short` where nothing is dirty or
/// they are not the object's image.
pub fn settle_as<D: Device>(elf: &mut Elf<D>, bytes: &[u8]) -> Result<(), ElfError>
    requires long { D.size elf.old.source ≡ length bytes.now }
    requires holds { IfSome (D.holds elf.old.source) (λ held. held ≡ bytes.now) }
    ensures object { OnOk result (elf.new.o ≡ settled elf.old.told (placed elf.old.o)) }
    ensures loaded { OnOk result (elf.new.loaded ≡ cleared elf.old.loaded) }
{
    if !elf.dirty() {
        return Err(ElfError::Short);
    }
    if let Err(e) = elf.reserve() {
        return Err(e);
    }
    let image = match tell_image(elf, bytes.len() as u64) {
        Ok(image) => image,
        Err(e) => return Err(e),
    };
    if !are_same(image.as_slice(), bytes) {
        return Err(ElfError::Short);
    }
    elf.settle();
    Ok(())
}

/// Gives a device these bytes, and settles the descriptor over them.
pub fn settle_over<D: Device>(elf: &mut Elf<D>, bytes: &[u8]) -> Result<(), ElfError> {
    if let Err(e) = cover(elf, bytes) {
        return Err(e);
    }
    settle_as(elf, bytes)
}

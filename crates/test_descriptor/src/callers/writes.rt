//! What a caller does to write the device that a descriptor is over.

ghost use Rattle.std.specs.Prelude.{OnOk};
ghost use Rattle.elf_outside.specs.Writes.{WritesOver, Resizes};

use crate::callers::ranges::{may_size, may_write};
use elf_descriptor::Elf;
use elf_outside::Device;
use elf_types::ElfError;

/// Puts bytes over a range of the base; `Short` where it passes the base's end, or a home rests on
/// it.
pub fn write_over<D: Device>(elf: &mut Elf<D>, at: u64, buf: &[u8]) -> Result<(), ElfError>
    ensures { OnOk result
        (WritesOver (D.holds elf.old.source) (D.holds elf.new.source) at buf.now) }
{
    if let Err(e) = elf.reserve() {
        return Err(e);
    }
    let (n, len) = (buf.len() as u64, elf.base_len());
    if at > len {
        return Err(ElfError::Short);
    }
    if n > len - at {
        return Err(ElfError::Short);
    }
    if !may_write(elf, at, n) {
        return Err(ElfError::Short);
    }
    elf.write_base(at, buf)
}

/// Gives the device a length; `Short` where a home rests on what it would pass.
pub fn give_length<D: Device>(elf: &mut Elf<D>, n: u64) -> Result<(), ElfError>
    ensures { OnOk result (Resizes (D.size elf.old.source) (D.size elf.new.source)
        (D.holds elf.old.source) (D.holds elf.new.source) n) }
{
    if let Err(e) = elf.reserve() {
        return Err(e);
    }
    if !may_size(elf, n) {
        return Err(ElfError::Short);
    }
    elf.size_base(n)
}

/// Gives the device a length and puts bytes at its end; `Short` where a home rests on what this
/// would pass or write over.
pub fn extend<D: Device>(elf: &mut Elf<D>, end: u64, buf: &[u8]) -> Result<(), ElfError> {
    if let Err(e) = elf.reserve() {
        return Err(e);
    }
    let n = buf.len() as u64;
    if n > end {
        return Err(ElfError::Short);
    }
    if !may_size(elf, end) {
        return Err(ElfError::Short);
    }
    if let Err(e) = elf.size_base(end) {
        return Err(e);
    }
    if !may_write(elf, end - n, n) {
        return Err(ElfError::Short);
    }
    elf.write_base(end - n, buf)
}

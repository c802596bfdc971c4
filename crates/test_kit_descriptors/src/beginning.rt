//! Descriptors over bytes in memory.

use elf_descriptor::Elf;
use elf_outside::MemSource;
use elf_types::{ElfError, Octets};
use std::alloc::Global;
use test_kit_sources::source;

/// A descriptor over a source.
fn opened_over(alloc: Global, src: MemSource) -> Result<Elf<MemSource>, ElfError> {
    match Elf::begin(alloc, src) {
        Ok(elf) => Ok(elf),
        Err((_src, e)) => Err(e),
    }
}

/// A source of a copy of these bytes.
fn source_of(alloc: Global, bytes: &[u8]) -> Result<MemSource, ElfError> {
    match Octets::from_slice(alloc, bytes) {
        Ok(bytes) => source(alloc, bytes, 0),
        Err(e) => Err(e),
    }
}

/// A descriptor that is opened on a copy of these bytes.
pub(crate) fn opened_on(alloc: Global, bytes: &[u8]) -> Result<Elf<MemSource>, ElfError> {
    match source_of(alloc, bytes) {
        Ok(src) => opened_over(alloc, src),
        Err(e) => Err(e),
    }
}

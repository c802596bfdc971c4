//! Faults that carry the name of a section.

ghost use Rattle.rebuild_model.specs.Copied.{CopyFault as StatedFault};
ghost use Rattle.rebuild_changes.specs.Stated.{IsFault};

use crate::faults::CopyFault;
use elf_types::Octets;
use std::alloc::Global;

/// The fault that no section has this name, or that there is no memory for a copy of it.
pub fn fault_no_section(alloc: Global, name: &Octets) -> CopyFault
    ensures { IsFault (StatedFault.NoSection name.now) result }
{
    match Octets::from_slice(alloc, name.as_slice()) {
        Ok(copy) => CopyFault::NoSection { name: copy },
        Err(e) => CopyFault::Strip(e),
    }
}

/// The fault that the section of this name has no bytes in the file, or that there is no memory for
/// a copy of it.
pub fn fault_no_bytes(alloc: Global, name: &Octets) -> CopyFault
    ensures { IsFault (StatedFault.NoBytes name.now) result }
{
    match Octets::from_slice(alloc, name.as_slice()) {
        Ok(copy) => CopyFault::NoBytes { name: copy },
        Err(e) => CopyFault::Strip(e),
    }
}

/// The fault that the section of this name is loaded and keeps its length, or that there is no
/// memory for a copy of it.
pub fn fault_allocated(alloc: Global, name: &Octets) -> CopyFault
    ensures { IsFault (StatedFault.Allocated name.now) result }
{
    match Octets::from_slice(alloc, name.as_slice()) {
        Ok(copy) => CopyFault::Allocated { name: copy },
        Err(e) => CopyFault::Strip(e),
    }
}

/// The fault that the section of this name stays allocated or not, or that there is no memory for a
/// copy of it.
pub fn fault_fixed(alloc: Global, name: &Octets) -> CopyFault
    ensures { IsFault (StatedFault.Fixed name.now) result }
{
    match Octets::from_slice(alloc, name.as_slice()) {
        Ok(copy) => CopyFault::Fixed { name: copy },
        Err(e) => CopyFault::Strip(e),
    }
}

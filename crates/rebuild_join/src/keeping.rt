//! What is kept of two halves that match.

ghost use Rattle.std.specs.Prelude.{◌≡◌, true};
ghost use Rattle.rebuild_model.specs.Split.{allocated, matches};
ghost use Rattle.rebuild_join.specs.Ranges.{IsUnchanged};
ghost use Rattle.rebuild_join.specs.Keeping.{ListsJoined, KeepsJoined};

use crate::adding::add_all;
use crate::joined::UnstripFault;
use elf_outside::Source;
use rebuild_keep::prelude::Elf;
use rebuild_plan::{Contents, check_index, check_segments};
use std::alloc::Global;

/// What is kept of all sections, section 0 among them.
fn list_joined<S: Source, T: Source>(
    alloc: Global,
    stripped: &Elf<S>,
    debug: &Elf<T>,
    loaded: &[u32],
) -> Result<Contents, UnstripFault>
    requires matches { matches stripped.now.o debug.now.o ≡ true }
    requires stripped { IsUnchanged stripped.now }
    requires debug { IsUnchanged debug.now }
    requires loaded { loaded.now ≡ allocated stripped.now.o }
    ensures { ListsJoined stripped.now debug.now result }
{
    if debug.shnum() == 0 {
        return Ok(Contents::new(alloc));
    }
    let mut contents = match Contents::first(alloc) {
        Ok(contents) => contents,
        Err(e) => return Err(UnstripFault::Elf(e)),
    };
    match add_all(stripped, debug, loaded, &mut contents) {
        Ok(()) => Ok(contents),
        Err(fault) => Err(fault),
    }
}

/// What is kept of two halves that match, of which the stripped one has these allocated sections:
/// the headers, the sizes in the file, and where the bytes are. It fails with, in this order:
/// `TooMany` of `newphdr`, as `Elf`; for each section from 1 on of the debug half `OutOfFile`, as
/// `Elf` where it is allocated and else as `Debug`; `NoSection` of the debug half's string index,
/// as `Debug`; and `Memory`. It reads nothing.
pub(crate) fn keep_joined<S: Source, T: Source>(
    alloc: Global,
    stripped: &Elf<S>,
    debug: &Elf<T>,
    loaded: &[u32],
) -> Result<Contents, UnstripFault>
    requires matches { matches stripped.now.o debug.now.o ≡ true }
    requires stripped { IsUnchanged stripped.now }
    requires debug { IsUnchanged debug.now }
    requires loaded { loaded.now ≡ allocated stripped.now.o }
    ensures { KeepsJoined stripped.now debug.now result }
{
    if let Err(e) = check_segments(stripped.phnum()) {
        return Err(UnstripFault::Elf(e));
    }
    let contents = match list_joined(alloc, stripped, debug, loaded) {
        Ok(contents) => contents,
        Err(fault) => return Err(fault),
    };
    match check_index(debug.shstrndx(), debug.shnum()) {
        Ok(()) => Ok(contents),
        Err(e) => Err(UnstripFault::Debug(e)),
    }
}

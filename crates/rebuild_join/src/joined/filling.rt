//! An object that was created gets the program headers and the header of the stripped half, and the
//! sections of both.

ghost use Rattle.std.specs.Prelude.{◌≡◌, [], true};
ghost use Rattle.rebuild_keep.specs.rebuild_model.Split.{allocated, matches};
ghost use Rattle.rebuild_join.specs.Joined.Filled.{FillsSections, FillsJoined};

use crate::joined::combining::add_all;
use crate::joined::faults::UnstripFault;
use elf_outside::{NoSource, Source};
use rebuild_keep::prelude::{Elf, copy_segments, finish_header};

/// Gives an object section 0 and the sections that are made of those of the debug half, where that
/// has sections. It fails with the first refusal, and besides `Memory` and `Read`.
fn fill_sections<S: Source, T: Source>(
    stripped: &mut Elf<S>,
    debug: &mut Elf<T>,
    loaded: &[u32],
    made: &mut Elf<NoSource>,
) -> Result<(), UnstripFault>
    requires matches { matches stripped.old.o debug.old.o ≡ true }
    requires loaded { loaded.now ≡ allocated stripped.old.o }
    requires empty { made.old.o.sections ≡ [] }
    requires count { made.old.o.header.shnum ≡ 0 }
    requires class { made.old.o.header.class ≡ stripped.old.o.header.class }
    ensures { FillsSections S.Source T.Source result stripped.old stripped.new
        debug.old debug.new made.old made.new }
{
    if debug.shnum() == 0 {
        return Ok(());
    }
    if let Err(e) = made.newnull() {
        return Err(UnstripFault::Elf(e));
    }
    add_all(stripped, debug, loaded, made)
}

/// Gives an object that was created the program headers of the stripped half, the sections and the
/// header of the stripped half with the string index of the debug half. It fails with, in this
/// order: `TooMany` of `newphdr`; the first section that is rejected; `NoSection` and `Unfit` of
/// the header; and besides `Memory` and `Read`.
pub(crate) fn fill_joined<S: Source, T: Source>(
    stripped: &mut Elf<S>,
    debug: &mut Elf<T>,
    loaded: &[u32],
    made: &mut Elf<NoSource>,
) -> Result<(), UnstripFault>
    requires matches { matches stripped.old.o debug.old.o ≡ true }
    requires loaded { loaded.now ≡ allocated stripped.old.o }
    requires empty { made.old.o.sections ≡ [] }
    requires count { made.old.o.header.shnum ≡ 0 }
    requires class { made.old.o.header.class ≡ stripped.old.o.header.class }
    ensures { FillsJoined S.Source T.Source result stripped.old stripped.new
        debug.old debug.new made.old made.new }
{
    if let Err(e) = copy_segments(stripped, made) {
        return Err(UnstripFault::Elf(e));
    }
    if let Err(fault) = fill_sections(stripped, debug, loaded, made) {
        return Err(fault);
    }
    let index = debug.shstrndx();
    match finish_header(stripped, made, index) {
        Ok(()) => Ok(()),
        Err(e) => Err(UnstripFault::Debug(e)),
    }
}

//! What is kept of the sections of the debug half, of which the allocated ones are ranges of the
//! stripped half.

ghost use Rattle.std.specs.Prelude.{◌≡◌, ◌<◌, ◌++◌, length, true};
ghost use Rattle.rebuild_model.specs.Split.{allocated, matches};
ghost use Rattle.rebuild_plan.specs.Contents.{HasFirst};
ghost use Rattle.rebuild_join.specs.Joined.Joined.{allocated_below};
ghost use Rattle.rebuild_join.specs.Ranges.{IsUnchanged};
ghost use Rattle.rebuild_join.specs.Keeping.{AddsHome, AddsLoaded, AddsJoined, AddsAllJoined};

use crate::joined::{UnstripFault, listed_number, loaded_header};
use crate::ranges::range_behind;
use elf_outside::Source;
use elf_types::{ElfError, ScnId, Shdr};
use rebuild_keep::prelude::{Elf, is_header_allocated};
use rebuild_plan::{Contents, home_range};

/// Adds an allocated section with a header of the debug half, and the type, the place and the home
/// of one of the stripped half. It fails with `OutOfFile` of that, and `Memory`.
fn add_loaded<S: Source>(
    stripped: &Elf<S>,
    t: ScnId,
    header: &Shdr,
    contents: &mut Contents,
) -> Result<(), ElfError>
    requires there { t.0 < length stripped.now.o.sections }
    requires stripped { IsUnchanged stripped.now }
    ensures { AddsLoaded stripped.now t.0 header.now result contents.old contents.new }
{
    let joined = loaded_header(header, &stripped.section_header(t));
    match home_range(stripped, t) {
        Ok(range) => contents.add(joined, range),
        Err(e) => Err(e),
    }
}

/// Adds a section of the debug half with its header and its home. It fails with `OutOfFile` of it,
/// and `Memory`.
fn add_own<S: Source, T: Source>(
    stripped: &Elf<S>,
    debug: &Elf<T>,
    s: ScnId,
    header: &Shdr,
    contents: &mut Contents,
) -> Result<(), ElfError>
    requires there { s.0 < length debug.now.o.sections }
    requires debug { IsUnchanged debug.now }
    ensures { AddsHome debug.now.told (stripped.now.o.base ++ debug.now.o.base) header.now
        debug.now.o s.0 result contents.old contents.new }
{
    match range_behind(stripped, debug, s) {
        Ok(range) => contents.add(*header, range),
        Err(e) => Err(e),
    }
}

/// Adds what is made of a section of the debug half, before which so many are allocated, and
/// returns how many there are with it.
fn add_next<S: Source, T: Source>(
    stripped: &Elf<S>,
    debug: &Elf<T>,
    loaded: &[u32],
    taken: u32,
    s: ScnId,
    contents: &mut Contents,
) -> Result<u32, UnstripFault>
    requires matches { matches stripped.now.o debug.now.o ≡ true }
    requires stripped { IsUnchanged stripped.now }
    requires debug { IsUnchanged debug.now }
    requires loaded { loaded.now ≡ allocated stripped.now.o }
    requires taken { taken ≡ length (allocated_below debug.now.o s.0) }
    requires first { 0 < s.0 }
    requires there { s.0 < length debug.now.o.sections }
    ensures { AddsJoined stripped.now debug.now s.0 result contents.old contents.new }
{
    let header = debug.section_header(s);
    if is_header_allocated(&header) {
        let t = ScnId(listed_number(loaded, taken as usize));
        return match add_loaded(stripped, t, &header, contents) {
            Ok(()) => Ok(taken + 1),
            Err(e) => Err(UnstripFault::Elf(e)),
        };
    }
    match add_own(stripped, debug, s, &header, contents) {
        Ok(()) => Ok(taken),
        Err(e) => Err(UnstripFault::Debug(e)),
    }
}

/// Adds what is made of the sections of the debug half from 1 on, of which there are some, after
/// section 0. It fails with the first refusal, and besides `Memory`.
pub(crate) fn add_all<S: Source, T: Source>(
    stripped: &Elf<S>,
    debug: &Elf<T>,
    loaded: &[u32],
    contents: &mut Contents,
) -> Result<(), UnstripFault>
    requires matches { matches stripped.now.o debug.now.o ≡ true }
    requires stripped { IsUnchanged stripped.now }
    requires debug { IsUnchanged debug.now }
    requires loaded { loaded.now ≡ allocated stripped.now.o }
    requires some { 0 < length debug.now.o.sections }
    requires first { HasFirst contents.old }
    ensures { AddsAllJoined stripped.now debug.now result contents.new }
{
    let mut taken = 0;
    for s in 1..debug.shnum() {
        match add_next(stripped, debug, loaded, taken, ScnId(s), contents) {
            Ok(next) => taken = next,
            Err(fault) => return Err(fault),
        }
    }
    Ok(())
}

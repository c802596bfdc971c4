//! The sections of the debug half, of which the allocated ones have the bytes of the stripped half.

ghost use Rattle.std.specs.Prelude.{◌≡◌, ◌<◌, ◌∷◌, [], length, true, None, OnOk, IfErr};
ghost use Rattle.elf_types.specs.declared.constants.TheConstants.{MAX_SECTIONS};
ghost use Rattle.elf_xlate.specs.Headers.{shdr_fits};
ghost use Rattle.rebuild_keep.specs.elf_object.Answers.{raw_refusal};
ghost use Rattle.rebuild_keep.specs.elf_object.Due.{homes_due};
ghost use Rattle.rebuild_keep.specs.rebuild_model.Rebuilt.{made_section};
ghost use Rattle.rebuild_keep.specs.rebuild_model.Split.{allocated, loaded_header, matches};
ghost use Rattle.rebuild_keep.specs.elf_object.Sections.{header_at};
ghost use Rattle.rebuild_keep.specs.rebuild_making.Refused.{UnreadBy};
ghost use Rattle.rebuild_keep.specs.Homes.{bytes_at_home};
ghost use Rattle.rebuild_keep.specs.Makes.{AsksFor};
ghost use Rattle.rebuild_join.specs.Joined.Joined.{allocated_below, HasMoreSections, AddsNext, AddsAll};

use crate::joined::adding::add_home;
use crate::joined::faults::UnstripFault;
use crate::joined::matching::listed_number;
use elf_outside::{NoSource, Source};
use elf_types::{ElfError, ScnId, Shdr};
use rebuild_keep::prelude::{Elf, is_header_allocated};

/// The header of an allocated section: that of the debug half, with the type and the place of the
/// stripped half.
pub fn loaded_header(debug: &Shdr, stripped: &Shdr) -> Shdr
    ensures { result ≡ loaded_header debug.now stripped.now }
{
    Shdr {
        stype: stripped.stype,
        offset: stripped.offset,
        ..*debug
    }
}

/// Adds an allocated section with a header of the debug half, which fits, and the type, the place
/// and the bytes of one of the stripped half. It fails as `raw` does; and `Memory` and `Read`.
fn add_loaded<S: Source>(
    stripped: &mut Elf<S>,
    t: ScnId,
    header: &Shdr,
    made: &mut Elf<NoSource>,
) -> Result<(), ElfError>
    requires there { t.0 < length stripped.old.o.sections }
    requires some { 0 < length made.old.o.sections }
    requires room { length made.old.o.sections < MAX_SECTIONS }
    requires class { made.old.o.header.class ≡ stripped.old.o.header.class }
    requires fits { shdr_fits stripped.old.o.header.class header.now ≡ true }
    ensures adds { OnOk result (HasMoreSections stripped.old.told
        (made_section (loaded_header header.now (header_at stripped.old.o t.0))
        (bytes_at_home stripped.old.o t.0) ∷ []) made.old made.new) }
    ensures passed { OnOk result (raw_refusal stripped.old.o t.0 ≡ None) }
    ensures err { IfErr result (UnreadBy (raw_refusal stripped.old.o t.0)) }
    ensures asks { AsksFor S.Source result stripped.old stripped.new
        (homes_due stripped.old.o [] (t.0 ∷ [])) }
{
    let _sound = stripped.is_out_of_file(t);
    let joined = loaded_header(header, &stripped.section_header(t));
    add_home(stripped, t, &joined, made)
}

/// Adds the section that is made of one of the debug half, before which so many are allocated, and
/// returns how many there are with it.
fn add_next<S: Source, T: Source>(
    stripped: &mut Elf<S>,
    debug: &mut Elf<T>,
    loaded: &[u32],
    taken: u32,
    s: ScnId,
    made: &mut Elf<NoSource>,
) -> Result<u32, UnstripFault>
    requires matches { matches stripped.old.o debug.old.o ≡ true }
    requires loaded { loaded.now ≡ allocated stripped.old.o }
    requires taken { taken ≡ length (allocated_below debug.old.o s.0) }
    requires first { 0 < s.0 }
    requires there { s.0 < length debug.old.o.sections }
    requires made { length made.old.o.sections ≡ s.0 }
    requires class { made.old.o.header.class ≡ stripped.old.o.header.class }
    ensures { AddsNext S.Source T.Source s.0 result stripped.old stripped.new debug.old debug.new
        made.old made.new }
{
    let _sound = debug.is_out_of_file(s);
    let header = debug.section_header(s);
    if is_header_allocated(&header) {
        let t = ScnId(listed_number(loaded, taken as usize));
        return match add_loaded(stripped, t, &header, made) {
            Ok(()) => Ok(taken + 1),
            Err(e) => Err(UnstripFault::Elf(e)),
        };
    }
    match add_home(debug, s, &header, made) {
        Ok(()) => Ok(taken),
        Err(e) => Err(UnstripFault::Debug(e)),
    }
}

/// Adds the sections that are made of those of the debug half from 1 on, of which there are some,
/// after section 0. It fails with the first refusal, and besides `Memory` and `Read`.
pub(crate) fn add_all<S: Source, T: Source>(
    stripped: &mut Elf<S>,
    debug: &mut Elf<T>,
    loaded: &[u32],
    made: &mut Elf<NoSource>,
) -> Result<(), UnstripFault>
    requires matches { matches stripped.old.o debug.old.o ≡ true }
    requires loaded { loaded.now ≡ allocated stripped.old.o }
    requires some { 0 < length debug.old.o.sections }
    requires made { length made.old.o.sections ≡ 1 }
    requires class { made.old.o.header.class ≡ stripped.old.o.header.class }
    ensures { AddsAll S.Source T.Source result stripped.old stripped.new debug.old debug.new
        made.old made.new }
{
    let _sound = made.is_out_of_file(ScnId(0));
    let mut taken = 0;
    for s in 1..debug.shnum() {
        match add_next(stripped, debug, loaded, taken, ScnId(s), made) {
            Ok(next) => taken = next,
            Err(fault) => return Err(fault),
        }
    }
    Ok(())
}

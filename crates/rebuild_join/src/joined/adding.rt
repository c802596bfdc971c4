//! Sections that are added one after another, each with the bytes of a home.

ghost use Rattle.std.specs.Prelude.{◌≡◌, ◌<◌, ◌∷◌, [], length, true, None, OnOk, IfErr};
ghost use Rattle.elf_types.specs.declared.constants.TheConstants.{MAX_SECTIONS};
ghost use Rattle.elf_xlate.specs.Headers.{shdr_fits};
ghost use Rattle.rebuild_keep.specs.elf_object.Answers.{raw_refusal};
ghost use Rattle.rebuild_keep.specs.elf_object.Due.{homes_due};
ghost use Rattle.rebuild_keep.specs.rebuild_model.Rebuilt.{made_section};
ghost use Rattle.rebuild_keep.specs.rebuild_making.Refused.{UnreadBy};
ghost use Rattle.rebuild_keep.specs.Homes.{bytes_at_home};
ghost use Rattle.rebuild_keep.specs.Makes.{AsksFor};
ghost use Rattle.rebuild_join.specs.Joined.Joined.{HasMoreSections};

use elf_outside::{NoSource, Source};
use elf_types::{ElfError, ScnId, Shdr};
use rebuild_keep::bytes_at_home;
use rebuild_keep::prelude::{Elf, add_section};

/// Adds a section with this header, which fits, and the bytes of a section's home after those of
/// another object, of which there are some. It fails as `raw` does; and `Memory` and `Read`.
pub(crate) fn add_home<S: Source>(
    elf: &mut Elf<S>,
    s: ScnId,
    header: &Shdr,
    made: &mut Elf<NoSource>,
) -> Result<(), ElfError>
    requires some { 0 < length made.old.o.sections }
    requires room { length made.old.o.sections < MAX_SECTIONS }
    requires class { made.old.o.header.class ≡ elf.old.o.header.class }
    requires fits { shdr_fits elf.old.o.header.class header.now ≡ true }
    ensures adds { OnOk result (HasMoreSections elf.old.told
        (made_section header.now (bytes_at_home elf.old.o s.0) ∷ []) made.old made.new) }
    ensures passed { OnOk result (raw_refusal elf.old.o s.0 ≡ None) }
    ensures err { IfErr result (UnreadBy (raw_refusal elf.old.o s.0)) }
    ensures asks { AsksFor S.Source result elf.old elf.new
        (homes_due elf.old.o [] (s.0 ∷ [])) }
{
    match bytes_at_home(elf, s) {
        Ok(items) => add_section(made, header, items),
        Err(e) => Err(e),
    }
}

//! Sections that are loaded of the file.

ghost use Rattle.std.specs.Prelude.{◌≡◌, ◌<◌, length};
ghost use Rattle.rebuild_model.specs.Split.{is_loaded_from_file};
ghost use Rattle.rebuild_debug.specs.Half.{half_header};

use elf_outside::Source;
use elf_types::constants::SHT_NOBITS;
use elf_types::{ScnId, Shdr};
use rebuild_object::prelude::{Elf, is_header_allocated, occupies_file};

/// Whether a section is allocated and has bytes in the file.
///
/// Source: gABI chapter 4, "Section Header", SHF_ALLOC and SHT_NOBITS.
#[tactic(auto, unfolding(rebuild_model::specs::Split::is_loaded_from_file))]
pub(crate) fn is_loaded_from_file(h: &Shdr) -> bool
    ensures { result ≡ is_loaded_from_file h.now }
{
    is_header_allocated(h) && occupies_file(h)
}

/// The header that a section that is there has in the debug half: where it is loaded of the file it
/// becomes `SHT_NOBITS` and keeps its size.
///
/// Source: gABI chapter 4, "Sections", SHT_NOBITS.
pub(crate) fn header_of_half<S: Source>(elf: &Elf<S>, s: ScnId) -> Shdr
    requires { s.0 < length elf.now.o.sections }
    ensures { result ≡ half_header elf.now.o s.0 }
{
    let h = elf.section_header(s);
    if is_loaded_from_file(&h) {
        return Shdr {
            stype: SHT_NOBITS,
            ..h
        };
    }
    h
}

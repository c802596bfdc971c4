//! Small questions on section headers.

ghost use Rattle.std.specs.Prelude.{◌≡◌};
ghost use Rattle.rebuild_model.specs.elf_object.Sections as words;

use elf_types::Shdr;
use elf_types::constants::{SHF_ALLOC, SHT_REL, SHT_RELA};

/// Whether a section is in memory when the program runs.
///
/// Source: gABI chapter 4, "Sections", SHF_ALLOC.
#[tactic(auto, unfolding(rebuild_model::specs::Passed::is_allocated))]
pub fn is_header_allocated(h: &Shdr) -> bool
    ensures { result ≡ words.is_allocated h.now }
{
    h.flags / SHF_ALLOC % 2 == 1
}

/// Whether a section holds relocations.
///
/// Source: gABI chapter 4, "Sections", SHT_REL and SHT_RELA.
#[tactic(auto, unfolding(rebuild_model::specs::Passed::is_relocations))]
pub fn is_relocations(h: &Shdr) -> bool
    ensures { result ≡ words.is_relocations h.now }
{
    h.stype == SHT_REL || h.stype == SHT_RELA
}

//! Step 2: relocations of a removed section.

ghost use Rattle.std.specs.Prelude.{◌≡◌, IfOk, IfErr};
ghost use Rattle.elf_types.specs.declared.errors.ElfError.TheVariants.{Memory};
ghost use Rattle.rebuild_model.specs.Removed as rules;

use crate::headers::{is_header_allocated, is_relocations};
use crate::sets::SectionSet;
use crate::walks::{SectionTest, with_found};
use elf_types::{ElfError, ScnId};
use gelf_view::prelude::Elf;
use rebuild_model::prelude::Source;
use std::alloc::Global;

/// Relocations without `SHF_ALLOC` of a section that was removed.
#[derive(Clone, Copy)]
struct RelocatesRemoved<'a> {
    /// What was removed.
    removed: &'a SectionSet,
}

impl SectionTest for RelocatesRemoved<'_> {
    ghost passes = { λ t o s. rules.relocates_removed o t.removed.now s };

    #[tactic(auto, unfolding(rebuild_model::specs::Removed::relocates_removed))]
    fn passes<S: Source>(&self, elf: &Elf<S>, s: ScnId) -> bool {
        let h = elf.section_header(s);
        is_relocations(&h) && !is_header_allocated(&h) && self.removed.contains(h.info)
    }
}

/// What was removed, and the relocations without `SHF_ALLOC` whose `sh_info` is one of these
/// sections. It fails with `Memory` alone and reads nothing.
///
/// Source: gABI chapter 4, "Sections", sh_info of SHT_REL and SHT_RELA.
pub fn with_relocations<S: Source>(
    alloc: Global,
    elf: &Elf<S>,
    removed: &SectionSet,
) -> Result<SectionSet, ElfError>
    ensures ok { IfOk result (λ set. set
        ≡ rules.with_found elf.now.o (rules.relocates_removed elf.now.o) removed.now) }
    ensures err { IfErr result (λ e. e ≡ Memory) }
{
    with_found(alloc, &RelocatesRemoved { removed }, elf, removed)
}

//! Step 4: extended indexes of a removed symbol table.

ghost use Rattle.std.specs.Prelude.{◌≡◌, IfOk, IfErr};
ghost use Rattle.elf_types.specs.declared.errors.ElfError.TheVariants.{Memory};
ghost use Rattle.rebuild_model.specs.Removed as rules;

use crate::sets::SectionSet;
use crate::walks::{SectionTest, with_found};
use elf_types::constants::SHT_SYMTAB_SHNDX;
use elf_types::{ElfError, ScnId};
use gelf_view::prelude::Elf;
use rebuild_model::prelude::Source;
use std::alloc::Global;

/// Extended indexes that link to a section that was removed.
#[derive(Clone, Copy)]
struct IndexesRemoved<'a> {
    /// What was removed.
    removed: &'a SectionSet,
}

impl SectionTest for IndexesRemoved<'_> {
    ghost passes = { λ t o s. rules.indexes_removed o t.removed.now s };

    #[tactic(auto, unfolding(rebuild_model::specs::Removed::indexes_removed))]
    fn passes<S: Source>(&self, elf: &Elf<S>, s: ScnId) -> bool {
        let h = elf.section_header(s);
        h.stype == SHT_SYMTAB_SHNDX && self.removed.contains(h.link)
    }
}

/// What was removed, and the tables of extended indexes that link to one of these sections. It
/// fails with `Memory` alone and reads nothing.
///
/// Source: gABI chapter 4, "Sections", sh_link of SHT_SYMTAB_SHNDX.
pub fn with_extended_indexes<S: Source>(
    alloc: Global,
    elf: &Elf<S>,
    removed: &SectionSet,
) -> Result<SectionSet, ElfError>
    ensures ok { IfOk result (λ set. set
        ≡ rules.with_found elf.now.o (rules.indexes_removed elf.now.o) removed.now) }
    ensures err { IfErr result (λ e. e ≡ Memory) }
{
    with_found(alloc, &IndexesRemoved { removed }, elf, removed)
}

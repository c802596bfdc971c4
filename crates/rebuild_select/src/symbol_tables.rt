//! Step 3: symbol tables that nothing needs.

ghost use Rattle.std.specs.Prelude.{◌≡◌, ◌==◌, ◌&&◌, not, IfOk, IfErr};
ghost use Rattle.elf_types.specs.declared.errors.ElfError.TheVariants.{Memory};
ghost use Rattle.elf_types.specs.declared.constants.TheConstants.{SHT_SYMTAB};
ghost use Rattle.rebuild_model.specs.Removed as rules;
ghost use Rattle.rebuild_model.specs.elf_object.Sections as words;
ghost use Rattle.rebuild_select.specs.Users.{needs_some, is_unneeded_by};

use crate::headers::{is_header_allocated, is_relocations};
use crate::links::linked_by;
use crate::sets::SectionSet;
use crate::walks::{SectionTest, with_found};
use elf_types::constants::{SHT_GROUP, SHT_SYMTAB};
use elf_types::{ElfError, ScnId};
use gelf_view::prelude::Elf;
use rebuild_model::prelude::Source;
use std::alloc::Global;

/// Relocations and groups that are left: each needs the symbols of the section to which it links.
#[derive(Clone, Copy)]
struct NeedsSymbols<'a> {
    /// What was removed.
    removed: &'a SectionSet,
}

impl SectionTest for NeedsSymbols<'_> {
    ghost passes = { λ t o s. needs_some o t.removed.now s };

    #[tactic(auto, unfolding(crate::specs::Users::needs_some))]
    fn passes<S: Source>(&self, elf: &Elf<S>, s: ScnId) -> bool {
        let h = elf.section_header(s);
        (is_relocations(&h) || h.stype == SHT_GROUP) && !self.removed.contains(s.0)
    }
}

/// Symbol tables without `SHF_ALLOC` that are not needed.
#[derive(Clone, Copy)]
struct IsUnneeded<'a> {
    /// The sections whose symbols are needed.
    needed: &'a SectionSet,
}

impl SectionTest for IsUnneeded<'_> {
    ghost passes = { λ t o s. is_unneeded_by t.needed.now o s };

    #[tactic(auto, unfolding(crate::specs::Users::is_unneeded_by))]
    fn passes<S: Source>(&self, elf: &Elf<S>, s: ScnId) -> bool {
        let h = elf.section_header(s);
        h.stype == SHT_SYMTAB && !is_header_allocated(&h) && !self.needed.contains(s.0)
    }
}

/// What was removed, and the symbol tables without `SHF_ALLOC` to which no relocations and no group
/// link that are left. It fails with `Memory` alone and reads nothing.
///
/// Source: gABI chapter 4, "Sections", sh_link of SHT_REL, SHT_RELA and SHT_GROUP.
pub fn with_symbol_tables<S: Source>(
    alloc: Global,
    elf: &Elf<S>,
    removed: &SectionSet,
) -> Result<SectionSet, ElfError>
    ensures ok { IfOk result (λ set. set
        ≡ rules.with_found elf.now.o (rules.is_unneeded_symtab elf.now.o) removed.now) }
    ensures err { IfErr result (λ e. e ≡ Memory) }
{
    match linked_by(alloc, &NeedsSymbols { removed }, elf) {
        Ok(needed) => with_found(alloc, &IsUnneeded { needed: &needed }, elf, removed),
        Err(e) => Err(e),
    }
}

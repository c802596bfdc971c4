//! Small questions on section headers: which sections have items that follow.

ghost use Rattle.std.specs.Prelude.{◌≡◌};
ghost use Rattle.elf_types.specs.Kinds.{section_kind};
ghost use Rattle.elf_types.specs.declared.constants.TheConstants.{SHT_SYMTAB, SHT_GROUP, SHT_SYMTAB_SHNDX};
ghost use Rattle.elf_types.specs.declared.records.Kind.TheVariants as kinds;
ghost use Rattle.rebuild_select.specs.elf_object.Answers.{same_kind};
ghost use Rattle.rebuild_select.specs.elf_object.Sections.{is_loose};

use elf_types::constants::{SHT_GROUP, SHT_SYMTAB, SHT_SYMTAB_SHNDX};
use elf_types::{Class, Kind, Shdr, kind_of};
use rebuild_select::is_header_allocated;

/// Whether a section's items are symbols.
#[tactic(auto, unfolding(rebuild_select::specs::Passed::kind_code))]
fn has_symbols(h: &Shdr) -> bool
    ensures { result ≡ same_kind (section_kind h.now) kinds.Sym }
{
    matches!(kind_of(Class::C64, h), Kind::Sym)
}

/// Whether a section's items are words.
#[tactic(auto, unfolding(rebuild_select::specs::Passed::kind_code))]
fn has_words(h: &Shdr) -> bool
    ensures { result ≡ same_kind (section_kind h.now) kinds.Word }
{
    matches!(kind_of(Class::C64, h), Kind::Word)
}

/// Whether a section is a symbol table of `SHT_SYMTAB` without `SHF_ALLOC`. It takes no memory.
///
/// Source: gABI chapter 4, "Symbol Table".
#[tactic(auto, unfolding(rebuild_select::specs::Passed::is_loose, rebuild_select::specs::Passed::is_of))]
pub fn is_symbol_table(h: &Shdr) -> bool
    ensures { result ≡ is_loose SHT_SYMTAB kinds.Sym h.now }
{
    h.stype == SHT_SYMTAB && has_symbols(h) && !is_header_allocated(h)
}

/// Whether a section is a group without `SHF_ALLOC`. It takes no memory.
///
/// Source: gABI chapter 4, "Section Groups".
#[tactic(auto, unfolding(rebuild_select::specs::Passed::is_loose, rebuild_select::specs::Passed::is_of))]
pub fn is_group(h: &Shdr) -> bool
    ensures { result ≡ is_loose SHT_GROUP kinds.Word h.now }
{
    h.stype == SHT_GROUP && has_words(h) && !is_header_allocated(h)
}

/// Whether a section is a table of extended indexes without `SHF_ALLOC`. It takes no memory.
///
/// Source: gABI chapter 4, SHT_SYMTAB_SHNDX.
#[tactic(auto, unfolding(rebuild_select::specs::Passed::is_loose, rebuild_select::specs::Passed::is_of))]
pub fn is_index_table(h: &Shdr) -> bool
    ensures { result ≡ is_loose SHT_SYMTAB_SHNDX kinds.Word h.now }
{
    h.stype == SHT_SYMTAB_SHNDX && has_words(h) && !is_header_allocated(h)
}

//! The steps in their order.

ghost use Rattle.std.specs.Prelude.{◌≡◌, [], IfOk, IfErr, if◌then◌else◌};
ghost use Rattle.elf_types.specs.declared.errors.ElfError.TheVariants.{Memory};
ghost use Rattle.rebuild_model.specs.elf_object.Words.{Answers};
ghost use Rattle.gelf_view.specs.elf_descriptor.Reads.{Queries, wanted};
ghost use Rattle.rebuild_model.specs.Removed as rules;
ghost use Rattle.rebuild_select.specs.Steps.{IsRemovable};
ghost use Rattle.rebuild_select.specs.Calls as calls;

use crate::extended_indexes::with_extended_indexes;
use crate::names::with_named;
use crate::relocations::with_relocations;
use crate::sets::SectionSet;
use crate::string_tables::with_string_tables;
use crate::symbol_tables::with_symbol_tables;
use elf_types::ElfError;
use gelf_view::prelude::Elf;
use rebuild_model::prelude::Source;
use std::alloc::Global;
use tool_text::Args;

/// Step 3, where symbol tables are to go too.
fn with_tables<S: Source>(
    alloc: Global,
    elf: &Elf<S>,
    symbols_too: bool,
    removed: SectionSet,
) -> Result<SectionSet, ElfError>
    ensures ok { IfOk result (λ set. set ≡ if symbols_too
        then rules.with_found elf.now.o (rules.is_unneeded_symtab elf.now.o) removed
        else removed) }
    ensures err { IfErr result (λ e. e ≡ Memory) }
{
    if symbols_too {
        with_symbol_tables(alloc, elf, &removed)
    } else {
        Ok(removed)
    }
}

/// What was removed, and what goes with it by the steps 2 to 5, of which step 3 counts where symbol
/// tables are to go too. It fails with `Memory` alone and reads nothing.
fn with_followers<S: Source>(
    alloc: Global,
    elf: &Elf<S>,
    symbols_too: bool,
    removed: &SectionSet,
) -> Result<SectionSet, ElfError>
    ensures ok { IfOk result (λ set. set
        ≡ rules.with_followers elf.now.o symbols_too removed.now) }
    ensures err { IfErr result (λ e. e ≡ Memory) }
{
    let relocations = match with_relocations(alloc, elf, removed) {
        Ok(set) => set,
        Err(e) => return Err(e),
    };
    let tables = match with_tables(alloc, elf, symbols_too, relocations) {
        Ok(set) => set,
        Err(e) => return Err(e),
    };
    match with_extended_indexes(alloc, elf, &tables) {
        Ok(indexes) => with_string_tables(alloc, elf, &indexes),
        Err(e) => Err(e),
    }
}

/// The sections that strip removes: of those from 1 on but for the section of the names, those of
/// these names, those without `SHF_ALLOC` of debug data by their names, and what goes with them;
/// with `debug_only` symbol tables stay. It fails with `Memory`, and `Read` where the names are not
/// loaded. It reads the home of the names at the first use, and marks nothing dirty.
///
/// Source: strip(1) of the development tools.
pub fn removed<S: Source>(
    alloc: Global,
    elf: &mut Elf<S>,
    debug_only: bool,
    names: &Args,
) -> Result<SectionSet, ElfError>
    ensures answer { Answers elf.old.told (wanted (calls.removed debug_only names.now) elf.old)
        result ((calls.removed debug_only names.now).answer elf.old.o) }
    ensures removable { IfOk result (IsRemovable elf.old.o) }
    ensures queries { Queries S.Source (calls.removed debug_only names.now) [] result
        elf.old elf.new }
{
    match with_named(alloc, elf, names, true) {
        Ok(named) => with_followers(alloc, elf, !debug_only, &named),
        Err(e) => Err(e),
    }
}

/// The sections that copy removes: those of these names from 1 on, but for the section of the
/// names, and what goes with them by the steps 2, 4 and 5 of strip. It rejects and reads as
/// `removed`.
///
/// Source: objcopy(1) of the development tools, `-R`.
pub fn removed_by_name<S: Source>(
    alloc: Global,
    elf: &mut Elf<S>,
    names: &Args,
) -> Result<SectionSet, ElfError>
    ensures answer { Answers elf.old.told (wanted (calls.removal_by_name names.now) elf.old)
        result ((calls.removal_by_name names.now).answer elf.old.o) }
    ensures removable { IfOk result (IsRemovable elf.old.o) }
    ensures queries { Queries S.Source (calls.removal_by_name names.now) [] result
        elf.old elf.new }
{
    match with_named(alloc, elf, names, false) {
        Ok(named) => with_followers(alloc, elf, false, &named),
        Err(e) => Err(e),
    }
}

//! A symbol table in another order.

ghost use Rattle.std.specs.Prelude.{◌≡◌, true, length, IsTrue, IfErr, None};
ghost use Rattle.elf_types.specs.Answers.{answered};
ghost use Rattle.elf_types.specs.declared.records.Kind.TheVariants as kinds;
ghost use Rattle.symbol_lookup.specs.elf_object.Words.{Answers};
ghost use Rattle.symbol_lookup.specs.elf_object.Answers.{count_at, items_at, syms_of};
ghost use Rattle.symbol_lookup.specs.hash_model.Reordered.{in_order, reorder_refusal};
ghost use Rattle.hash_build.specs.Rows.{IsOrder};
ghost use Rattle.hash_order.specs.Indexes.{AreNewIndexes};
ghost use Rattle.hash_order.specs.Plans.{IsAtHand};
ghost use Rattle.hash_order.specs.Reading.{MayStopReading};
ghost use Rattle.hash_order.specs.Calls.{all_homes, order_homes, reorder_wants, Reorders};

use crate::checks::check_order;
use crate::indexes::new_indexes;
use crate::planning::{plan_sections, plan_symbols};
use crate::storing::store_plan;
use elf_outside::Source;
use elf_types::{ElfError, ScnId, Syms, Words};
use symbol_lookup::prelude::Elf;

/// Plans what each section gets, and then stores the symbols, which are in order, and the plan.
fn reorder_with<S: Source>(
    elf: &mut Elf<S>,
    s: ScnId,
    order: &Words,
    indexes: &Words,
    symbols: Syms,
) -> Result<(), ElfError>
    requires passed { reorder_refusal elf.old.o s.0 ≡ None }
    requires order { IsOrder order.now (count_at elf.old.o s.0 0) }
    requires new { AreNewIndexes order.now indexes.now }
    requires symbols { IsTrue elf.old.told
        → symbols ≡ in_order order.now (syms_of (items_at elf.old.o s.0 0)) }
    requires long { length symbols ≡ length order.now }
    requires hand { IsAtHand elf.old s.0 kinds.Sym }
    ensures reorders { Reorders S.Source s.0 order.now result elf.old elf.new }
    ensures ended { IfErr result (MayStopReading elf.old (all_homes elf.old.o s.0)) }
{
    let mut plan = Vec::new(elf.alloc());
    match plan_sections(elf, s, order, indexes, &mut plan) {
        Ok(()) => {
            store_plan(elf, s, symbols, &mut plan);
            Ok(())
        }
        Err(e) => Err(e),
    }
}

/// Puts the symbols in order, and then plans and stores the rest.
fn reorder_by<S: Source>(
    elf: &mut Elf<S>,
    s: ScnId,
    order: &Words,
    indexes: &Words,
) -> Result<(), ElfError>
    requires passed { reorder_refusal elf.old.o s.0 ≡ None }
    requires order { IsOrder order.now (count_at elf.old.o s.0 0) }
    requires new { AreNewIndexes order.now indexes.now }
    ensures reorders { Reorders S.Source s.0 order.now result elf.old elf.new }
    ensures ended { IfErr result (MayStopReading elf.old (all_homes elf.old.o s.0)) }
{
    match plan_symbols(elf, s, order) {
        Ok(symbols) => reorder_with(elf, s, order, indexes, symbols),
        Err(e) => Err(e),
    }
}

/// Plans a new order that nothing rejects, and stores it.
fn reorder_passed<S: Source>(elf: &mut Elf<S>, s: ScnId, order: &Words) -> Result<(), ElfError>
    requires passed { reorder_refusal elf.old.o s.0 ≡ None }
    requires order { IsOrder order.now (count_at elf.old.o s.0 0) }
    ensures reorders { Reorders S.Source s.0 order.now result elf.old elf.new }
    ensures ended { IfErr result (MayStopReading elf.old (all_homes elf.old.o s.0)) }
{
    match new_indexes(elf.alloc(), order) {
        Ok(indexes) => reorder_by(elf, s, order, &indexes),
        Err(e) => Err(e),
    }
}

/// Puts the symbols in piece 0 of a symbol table in another order, which tells their present
/// indexes. In the sections that link to it go along: in piece 0 of those of the types
/// `SHT_SYMTAB_SHNDX` and `SHT_GNU_versym` the items, in `SHT_REL` and `SHT_RELA` the index of each
/// relocation's symbol, and in `SHT_GROUP`, but for section 0, the signature in `sh_info`. An index
/// that is no symbol's stays.
///
/// It fails as a lend of the symbols, and then, section by section, as a lend of the items that go
/// along, and with `NoEntry` where there are fewer of them than symbols, with the last symbol; then
/// `Memory` or `Read`. All this comes before the first change. It reads each piece at the first
/// use.
///
/// Source: gABI chapter 4, "Sections", `sh_link` and `sh_info`.
pub fn reorder<S: Source>(elf: &mut Elf<S>, s: ScnId, order: &Words) -> Result<(), ElfError>
    requires { IsOrder order.now (count_at elf.old.o s.0 0) }
    ensures answer { Answers true (reorder_wants elf.old s.0) result
        (answered (reorder_refusal elf.old.o s.0) tt) }
    ensures reorders { Reorders S.Source s.0 order.now result elf.old elf.new }
{
    match check_order(elf, s) {
        Ok(_) => reorder_passed(elf, s, order),
        Err(e) => Err(e),
    }
}

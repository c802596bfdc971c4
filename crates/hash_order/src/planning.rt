//! What each section gets, made before the first change.

ghost use Rattle.std.specs.Prelude.{◌≡◌, ◌<◌, ◌++◌, ◌∷◌, ◌==◌, ◌&&◌, ℕ, List, [], not, is_none, length, Contains, IsTrue, IfOk, IfErr, OnOk, None};
ghost use Rattle.elf_types.specs.declared.errors.ElfError.TheVariants.{Memory};
ghost use Rattle.elf_types.specs.declared.constants.TheConstants as constants;
ghost use Rattle.elf_types.specs.declared.records.Kind.TheVariants as kinds;
ghost use Rattle.elf_xlate.specs.Translation.{items_kind};
ghost use Rattle.symbol_lookup.specs.elf_object.Object.{piece_at};
ghost use Rattle.symbol_lookup.specs.elf_object.Answers.{items_at, count_at, syms_of, lend_refusal};
ghost use Rattle.symbol_lookup.specs.elf_object.Words.{result_map};
ghost use Rattle.symbol_lookup.specs.hash_model.Reordered.{in_order, items_by_symbols, reorder_refusal};
ghost use Rattle.hash_build.specs.Rows.{IsOrder};
ghost use Rattle.hash_order.specs.Indexes.{AreBelow, AreNewIndexes};
ghost use Rattle.hash_order.specs.Kinds.{IsByIndex, CanFollow, MovesBy};
ghost use Rattle.hash_order.specs.Plans.{planned_next, planned_signature, IsStatedNext, IsPlan, IsAtHand, IsReadyNext, AreReady, AppendsNext};
ghost use Rattle.hash_order.specs.Reading.{ReadsHomes};
ghost use Rattle.hash_order.specs.Calls.{all_homes};
ghost use Rattle.hash_order.specs.declared.nexts.Next.TheVariants as nexts;

use crate::indexes::new_index;
use crate::kinds::kind_by_symbols;
use crate::moving::{in_order, moved_along};
use crate::nexts::Next;
use crate::relocations::followed;
use elf_outside::Source;
use elf_types::constants::SHT_GROUP;
use elf_types::{DataId, ElfError, Kind, ScnId, Shdr, Syms, Words};
use elf_xlate::Items;
use std::alloc::Global;
use symbol_lookup::prelude::Elf;

// ---- Items

/// The items of a section that goes by the symbols. It fails with `Memory` alone.
fn items_by_symbols(
    alloc: Global,
    order: &Words,
    indexes: &Words,
    items: &Items,
) -> Result<Items, ElfError>
    requires below { AreBelow order.now }
    requires new { AreNewIndexes order.now indexes.now }
    requires moves { MovesBy order.now items.now }
    ensures ok { IfOk result (λ next. next ≡ items_by_symbols order.now items.now) }
    ensures err { IfErr result (λ e. e ≡ Memory) }
{
    match items {
        Items::Word(l) => Ok(Items::Word(moved_along(alloc, order, l)?)),
        Items::Half(l) => Ok(Items::Half(moved_along(alloc, order, l)?)),
        Items::Rel(l) => Ok(Items::Rel(followed(alloc, order, indexes, l)?)),
        Items::Rela(l) => Ok(Items::Rela(followed(alloc, order, indexes, l)?)),
        _ => unreachable!(),
    }
}

/// The symbols in their new order. It fails with `Memory` alone.
fn symbols_in_order(alloc: Global, order: &Words, items: &Items) -> Result<Syms, ElfError>
    requires { items_kind items.now ≡ kinds.Sym }
    ensures ok { IfOk result (λ l. l ≡ in_order order.now (syms_of items.now)) }
    ensures err { IfErr result (λ e. e ≡ Memory) }
{
    match items {
        Items::Sym(l) => in_order(alloc, order, l),
        _ => unreachable!(),
    }
}

/// Items that were made, as what a section gets.
fn as_next(made: Result<Items, ElfError>) -> Result<Next, ElfError>
    ensures { result ≡ result_map nexts.Items made }
{
    match made {
        Ok(items) => Ok(Next::Items(items)),
        Err(e) => Err(e),
    }
}

// ---- One section

/// What a section gets whose items, of that kind, go by the symbols. It stops by `Memory`, and by
/// `Read` where a read of the source failed. It reads the piece at the first use, and marks nothing
/// dirty.
fn plan_items<S: Source>(
    elf: &mut Elf<S>,
    n: u32,
    _kind: Kind,
    order: &Words,
    indexes: &Words,
) -> Result<Next, ElfError>
    requires below { AreBelow order.now }
    requires new { AreNewIndexes order.now indexes.now }
    requires kind { IsByIndex _kind }
    requires passed { lend_refusal elf.old.o _kind n 0 ≡ None }
    requires moves { CanFollow (length order.now) _kind (count_at elf.old.o n 0) }
    ensures next { IfOk result (λ x. IsStatedNext elf.old.told x
        (nexts.Items (items_by_symbols order.now (items_at elf.old.o n 0)))) }
    ensures ready { IfOk result (IsReadyNext elf.new n) }
    ensures reads { (homes : List ℕ)
        → (IsTrue (is_none (piece_at elf.old.o n 0).own) → Contains homes n)
        → ReadsHomes S.Source homes result elf.old elf.new }
{
    let alloc = elf.alloc();
    let d = DataId {
        section: n,
        piece: 0,
    };
    match elf.data(d) {
        Ok(items) => as_next(items_by_symbols(alloc, order, indexes, items)),
        Err(e) => Err(e),
    }
}

/// What a group gets: its signature, where that is one of the symbols.
fn plan_signature(info: u32, order: &Words, indexes: &Words) -> Next
    requires below { AreBelow order.now }
    requires new { AreNewIndexes order.now indexes.now }
    ensures { result ≡ planned_signature order.now info }
{
    if u64::from(info) < order.len() {
        return Next::Signature(new_index(order, indexes, info));
    }
    Next::Stay
}

/// Whether a section is a group with a signature.
fn is_group(h: &Shdr, n: u32) -> bool
    ensures { result ≡ (h.now.stype == constants.SHT_GROUP && not (n == 0)) }
{
    h.stype == SHT_GROUP && n != 0
}

/// What section n gets. It stops by `Memory`, and by `Read` where a read of the source failed. It
/// reads a piece at the first use, and marks nothing dirty.
fn plan_section<S: Source>(
    elf: &mut Elf<S>,
    s: ScnId,
    n: u32,
    order: &Words,
    indexes: &Words,
) -> Result<Next, ElfError>
    requires there { n < length elf.old.o.sections }
    requires passed { reorder_refusal elf.old.o s.0 ≡ None }
    requires order { IsOrder order.now (count_at elf.old.o s.0 0) }
    requires new { AreNewIndexes order.now indexes.now }
    ensures next { IfOk result (λ x. IsStatedNext elf.old.told x
        (planned_next elf.old.o s.0 order.now n)) }
    ensures ready { IfOk result (IsReadyNext elf.new n) }
    ensures reads { ReadsHomes S.Source (all_homes elf.old.o s.0) result elf.old elf.new }
{
    let _dirty = elf.dirty();
    let header = elf.section_header(ScnId(n));
    if header.link != s.0 {
        return Ok(Next::Stay);
    }
    if is_group(&header, n) {
        return Ok(plan_signature(header.info, order, indexes));
    }
    match kind_by_symbols(header.stype) {
        Some(kind) => plan_items(elf, n, kind, order, indexes),
        None => Ok(Next::Stay),
    }
}

// ---- All sections

/// Appends what a section gets. It fails with `Memory` alone.
fn push_next(plan: &mut Vec<Next>, next: Next) -> Result<(), ElfError>
    ensures ok { OnOk result (plan.new.items ≡ plan.old.items ++ next ∷ []) }
    ensures err { IfErr result (λ e. e ≡ Memory) }
{
    plan.push(next)?;
    Ok(())
}

/// Appends what section n gets.
fn plan_next<S: Source>(
    elf: &mut Elf<S>,
    s: ScnId,
    n: u32,
    order: &Words,
    indexes: &Words,
    plan: &mut Vec<Next>,
) -> Result<(), ElfError>
    requires there { n < length elf.old.o.sections }
    requires passed { reorder_refusal elf.old.o s.0 ≡ None }
    requires order { IsOrder order.now (count_at elf.old.o s.0 0) }
    requires new { AreNewIndexes order.now indexes.now }
    ensures appends { OnOk result (AppendsNext elf.old elf.new s.0 order.now n plan.old.items
        plan.new.items) }
    ensures reads { ReadsHomes S.Source (all_homes elf.old.o s.0) result elf.old elf.new }
{
    match plan_section(elf, s, n, order, indexes) {
        Ok(next) => push_next(plan, next),
        Err(e) => Err(e),
    }
}

/// Plans what each section gets, the last one first. It stops by `Memory`, and by `Read` where a
/// read of the source failed. It reads each piece at the first use, and marks nothing dirty.
pub fn plan_sections<S: Source>(
    elf: &mut Elf<S>,
    s: ScnId,
    order: &Words,
    indexes: &Words,
    plan: &mut Vec<Next>,
) -> Result<(), ElfError>
    requires none { plan.old.items ≡ [] }
    requires passed { reorder_refusal elf.old.o s.0 ≡ None }
    requires order { IsOrder order.now (count_at elf.old.o s.0 0) }
    requires new { AreNewIndexes order.now indexes.now }
    ensures plan { OnOk result
        (IsPlan elf.old.told elf.old.o s.0 order.now plan.new.items) }
    ensures ready { OnOk result (AreReady elf.new plan.new.items) }
    ensures reads { ReadsHomes S.Source (all_homes elf.old.o s.0) result elf.old elf.new }
{
    let shnum = elf.shnum();
    for done in 0..shnum {
        match plan_next(elf, s, shnum - 1 - done, order, indexes, plan) {
            Ok(()) => {}
            Err(e) => return Err(e),
        }
    }
    Ok(())
}

/// The symbols of a table in their new order. It stops by `Memory`, and by `Read` where a read of
/// the source failed. It reads them at the first use, and marks nothing dirty.
pub fn plan_symbols<S: Source>(elf: &mut Elf<S>, s: ScnId, order: &Words) -> Result<Syms, ElfError>
    requires passed { reorder_refusal elf.old.o s.0 ≡ None }
    requires order { IsOrder order.now (count_at elf.old.o s.0 0) }
    ensures symbols { IsTrue elf.old.told → IfOk result (λ l.
        l ≡ in_order order.now (syms_of (items_at elf.old.o s.0 0))) }
    ensures long { IfOk result (λ l. length l ≡ length order.now) }
    ensures hand { OnOk result (IsAtHand elf.new s.0 kinds.Sym) }
    ensures reads { ReadsHomes S.Source (all_homes elf.old.o s.0) result elf.old elf.new }
{
    let alloc = elf.alloc();
    let d = DataId {
        section: s.0,
        piece: 0,
    };
    match elf.data(d) {
        Ok(items) => symbols_in_order(alloc, order, items),
        Err(e) => Err(e),
    }
}

//! Stores what is planned. Each piece is in memory by now, so nothing is read, no memory is taken,
//! and nothing is rejected.

ghost use Rattle.std.specs.Prelude.{◌≡◌, ◌<◌, ◌-◌, length, take, slice_index_or, None};
ghost use Rattle.elf_types.specs.declared.records.Kind.TheVariants as kinds;
ghost use Rattle.elf_xlate.specs.declared.content.Items.TheVariants as items;
ghost use Rattle.elf_xlate.specs.Translation.{items_kind};
ghost use Rattle.symbol_lookup.specs.elf_object.Calls.{update_shdr_refusal};
ghost use Rattle.symbol_lookup.specs.elf_object.Steps.{with_own, with_shdr};
ghost use Rattle.hash_order.specs.Kinds.{IsByIndex};
ghost use Rattle.hash_order.specs.Plans.{signed, gets, stored, given_by, IsAtHand, IsReadyNext, AreReady, IsNoItems};
ghost use Rattle.hash_order.specs.Reading.{Stores, StoresOne};
ghost use Rattle.hash_order.specs.declared.nexts.Next.TheVariants as nexts;

use crate::nexts::Next;
use elf_outside::Source;
use elf_types::{DataId, List, ScnId, Shdr, Sym, Syms};
use elf_xlate::Items;
use symbol_lookup::prelude::{Elf, section_data_Listed as Listed};

/// Puts a list in place of that of the first piece of a section, which is of its kind.
fn put_list<S: Source, T: Listed + Drop>(elf: &mut Elf<S>, n: u32, list: List<T>)
    requires { IsAtHand elf.old n T.kind }
    ensures { StoresOne S.Source elf.old elf.new (with_own elf.old.o n 0 (T.variant list)) }
{
    let d = DataId {
        section: n,
        piece: 0,
    };
    match elf.lend::<T>(d) {
        Ok(lent) => {
            *lent = list;
        }
        Err(_) => unreachable!(),
    }
}

/// Puts items that go by symbols in place of those of the first piece of a section, which is of
/// their kind.
fn put_items<S: Source>(elf: &mut Elf<S>, n: u32, items: Items)
    requires kind { IsByIndex (items_kind items) }
    requires hand { IsAtHand elf.old n (items_kind items) }
    ensures { StoresOne S.Source elf.old elf.new (with_own elf.old.o n 0 items) }
{
    match items {
        Items::Word(l) => put_list(elf, n, l),
        Items::Half(l) => put_list(elf, n, l),
        Items::Rel(l) => put_list(elf, n, l),
        Items::Rela(l) => put_list(elf, n, l),
        _ => unreachable!(),
    }
}

/// Gives a group another signature.
fn put_signature<S: Source>(elf: &mut Elf<S>, n: u32, info: u32)
    requires { update_shdr_refusal elf.old.o n (signed elf.old.o n info) ≡ None }
    ensures { StoresOne S.Source elf.old elf.new
        (with_shdr elf.old.o n (signed elf.old.o n info)) }
{
    let header = elf.section_header(ScnId(n));
    match elf.update_shdr(ScnId(n), &Shdr { info, ..header }) {
        Ok(()) => {}
        Err(_) => unreachable!(),
    }
}

/// Stores what section n gets.
fn store_next<S: Source>(elf: &mut Elf<S>, n: u32, next: Next)
    requires { IsReadyNext elf.old n next }
    ensures { StoresOne S.Source elf.old elf.new (gets elf.old.o n next) }
{
    match next {
        Next::Stay => {}
        Next::Items(items) => put_items(elf, n, items),
        Next::Signature(info) => put_signature(elf, n, info),
    }
}

/// Stores the last of what is planned: section n gets it.
fn store_last<S: Source>(elf: &mut Elf<S>, n: u32, plan: &mut Vec<Next>)
    requires some { 0 < length plan.old.items }
    requires ready { IsReadyNext elf.old n
        (slice_index_or plan.old.items (length plan.old.items - 1) nexts.Stay) }
    ensures plan { plan.new.items ≡ take (length plan.old.items - 1) plan.old.items }
    ensures stores { StoresOne S.Source elf.old elf.new (gets elf.old.o n
        (slice_index_or plan.old.items (length plan.old.items - 1) nexts.Stay)) }
{
    match plan.pop() {
        Some(next) => store_next(elf, n, next),
        None => unreachable!(),
    }
}

/// Stores what is planned, section by section in the order of their numbers.
fn store_sections<S: Source>(elf: &mut Elf<S>, plan: &mut Vec<Next>)
    requires long { length plan.old.items ≡ length elf.old.o.sections }
    requires ready { AreReady elf.old plan.old.items }
    ensures { Stores S.Source elf.old elf.new
        (stored (given_by plan.old.items (length elf.old.o.sections)) 0
        (length elf.old.o.sections) elf.old.o) }
{
    let shnum = elf.shnum();
    for n in 0..shnum {
        store_last(elf, n, plan);
    }
}

/// Stores the symbols, and then what is planned.
pub fn store_plan<S: Source>(elf: &mut Elf<S>, s: ScnId, symbols: Syms, plan: &mut Vec<Next>)
    requires hand { IsAtHand elf.old s.0 kinds.Sym }
    requires long { length plan.old.items ≡ length elf.old.o.sections }
    requires ready { AreReady elf.old plan.old.items }
    requires apart { IsNoItems (given_by plan.old.items (length elf.old.o.sections) s.0) }
    ensures { Stores S.Source elf.old elf.new
        (stored (given_by plan.old.items (length elf.old.o.sections)) 0
        (length elf.old.o.sections) (with_own elf.old.o s.0 0 (items.Sym symbols))) }
{
    put_list::<S, Sym>(elf, s.0, symbols);
    store_sections(elf, plan);
}

//! Symbols that are surely not listed by a name, passed over where their bytes are.

ghost use Rattle.std.specs.Prelude.{◌≡◌, ◌<◌, ◌≤◌, ◌*◌, ◌/◌, ◌%◌, ℕ, length, take, drop, IfSome, IsTrue, None, true, false};
ghost use Rattle.elf_types.specs.declared.records.Kind.TheVariants as kinds;
ghost use Rattle.hash_model.specs.elf_xlate.Items.{item_size, sym_of};
ghost use Rattle.hash_model.specs.elf_object.Answers.{lend_refusal};
ghost use Rattle.symbol_lookup.specs.Lookups.{is_match, link_of};
ghost use Rattle.symbol_lookup.specs.Searches.{LacksName, LacksSymbol, LacksWhenListed, StandsAtHand};

use crate::fetching::form;
use crate::matching::is_defined_global;
use elf_types::{Class, DataId, Kind, Order, ScnId};
use gelf_view::prelude::{Elf, Held};
use hash_model::prelude::{Source, get_sym, item_size};

/// Whether bytes surely do not have a name with its NUL at a place of theirs.
#[inline(always)]
fn lacks_name(bytes: &[u8], offset: u64, name: &[u8]) -> bool
    ensures { result ≡ true → LacksName bytes.now offset name.now }
{
    if offset >= bytes.len() as u64 {
        return false;
    }
    let rest = &bytes[offset as usize..];
    if rest.len() <= name.len() {
        return true;
    }
    if rest[name.len()] != 0 {
        return true;
    }
    !rest.starts_with(name)
}

/// The bytes of item `i` of items of a size, where the bytes are whole items and there is such an
/// item.
#[tactic(auto, using(gelf_view::proofs::Passed::item_bytes))]
#[inline(always)]
fn bytes_of_item(bytes: &[u8], size: usize, i: u64) -> Option<&[u8]>
    requires { 0 < size }
    ensures there { IfSome result (λ b. b.now ≡ take size (drop (i * size) bytes.now)) }
    ensures inside { IfSome result (λ b. i < length bytes.now / size) }
    ensures len { IfSome result (λ b. length b.now ≡ size) }
    ensures whole { IfSome result (λ b. length bytes.now % size ≡ 0) }
{
    let len = bytes.len();
    if len % size != 0 {
        return None;
    }
    let at = (i as usize).checked_mul(size)?;
    if len <= at {
        return None;
    }
    Some(&bytes[at..at + size])
}

/// Whether the symbol that bytes hold is surely not listed by a name: it is local or not defined,
/// or the strings do not have the name where its name is.
#[inline(always)]
fn lacks_name_of(class: Class, order: Order, symbol: &[u8], strings: &[u8], name: &[u8]) -> bool
    requires { length symbol.now ≡ item_size kinds.Sym class }
    ensures { result ≡ true
        → LacksWhenListed strings.now name.now (sym_of class order symbol.now) }
{
    let x = get_sym(class, order, symbol);
    if !is_defined_global(x) {
        return true;
    }
    lacks_name(strings, u64::from(x.name), name)
}

/// Whether symbol `i` of those that bytes hold is surely not listed by a name.
#[inline(always)]
fn lacks_symbol(
    class: Class,
    order: Order,
    symbols: &[u8],
    strings: &[u8],
    name: &[u8],
    i: u64,
) -> bool
    ensures { result ≡ true → LacksSymbol class order symbols.now strings.now name.now i }
{
    match bytes_of_item(symbols, item_size(Kind::Sym, class) as usize, i) {
        Some(symbol) => lacks_name_of(class, order, symbol, strings, name),
        None => false,
    }
}

/// The first of some symbols that may be listed by a name, or the end of them.
#[inline(always)]
fn pass_in(
    form: (Class, Order),
    symbols: &[u8],
    strings: &[u8],
    name: &[u8],
    from: u64,
    end: u64,
) -> u64
    requires { from ≤ end }
    ensures at { from ≤ result }
    ensures passed { (j : ℕ) → from ≤ j → j < result
        → LacksSymbol form.0 form.1 symbols.now strings.now name.now j }
{
    for i in from..end {
        if !lacks_symbol(form.0, form.1, symbols, strings, name, i) {
            return i;
        }
    }
    end
}

/// The bytes of the first piece of a section, where it is the clean home piece and its home is
/// loaded.
fn raw_at_hand<S: Source>(elf: &Elf<S>, s: ScnId) -> Option<&[u8]>
    ensures { IfSome result (λ bytes. StandsAtHand elf.now s.0 bytes.now) }
{
    let home = DataId {
        section: s.0,
        piece: 0,
    };
    match elf.held(home) {
        Ok(Held::Raw(bytes)) => Some(bytes),
        Ok(_) => None,
        Err(_) => None,
    }
}

/// The first symbol of a table from one on that may be listed by a name, or a number from its end
/// on: those before it are surely not. Where the bytes of the table or of its strings are not in
/// memory none is passed over. The sizes are constants in the arm of each class.
pub fn pass_over<S: Source>(
    elf: &Elf<S>,
    s: ScnId,
    strings: ScnId,
    name: &[u8],
    from: u64,
    end: u64,
) -> u64
    requires passed { lend_refusal elf.now.o kinds.Sym s.0 0 ≡ None }
    requires strings { strings.0 ≡ link_of elf.now.o s.0 }
    requires order { from ≤ end }
    ensures at { from ≤ result }
    ensures passed { IsTrue elf.now.told → (j : ℕ) → from ≤ j → j < result
        → is_match elf.now.o s.0 name.now j ≡ false }
{
    let Some(symbols) = raw_at_hand(elf, s) else {
        return from;
    };
    let Some(bytes) = raw_at_hand(elf, strings) else {
        return from;
    };
    let (class, order) = form(elf);
    match class {
        Class::C32 => pass_in((Class::C32, order), symbols, bytes, name, from, end),
        Class::C64 => pass_in((Class::C64, order), symbols, bytes, name, from, end),
    }
}

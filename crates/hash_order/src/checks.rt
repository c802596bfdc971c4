//! What a reordering rejects. Nothing is read.

ghost use Rattle.std.specs.Prelude.{◌≡◌, ◌<◌, ◌∷◌, [], length, map, None};
ghost use Rattle.elf_types.specs.Answers.{answered, first_refusal};
ghost use Rattle.elf_types.specs.declared.records.Kind.TheVariants as kinds;
ghost use Rattle.symbol_lookup.specs.elf_object.Answers.{count_at, lend_refusal};
ghost use Rattle.symbol_lookup.specs.elf_object.Due.{all_sections};
ghost use Rattle.symbol_lookup.specs.hash_model.Reordered.{too_few_items, reorder_refusal, reorder_refusal_of};
ghost use Rattle.hash_order.specs.Kinds.{IsByIndex};

use crate::kinds::{has_item_each, kind_by_symbols};
use elf_outside::Source;
use elf_types::{DataId, ElfError, Kind, Rel, Rela, ScnId, Sym};
use symbol_lookup::prelude::{Elf, item_count};

/// The number of items of a kind by which a section may go by symbols. It fails as a lend of them.
fn count_of<S: Source>(elf: &Elf<S>, n: u32, kind: Kind) -> Result<u64, ElfError>
    requires { IsByIndex kind }
    ensures { result ≡ answered (lend_refusal elf.now.o kind n 0) (count_at elf.now.o n 0) }
{
    let d = DataId {
        section: n,
        piece: 0,
    };
    match kind {
        Kind::Word => item_count::<S, u32>(elf, d),
        Kind::Half => item_count::<S, u16>(elf, d),
        Kind::Rel => item_count::<S, Rel>(elf, d),
        Kind::Rela => item_count::<S, Rela>(elf, d),
        _ => unreachable!(),
    }
}

/// Whether a section with so many items of a type has one for each symbol where it needs them; else
/// `NoEntry`.
fn check_count<S: Source>(elf: &Elf<S>, n: u32, held: u64, count: u64) -> Result<(), ElfError>
    requires there { n < length elf.now.o.sections }
    requires held { held ≡ count_at elf.now.o n 0 }
    ensures { result ≡ answered (too_few_items elf.now.o count n) tt }
{
    if has_item_each(elf.section_header(ScnId(n)).stype) && held < count {
        return Err(ElfError::NoEntry {
            index: count - 1,
            count: held,
        });
    }
    Ok(())
}

/// Whether a section whose items have that kind can follow the symbols.
fn check_items<S: Source>(elf: &Elf<S>, n: u32, kind: Kind, count: u64) -> Result<(), ElfError>
    requires there { n < length elf.now.o.sections }
    requires kind { IsByIndex kind }
    ensures { result ≡ answered
        (first_refusal (lend_refusal elf.now.o kind n 0 ∷ too_few_items elf.now.o count n ∷ []))
        tt }
{
    match count_of(elf, n, kind) {
        Ok(held) => check_count(elf, n, held, count),
        Err(e) => Err(e),
    }
}

/// Whether a section can follow the symbols of section s, of which there are so many.
fn check_section<S: Source>(elf: &Elf<S>, s: ScnId, n: u32, count: u64) -> Result<(), ElfError>
    requires there { n < length elf.now.o.sections }
    requires count { count ≡ count_at elf.now.o s.0 0 }
    ensures { result ≡ answered (reorder_refusal_of elf.now.o s.0 n) tt }
{
    let header = elf.section_header(ScnId(n));
    if header.link != s.0 {
        return Ok(());
    }
    match kind_by_symbols(header.stype) {
        Some(kind) => check_items(elf, n, kind, count),
        None => Ok(()),
    }
}

/// Whether each section can, in the order of their numbers.
fn check_sections<S: Source>(elf: &Elf<S>, s: ScnId, count: u64) -> Result<(), ElfError>
    requires { count ≡ count_at elf.now.o s.0 0 }
    ensures { result ≡ answered
        (first_refusal (map (reorder_refusal_of elf.now.o s.0) (all_sections elf.now.o))) tt }
{
    let shnum = elf.shnum();
    for n in 0..shnum {
        match check_section(elf, s, n, count) {
            Ok(()) => {}
            Err(e) => return Err(e),
        }
    }
    Ok(())
}

/// Whether each section can follow the symbols of a table, of which there are so many.
fn check_followers<S: Source>(elf: &Elf<S>, s: ScnId, count: u64) -> Result<u64, ElfError>
    requires passed { lend_refusal elf.now.o kinds.Sym s.0 0 ≡ None }
    requires count { count ≡ count_at elf.now.o s.0 0 }
    ensures { result ≡ answered (reorder_refusal elf.now.o s.0) (count_at elf.now.o s.0 0) }
{
    match check_sections(elf, s, count) {
        Ok(()) => Ok(count),
        Err(e) => Err(e),
    }
}

/// The number of symbols of a table that can be put in another order. It fails as a lend of them,
/// and then, of each section that goes by them, as a lend of its items and with `NoEntry`.
pub fn check_order<S: Source>(elf: &Elf<S>, s: ScnId) -> Result<u64, ElfError>
    ensures { result ≡ answered (reorder_refusal elf.now.o s.0) (count_at elf.now.o s.0 0) }
{
    let d = DataId {
        section: s.0,
        piece: 0,
    };
    match item_count::<S, Sym>(elf, d) {
        Ok(count) => check_followers(elf, s, count),
        Err(e) => Err(e),
    }
}

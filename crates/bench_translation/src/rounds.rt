//! The rounds.

ghost use Rattle.std.specs.Prelude.{◌≡◌, take, drop, Some, IfSome};
ghost use Rattle.elf_types.specs.declared.records.Kind.TheVariants as kinds;
ghost use Rattle.elf_xlate.specs.Translation.{decoded, encoded};
ghost use Rattle.bench_translation.specs.Sums.{with_all, with_symbols, symbols_of_items, decode_sum, encode_sum};

use crate::input::made_bytes;
use crate::sum::{sum_of_bytes, sum_of_symbols, with_number, with_symbol};
use crate::work::{TranslationTask, Way};
use elf_types::{Kind, Octets};
use elf_xlate::{Items, fsize, to_file, to_memory};
use std::alloc::Global;

/// The sum of what all rounds made, or None where memory runs out. The whole of a translation
/// before the rounds counts, and of each round one symbol or byte.
pub fn translation_total(alloc: Global, work: &TranslationTask) -> Option<u64> {
    let size = fsize(Kind::Sym, work.class, u64::from(work.symbols))?;
    let bytes = made_bytes(alloc, size)?;
    let items = to_memory(alloc, Kind::Sym, work.class, work.order, bytes.as_slice()).ok()?;
    match work.way {
        Way::Decode => decode_rounds(alloc, work, bytes.as_slice(), sum_of_symbols(&items)),
        Way::Encode => encode_rounds(alloc, work, &items),
    }
}

/// The sum after all rounds of decoding.
#[tactic(auto, unfolding(crate::specs::Sums::decode_sum), using(crate::proofs::Turns::decoding))]
fn decode_rounds(alloc: Global, work: &TranslationTask, bytes: &[u8], first: u64) -> Option<u64>
    ensures { IfSome result (λ sum. sum ≡ decode_sum first work.now.rounds
        (symbols_of_items (decoded kinds.Sym work.now.class work.now.order bytes.now))) }
{
    let mut sum = first;
    for round in 0..work.rounds {
        let items = to_memory(alloc, Kind::Sym, work.class, work.order, bytes).ok()?;
        sum = with_symbol_at(sum, &items, u64::from(round));
    }
    Some(sum)
}

/// The sum with the symbol at a place more, where there is one.
#[tactic(auto, unfolding(crate::specs::Sums::symbols_of_items), using(crate::proofs::Turns::reading))]
fn with_symbol_at(sum: u64, items: &Items, place: u64) -> u64
    ensures { result ≡ with_symbols sum (take 1 (drop place (symbols_of_items (Some items.now)))) }
{
    match items {
        Items::Sym(symbols) => match symbols.get(place) {
            Some(symbol) => with_symbol(sum, &symbol),
            None => sum,
        },
        _ => sum,
    }
}

/// The sum of what encoding makes, and after all rounds of it.
#[tactic(auto, unfolding(crate::specs::Sums::encode_sum), using(crate::proofs::Turns::encoding))]
fn encode_rounds(alloc: Global, work: &TranslationTask, items: &Items) -> Option<u64>
    ensures { IfSome result (λ sum. sum ≡ encode_sum work.now.rounds
        (encoded work.now.class work.now.order items.now)) }
{
    let mut out = Octets::new(alloc);
    to_file(items, work.class, work.order, &mut out).ok()?;
    let mut sum = sum_of_bytes(out.as_slice());
    for round in 0..work.rounds {
        let mut out = Octets::new(alloc);
        to_file(items, work.class, work.order, &mut out).ok()?;
        sum = with_byte_at(sum, &out, u64::from(round));
    }
    Some(sum)
}

/// The sum with the byte at a place more, where there is one.
#[tactic(auto, using(crate::proofs::Places::byte_there, crate::proofs::Places::byte_past))]
fn with_byte_at(sum: u64, bytes: &Octets, place: u64) -> u64
    ensures { result ≡ with_all sum (take 1 (drop place bytes.now)) }
{
    match bytes.get(place) {
        Some(byte) => with_number(sum, u64::from(byte)),
        None => sum,
    }
}

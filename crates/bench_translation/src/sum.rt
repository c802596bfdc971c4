//! One number of all that came out, which depends on each value and its place.

ghost use Rattle.std.specs.Prelude.{◌≡◌};
ghost use Rattle.bench_translation.specs.Sums as sums;

use elf_types::Sym;
use elf_xlate::Items;

/// The sum with one number more.
#[tactic(auto, unfolding(crate::specs::Sums::sum_with_number))]
pub fn with_number(sum: u64, n: u64) -> u64
    ensures { result ≡ sums.sum_with_number sum n }
{
    sum.wrapping_mul(31).wrapping_add(n)
}

/// The sum with the fields of a symbol more.
#[tactic(auto, unfolding(crate::specs::Sums::with_all, crate::specs::Sums::symbol_field_values))]
pub fn with_symbol(sum: u64, s: &Sym) -> u64
    ensures { result ≡ sums.sum_with_symbol sum s.now }
{
    let sum = with_number(sum, u64::from(s.name));
    let sum = with_number(sum, u64::from(s.info));
    let sum = with_number(sum, u64::from(s.other));
    let sum = with_number(sum, u64::from(s.shndx));
    let sum = with_number(sum, s.value);
    with_number(sum, s.size)
}

/// The sum of bytes.
#[tactic(auto, using(crate::proofs::Sums::with_none, crate::proofs::Sums::with_next))]
pub fn sum_of_bytes(bytes: &[u8]) -> u64
    ensures { result ≡ sums.with_all 0 bytes.now }
{
    let mut sum = 0;
    for byte in bytes {
        sum = with_number(sum, u64::from(*byte));
    }
    sum
}

/// The sum of symbols, 0 of other items.
#[tactic(auto, unfolding(crate::specs::Sums::sum_of_symbols))]
pub fn sum_of_symbols(items: &Items) -> u64
    ensures { result ≡ sums.sum_of_symbols items.now }
{
    match items {
        Items::Sym(symbols) => sum_of_list(symbols.as_slice()),
        _ => 0,
    }
}

/// The sum of a list of symbols.
#[tactic(auto, using(crate::proofs::Sums::with_no_symbol, crate::proofs::Sums::with_next_symbol))]
fn sum_of_list(symbols: &[Sym]) -> u64
    ensures { result ≡ sums.with_symbols 0 symbols.now }
{
    let mut sum = 0;
    for symbol in symbols {
        sum = with_symbol(sum, symbol);
    }
    sum
}

//! The symbols, one for each section with data, and the table of their names.

ghost use Rattle.std.specs.Prelude.{◌≡◌, ◌≤◌, ◌<◌, ◌+◌, ℕ, codes, OnOk, IfOk, IfErr};
ghost use Rattle.strtab_build.specs.Table.{place_of, table};
ghost use Rattle.rebuild_model.specs.Generated.{numbered_name, generated_sym, generated_symbol_names};
ghost use Rattle.elf_calls_generate.specs.Stages.{AreSymbols, symbols_to};

use crate::names::use_numbered;
use elf_types::constants::{STB_GLOBAL, STT_OBJECT};
use elf_types::{ElfError, Octets, Sym, Syms};
use std::alloc::Global;
use strtab_build::Strings;

/// Symbol 0, whose fields are all 0 (gABI chapter 4, "Symbol Table").
const NULL_SYMBOL: Sym = Sym {
    name: 0,
    info: 0,
    other: 0,
    shndx: 0,
    value: 0,
    size: 0,
};

/// Symbol `i`, a global object in section `i`, whose name has that place in the table of names.
fn symbol(name: u32, i: u32) -> Sym
    requires { i ≤ 60000 }
    ensures { (n : ℕ) → name ≡ place_of (numbered_name (codes "y") i) (generated_symbol_names n) →
        result ≡ generated_sym n i }
{
    Sym {
        name,
        info: STB_GLOBAL * 16 + STT_OBJECT,
        other: 0,
        shndx: i as u16,
        value: 3 * u64::from(i),
        size: u64::from(i % 7 + 1),
    }
}

/// Appends the symbol after `k` others and symbol 0, and uses its name.
fn add_symbol(
    alloc: Global,
    symbols: &mut Syms,
    strings: &mut Strings,
    k: u32,
) -> Result<(), ElfError>
    requires { k < 60000 }
    ensures made { (n : ℕ) → k < n → AreSymbols n k symbols.old strings.old →
        OnOk result (AreSymbols n (k + 1) symbols.new strings.new) }
    ensures err { (n : ℕ) → k < n → n ≤ 60000 → AreSymbols n k symbols.old strings.old →
        IfErr result (λ e. e ≡ ElfError.Memory) }
{
    match use_numbered(alloc, strings, "y", k + 1) {
        Ok(name) => symbols.push(symbol(name, k + 1)),
        Err(e) => Err(e),
    }
}

/// Appends so many symbols after symbol 0, and uses their names. It fails with `Memory` alone.
fn add_symbols(
    alloc: Global,
    symbols: &mut Syms,
    strings: &mut Strings,
    n: u32,
) -> Result<(), ElfError>
    requires few { n ≤ 60000 }
    requires none { AreSymbols n 0 symbols.old strings.old }
    ensures made { OnOk result (AreSymbols n n symbols.new strings.new) }
    ensures err { IfErr result (λ e. e ≡ ElfError.Memory) }
{
    for k in 0..n {
        if let Err(e) = add_symbol(alloc, symbols, strings, k) {
            return Err(e);
        }
    }
    Ok(())
}

/// Symbol 0 and so many more, and the table of their names. It fails with `Memory` alone.
pub(crate) fn make_symbols(alloc: Global, n: u32) -> Result<(Syms, Octets), ElfError>
    requires { n ≤ 60000 }
    ensures symbols { IfOk result (λ both. both.0 ≡ symbols_to n n) }
    ensures strings { IfOk result (λ both. both.1 ≡ table (generated_symbol_names n)) }
    ensures err { IfErr result (λ e. e ≡ ElfError.Memory) }
{
    let mut strings = Strings::new(alloc);
    let mut symbols = Syms::new(alloc);
    if let Err(e) = symbols.push(NULL_SYMBOL) {
        return Err(e);
    }
    if let Err(e) = add_symbols(alloc, &mut symbols, &mut strings, n) {
        return Err(e);
    }
    match strings.finish() {
        Ok(table) => Ok((symbols, table)),
        Err(e) => Err(e),
    }
}

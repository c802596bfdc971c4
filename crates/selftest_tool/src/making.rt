//! The object of the self test: it is generated, and then its symbols are changed.

ghost use Rattle.std.specs.Prelude.{◌≡◌, ◌≤◌, map, OnOk, IfOk, IfErr};
ghost use Rattle.elf_object.specs.Runs.{more_sym};
ghost use Rattle.rebuild_model.specs.Generated.{generated, generated_and_shifted};
ghost use Rattle.elf_calls_generate.specs.Stages.{StandsFor};

use elf_calls_generate::generate;
use elf_calls_generate::prelude::Elf;
use elf_outside::NoSource;
use elf_types::{DataId, ElfError, Sym, Syms};
use std::alloc::Global;

/// Adds a number to the value of a symbol, modulo its range.
fn add_to_value(symbol: &mut Sym, n: u64)
    ensures { symbol.new ≡ more_sym n symbol.old }
{
    symbol.value = symbol.value.wrapping_add(n);
}

/// Adds a number to the value of each symbol.
fn add_to_values(symbols: &mut Syms, n: u64)
    ensures { symbols.new ≡ map (more_sym n) symbols.old }
{
    for symbol in symbols.as_mut_slice().iter_mut() {
        add_to_value(symbol, n);
    }
}

/// Adds the number of sections with data to the value of each symbol that was generated. It fails
/// with `Memory` alone.
fn shift(elf: &mut Elf<NoSource>, n: u32) -> Result<(), ElfError>
    requires small { n ≤ 60000 }
    requires made { StandsFor (generated n) elf.old }
    ensures made { OnOk result (StandsFor (generated_and_shifted n) elf.new) }
    ensures err { IfErr result (λ e. e ≡ ElfError.Memory) }
{
    let d = DataId {
        section: n + 1,
        piece: 0,
    };
    match elf.syms_mut(d) {
        Ok(symbols) => {
            add_to_values(symbols, u64::from(n));
            Ok(())
        }
        Err(e) => Err(e),
    }
}

/// The generated object with the values of its symbols changed.
fn shifted(mut elf: Elf<NoSource>, n: u32) -> Result<Elf<NoSource>, ElfError>
    requires small { n ≤ 60000 }
    requires made { StandsFor (generated n) elf }
    ensures made { IfOk result (StandsFor (generated_and_shifted n)) }
    ensures err { IfErr result (λ e. e ≡ ElfError.Memory) }
{
    match shift(&mut elf, n) {
        Ok(()) => Ok(elf),
        Err(e) => Err(e),
    }
}

/// The object that the self test writes. It fails with `Memory` alone.
pub(crate) fn make(alloc: Global, n: u32) -> Result<Elf<NoSource>, ElfError>
    requires { n ≤ 60000 }
    ensures made { IfOk result (StandsFor (generated_and_shifted n)) }
    ensures err { IfErr result (λ e. e ≡ ElfError.Memory) }
{
    match generate(alloc, n) {
        Ok(elf) => shifted(elf, n),
        Err(e) => Err(e),
    }
}

//! The values of the symbols of an image, added up.

ghost use Rattle.std.specs.Prelude.{◌≡◌, ◌<◌, ◌^◌, length, None};
ghost use Rattle.elf_types.specs.declared.records.Kind.TheVariants as kinds;
ghost use Rattle.elf_object.specs.Answers.{items_at, lend_refusal, syms_of};
ghost use Rattle.elfkit_outcomes.specs.tool_objects.Steps.{Learns};
ghost use Rattle.selftest_tool.specs.Told.{value_sum};

use elf_calls_generate::prelude::Elf;
use elf_outside::Source;
use elf_types::{DataId, Sym};
use elfkit_outcomes::prelude::item_there;
use tool_output::Stop;

/// The value of a symbol, as a number that may be added to many others.
fn value_of(symbol: &Sym) -> u128
    ensures value { result ≡ symbol.now.value }
    ensures range { result < 2 ^ 64 }
{
    u128::from(symbol.value)
}

/// The sum of the values of all symbols of a piece, of which there are so many. It stops by `Read`
/// where a read of the source failed, and by `Memory`.
pub(crate) fn sum_values<S: Source>(elf: &mut Elf<S>, d: DataId, count: u64) -> Result<u128, Stop>
    requires passed { lend_refusal elf.old.o kinds.Sym d.section d.piece ≡ None }
    requires count { count ≡ length (syms_of (items_at elf.old.o d.section d.piece)) }
    ensures { Learns S.Source (λ o. value_sum (syms_of (items_at o d.section d.piece)))
        result elf.old elf.new }
{
    let mut total: u128 = 0;
    for i in 0..count {
        let symbol = item_there::<S, Sym>(elf, d, i)?;
        total += value_of(&symbol);
    }
    Ok(total)
}

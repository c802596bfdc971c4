//! The sections of symbols.

ghost use Rattle.std.specs.Prelude.{◌≡◌};
ghost use Rattle.elf_types.specs.declared.constants.TheConstants.{SHN_XINDEX};
ghost use Rattle.gelf_view.specs.Calls.{IsShndxTable};
ghost use Rattle.tool_objects.specs.Steps.{Learns};
ghost use Rattle.tool_objects.specs.Symbols.{told_symbol_place};

use elf_types::{ScnId, Sym};
use gelf_view::SymPlace;
use gelf_view::prelude::Elf;
use tool_output::Stop;
use tool_output::prelude::Source;

/// The section of symbol `i` of a section, which was looked at, or None where its extended index
/// can not be told. `table` is the table of extended indexes of the section's symbols, where there
/// is one. It stops by `Read` where a read of the source failed, and by `Memory`.
///
/// Source: gABI chapter 4, "Symbol Table", `st_shndx`.
pub fn symbol_place_or_stop<S: Source>(
    elf: &mut Elf<S>,
    s: ScnId,
    i: u64,
    x: Sym,
    table: Option<ScnId>,
) -> Result<Option<SymPlace>, Stop>
    requires { x.shndx ≡ SHN_XINDEX → IsShndxTable elf.old.o s.0 table }
    ensures { Learns S.Source (λ o. told_symbol_place o s.0 i x) result elf.old elf.new }
{
    Stop::unless_refused(gelf_view::symbol_place(elf, s, i, x, table))
}

//! The symbols of a section, one by one, with their places and names; and the bytes of those of
//! which each can be told from bytes alone.

ghost use Rattle.std.specs.Prelude.{◌≡◌, ◌<◌, ℕ, length, slice_get, None, IfSome};
ghost use Rattle.elf_types.specs.declared.records.Sym.{Sym as TheSym};
ghost use Rattle.elf_object.specs.Object.{Object, section_at};
ghost use Rattle.elf_object.specs.SymbolSections.{shndx_table};
ghost use Rattle.tool_objects.specs.gelf_view.Calls.{IsShndxTable};
ghost use Rattle.tool_objects.specs.Steps.{Learns};
ghost use Rattle.tool_objects.specs.Symbols.{told_symbol_place};
ghost use Rattle.nm_tool.specs.Listed.{symbols_in_table as stated_symbols};
ghost use Rattle.nm_tool.specs.Tables.{AreTables, HoldsSymbols, HoldsSymbolTable};

use elf_outside::Source;
use elf_types::constants::{SHN_LORESERVE, SHN_XINDEX};
use elf_types::{DataId, ScnId, Sym};
use tool_objects::at_hand::{ItemBytes, items_at_hand, string_bytes};
use tool_objects::prelude::{Elf, SymPlace, shndx_table};
use tool_objects::{section_header, symbol_place_or_stop};
use tool_output::Stop;

/// The tables of the symbols of a section.
#[derive(Clone, Copy)]
pub struct Tables {
    /// The section.
    pub symbols: ScnId,
    /// The section of their names.
    pub names: ScnId,
    /// The table of their extended indexes, where there is one.
    pub indexes: Option<ScnId>,
}

/// The bytes of the symbols of a table that has no extended indexes, and of their names.
#[derive(Clone, Copy)]
pub struct SymbolTableBytes<'a> {
    /// The symbols.
    pub symbols: ItemBytes<'a>,
    /// The strings in which their names are.
    pub strings: &'a [u8],
}

/// The tables of the symbols of a section that is there. Nothing is read.
pub fn tables_of<S: Source>(elf: &Elf<S>, s: ScnId) -> Tables
    requires { s.0 < length elf.now.o.sections }
    ensures symbols { result.symbols ≡ s }
    ensures names { result.names.0 ≡ (section_at elf.now.o s.0).header.link }
    ensures indexes { IsShndxTable elf.now.o s.0 result.indexes }
{
    Tables {
        symbols: s,
        names: ScnId(section_header(elf, s).link),
        indexes: shndx_table(elf, s),
    }
}

/// Symbol `i`, or None where there is none. It stops by `Read` where a read of the source failed,
/// and by `Memory`.
pub fn symbol_at<S: Source>(elf: &mut Elf<S>, t: Tables, i: u64) -> Result<Option<Sym>, Stop>
    requires { AreTables elf.old.o t }
    ensures { Learns S.Source (λ o. slice_get (stated_symbols o t.symbols.0) i)
        result elf.old elf.new }
{
    let d = DataId {
        section: t.symbols.0,
        piece: 0,
    };
    Stop::unless_refused(elf.item::<Sym>(d, i))
}

/// The place of symbol `i`, or None where its extended index can not be told. It stops as
/// `symbol_at` does.
pub fn symbol_place_at<S: Source>(
    elf: &mut Elf<S>,
    t: Tables,
    i: u64,
    x: Sym,
) -> Result<Option<SymPlace>, Stop>
    requires { AreTables elf.old.o t }
    ensures { Learns S.Source (λ o. told_symbol_place o t.symbols.0 i x) result elf.old elf.new }
{
    symbol_place_or_stop(elf, t.symbols, i, x, t.indexes)
}

/// The section of a symbol by its index, in a table without extended indexes: one that says that it
/// is an extended one can not be told.
///
/// Source: gABI chapter 4, "Symbol Table", `st_shndx`.
#[inline(always)]
pub fn plain_place(shndx: u16) -> Option<SymPlace>
    ensures { (o : Object) (s i : ℕ) (x : TheSym) → None ≡ shndx_table o s → x.shndx ≡ shndx
        → told_symbol_place o s i x ≡ result }
{
    let index = u32::from(shndx);
    if index < SHN_LORESERVE {
        return Some(SymPlace::Section(index));
    }
    if index == SHN_XINDEX {
        return None;
    }
    Some(SymPlace::Special(shndx))
}

/// The bytes of the symbols of a table, where they are in memory and the table has no extended
/// indexes. Nothing is read.
pub fn symbol_bytes<S: Source>(elf: &Elf<S>, t: Tables) -> Option<ItemBytes<'_>>
    ensures { IfSome result (HoldsSymbols elf.now t) }
{
    match t.indexes {
        Some(_) => None,
        None => items_at_hand::<S, Sym>(elf, t.symbols),
    }
}

/// The bytes of the symbols of a table and of their names, where both are loaded. Nothing is read.
pub fn table_bytes<S: Source>(elf: &Elf<S>, t: Tables) -> Option<SymbolTableBytes<'_>>
    ensures { IfSome result (HoldsSymbolTable elf.now t) }
{
    let symbols = symbol_bytes(elf, t)?;
    let strings = string_bytes(elf, t.names)?;
    Some(SymbolTableBytes { symbols, strings })
}

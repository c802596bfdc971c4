//! The section of a symbol of a section's data.

ghost use Rattle.std.specs.Prelude.{◌≡◌, None};
ghost use Rattle.elf_descriptor.specs.elf_object.Words.{Answers, AnswersRead};
ghost use Rattle.elf_descriptor.specs.elf_object.Object.{section_at};
ghost use Rattle.elf_descriptor.specs.elf_object.Answers.{no_section};
ghost use Rattle.elf_descriptor.specs.elf_object.SymbolSections.{symshndx_refusals};
ghost use Rattle.elf_descriptor.specs.Reads.{Looks, wanted};
ghost use Rattle.gelf_view.specs.Calls as calls;
ghost use Rattle.gelf_view.specs.Calls.{extended_index_word, is_index_table, symbol_place, IsShndxTable};

use crate::items::{sym, word};
use crate::symbols::SymPlace;
use elf_descriptor::Elf;
use elf_descriptor::prelude::Source;
use elf_types::constants::{SHN_LORESERVE, SHN_XINDEX, SHT_SYMTAB_SHNDX};
use elf_types::{DataId, ElfError, ScnId, Sym};

/// Whether a section that is there is a table of extended indexes of the symbols of another.
#[tactic(auto, unfolding(elf_descriptor::specs::Passed::shdr_answer))]
fn is_table_of<S: Source>(elf: &Elf<S>, table: u32, s: ScnId) -> bool
    requires { no_section elf.now.o table ≡ None }
    ensures { result ≡ is_index_table s.0 (section_at elf.now.o table) }
{
    match elf.shdr(ScnId(table)) {
        Ok(header) => header.stype == SHT_SYMTAB_SHNDX && header.link == s.0,
        Err(_) => unreachable!(),
    }
}

/// The table of extended indexes of the symbols of a section: the first section whose present type
/// is `SHT_SYMTAB_SHNDX` and whose present link is that section. It rejects nothing, reads nothing
/// and takes no memory.
///
/// Source: gABI chapter 4, "Sections", `SHT_SYMTAB_SHNDX`; elf_scnshndx of libelf.
pub fn shndx_table<S: Source>(elf: &Elf<S>, s: ScnId) -> Option<ScnId>
    ensures { IsShndxTable elf.now.o s.0 result }
{
    let count = elf.shnum();
    for table in 0..count {
        if is_table_of(elf, table, s) {
            return Some(ScnId(table));
        }
    }
    None
}

/// The table of extended indexes, where a symbol's index says that it is needed.
fn table_for<S: Source>(elf: &Elf<S>, s: ScnId, shndx: u16) -> Option<ScnId>
    ensures { shndx ≡ SHN_XINDEX → IsShndxTable elf.now.o s.0 result }
{
    if u32::from(shndx) != SHN_XINDEX {
        return None;
    }
    shndx_table(elf, s)
}

/// The extended index of symbol `i` of a section: word `i` in piece 0 of its table of extended
/// indexes. Where there is no table it fails with `NoEntry` with count 0, and else as `word`.
fn extended_index<S: Source>(
    elf: &mut Elf<S>,
    s: ScnId,
    i: u64,
    table: Option<ScnId>,
) -> Result<u32, ElfError>
    requires { IsShndxTable elf.old.o s.0 table }
    ensures answer { Answers elf.old.told (wanted (extended_index_word s.0 i) elf.old) result
        ((extended_index_word s.0 i).answer elf.old.o) }
    ensures looks { Looks S.Source (extended_index_word s.0 i) result elf.old elf.new }
{
    match table {
        Some(table) => word(
            elf,
            DataId {
                section: table.0,
                piece: 0,
            },
            i,
        ),
        None => Err(ElfError::NoEntry { index: i, count: 0 }),
    }
}

/// The section of a symbol that was looked at, which is symbol `i` of a section, as `symshndx`
/// tells it: for who goes over the symbols of a section, and has looked for its table of extended
/// indexes once. Where the index is `SHN_XINDEX` it fails with `NoEntry` with count 0 where there
/// is no table, and else as `word` on it; `Memory` or `Read` may come there. It marks nothing
/// dirty.
///
/// Source: gABI chapter 4, "Symbol Table", `st_shndx`; gelf_getsymshndx of gelf(3E), which takes
/// the data of both tables.
pub fn symbol_place<S: Source>(
    elf: &mut Elf<S>,
    s: ScnId,
    i: u64,
    x: Sym,
    table: Option<ScnId>,
) -> Result<SymPlace, ElfError>
    requires { x.shndx ≡ SHN_XINDEX → IsShndxTable elf.old.o s.0 table }
    ensures answer { Answers elf.old.told
        (wanted (symbol_place elf.old.told s.0 i x) elf.old) result
        ((symbol_place elf.old.told s.0 i x).answer elf.old.o) }
    ensures looks { Looks S.Source (symbol_place elf.old.told s.0 i x) result elf.old elf.new }
{
    let index = u32::from(x.shndx);
    if index < SHN_LORESERVE {
        return Ok(SymPlace::Section(index));
    }
    if index != SHN_XINDEX {
        return Ok(SymPlace::Special(x.shndx));
    }
    match extended_index(elf, s, i, table) {
        Ok(number) => Ok(SymPlace::Section(number)),
        Err(e) => Err(e),
    }
}

/// The section of symbol `i` of a piece, with its extended index. An index below `SHN_LORESERVE` is
/// a section's number, and one from there to 0xfffe is a special one. `SHN_XINDEX` says that the
/// number is word `i` in piece 0 of the table of extended indexes: the first section whose present
/// type is `SHT_SYMTAB_SHNDX` and whose present link is the symbol's section. It looks for that
/// table where it is needed, section by section.
///
/// It fails as `sym` does; where the table is needed, `NoEntry` with count 0 where there is none,
/// and else as `word` on it. `Memory` and `Read` may come at both. It marks nothing dirty.
///
/// Source: gABI chapter 4, "Symbol Table", `st_shndx`; gelf_getsymshndx of gelf(3E).
pub fn symshndx<S: Source>(elf: &mut Elf<S>, d: DataId, i: u64) -> Result<SymPlace, ElfError>
    ensures answer { AnswersRead elf.old.told
        (wanted (calls.symbol_shndx_place elf.old.told d.section d.piece i) elf.old)
        (symshndx_refusals elf.old.o d.section d.piece i) result
        ((calls.symbol_shndx_place elf.old.told d.section d.piece i).answer elf.old.o) }
    ensures looks { Looks S.Source (calls.symbol_shndx_place elf.old.told d.section d.piece i)
        result elf.old
        elf.new }
{
    match sym(elf, d, i) {
        Ok(x) => {
            let s = ScnId(d.section);
            let table = table_for(elf, s, x.shndx);
            symbol_place(elf, s, i, x, table)
        }
        Err(e) => Err(e),
    }
}

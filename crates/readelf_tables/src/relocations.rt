//! The lines of the relocations.

ghost use Rattle.std.specs.Prelude.{◌≡◌, ◌<◌, ℕ, length};
ghost use Rattle.elf_object.specs.Object.{Object};
ghost use Rattle.elf_object.specs.Answers.{items_at};
ghost use Rattle.elf_object.specs.Strings as strings;
ghost use Rattle.tool_output.specs.Lines.{numbered_lines};
ghost use Rattle.tool_output.specs.Reports.{shown_report};
ghost use Rattle.tool_objects.specs.Steps.{ReportsElf, ReportsOver, Learns};
ghost use Rattle.readelf_rows.specs.Links.{AreSectionLinks};
ghost use Rattle.readelf_tables.specs.Blocks.RelocationLines.{section_symbol, symbol_string, relocation_name, relocation_line};
ghost use Rattle.readelf_tables.specs.Blocks.Blocks.{entry_row};
ghost use Rattle.readelf_tables.specs.Tables.{HasRows};
ghost use Rattle.readelf_tables.specs.Relocations.{rel_row, rela_row, relocations_title, rels_of_section, relas_of_section, relocations_of_section, holds_relocations, relocations_report};

use crate::blocks::{
    Relocation, RelocationEntry, RelocationLine, load_table, show_blocks, table_at_hand,
};
use crate::tables::{TableRow, TableRows, show_each, show_table};
use elf_outside::{Sink, Source};
use elf_types::constants::{SHT_REL, SHT_RELA};
use elf_types::{DataId, Rel, Rela, ScnId, Sym};
use readelf_rows::{ItemTable, SectionLinks, SectionPart, each_plain, is_of_type, links_of};
use tool_objects::prelude::{Elf, sym};
use tool_objects::string_at;
use tool_output::{FileName, Outputs, Stop};

/// Symbol `y` of a section, or None where that can not be told. It stops by `Read` where a read of
/// the source failed, and by `Memory`.
fn find_symbol<S: Source>(elf: &mut Elf<S>, table: ScnId, y: u32) -> Result<Option<Sym>, Stop>
    ensures { Learns S.Source (λ o. section_symbol o table.0 y) result elf.old elf.new }
{
    let d = DataId {
        section: table.0,
        piece: 0,
    };
    Stop::unless_refused(sym(elf, d, u64::from(y)))
}

/// Shows the line of a relocation by a symbol whose name is in a section.
fn show_named<S: Source, O: Sink, E: Sink>(
    elf: &mut Elf<S>,
    names: ScnId,
    entry: RelocationEntry,
    symbol: Sym,
    outputs: &mut Outputs<'_, O, E>,
) -> Result<bool, Stop>
    ensures { ReportsElf S.Source O.Sink E.Sink
        (λ o. shown_report (relocation_line entry.index entry.rel
        entry.addend (strings.readable (strings.string_answer o names.0 symbol.name))))
        result elf.old elf.new outputs.old outputs.new }
{
    match string_at(elf, names, u64::from(symbol.name)) {
        Ok(name) => outputs.show(&RelocationLine { entry, name }),
        Err(stop) => Err(stop),
    }
}

/// Shows the line of a relocation by the symbol that was found, if one was.
#[tactic(auto, unfolding(crate::specs::Blocks::RelocationLines::symbol_string))]
fn show_by<S: Source, O: Sink, E: Sink>(
    elf: &mut Elf<S>,
    names: ScnId,
    entry: RelocationEntry,
    found: Option<Sym>,
    outputs: &mut Outputs<'_, O, E>,
) -> Result<bool, Stop>
    ensures { ReportsElf S.Source O.Sink E.Sink
        (λ o. shown_report (relocation_line entry.index entry.rel
        entry.addend (symbol_string o names.0 found)))
        result elf.old elf.new outputs.old outputs.new }
{
    match found {
        Some(symbol) => show_named(elf, names, entry, symbol, outputs),
        None => outputs.show(&RelocationLine { entry, name: None }),
    }
}

/// Shows the line of a relocation of a section with these links.
fn show_relocation<S: Source, O: Sink, E: Sink>(
    elf: &mut Elf<S>,
    s: ScnId,
    links: SectionLinks,
    entry: RelocationEntry,
    outputs: &mut Outputs<'_, O, E>,
) -> Result<bool, Stop>
    requires { AreSectionLinks elf.old.o s.0 links }
    ensures { ReportsElf S.Source O.Sink E.Sink
        (λ o. shown_report (relocation_line entry.index entry.rel
        entry.addend (relocation_name o s.0 entry.rel.sym)))
        result elf.old elf.new outputs.old outputs.new }
{
    match find_symbol(elf, links.linked, entry.rel.sym) {
        Ok(found) => show_by(elf, links.strings, entry, found, outputs),
        Err(stop) => Err(stop),
    }
}

/// Shows the rows of a table of relocations: what they name is read first, once a table, and then
/// they are told from the bytes, where all are in memory.
fn show_relocations_of<T: TableRow + Relocation, S: Source, O: Sink, E: Sink>(
    elf: &mut Elf<S>,
    table: ItemTable,
    outputs: &mut Outputs<'_, O, E>,
) -> Result<bool, Stop>
    requires rows { HasRows T.kind T.list_of T.fits elf.old.o table }
    requires links { AreSectionLinks elf.old.o table.section.0 table.links }
    requires lines { (o : Object) (s i : ℕ) (x : T)
        → T.line o s i x ≡ entry_row o s (T.entry_of i x) }
    ensures { let s = table.section.0 in ReportsElf S.Source O.Sink E.Sink
        (λ o. shown_report (numbered_lines (T.line o s) 0 (T.list_of (items_at o s 0))))
        result elf.old elf.new outputs.old outputs.new }
{
    load_table(elf, table)?;
    match table_at_hand::<S, T>(elf, table) {
        Some(bytes) => show_blocks::<T, O, E>(elf.alloc(), &bytes, outputs),
        None => show_each::<T, S, O, E>(elf, table, outputs),
    }
}

impl TableRow for Rel {
    ghost title = { relocations_title };

    ghost line = { rel_row };

    ghost fits = { AreSectionLinks };

    #[tactic(auto, unfolding(crate::specs::Relocations::relocations_title))]
    fn title() -> &'static str {
        "Relocations of section "
    }

    fn links<S: Source>(elf: &Elf<S>, s: ScnId) -> SectionLinks {
        links_of(elf, s)
    }

    #[tactic(auto, unfolding(crate::specs::Relocations::rel_row))]
    fn show<S: Source, O: Sink, E: Sink>(
        self,
        elf: &mut Elf<S>,
        s: ScnId,
        i: u64,
        links: SectionLinks,
        outputs: &mut Outputs<'_, O, E>,
    ) -> Result<bool, Stop> {
        let entry = RelocationEntry {
            index: i,
            rel: self,
            addend: None,
        };
        show_relocation(elf, s, links, entry, outputs)
    }
}

impl TableRows for Rel {
    fn show_rows<S: Source, O: Sink, E: Sink>(
        elf: &mut Elf<S>,
        table: ItemTable,
        outputs: &mut Outputs<'_, O, E>,
    ) -> Result<bool, Stop> {
        show_relocations_of::<Rel, S, O, E>(elf, table, outputs)
    }
}

impl TableRow for Rela {
    ghost title = { relocations_title };

    ghost line = { rela_row };

    ghost fits = { AreSectionLinks };

    #[tactic(auto, unfolding(crate::specs::Relocations::relocations_title))]
    fn title() -> &'static str {
        "Relocations of section "
    }

    fn links<S: Source>(elf: &Elf<S>, s: ScnId) -> SectionLinks {
        links_of(elf, s)
    }

    #[tactic(auto, unfolding(crate::specs::Relocations::rela_row))]
    fn show<S: Source, O: Sink, E: Sink>(
        self,
        elf: &mut Elf<S>,
        s: ScnId,
        i: u64,
        links: SectionLinks,
        outputs: &mut Outputs<'_, O, E>,
    ) -> Result<bool, Stop> {
        let rel = Rel {
            offset: self.offset,
            sym: self.sym,
            rtype: self.rtype,
        };
        let entry = RelocationEntry {
            index: i,
            rel,
            addend: Some(self.addend),
        };
        show_relocation(elf, s, links, entry, outputs)
    }
}

impl TableRows for Rela {
    fn show_rows<S: Source, O: Sink, E: Sink>(
        elf: &mut Elf<S>,
        table: ItemTable,
        outputs: &mut Outputs<'_, O, E>,
    ) -> Result<bool, Stop> {
        show_relocations_of::<Rela, S, O, E>(elf, table, outputs)
    }
}

/// Shows the relocations of a section that is there, which have no addends.
#[tactic(auto, unfolding(crate::specs::Relocations::rels_of_section))]
fn show_rels<S: Source, O: Sink, E: Sink>(
    name: &FileName<'_>,
    elf: &mut Elf<S>,
    s: ScnId,
    outputs: &mut Outputs<'_, O, E>,
) -> Result<bool, Stop>
    requires { s.0 < length elf.old.o.sections }
    ensures { ReportsElf S.Source O.Sink E.Sink (λ o. rels_of_section name.now o s.0)
        result elf.old elf.new outputs.old outputs.new }
{
    show_table::<Rel, S, O, E>(name, elf, s, outputs)
}

/// Shows the relocations of a section that is there, which have addends.
#[tactic(auto, unfolding(crate::specs::Relocations::relas_of_section))]
fn show_relas<S: Source, O: Sink, E: Sink>(
    name: &FileName<'_>,
    elf: &mut Elf<S>,
    s: ScnId,
    outputs: &mut Outputs<'_, O, E>,
) -> Result<bool, Stop>
    requires { s.0 < length elf.old.o.sections }
    ensures { ReportsElf S.Source O.Sink E.Sink (λ o. relas_of_section name.now o s.0)
        result elf.old elf.new outputs.old outputs.new }
{
    show_table::<Rela, S, O, E>(name, elf, s, outputs)
}

/// The part of the relocations.
#[derive(Clone, Copy)]
struct Relocations;

impl SectionPart for Relocations {
    ghost has = { holds_relocations };

    ghost report = { relocations_of_section };

    fn has(&self, stype: u32) -> bool {
        stype == SHT_REL || stype == SHT_RELA
    }

    fn show<S: Source, O: Sink, E: Sink>(
        &self,
        name: &FileName<'_>,
        elf: &mut Elf<S>,
        s: ScnId,
        outputs: &mut Outputs<'_, O, E>,
    ) -> Result<bool, Stop> {
        if is_of_type(elf, s, SHT_RELA) {
            show_relas(name, elf, s, outputs)
        } else {
            show_rels(name, elf, s, outputs)
        }
    }
}

/// Shows the relocations of each section of type `SHT_REL` or `SHT_RELA`, by number: the section
/// and the number of its relocations, and a line for each.
///
/// Source: gABI chapter 4, "Relocation".
#[tactic(auto, unfolding(crate::specs::Relocations::relocations_report))]
pub fn show_relocations<S: Source, O: Sink, E: Sink>(
    name: &FileName<'_>,
    elf: &mut Elf<S>,
    outputs: &mut Outputs<'_, O, E>,
) -> Result<bool, Stop>
    ensures { ReportsOver S.Source O.Sink E.Sink 1 (relocations_report name.now)
        result elf.old elf.new outputs.old outputs.new }
{
    each_plain(&Relocations, name, elf, outputs)
}

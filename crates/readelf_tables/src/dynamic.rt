//! The lines of the dynamic sections.

ghost use Rattle.std.specs.Prelude.{◌≡◌, ◌++◌, OnOk, IfErr};
ghost use Rattle.std.specs.Option.{option_copied};
ghost use Rattle.elf_types.specs.Writers.{WantsMemory};
ghost use Rattle.elf_object.specs.Strings as strings;
ghost use Rattle.tool_output.specs.Reports.{shown_report};
ghost use Rattle.tool_objects.specs.Steps.{ReportsElf, ReportsOver};
ghost use Rattle.readelf_rows.specs.Links.{AreSectionLinks};
ghost use Rattle.readelf_tables.specs.Dynamic.{names_string, dyn_start, dyn_name_line, dyn_value_line, dyn_row, dynamic_title, dynamic_of_section, holds_dynamic, dynamic_report};

use crate::tables::{TableRow, TableRows, show_each, show_table};
use elf_outside::{Sink, Source};
use elf_types::constants::SHT_DYNAMIC;
use elf_types::{Dyn, ElfError, Octets, ScnId, put_hex, put_text, tag_name};
use readelf_rows::{
    ItemTable, SectionLinks, SectionPart, each_plain, links_of, put_name_or_hex, put_row_start,
};
use tool_objects::prelude::Elf;
use tool_objects::{Bracketed, string_at};
use tool_output::{FileName, Line, Outputs, Stop};

/// Whether the value of an entry is the offset of a string, by its tag: `DT_NEEDED`, `DT_SONAME`,
/// `DT_RPATH` and `DT_RUNPATH`.
#[tactic(auto, unfolding(crate::specs::Dynamic::names_string))]
fn names_string(x: &Dyn) -> bool
    ensures { result ≡ names_string x.now.tag }
{
    matches!(x.tag, 1 | 14 | 15 | 29)
}

/// Appends `  I TAG`.
#[tactic(auto, using(elf_types::proofs::Writers::kept), unfolding(crate::specs::Dynamic::dyn_start))]
fn put_start(page: &mut Octets, i: u64, tag: i64) -> Result<(), ElfError>
    ensures ok { OnOk result (page.new ≡ page.old ++ dyn_start i tag) }
    ensures err { IfErr result (WantsMemory page.old page.new) }
{
    put_row_start(page, i)?;
    put_text(page, " ")?;
    put_name_or_hex(page, tag_name(tag), tag.cast_unsigned())
}

/// The line of an entry with a string.
#[derive(Clone, Copy)]
struct NameLine<'a> {
    /// Its index.
    index: u64,
    /// The entry.
    entry: Dyn,
    /// The string.
    name: Option<&'a [u8]>,
}

impl Line for NameLine<'_> {
    ghost text = { λ l. dyn_name_line l.index l.entry (option_copied l.name) };

    #[tactic(auto, using(elf_types::proofs::Writers::kept), unfolding(crate::specs::Dynamic::dyn_name_line))]
    fn put(&self, page: &mut Octets) -> Result<(), ElfError> {
        let name = self.name;
        put_start(page, self.index, self.entry.tag)?;
        put_text(page, " ")?;
        Bracketed { name }.put(page)?;
        put_text(page, "\n")
    }
}

/// The line of an entry with a value.
#[derive(Clone, Copy)]
struct ValueLine {
    /// Its index.
    index: u64,
    /// The entry.
    entry: Dyn,
}

impl Line for ValueLine {
    ghost text = { λ l. dyn_value_line l.index l.entry };

    #[tactic(auto, using(elf_types::proofs::Writers::kept), unfolding(crate::specs::Dynamic::dyn_value_line))]
    fn put(&self, page: &mut Octets) -> Result<(), ElfError> {
        put_start(page, self.index, self.entry.tag)?;
        put_text(page, " 0x")?;
        put_hex(page, self.entry.val)?;
        put_text(page, "\n")
    }
}

/// Shows the line of an entry with its string, which is in a section.
fn show_name<S: Source, O: Sink, E: Sink>(
    elf: &mut Elf<S>,
    names: ScnId,
    index: u64,
    entry: Dyn,
    outputs: &mut Outputs<'_, O, E>,
) -> Result<bool, Stop>
    ensures { ReportsElf S.Source O.Sink E.Sink (λ o. shown_report (dyn_name_line index entry
        (strings.readable (strings.string_answer o names.0 entry.val))))
        result elf.old elf.new outputs.old outputs.new }
{
    match string_at(elf, names, entry.val) {
        Ok(name) => outputs.show(&NameLine { index, entry, name }),
        Err(stop) => Err(stop),
    }
}

impl TableRow for Dyn {
    ghost title = { dynamic_title };

    ghost line = { dyn_row };

    ghost fits = { AreSectionLinks };

    #[tactic(auto, unfolding(crate::specs::Dynamic::dynamic_title))]
    fn title() -> &'static str {
        "Dynamic section "
    }

    fn links<S: Source>(elf: &Elf<S>, s: ScnId) -> SectionLinks {
        links_of(elf, s)
    }

    fn show<S: Source, O: Sink, E: Sink>(
        self,
        elf: &mut Elf<S>,
        s: ScnId,
        i: u64,
        links: SectionLinks,
        outputs: &mut Outputs<'_, O, E>,
    ) -> Result<bool, Stop> {
        if names_string(&self) {
            return show_name(elf, links.linked, i, self, outputs);
        }
        outputs.show(&ValueLine {
            index: i,
            entry: self,
        })
    }
}

impl TableRows for Dyn {
    fn show_rows<S: Source, O: Sink, E: Sink>(
        elf: &mut Elf<S>,
        table: ItemTable,
        outputs: &mut Outputs<'_, O, E>,
    ) -> Result<bool, Stop> {
        show_each::<Dyn, S, O, E>(elf, table, outputs)
    }
}

/// The part of the dynamic sections.
#[derive(Clone, Copy)]
struct Dynamic;

impl SectionPart for Dynamic {
    ghost has = { holds_dynamic };

    ghost report = { dynamic_of_section };

    fn has(&self, stype: u32) -> bool {
        stype == SHT_DYNAMIC
    }

    #[tactic(auto, unfolding(crate::specs::Dynamic::dynamic_of_section))]
    fn show<S: Source, O: Sink, E: Sink>(
        &self,
        name: &FileName<'_>,
        elf: &mut Elf<S>,
        s: ScnId,
        outputs: &mut Outputs<'_, O, E>,
    ) -> Result<bool, Stop> {
        show_table::<Dyn, S, O, E>(name, elf, s, outputs)
    }
}

/// Shows the entries of each section of type `SHT_DYNAMIC`, by number: the section and the number
/// of its entries, and a line for each.
///
/// Source: gABI chapter 5, "Dynamic Section".
#[tactic(auto, unfolding(crate::specs::Dynamic::dynamic_report))]
pub fn show_dynamic<S: Source, O: Sink, E: Sink>(
    name: &FileName<'_>,
    elf: &mut Elf<S>,
    outputs: &mut Outputs<'_, O, E>,
) -> Result<bool, Stop>
    ensures { ReportsOver S.Source O.Sink E.Sink 1 (dynamic_report name.now)
        result elf.old elf.new outputs.old outputs.new }
{
    each_plain(&Dynamic, name, elf, outputs)
}

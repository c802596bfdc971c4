//! Sections whose data is a table: their title, and a row for each item. The items are told one by
//! one, so a table is held once, as the bytes of its section.

ghost use Rattle.std.specs.Prelude.{◌≡◌, ◌<◌, ℕ, List, length};
ghost use Rattle.std.specs.Option.{option_copied};
ghost use Rattle.elf_xlate.specs.declared.content.Items.{Items as TheItems};
ghost use Rattle.elf_xlate.specs.Translation.{items_kind, items_count};
ghost use Rattle.elf_object.specs.Object.{Object};
ghost use Rattle.elf_object.specs.Answers.{items_at, lend_refusal};
ghost use Rattle.elf_object.specs.Strings as strings;
ghost use Rattle.tool_output.specs.Lines.{numbered_lines};
ghost use Rattle.tool_output.specs.Reports.{shown_report};
ghost use Rattle.tool_objects.specs.Steps.{ReportsElf};
ghost use Rattle.readelf_rows.specs.declared.links.SectionLinks.{SectionLinks as TheLinks};
ghost use Rattle.readelf_rows.specs.Data.{if_told};
ghost use Rattle.readelf_tables.specs.Tables.{table_title, item_table_report, indexed_row, HasRows};

use elf_outside::{Sink, Source};
use elf_types::{DataId, ElfError, Octets, ScnId, put_decimal, put_text};
use readelf_rows::{ItemTable, SectionLinks, put_data_title};
use tool_objects::prelude::{Elf, Item, item_count};
use tool_objects::{item_there, section_name_or_stop};
use tool_output::{FileName, Line, Message, Outputs, Stop};

/// An item that has a row in a table.
///
/// - `title` is what is before the section's number in its title.
/// - `line` is the row of an item of a section, by the object, the section and the item's index.
/// - `fits` says of the links of a section what its rows need.
pub trait TableRow: Item {
    ghost title: { List ℕ };

    ghost line: { Object → ℕ → ℕ → Self → List ℕ };

    ghost fits: { Object → ℕ → TheLinks → Type 0 };

    /// What is before the section's number in its title.
    fn title() -> &'static str
        ensures { result.now ≡ title };

    /// The links of a section that is there, as its rows need them.
    fn links<S: Source>(elf: &Elf<S>, s: ScnId) -> SectionLinks
        requires { s.0 < length elf.now.o.sections }
        ensures { fits elf.now.o s.0 result };

    /// Shows the row of item `i` of a section that is there.
    fn show<S: Source, O: Sink, E: Sink>(
        self,
        elf: &mut Elf<S>,
        s: ScnId,
        i: u64,
        links: SectionLinks,
        outputs: &mut Outputs<'_, O, E>,
    ) -> Result<bool, Stop>
        requires section { s.0 < length elf.old.o.sections }
        requires fits { fits elf.old.o s.0 links }
        ensures { ReportsElf S.Source O.Sink E.Sink (λ o. shown_report (line o s.0 i self))
            result elf.old elf.new outputs.old outputs.new };
}

/// An item whose rows are shown table by table.
pub trait TableRows: TableRow {
    /// Shows a row for each item of a section.
    fn show_rows<S: Source, O: Sink, E: Sink>(
        elf: &mut Elf<S>,
        table: ItemTable,
        outputs: &mut Outputs<'_, O, E>,
    ) -> Result<bool, Stop>
        requires { HasRows Self.kind Self.list_of Self.fits elf.old.o table }
        ensures { let s = table.section.0 in ReportsElf S.Source O.Sink E.Sink
            (λ o. shown_report (numbered_lines (Self.line o s) 0 (Self.list_of (items_at o s 0))))
            result elf.old elf.new outputs.old outputs.new };
}

/// The title of a table.
#[derive(Clone, Copy)]
struct TableTitle<'a> {
    /// What is before the section's number.
    title: &'static str,
    /// The section.
    section: ScnId,
    /// Its name.
    name: Option<&'a [u8]>,
    /// The number of its items.
    count: u64,
}

impl Line for TableTitle<'_> {
    ghost text = { λ t. table_title t.title.now t.section.0 (option_copied t.name) t.count };

    #[tactic(auto, using(elf_types::proofs::Writers::kept), unfolding(crate::specs::Tables::table_title))]
    fn put(&self, page: &mut Octets) -> Result<(), ElfError> {
        put_data_title(page, self.title, self.section, self.name)?;
        put_text(page, ": ")?;
        put_decimal(page, self.count)?;
        put_text(page, "\n")
    }
}

/// Shows the title of a table.
fn show_title<S: Source, O: Sink, E: Sink>(
    title: &'static str,
    elf: &mut Elf<S>,
    s: ScnId,
    count: u64,
    outputs: &mut Outputs<'_, O, E>,
) -> Result<bool, Stop>
    requires { s.0 < length elf.old.o.sections }
    ensures { ReportsElf S.Source O.Sink E.Sink
        (λ o. shown_report (table_title title.now s.0 (strings.section_name o s.0) count))
        result elf.old elf.new outputs.old outputs.new }
{
    match section_name_or_stop(elf, s) {
        Ok(name) => outputs.show(&TableTitle {
            title,
            section: s,
            name,
            count,
        }),
        Err(stop) => Err(stop),
    }
}

/// Shows the row of an item that is there.
fn show_row<T: TableRow, S: Source, O: Sink, E: Sink>(
    elf: &mut Elf<S>,
    table: ItemTable,
    i: u64,
    outputs: &mut Outputs<'_, O, E>,
) -> Result<bool, Stop>
    requires rows { HasRows T.kind T.list_of T.fits elf.old.o table }
    requires there { i < table.count }
    ensures { ReportsElf S.Source O.Sink E.Sink
        (λ o. shown_report (indexed_row (T.line o table.section.0)
        (T.list_of (items_at o table.section.0 0)) i))
        result elf.old elf.new outputs.old outputs.new }
{
    let s = table.section;
    let d = DataId {
        section: s.0,
        piece: 0,
    };
    match item_there::<S, T>(elf, d, i) {
        Ok(item) => item.show(elf, s, i, table.links, outputs),
        Err(stop) => Err(stop),
    }
}

/// Shows a row for each item of a section, one after the other.
pub fn show_each<T: TableRow, S: Source, O: Sink, E: Sink>(
    elf: &mut Elf<S>,
    table: ItemTable,
    outputs: &mut Outputs<'_, O, E>,
) -> Result<bool, Stop>
    requires { HasRows T.kind T.list_of T.fits elf.old.o table }
    ensures { let s = table.section.0 in ReportsElf S.Source O.Sink E.Sink
        (λ o. shown_report (numbered_lines (T.line o s) 0 (T.list_of (items_at o s 0))))
        result elf.old elf.new outputs.old outputs.new }
{
    let mut refused = false;
    for i in 0..table.count {
        let was_refused = show_row::<T, S, O, E>(elf, table, i, outputs)?;
        refused = refused | was_refused;
    }
    Ok(refused)
}

/// Shows the title of a section, and a row for each of its items.
fn show_table_lines<T: TableRows, S: Source, O: Sink, E: Sink>(
    elf: &mut Elf<S>,
    table: ItemTable,
    outputs: &mut Outputs<'_, O, E>,
) -> Result<bool, Stop>
    requires { HasRows T.kind T.list_of T.fits elf.old.o table }
    ensures { let s = table.section.0 in ReportsElf S.Source O.Sink E.Sink
        (λ o. item_table_report T.title T.line o s (T.list_of (items_at o s 0)))
        result elf.old elf.new outputs.old outputs.new }
{
    let titled = show_title(T::title(), elf, table.section, table.count, outputs)?;
    let rows = T::show_rows(elf, table, outputs)?;
    Ok(titled | rows)
}

/// Shows the table of a section that is there, or rejects the object for that section where its
/// items can not be told. A list of the items has as many as are counted. What the rows name is
/// looked for once.
pub fn show_table<T: TableRows, S: Source, O: Sink, E: Sink>(
    name: &FileName<'_>,
    elf: &mut Elf<S>,
    s: ScnId,
    outputs: &mut Outputs<'_, O, E>,
) -> Result<bool, Stop>
    requires section { s.0 < length elf.old.o.sections }
    requires counted { (items : TheItems) → items_kind items ≡ T.kind →
        length (T.list_of items) ≡ items_count items }
    ensures { ReportsElf S.Source O.Sink E.Sink (λ o.
        if_told name.now (lend_refusal o T.kind s.0 0)
        (item_table_report T.title T.line o s.0 (T.list_of (items_at o s.0 0))))
        result elf.old elf.new outputs.old outputs.new }
{
    let d = DataId {
        section: s.0,
        piece: 0,
    };
    match item_count::<S, T>(elf, d) {
        Ok(count) => {
            let links = T::links(elf, s);
            let table = ItemTable {
                section: s,
                count,
                links,
            };
            show_table_lines::<T, S, O, E>(elf, table, outputs)
        }
        Err(e) => outputs.refuse(&Message {
            command: "readelf",
            name,
            text: e,
        }),
    }
}

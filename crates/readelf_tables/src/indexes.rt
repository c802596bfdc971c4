//! The lines of the version indexes: the version of each symbol, as the section of type
//! `SHT_GNU_VERSYM` tells them.

ghost use Rattle.std.specs.Prelude.{◌≡◌, ◌++◌, ◌<◌, length, true, OnOk, IfErr};
ghost use Rattle.elf_types.specs.Writers.{WantsMemory};
ghost use Rattle.elf_types.specs.Constants.{are_numbers};
ghost use Rattle.tool_objects.specs.Steps.{ReportsElf};
ghost use Rattle.readelf_tables.specs.Constants.{index_bits};
ghost use Rattle.readelf_tables.specs.Indexes.{hidden_text, index_line, index_row, indexes_title, indexes_of_section};

use crate::tables::{TableRow, TableRows, show_each, show_table};
use elf_outside::{Sink, Source};
use elf_types::{ElfError, Octets, ScnId, put_text};
use readelf_rows::{ItemTable, SectionLinks, links_of, put_decimal_column, put_row_start};
use tool_objects::prelude::Elf;
use tool_output::{FileName, Line, Outputs, Stop};

/// The bit of a version index that hides the symbol; the bits below are the index.
pub const VERSYM_HIDDEN: u16 = 0x8000;

/// Appends ` hidden`, where the top bit is set.
#[tactic(auto, using(elf_types::proofs::Writers::kept), unfolding(crate::specs::Indexes::hidden_text))]
fn put_hidden(page: &mut Octets, x: u16) -> Result<(), ElfError>
    ensures ok { OnOk result (page.new ≡ page.old ++ hidden_text x) }
    ensures err { IfErr result (WantsMemory page.old page.new) }
{
    if VERSYM_HIDDEN <= x {
        return put_text(page, " hidden");
    }
    Ok(())
}

/// The line of a version index.
#[derive(Clone, Copy)]
struct IndexLine {
    /// Which it is.
    index: u64,
    /// The version index.
    version: u16,
}

impl Line for IndexLine {
    ghost text = { λ l. index_line l.index l.version };

    #[tactic(auto, using(elf_types::proofs::Writers::kept), unfolding(crate::specs::Indexes::index_line))]
    fn put(&self, page: &mut Octets) -> Result<(), ElfError> {
        put_row_start(page, self.index)?;
        put_decimal_column(page, "ndx", u64::from(self.version % VERSYM_HIDDEN))?;
        put_hidden(page, self.version)?;
        put_text(page, "\n")
    }
}

impl TableRow for u16 {
    ghost title = { indexes_title };

    ghost line = { index_row };

    ghost fits = { λ _ _ _. Unit {0} };

    #[tactic(auto, unfolding(crate::specs::Indexes::indexes_title))]
    fn title() -> &'static str {
        "Version indexes of section "
    }

    fn links<S: Source>(elf: &Elf<S>, s: ScnId) -> SectionLinks {
        links_of(elf, s)
    }

    fn show<S: Source, O: Sink, E: Sink>(
        self,
        _elf: &mut Elf<S>,
        _s: ScnId,
        i: u64,
        _links: SectionLinks,
        outputs: &mut Outputs<'_, O, E>,
    ) -> Result<bool, Stop> {
        outputs.show(&IndexLine {
            index: i,
            version: self,
        })
    }
}

impl TableRows for u16 {
    fn show_rows<S: Source, O: Sink, E: Sink>(
        elf: &mut Elf<S>,
        table: ItemTable,
        outputs: &mut Outputs<'_, O, E>,
    ) -> Result<bool, Stop> {
        show_each::<u16, S, O, E>(elf, table, outputs)
    }
}

/// Shows the version indexes of a section that is there: the section and the number of its indexes,
/// and a line for each.
#[tactic(auto, unfolding(crate::specs::Indexes::indexes_of_section))]
pub fn show_indexes<S: Source, O: Sink, E: Sink>(
    name: &FileName<'_>,
    elf: &mut Elf<S>,
    s: ScnId,
    outputs: &mut Outputs<'_, O, E>,
) -> Result<bool, Stop>
    requires { s.0 < length elf.old.o.sections }
    ensures { ReportsElf S.Source O.Sink E.Sink (λ o. indexes_of_section name.now o s.0)
        result elf.old elf.new outputs.old outputs.new }
{
    show_table::<u16, S, O, E>(name, elf, s, outputs)
}

/// Each constant is the number that is beside its name in the tables of specs/Constants. It is for
/// the reader and for proofs, and does nothing.
pub fn index_constants_are()
    ensures { are_numbers index_bits ≡ true }
{}

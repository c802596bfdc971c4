//! The lines of the version definitions.

ghost use Rattle.std.specs.Prelude.{◌<◌, length};
ghost use Rattle.tool_objects.specs.Steps.{ReportsElf};
ghost use Rattle.readelf_chains.specs.Definitions.{verdef_line, verdaux_line, verdef_report, definitions_title, definitions_records, definitions_of_section};

use crate::chains::{Records, show_records};
use crate::entries::{Aux, ShownEntry, show_entries, show_names};
use elf_outside::{Sink, Source};
use elf_types::{ElfError, Octets, ScnId, put_text};
use readelf_rows::{links_of, put_decimal_column, put_hex_column};
use tool_objects::Bracketed;
use tool_objects::prelude::{Elf, Verdaux, Verdef};
use tool_output::{FileName, Line, Outputs, Stop};

/// The line of a definition.
#[derive(Clone, Copy)]
struct VerdefLine {
    /// The definition.
    entry: Verdef,
}

impl Line for VerdefLine {
    ghost text = { λ l. verdef_line l.entry };

    #[tactic(auto, using(elf_types::proofs::Writers::kept), unfolding(crate::specs::Definitions::verdef_line))]
    fn put(&self, page: &mut Octets) -> Result<(), ElfError> {
        put_text(page, "  def")?;
        put_decimal_column(page, "ndx", u64::from(self.entry.ndx))?;
        put_hex_column(page, "flags", u64::from(self.entry.flags))?;
        put_hex_column(page, "hash", u64::from(self.entry.hash))?;
        put_text(page, "\n")
    }
}

impl Aux for Verdaux {
    ghost line = { verdaux_line };

    ghost string = { λ x. x.name };

    fn string(&self) -> u32 {
        self.name
    }

    #[tactic(auto, using(elf_types::proofs::Writers::kept), unfolding(crate::specs::Definitions::verdaux_line))]
    fn put_line(&self, page: &mut Octets, text: Option<&[u8]>) -> Result<(), ElfError> {
        put_text(page, "    name ")?;
        Bracketed { name: text }.put(page)?;
        put_text(page, "\n")
    }
}

impl ShownEntry for Verdef {
    ghost report = { verdef_report };

    fn show<S: Source, O: Sink, E: Sink>(
        &self,
        name: &FileName<'_>,
        elf: &mut Elf<S>,
        s: ScnId,
        at: u64,
        outputs: &mut Outputs<'_, O, E>,
    ) -> Result<bool, Stop> {
        let linked = links_of(elf, s).linked;
        let first = self.first_aux(at);
        outputs.show(&VerdefLine { entry: *self })?;
        show_names::<Verdaux, S, O, E>(name, elf, s, linked, first, outputs)
    }
}

/// The definitions of a section.
#[derive(Clone, Copy)]
struct Definitions;

impl Records for Definitions {
    ghost title = { definitions_title };

    ghost report = { definitions_records };

    #[tactic(auto, unfolding(crate::specs::Definitions::definitions_title))]
    fn title() -> &'static str {
        "Version definitions of section "
    }

    fn show<S: Source, O: Sink, E: Sink>(
        name: &FileName<'_>,
        elf: &mut Elf<S>,
        s: ScnId,
        first: Option<u64>,
        outputs: &mut Outputs<'_, O, E>,
    ) -> Result<bool, Stop> {
        show_entries::<Verdef, S, O, E>(name, elf, s, first, outputs)
    }
}

/// Shows the version definitions of a section that is there: the section, and for each definition a
/// line, with one for each of its names. What goes bad has a message after the lines before it.
#[tactic(auto, unfolding(crate::specs::Definitions::definitions_of_section))]
pub fn show_definitions<S: Source, O: Sink, E: Sink>(
    name: &FileName<'_>,
    elf: &mut Elf<S>,
    s: ScnId,
    outputs: &mut Outputs<'_, O, E>,
) -> Result<bool, Stop>
    requires { s.0 < length elf.old.o.sections }
    ensures { ReportsElf S.Source O.Sink E.Sink (λ o. definitions_of_section name.now o s.0)
        result elf.old elf.new outputs.old outputs.new }
{
    show_records::<Definitions, S, O, E>(name, elf, s, outputs)
}

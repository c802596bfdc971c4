//! The lines of the version needs.

ghost use Rattle.std.specs.Prelude.{◌≡◌, ◌++◌, ◌<◌, length, OnOk, IfErr};
ghost use Rattle.std.specs.Option.{option_copied};
ghost use Rattle.elf_types.specs.Writers.{WantsMemory};
ghost use Rattle.elf_object.specs.Strings as strings;
ghost use Rattle.tool_output.specs.Reports.{shown_report};
ghost use Rattle.tool_objects.specs.Steps.{ReportsElf};
ghost use Rattle.readelf_chains.specs.Needs.{verneed_line, vernaux_numbers, vernaux_line, verneed_report, needs_title, needs_records, needs_of_section};

use crate::chains::{Records, show_records};
use crate::entries::{Aux, ShownEntry, show_entries, show_names};
use elf_outside::{Sink, Source};
use elf_types::{ElfError, Octets, ScnId, put_text};
use readelf_rows::{links_of, put_decimal_column, put_hex_column};
use tool_objects::prelude::{Elf, Vernaux, Verneed};
use tool_objects::{Bracketed, string_at};
use tool_output::{FileName, Line, Outputs, Stop};

/// The line of a file of which versions are needed.
#[derive(Clone, Copy)]
struct VerneedLine<'a> {
    /// Its name.
    file: Option<&'a [u8]>,
}

impl Line for VerneedLine<'_> {
    ghost text = { λ l. verneed_line (option_copied l.file) };

    #[tactic(auto, using(elf_types::proofs::Writers::kept), unfolding(crate::specs::Needs::verneed_line))]
    fn put(&self, page: &mut Octets) -> Result<(), ElfError> {
        let name = self.file;
        put_text(page, "  need ")?;
        Bracketed { name }.put(page)?;
        put_text(page, "\n")
    }
}

/// Shows the line of a file whose name is in a section.
fn show_file<S: Source, O: Sink, E: Sink>(
    elf: &mut Elf<S>,
    names: ScnId,
    file: u32,
    outputs: &mut Outputs<'_, O, E>,
) -> Result<bool, Stop>
    ensures { ReportsElf S.Source O.Sink E.Sink
        (λ o. shown_report (verneed_line (strings.readable (strings.string_answer o names.0 file))))
        result elf.old elf.new outputs.old outputs.new }
{
    match string_at(elf, names, u64::from(file)) {
        Ok(file) => outputs.show(&VerneedLine { file }),
        Err(stop) => Err(stop),
    }
}

/// Appends ` ndx N flags 0xF hash 0xH`.
#[tactic(auto, using(elf_types::proofs::Writers::kept), unfolding(crate::specs::Needs::vernaux_numbers))]
fn put_numbers(page: &mut Octets, x: Vernaux) -> Result<(), ElfError>
    ensures ok { OnOk result (page.new ≡ page.old ++ vernaux_numbers x) }
    ensures err { IfErr result (WantsMemory page.old page.new) }
{
    put_decimal_column(page, "ndx", u64::from(x.other))?;
    put_hex_column(page, "flags", u64::from(x.flags))?;
    put_hex_column(page, "hash", u64::from(x.hash))
}

impl Aux for Vernaux {
    ghost line = { vernaux_line };

    ghost string = { λ x. x.name };

    fn string(&self) -> u32 {
        self.name
    }

    #[tactic(auto, using(elf_types::proofs::Writers::kept), unfolding(crate::specs::Needs::vernaux_line))]
    fn put_line(&self, page: &mut Octets, text: Option<&[u8]>) -> Result<(), ElfError> {
        put_text(page, "    version ")?;
        Bracketed { name: text }.put(page)?;
        put_numbers(page, *self)?;
        put_text(page, "\n")
    }
}

impl ShownEntry for Verneed {
    ghost report = { verneed_report };

    fn show<S: Source, O: Sink, E: Sink>(
        &self,
        name: &FileName<'_>,
        elf: &mut Elf<S>,
        s: ScnId,
        at: u64,
        outputs: &mut Outputs<'_, O, E>,
    ) -> Result<bool, Stop> {
        let linked = links_of(elf, s).linked;
        let first = self.first_aux(at);
        show_file(elf, linked, self.file, outputs)?;
        show_names::<Vernaux, S, O, E>(name, elf, s, linked, first, outputs)
    }
}

/// The needs of a section.
#[derive(Clone, Copy)]
struct Needs;

impl Records for Needs {
    ghost title = { needs_title };

    ghost report = { needs_records };

    #[tactic(auto, unfolding(crate::specs::Needs::needs_title))]
    fn title() -> &'static str {
        "Version needs of section "
    }

    fn show<S: Source, O: Sink, E: Sink>(
        name: &FileName<'_>,
        elf: &mut Elf<S>,
        s: ScnId,
        first: Option<u64>,
        outputs: &mut Outputs<'_, O, E>,
    ) -> Result<bool, Stop> {
        show_entries::<Verneed, S, O, E>(name, elf, s, first, outputs)
    }
}

/// Shows the version needs of a section that is there: the section, and for each file a line, with
/// one for each version of it. What goes bad has a message after the lines before it.
#[tactic(auto, unfolding(crate::specs::Needs::needs_of_section))]
pub fn show_needs<S: Source, O: Sink, E: Sink>(
    name: &FileName<'_>,
    elf: &mut Elf<S>,
    s: ScnId,
    outputs: &mut Outputs<'_, O, E>,
) -> Result<bool, Stop>
    requires { s.0 < length elf.old.o.sections }
    ensures { ReportsElf S.Source O.Sink E.Sink (λ o. needs_of_section name.now o s.0)
        result elf.old elf.new outputs.old outputs.new }
{
    show_records::<Needs, S, O, E>(name, elf, s, outputs)
}

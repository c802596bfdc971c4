//! Sections whose bytes hold records in a chain: their title, and what is said of the records.

ghost use Rattle.std.specs.Prelude.{◌≡◌, ◌<◌, ℕ, List, length, IfSome, IfNone};
ghost use Rattle.std.specs.Option.{option_copied};
ghost use Rattle.elf_types.specs.Text.{error_text};
ghost use Rattle.elf_object.specs.Object.{Object};
ghost use Rattle.elf_object.specs.Strings as strings;
ghost use Rattle.tool_output.specs.Names.{Name};
ghost use Rattle.tool_output.specs.Messages.{section_message};
ghost use Rattle.tool_output.specs.Reports.{Report, Reports, shown_report};
ghost use Rattle.tool_output.specs.Steps.{LeavesOutputs};
ghost use Rattle.tool_output.specs.Stops.{stop_of};
ghost use Rattle.tool_objects.specs.Steps.{ReportsElf};
ghost use Rattle.readelf_rows.specs.Data.{readelf_refusal};
ghost use Rattle.readelf_chains.specs.Chains.{HasRecords, chain_title, chain_lines, bytes_report};

use elf_outside::{Sink, Source};
use elf_types::{DataId, ElfError, Octets, ScnId, put_text};
use readelf_rows::put_data_title;
use tool_objects::prelude::{Elf, first_entry};
use tool_objects::section_name_or_stop;
use tool_output::{FileName, InSection, Line, Message, Outputs, Stop};

/// The records of a section whose bytes can be told.
///
/// - `title` is what is before the section's number in its title.
/// - `report` is what is said of them, by the file's name, the object and the section.
pub trait Records {
    ghost title: { List ℕ };

    ghost report: { Name → Object → ℕ → Report };

    /// What is before the section's number in its title.
    fn title() -> &'static str
        ensures { result.now ≡ title };

    /// Gives the report on the records of a section that is there, of which the first is at that
    /// place; an empty section has none.
    fn show<S: Source, O: Sink, E: Sink>(
        name: &FileName<'_>,
        elf: &mut Elf<S>,
        s: ScnId,
        first: Option<u64>,
        outputs: &mut Outputs<'_, O, E>,
    ) -> Result<bool, Stop>
        requires { HasRecords elf.old.o s.0 first }
        ensures { ReportsElf S.Source O.Sink E.Sink (λ o. report name.now o s.0)
            result elf.old elf.new outputs.old outputs.new };
}

/// The title of a section.
#[derive(Clone, Copy)]
struct ChainTitle<'a> {
    /// What is before its number.
    title: &'static str,
    /// The section.
    section: ScnId,
    /// Its name.
    name: Option<&'a [u8]>,
}

impl Line for ChainTitle<'_> {
    ghost text = { λ t. chain_title t.title.now t.section.0 (option_copied t.name) };

    #[tactic(auto, using(elf_types::proofs::Writers::kept), unfolding(crate::specs::Chains::chain_title))]
    fn put(&self, page: &mut Octets) -> Result<(), ElfError> {
        put_data_title(page, self.title, self.section, self.name)?;
        put_text(page, "\n")
    }
}

/// Shows the title of a section.
fn show_title<S: Source, O: Sink, E: Sink>(
    title: &'static str,
    elf: &mut Elf<S>,
    s: ScnId,
    outputs: &mut Outputs<'_, O, E>,
) -> Result<bool, Stop>
    requires { s.0 < length elf.old.o.sections }
    ensures { ReportsElf S.Source O.Sink E.Sink
        (λ o. shown_report (chain_title title.now s.0 (strings.section_name o s.0)))
        result elf.old elf.new outputs.old outputs.new }
{
    match section_name_or_stop(elf, s) {
        Ok(name) => outputs.show(&ChainTitle {
            title,
            section: s,
            name,
        }),
        Err(stop) => Err(stop),
    }
}

/// Rejects the object for what an error says of the records of a section, or stops where the error
/// is no refusal: then nothing is written.
pub fn refuse_records<O: Sink, E: Sink>(
    name: &FileName<'_>,
    s: ScnId,
    e: ElfError,
    outputs: &mut Outputs<'_, O, E>,
) -> Result<bool, Stop>
    ensures reports { IfNone (stop_of e) (Reports O.Sink E.Sink result outputs.old outputs.new
        (readelf_refusal name.now (section_message s.0 (error_text e)))) }
    ensures stops { IfSome (stop_of e)
        (λ stop. (result ≡ Err stop) × (outputs.new ≡ outputs.old)) }
    ensures leaves { IfNone (stop_of e)
        (LeavesOutputs O.Sink E.Sink ⊥ result outputs.old outputs.new) }
{
    let section = s.0;
    let text = InSection { section, text: e };
    let message = Message {
        command: "readelf",
        name,
        text,
    };
    outputs.refuse_by(&message, e)
}

/// Shows the title of a section whose bytes can be told, and what is said of its records.
fn show_lines<R: Records, S: Source, O: Sink, E: Sink>(
    name: &FileName<'_>,
    elf: &mut Elf<S>,
    s: ScnId,
    first: Option<u64>,
    outputs: &mut Outputs<'_, O, E>,
) -> Result<bool, Stop>
    requires { HasRecords elf.old.o s.0 first }
    ensures { ReportsElf S.Source O.Sink E.Sink
        (λ o. chain_lines R.title o s.0 (R.report name.now o s.0))
        result elf.old elf.new outputs.old outputs.new }
{
    show_title(R::title(), elf, s, outputs)?;
    R::show(name, elf, s, first, outputs)
}

/// Shows the records of a section that is there, after its title, or rejects the object for that
/// section where its bytes can not be told.
pub fn show_records<R: Records, S: Source, O: Sink, E: Sink>(
    name: &FileName<'_>,
    elf: &mut Elf<S>,
    s: ScnId,
    outputs: &mut Outputs<'_, O, E>,
) -> Result<bool, Stop>
    requires { s.0 < length elf.old.o.sections }
    ensures { ReportsElf S.Source O.Sink E.Sink
        (λ o. bytes_report R.title name.now o s.0 (R.report name.now o s.0))
        result elf.old elf.new outputs.old outputs.new }
{
    let d = DataId {
        section: s.0,
        piece: 0,
    };
    match first_entry(elf, d) {
        Ok(first) => show_lines::<R, S, O, E>(name, elf, s, first, outputs),
        Err(e) => {
            let message = Message {
                command: "readelf",
                name,
                text: e,
            };
            outputs.refuse_by(&message, e)
        }
    }
}

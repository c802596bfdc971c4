//! The entries of a section of version definitions or needs, each with its list of names.

ghost use Rattle.std.specs.Prelude.{◌≡◌, ◌++◌, ◌<◌, ◌^◌, ℕ, List, Option as TheOption, length, OnOk, IfErr};
ghost use Rattle.std.specs.Option.{option_copied};
ghost use Rattle.elf_types.specs.Writers.{WantsMemory};
ghost use Rattle.elf_object.specs.Object.{Object, section_at};
ghost use Rattle.elf_object.specs.Strings as strings;
ghost use Rattle.tool_output.specs.Names.{Name};
ghost use Rattle.tool_output.specs.Reports.{Report, shown_report};
ghost use Rattle.tool_objects.specs.Steps.{ReportsElf};
ghost use Rattle.readelf_rows.specs.Links.{linked_string};
ghost use Rattle.readelf_chains.specs.Chains.{chain_report};
ghost use Rattle.readelf_chains.specs.Entries.{entries_by, entries_report};

use crate::chains::refuse_records;
use elf_outside::{Sink, Source};
use elf_types::{DataId, ElfError, Octets, ScnId};
use tool_objects::prelude::{AuxPlace, Elf, VersionEntry, VersionName};
use tool_objects::string_at;
use tool_output::{FileName, Line, Outputs, Stop};

/// A name in the list of an entry, as it is shown.
///
/// - `line` is its line, by its string.
/// - `string` is the offset of that.
pub trait Aux: VersionName {
    ghost line: { Self → TheOption (List ℕ) → List ℕ };

    ghost string: { Self → ℕ };

    /// The offset of its string.
    fn string(&self) -> u32
        ensures { result ≡ string self.now };

    /// Appends its line.
    fn put_line(&self, page: &mut Octets, text: Option<&[u8]>) -> Result<(), ElfError>
        ensures ok { OnOk result (page.new ≡ page.old ++ line self.now (option_copied text.entry)) }
        ensures err { IfErr result (WantsMemory page.old page.new) };
}

/// An entry of a version section, as it is shown.
///
/// - `report` is what is said of one, with its place.
pub trait ShownEntry: VersionEntry {
    ghost report: { Name → Object → ℕ → (ℕ × Self) → Report };

    /// Gives the report on the entry that was found at a place of a section that is there.
    fn show<S: Source, O: Sink, E: Sink>(
        &self,
        name: &FileName<'_>,
        elf: &mut Elf<S>,
        s: ScnId,
        at: u64,
        outputs: &mut Outputs<'_, O, E>,
    ) -> Result<bool, Stop>
        requires section { s.0 < length elf.old.o.sections }
        requires small { at < 2 ^ 63 }
        ensures { ReportsElf S.Source O.Sink E.Sink (λ o. report name.now o s.0 (at, self.now))
            result elf.old elf.new outputs.old outputs.new };
}

/// The line of a name.
#[derive(Clone, Copy)]
struct AuxLine<'a, A> {
    /// The name's record.
    aux: A,
    /// Its string.
    string: Option<&'a [u8]>,
}

impl<A: Aux> Line for AuxLine<'_, A> {
    ghost text = { λ l. A.line l.aux (option_copied l.string) };

    fn put(&self, page: &mut Octets) -> Result<(), ElfError> {
        self.aux.put_line(page, self.string)
    }
}

/// Shows the line of a name whose string is in a section.
fn show_name<A: Aux, S: Source, O: Sink, E: Sink>(
    elf: &mut Elf<S>,
    linked: ScnId,
    aux: A,
    outputs: &mut Outputs<'_, O, E>,
) -> Result<bool, Stop>
    ensures { ReportsElf S.Source O.Sink E.Sink (λ o. shown_report
        (A.line aux (strings.readable (strings.string_answer o linked.0 (A.string aux)))))
        result elf.old elf.new outputs.old outputs.new }
{
    match string_at(elf, linked, u64::from(aux.string())) {
        Ok(string) => outputs.show(&AuxLine { aux, string }),
        Err(stop) => Err(stop),
    }
}

/// Shows a line for each name of an entry of a section, whose strings are in the linked one.
pub fn show_names<A: Aux, S: Source, O: Sink, E: Sink>(
    name: &FileName<'_>,
    elf: &mut Elf<S>,
    s: ScnId,
    linked: ScnId,
    first: AuxPlace,
    outputs: &mut Outputs<'_, O, E>,
) -> Result<bool, Stop>
    requires { linked.0 ≡ (section_at elf.old.o s.0).header.link }
    ensures { ReportsElf S.Source O.Sink E.Sink (λ o. chain_report name.now s.0
        (λ x. shown_report (A.line x (linked_string o s.0 (A.string x)))) (A.names o s.0 0 first))
        result elf.old elf.new outputs.old outputs.new }
{
    let d = DataId {
        section: s.0,
        piece: 0,
    };
    let mut place = first;
    'names: loop {
        match A::next_of(elf, d, &mut place) {
            Ok(Some(aux)) => {
                show_name(elf, linked, aux, outputs)?;
            }
            Ok(None) => return Ok(false),
            Err(e) => return refuse_records(name, s, e, outputs),
        }
    }
}

/// Gives the report on each entry of a section from a place on, up to the one whose names go bad.
fn show_from<R: ShownEntry, S: Source, O: Sink, E: Sink>(
    name: &FileName<'_>,
    elf: &mut Elf<S>,
    s: ScnId,
    first: u64,
    outputs: &mut Outputs<'_, O, E>,
) -> Result<bool, Stop>
    requires { s.0 < length elf.old.o.sections }
    ensures { ReportsElf S.Source O.Sink E.Sink
        (λ o. entries_report name.now s.0 (R.report name.now o s.0) (R.entries o s.0 0 first))
        result elf.old elf.new outputs.old outputs.new }
{
    let d = DataId {
        section: s.0,
        piece: 0,
    };
    let mut at = first;
    'entries: loop {
        match R::entry_at(elf, d, at) {
            Ok(entry) => {
                let ended = entry.show(name, elf, s, at, outputs)?;
                if ended {
                    return Ok(true);
                }
                match entry.place_behind(at) {
                    Some(next) => at = next,
                    None => return Ok(false),
                }
            }
            Err(e) => return refuse_records(name, s, e, outputs),
        }
    }
}

/// Gives the report on the entries of a section, of which the first is at that place.
pub fn show_entries<R: ShownEntry, S: Source, O: Sink, E: Sink>(
    name: &FileName<'_>,
    elf: &mut Elf<S>,
    s: ScnId,
    first: Option<u64>,
    outputs: &mut Outputs<'_, O, E>,
) -> Result<bool, Stop>
    requires { s.0 < length elf.old.o.sections }
    ensures { ReportsElf S.Source O.Sink E.Sink (λ o. entries_report name.now s.0
        (R.report name.now o s.0) (entries_by first (R.entries o s.0 0)))
        result elf.old elf.new outputs.old outputs.new }
{
    match first {
        Some(at) => show_from::<R, S, O, E>(name, elf, s, at, outputs),
        None => Ok(false),
    }
}

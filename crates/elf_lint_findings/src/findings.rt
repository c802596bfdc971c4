//! The lines of findings.

ghost use Rattle.std.specs.Prelude.{◌≡◌, ◌++◌, [], ◌∷◌, OnOk, IfErr};
ghost use Rattle.elf_types.specs.Writers.{WantsMemory};
ghost use Rattle.tool_objects.specs.tool_output.Reports.{Reports};
ghost use Rattle.tool_objects.specs.tool_output.Steps.{LeavesOutputs};
ghost use Rattle.elf_lint_findings.specs.Findings.{finding, finding_line, finding_start, findings_shown, found_if, no_findings_line};

use crate::places::Place;
use elf_types::{ElfError, Octets, put_decimal, put_text};
use tool_objects::prelude::{FileName, Line, Outputs, Sink, Stop};

/// Appends `FILE: N PLACE`.
#[tactic(auto, using(elf_types::proofs::Writers::kept), unfolding(crate::specs::Findings::finding_start))]
fn put_start(
    page: &mut Octets,
    name: &FileName<'_>,
    number: u32,
    place: Place,
) -> Result<(), ElfError>
    ensures ok { OnOk result (page.new ≡ page.old ++ finding_start name.now number place) }
    ensures err { IfErr result (WantsMemory page.old page.new) }
{
    name.put(page)?;
    put_text(page, ": ")?;
    put_decimal(page, u64::from(number))?;
    put_text(page, " ")?;
    place.put(page)
}

/// The line of a finding.
#[derive(Drop)]
pub struct FindingLine<'a, T> {
    /// The file, or the member of an archive.
    pub name: &'a FileName<'a>,
    /// The number of the rule.
    pub number: u32,
    /// Where it finds something.
    pub place: Place,
    /// What it finds.
    pub text: T,
}

impl<T: Line> Line for FindingLine<'_, T> {
    ghost text = { λ l. finding_line l.name.now (finding l.number l.place (T.text l.text)) };

    #[tactic(auto, using(elf_types::proofs::Writers::kept), unfolding(crate::specs::Findings::finding_line))]
    fn put(&self, page: &mut Octets) -> Result<(), ElfError> {
        put_start(page, self.name, self.number, self.place)?;
        put_text(page, ": ")?;
        self.text.put(page)?;
        put_text(page, "\n")
    }
}

/// The line of an object in which no rule finds anything.
#[derive(Clone, Copy)]
pub struct NoFindings<'a> {
    /// The file, or the member of an archive.
    pub name: &'a FileName<'a>,
}

impl Line for NoFindings<'_> {
    ghost text = { λ l. no_findings_line l.name.now };

    #[tactic(auto, using(elf_types::proofs::Writers::kept), unfolding(crate::specs::Findings::no_findings_line))]
    fn put(&self, page: &mut Octets) -> Result<(), ElfError> {
        self.name.put(page)?;
        put_text(page, ": no findings\n")
    }
}

/// Says a finding.
pub fn find<T: Line + Drop, O: Sink, E: Sink>(
    name: &FileName<'_>,
    number: u32,
    place: Place,
    text: T,
    outputs: &mut Outputs<'_, O, E>,
) -> Result<bool, Stop>
    ensures reports { Reports O.Sink E.Sink result outputs.old outputs.new
        (findings_shown name.now (finding number place (T.text text) ∷ [])) }
    ensures leaves { LeavesOutputs O.Sink E.Sink ⊥ result outputs.old outputs.new }
{
    outputs.find(&FindingLine {
        name,
        number,
        place,
        text,
    })
}

/// Says a finding, where the test holds. It returns whether it does.
#[inline(always)]
pub fn find_if<O: Sink, E: Sink>(
    holds: bool,
    name: &FileName<'_>,
    number: u32,
    place: Place,
    text: &'static str,
    outputs: &mut Outputs<'_, O, E>,
) -> Result<bool, Stop>
    ensures reports { Reports O.Sink E.Sink result outputs.old outputs.new
        (findings_shown name.now (found_if holds (finding number place text.now))) }
    ensures leaves { LeavesOutputs O.Sink E.Sink ⊥ result outputs.old outputs.new }
{
    if holds {
        find(name, number, place, text, outputs)
    } else {
        Ok(false)
    }
}

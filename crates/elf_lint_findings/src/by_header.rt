//! Rules that look at each section without a read, by its header, and have at most one finding
//! there. Nothing is loaded, so nothing is freed after a section.

ghost use Rattle.std.specs.Prelude.{◌≡◌, ◌<◌, ℕ, Bool as TheBool, length};
ghost use Rattle.tool_objects.specs.elf_object.Object.{Object};
ghost use Rattle.tool_objects.specs.elf_object.Due.{all_sections};
ghost use Rattle.tool_objects.specs.tool_output.Reports.{Reports};
ghost use Rattle.tool_objects.specs.tool_output.Steps.{LeavesOutputs};
ghost use Rattle.elf_lint_findings.specs.Findings.{at_sections, findings_shown};
ghost use Rattle.elf_lint_findings.specs.Steps.{FindsOver};

use crate::findings::find_if;
use crate::places::Place;
use elf_types::ScnId;
use tool_objects::prelude::{Elf, FileName, Outputs, Sink, Source, Stop};

/// A rule that has at most one finding a section, and reads nothing.
///
/// - `finds` tells whether it has one, by the object and the section's number.
pub trait HeaderRule {
    ghost finds: { Self → Object → ℕ → TheBool };

    /// Whether the rule has a finding at a section that is there.
    fn finds<S: Source>(&self, elf: &Elf<S>, s: ScnId) -> bool
        requires { s.0 < length elf.now.o.sections }
        ensures { result ≡ finds self.now elf.now.o s.0 };
}

/// Says what a rule of that number finds at each section, by number.
fn each_header<R: HeaderRule, S: Source, O: Sink, E: Sink>(
    rule: &R,
    number: u32,
    text: &'static str,
    name: &FileName<'_>,
    elf: &Elf<S>,
    outputs: &mut Outputs<'_, O, E>,
) -> Result<bool, Stop>
    ensures reports { Reports O.Sink E.Sink result outputs.old outputs.new
        (findings_shown name.now (at_sections number text.now
        (R.finds rule.now elf.now.o) (all_sections elf.now.o))) }
    ensures leaves { LeavesOutputs O.Sink E.Sink ⊥ result outputs.old outputs.new }
{
    let mut found = false;
    for s in 0..elf.shnum() {
        let holds = rule.finds(elf, ScnId(s));
        let was_found = find_if(holds, name, number, Place::Section(s), text, outputs)?;
        found = found | was_found;
    }
    Ok(found)
}

/// Says what a rule of that number finds at each section, by number, with one text for all its
/// findings. Nothing is read.
pub fn each_header_by<R: HeaderRule, S: Source, O: Sink, E: Sink>(
    rule: &R,
    number: u32,
    text: &'static str,
    name: &FileName<'_>,
    elf: &mut Elf<S>,
    outputs: &mut Outputs<'_, O, E>,
) -> Result<bool, Stop>
    ensures { FindsOver S.Source O.Sink E.Sink 1
        (λ o. at_sections number text.now (R.finds rule.now o) (all_sections o)) name.now
        result elf.old elf.new outputs.old outputs.new }
{
    each_header(rule, number, text, name, elf, outputs)
}

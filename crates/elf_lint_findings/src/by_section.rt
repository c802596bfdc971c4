//! Rules that look at each section, and have at most one finding there.

ghost use Rattle.std.specs.Prelude.{◌<◌, ℕ, Bool as TheBool, length};
ghost use Rattle.tool_objects.specs.elf_object.Object.{Object};
ghost use Rattle.tool_objects.specs.elf_object.Due.{all_sections};
ghost use Rattle.tool_objects.specs.Steps.{Learns};
ghost use Rattle.elf_lint_findings.specs.declared.places.Place.TheVariants.{Section};
ghost use Rattle.elf_lint_findings.specs.Findings.{at_sections, finding, findings_shown, found_if};
ghost use Rattle.elf_lint_findings.specs.Steps.{FindsOver};

use crate::findings::find_if;
use crate::places::Place;
use elf_types::ScnId;
use tool_objects::prelude::{Elf, FileName, Outputs, Sink, Source, Stop};
use tool_objects::{SectionTool, each_section};

/// A rule that has at most one finding a section.
///
/// - `finds` tells whether it has one, by the object and the section's number.
pub trait SectionRule {
    ghost finds: { Object → ℕ → TheBool };

    /// Whether the rule has a finding at a section that is there. It stops by `Read` where a read
    /// of the source failed, and by `Memory`.
    fn finds<S: Source>(&self, elf: &mut Elf<S>, s: ScnId) -> Result<bool, Stop>
        requires { s.0 < length elf.old.o.sections }
        ensures { Learns S.Source (λ o. finds o s.0) result elf.old elf.new };
}

/// A rule under the name of a file.
#[derive(Drop)]
struct BySection<'a, R> {
    /// The rule.
    rule: &'a R,
    /// Its number.
    number: u32,
    /// The text of its findings.
    text: &'static str,
    /// The file.
    name: &'a FileName<'a>,
}

impl<R: SectionRule> SectionTool for BySection<'_, R> {
    ghost report = { λ t o s. findings_shown t.name.now
        (found_if (R.finds o s) (finding t.number (Section s) t.text.now)) };

    fn show<S: Source, O: Sink, E: Sink>(
        &self,
        elf: &mut Elf<S>,
        s: ScnId,
        outputs: &mut Outputs<'_, O, E>,
    ) -> Result<bool, Stop> {
        let rule = self.rule;
        match rule.finds(elf, s) {
            Ok(holds) => {
                let place = Place::Section(s.0);
                find_if(holds, self.name, self.number, place, self.text, outputs)
            }
            Err(stop) => Err(stop),
        }
    }
}

/// Says what a rule of that number finds at each section, by number, with one text for all its
/// findings, in one pass over the sections.
pub fn each_section_by<R: SectionRule, S: Source, O: Sink, E: Sink>(
    rule: &R,
    number: u32,
    text: &'static str,
    name: &FileName<'_>,
    elf: &mut Elf<S>,
    outputs: &mut Outputs<'_, O, E>,
) -> Result<bool, Stop>
    ensures { FindsOver S.Source O.Sink E.Sink 1
        (λ o. at_sections number text.now (R.finds o) (all_sections o)) name.now
        result elf.old elf.new outputs.old outputs.new }
{
    let tool = BySection {
        rule,
        number,
        text,
        name,
    };
    each_section(&tool, elf, outputs)
}

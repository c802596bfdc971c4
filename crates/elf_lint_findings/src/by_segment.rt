//! Rules that look at each program header.

ghost use Rattle.std.specs.Prelude.{◌≡◌, Bool as TheBool};
ghost use Rattle.elf_types.specs.declared.records.Phdr.{Phdr as ThePhdr};
ghost use Rattle.tool_objects.specs.elf_object.Object.{Object};
ghost use Rattle.tool_objects.specs.tool_output.Reports.{Reports};
ghost use Rattle.tool_objects.specs.tool_output.Steps.{LeavesOutputs};
ghost use Rattle.elf_lint_findings.specs.Findings.{at_segments, findings_shown};

use crate::findings::find_if;
use crate::places::Place;
use elf_types::Phdr;
use tool_objects::phdr_at;
use tool_objects::prelude::{Elf, FileName, Outputs, Sink, Source, Stop};

/// A rule that has at most one finding a program header.
///
/// - `finds` tells whether it has one, by the object and the program header.
pub trait SegmentRule {
    ghost finds: { Object → ThePhdr → TheBool };

    /// Whether the rule has a finding at a program header.
    fn finds<S: Source>(&self, elf: &Elf<S>, p: &Phdr) -> bool
        ensures { result ≡ finds elf.now.o p.now };
}

/// Says what a rule of that number finds at each program header, by number, with one text for all
/// its findings. Nothing is read.
pub fn each_segment<R: SegmentRule, S: Source, O: Sink, E: Sink>(
    rule: &R,
    number: u32,
    text: &'static str,
    name: &FileName<'_>,
    elf: &Elf<S>,
    outputs: &mut Outputs<'_, O, E>,
) -> Result<bool, Stop>
    ensures reports { Reports O.Sink E.Sink result outputs.old outputs.new
        (findings_shown name.now
        (at_segments number text.now (R.finds elf.now.o) elf.now.o.phdrs)) }
    ensures leaves { LeavesOutputs O.Sink E.Sink ⊥ result outputs.old outputs.new }
{
    let mut found = false;
    for i in 0..elf.phnum() {
        let holds = rule.finds(elf, &phdr_at(elf, i));
        let was_found = find_if(holds, name, number, Place::Segment(i), text, outputs)?;
        found = found | was_found;
    }
    Ok(found)
}

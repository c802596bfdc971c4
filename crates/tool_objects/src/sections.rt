//! The sections of an object, one after another.

ghost use Rattle.std.specs.Prelude.{◌≡◌, ◌<◌, ℕ, length};
ghost use Rattle.gelf_view.specs.elf_object.Object.{Object, section_at};
ghost use Rattle.gelf_view.specs.elf_object.Due.{all_sections};
ghost use Rattle.tool_output.specs.Reports.{Report, reports_of};
ghost use Rattle.tool_objects.specs.Steps.{ReportsElf, ReportsOver};

use crate::crowded::{is_crowded, let_go};
use elf_types::{ScnId, Shdr};
use gelf_view::prelude::Elf;
use tool_output::prelude::{Sink, Source};
use tool_output::{Outputs, Stop};

/// The present header of a section that is there.
#[tactic(auto, unfolding(gelf_view::specs::Passed::shdr_answer))]
pub fn section_header<S: Source>(elf: &Elf<S>, s: ScnId) -> Shdr
    requires { s.0 < length elf.now.o.sections }
    ensures { result ≡ (section_at elf.now.o s.0).header }
{
    match elf.shdr(s) {
        Ok(header) => header,
        Err(_) => unreachable!(),
    }
}

/// What a tool says of each section.
///
/// - `report` is what it says of a section of an object, by its number.
pub trait SectionTool {
    ghost report: { Self → Object → ℕ → Report };

    /// Gives the report on a section that is there, and leaves the object. It returns whether
    /// something was rejected. It stops by `Read` only where a read of the source failed, by
    /// `Write` only where a put failed.
    fn show<S: Source, O: Sink, E: Sink>(
        &self,
        elf: &mut Elf<S>,
        s: ScnId,
        outputs: &mut Outputs<'_, O, E>,
    ) -> Result<bool, Stop>
        requires { s.0 < length elf.old.o.sections }
        ensures { ReportsElf S.Source O.Sink E.Sink (λ o. report self.now o s.0)
            result elf.old elf.new outputs.old outputs.new };
}

/// Gives a tool's report on each section, by number. It returns whether something was rejected.
/// Where the homes are longer together than the image, so that some overlap, each section is freed
/// after its report: what is held is that section, and those that one gone over links to, until the
/// pass comes to them. Then the pass may ask for each home once more.
pub fn each_section<T: SectionTool, S: Source, O: Sink, E: Sink>(
    tool: &T,
    elf: &mut Elf<S>,
    outputs: &mut Outputs<'_, O, E>,
) -> Result<bool, Stop>
    ensures { ReportsOver S.Source O.Sink E.Sink 1
        (λ o. reports_of (T.report tool.now o) (all_sections o))
        result elf.old elf.new outputs.old outputs.new }
{
    let crowded = is_crowded(elf);
    let mut refused = false;
    for s in 0..elf.shnum() {
        let was_refused = tool.show(elf, ScnId(s), outputs)?;
        let_go(crowded, elf, ScnId(s));
        refused = refused | was_refused;
    }
    Ok(refused)
}

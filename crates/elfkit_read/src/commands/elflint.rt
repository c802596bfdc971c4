//! elflint: what the rules find in each file that it names, or in the members of one that is an
//! archive.

ghost use Rattle.std.specs.Prelude.{◌≡◌, IsTrue};
ghost use Rattle.tool_output.specs.Files.{LeavesFiles};
ghost use Rattle.tool_output.specs.Statuses.{refused_status};
ghost use Rattle.tool_output.specs.Outcomes.{Does};
ghost use Rattle.elfkit_read.specs.Elflint.{elflint_outcome};

use crate::objects::each_object;
use elf_lint::LintTool;
use elf_outside::{Files, Sink};
use std::alloc::Global;
use tool_output::{Outputs, Stop};
use tool_text::Args;

/// The command elflint: what the rules find in each file, in the order of the names, and in each
/// member of one that is an archive. It returns whether something was found or rejected.
#[tactic(auto, unfolding(crate::specs::Elflint::elflint_outcome))]
pub fn run_elflint<F: Files, O: Sink, E: Sink>(
    alloc: Global,
    names: &Args,
    files: &mut F,
    outputs: &mut Outputs<'_, O, E>,
) -> Result<bool, Stop>
    ensures does { IsTrue (F.tells files.old) → Does F.Files O.Sink E.Sink refused_status
        (elflint_outcome names.now (F.named files.old))
        result files.old files.new outputs.old outputs.new }
    ensures given { F.given files.new ≡ F.given files.old }
    ensures leaves { LeavesFiles F.Files O.Sink E.Sink
        result files.old files.new outputs.old outputs.new }
{
    each_object(alloc, &LintTool, &LintTool, names, files, outputs)
}

//! size: how much memory the sections of each object take.

ghost use Rattle.std.specs.Prelude.{◌≡◌, IsTrue};
ghost use Rattle.tool_output.specs.Files.{LeavesFiles};
ghost use Rattle.tool_output.specs.Statuses.{refused_status};
ghost use Rattle.tool_output.specs.Outcomes.{Does};
ghost use Rattle.elfkit_read.specs.Size.{size_outcome};

use crate::objects::each_object;
use elf_outside::{Files, Sink};
use size_tool::{SizeTitle, SizeTool};
use std::alloc::Global;
use tool_output::{Outputs, Stop};
use tool_text::Args;

/// The command size: its title, and then a line for each file, in the order of the names, or for
/// each member of one that is an archive. It returns whether something was rejected.
pub fn run_size<F: Files, O: Sink, E: Sink>(
    alloc: Global,
    names: &Args,
    files: &mut F,
    outputs: &mut Outputs<'_, O, E>,
) -> Result<bool, Stop>
    ensures does { IsTrue (F.tells files.old) → Does F.Files O.Sink E.Sink refused_status
        (size_outcome names.now (F.named files.old))
        result files.old files.new outputs.old outputs.new }
    ensures given { F.given files.new ≡ F.given files.old }
    ensures leaves { LeavesFiles F.Files O.Sink E.Sink
        result files.old files.new outputs.old outputs.new }
{
    outputs.show(&SizeTitle)?;
    each_object(alloc, &SizeTool, &SizeTool, names, files, outputs)
}

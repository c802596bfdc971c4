//! unstrip: the images of two files, joined, and the new file of what they are halves of.

ghost use Rattle.std.specs.Prelude.{IsTrue};
ghost use Rattle.elfkit_words.specs.Forms.{ThreeDiffer};
ghost use Rattle.tool_output.specs.Files.{LeavesFiles};
ghost use Rattle.tool_output.specs.Statuses.{refused_status};
ghost use Rattle.tool_output.specs.Outcomes.{Does};
ghost use Rattle.selftest_tool.specs.elfkit_outcomes.Strip.{unstrip_outcome};

use elf_outside::{Files, Sink};
use std::alloc::Global;
use tool_output::{Outputs, Stop};
use tool_text::Text;
use unstrip_tool::{HalfNames, join_files};

/// The command unstrip: the image of what two files are halves of is written to a new file while
/// both are open. The first of them that is not there or is rejected, files that do not match, and
/// what the join or the update rejects have their message, and no file is made. It returns whether
/// it was rejected.
pub fn run_unstrip<F: Files, O: Sink, E: Sink>(
    alloc: Global,
    out: &Text,
    stripped: &Text,
    debug: &Text,
    files: &mut F,
    outputs: &mut Outputs<'_, O, E>,
) -> Result<bool, Stop>
    requires { ThreeDiffer out.now stripped.now debug.now }
    ensures does { IsTrue (F.tells files.old) → Does F.Files O.Sink E.Sink refused_status
        (unstrip_outcome (F.named files.old) out.now stripped.now debug.now)
        result files.old files.new outputs.old outputs.new }
    ensures leaves { LeavesFiles F.Files O.Sink E.Sink
        result files.old files.new outputs.old outputs.new }
{
    let names = HalfNames {
        stripped: stripped.as_str(),
        debug: debug.as_str(),
    };
    join_files(alloc, out.as_str(), &names, files, outputs)
}

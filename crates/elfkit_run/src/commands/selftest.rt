//! selftest: an image is made, changed, written and read again.

ghost use Rattle.std.specs.Prelude.{◌≤◌, IsTrue};
ghost use Rattle.tool_output.specs.Files.{LeavesFiles};
ghost use Rattle.tool_output.specs.Outcomes.{Does};
ghost use Rattle.tool_output.specs.Statuses.{refused_status};
ghost use Rattle.selftest_tool.specs.elfkit_outcomes.Selftest.{selftest_outcome};

use elf_outside::{Files, Sink};
use selftest_tool::write_and_tell;
use std::alloc::Global;
use tool_output::{Outputs, Stop};
use tool_text::Text;

/// The command selftest: the image of so many sections, each with a symbol, is written to a file,
/// which is opened again and told of in five lines. It returns whether the file was rejected then,
/// as where somebody else changed it.
pub fn selftest<F: Files, O: Sink, E: Sink>(
    alloc: Global,
    out: &Text,
    count: u32,
    files: &mut F,
    outputs: &mut Outputs<'_, O, E>,
) -> Result<bool, Stop>
    requires { (1 ≤ count) × (count ≤ 60000) }
    ensures does { IsTrue (F.tells files.old) → Does F.Files O.Sink E.Sink refused_status
        (selftest_outcome out.now count)
        result files.old files.new outputs.old outputs.new }
    ensures leaves { LeavesFiles F.Files O.Sink E.Sink
        result files.old files.new outputs.old outputs.new }
{
    write_and_tell(alloc, out, count, files, outputs)
}

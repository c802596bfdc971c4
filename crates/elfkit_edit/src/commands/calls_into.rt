//! calls with -o and -i: the calls of a script, run on an image, and where the image goes that they
//! leave.

ghost use Rattle.std.specs.Prelude.{IsTrue, Some};
ghost use Rattle.calls_tool.specs.Update.Outputs.{IsOutputApart};
ghost use Rattle.tool_output.specs.Files.{LeavesFiles};
ghost use Rattle.tool_output.specs.Statuses.{refused_status};
ghost use Rattle.tool_output.specs.Outcomes.{Does};
ghost use Rattle.elfkit_edit.specs.Calls.{calls_update_outcome};

use crate::commands::calls_in_place::calls_in_place;
use crate::commands::calls_to::calls_to;
use calls_tool::update::CallsOutput;
use elf_outside::{Files, Sink};
use std::alloc::Global;
use tool_output::{Outputs, Stop};
use tool_text::Text;

/// The command calls with -o and with -i: the calls of a script are run on an image, and the image
/// that they leave is written to a new file, or into FILE in place. Without calls the file is not
/// opened, and where the update is rejected nothing is written. It returns whether the script, the
/// image, a call or the update was rejected.
pub fn calls_into<F: Files, O: Sink, E: Sink>(
    alloc: Global,
    output: &CallsOutput,
    file: &Text,
    script: &Text,
    files: &mut F,
    outputs: &mut Outputs<'_, O, E>,
) -> Result<bool, Stop>
    requires { IsOutputApart (Some output.now) file.now script.now }
    ensures does { IsTrue (F.tells files.old) → Does F.Files O.Sink E.Sink refused_status
        (calls_update_outcome output.now file.now script.now (F.named files.old))
        result files.old files.new outputs.old outputs.new }
    ensures leaves { LeavesFiles F.Files O.Sink E.Sink
        result files.old files.new outputs.old outputs.new }
{
    match output {
        CallsOutput::To(out) => calls_to(alloc, out, file, script, files, outputs),
        CallsOutput::InPlace => calls_in_place(alloc, file, script, files, outputs),
    }
}

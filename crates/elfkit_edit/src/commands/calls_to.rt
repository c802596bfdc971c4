//! calls with -o: the calls of a script, run on an image, and the new file of the image that they
//! leave.

ghost use Rattle.std.specs.Prelude.{◌≢◌, IsTrue};
ghost use Rattle.calls_tool.specs.declared.update.outputs.CallsOutput.TheVariants.{To};
ghost use Rattle.tool_output.specs.Files.{LeavesFiles};
ghost use Rattle.tool_output.specs.Statuses.{refused_status};
ghost use Rattle.tool_output.specs.Outcomes.{Does};
ghost use Rattle.elfkit_edit.specs.Calls.{calls_update_outcome};

use crate::commands::calls::calls_of_script;
use calls_tool::update::CallsEdit;
use elf_outside::{Files, Sink};
use std::alloc::Global;
use tool_files::edit_file;
use tool_output::{Outputs, Stop};
use tool_text::Text;

/// The command calls with -o: the script is read whole, then its calls are run on the image, one
/// after another, each with the line of its result, and the image that they leave is written to a
/// new file, with the line of its size. Without calls the file is not opened. Where the update is
/// rejected no file is made, and the line is that of the refusal. It returns whether the script,
/// the image, a call or the update was rejected.
pub fn calls_to<F: Files, O: Sink, E: Sink>(
    alloc: Global,
    out: &Text,
    file: &Text,
    script: &Text,
    files: &mut F,
    outputs: &mut Outputs<'_, O, E>,
) -> Result<bool, Stop>
    requires { out.now ≢ file.now }
    ensures does { IsTrue (F.tells files.old) → Does F.Files O.Sink E.Sink refused_status
        (calls_update_outcome (To out.now) file.now script.now (F.named files.old))
        result files.old files.new outputs.old outputs.new }
    ensures leaves { LeavesFiles F.Files O.Sink E.Sink
        result files.old files.new outputs.old outputs.new }
{
    let read = calls_of_script(alloc, script.as_str(), files, outputs)?;
    match read {
        Some(calls) => {
            let edit = CallsEdit {
                calls: calls.as_slice(),
                out: out.as_str(),
            };
            edit_file(alloc, &edit, file.as_str(), files, outputs)
        }
        None => Ok(true),
    }
}

//! The message of a file that is not there.

ghost use Rattle.tool_files.specs.Edits.{RefusesOpening};

use tool_output::prelude::{OpenFault, Sink};
use tool_output::{FileName, Message, Outputs, Stop};

/// Rejects a name that is not there by a message, or stops where the file could not be opened.
pub fn refuse_opening<O: Sink, E: Sink>(
    command: &str,
    file_name: &str,
    fault: OpenFault,
    outputs: &mut Outputs<'_, O, E>,
) -> Result<bool, Stop>
    ensures { RefusesOpening O.Sink E.Sink command.now file_name.now fault result
        outputs.old outputs.new }
{
    match fault {
        OpenFault::NotThere => outputs.refuse(&Message {
            command,
            name: &FileName::of(file_name.as_bytes()),
            text: "not found",
        }),
        OpenFault::Failed => Err(Stop::Read),
        OpenFault::Memory => Err(Stop::Memory),
    }
}

//! The message of a file that is rejected.

ghost use Rattle.tool_output.specs.Names.{file_name};
ghost use Rattle.elfkit_outcomes.specs.tool_objects.Refusals.{ReportsRefusal};

use elf_outside::Sink;
use elf_types::ElfError;
use tool_output::{FileName, Message, Outputs, Stop};

/// Rejects a file for an error of the library, or stops where the error is no refusal.
pub fn refuse_for<O: Sink, E: Sink>(
    command: &str,
    file: &[u8],
    e: ElfError,
    outputs: &mut Outputs<'_, O, E>,
) -> Result<bool, Stop>
    ensures { ReportsRefusal O.Sink E.Sink command.now (file_name file.now) e result
        outputs.old outputs.new }
{
    let message = Message {
        command,
        name: &FileName::of(file),
        text: e,
    };
    outputs.refuse_by(&message, e)
}

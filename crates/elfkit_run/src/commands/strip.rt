//! strip: the image of a file without what is removed, and the new file of it.

ghost use Rattle.std.specs.Prelude.{◌≡◌, ◌≢◌, None, IsTrue};
ghost use Rattle.tool_output.specs.Files.{LeavesFiles};
ghost use Rattle.tool_output.specs.Statuses.{refused_status};
ghost use Rattle.tool_output.specs.Outcomes.{Does};
ghost use Rattle.selftest_tool.specs.elfkit_outcomes.Strip.{strip_outcome};

use elf_outside::{Files, Sink};
use elfkit_words::prelude::StripOptions;
use std::alloc::Global;
use strip_tool::{StripCommand, strip_named};
use tool_output::{Outputs, Stop};
use tool_text::Text;

/// The command strip without `-f`: the image without what is removed is written to a new file while
/// the old one is open, and what stays as it is is copied range by range. Where it is rejected, the
/// message says why, and no file is made. It returns whether it was rejected.
pub fn strip<F: Files, O: Sink, E: Sink>(
    alloc: Global,
    options: &StripOptions,
    file: &Text,
    files: &mut F,
    outputs: &mut Outputs<'_, O, E>,
) -> Result<bool, Stop>
    requires apart { options.now.out ≢ file.now }
    requires alone { options.now.debug ≡ None }
    ensures does { IsTrue (F.tells files.old) → Does F.Files O.Sink E.Sink refused_status
        (strip_outcome options.now (F.named files.old) file.now)
        result files.old files.new outputs.old outputs.new }
    ensures leaves { LeavesFiles F.Files O.Sink E.Sink
        result files.old files.new outputs.old outputs.new }
{
    let command = StripCommand {
        debug_only: options.debug_only,
        names: &options.names,
        out: options.out.as_str(),
    };
    strip_named(alloc, &command, file.as_str(), files, outputs)
}

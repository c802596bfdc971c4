//! strip with `-f`: the two halves of the image of a file, and the new files of them.

ghost use Rattle.std.specs.Prelude.{◌≡◌, ◌≢◌, Some, IfSome, IsTrue};
ghost use Rattle.elfkit_words.specs.Forms.{ThreeDiffer};
ghost use Rattle.tool_output.specs.Files.{LeavesFiles};
ghost use Rattle.tool_output.specs.Statuses.{refused_status};
ghost use Rattle.tool_output.specs.Outcomes.{Does};
ghost use Rattle.selftest_tool.specs.elfkit_outcomes.Strip.{strip_outcome};

use crate::commands::strip::strip;
use elf_outside::{Files, Sink};
use elfkit_words::prelude::StripOptions;
use std::alloc::Global;
use tool_output::{Outputs, Stop};
use tool_text::Text;
use unstrip_tool::{HalfNames, SplitCommand, split_named};

/// The command strip with `-f`: the image without what is removed, and its debug half, are written
/// to new files while the old one is open, the debug half last, and what stays as it is is copied
/// range by range. Where a section is removed that is allocated, and where a half or its update is
/// rejected, the message says so, and neither file is made. It returns whether it was rejected.
fn split<F: Files, O: Sink, E: Sink>(
    alloc: Global,
    options: &StripOptions,
    debug: &Text,
    file: &Text,
    files: &mut F,
    outputs: &mut Outputs<'_, O, E>,
) -> Result<bool, Stop>
    requires differ { ThreeDiffer options.now.out file.now debug.now }
    requires debug { options.now.debug ≡ Some debug.now }
    ensures does { IsTrue (F.tells files.old) → Does F.Files O.Sink E.Sink refused_status
        (strip_outcome options.now (F.named files.old) file.now)
        result files.old files.new outputs.old outputs.new }
    ensures leaves { LeavesFiles F.Files O.Sink E.Sink
        result files.old files.new outputs.old outputs.new }
{
    let halves = HalfNames {
        stripped: options.out.as_str(),
        debug: debug.as_str(),
    };
    let command = SplitCommand {
        debug_only: options.debug_only,
        names: &options.names,
        halves: &halves,
    };
    split_named(alloc, &command, file.as_str(), files, outputs)
}

/// The command strip, without `-f` and with it.
pub fn strip_by_debug<F: Files, O: Sink, E: Sink>(
    alloc: Global,
    options: &StripOptions,
    file: &Text,
    files: &mut F,
    outputs: &mut Outputs<'_, O, E>,
) -> Result<bool, Stop>
    requires { (options.now.out ≢ file.now)
        × IfSome options.now.debug (λ debug. ThreeDiffer options.now.out file.now debug) }
    ensures does { IsTrue (F.tells files.old) → Does F.Files O.Sink E.Sink refused_status
        (strip_outcome options.now (F.named files.old) file.now)
        result files.old files.new outputs.old outputs.new }
    ensures leaves { LeavesFiles F.Files O.Sink E.Sink
        result files.old files.new outputs.old outputs.new }
{
    match &options.debug {
        None => strip(alloc, options, file, files, outputs),
        Some(debug) => split(alloc, options, debug, file, files, outputs),
    }
}

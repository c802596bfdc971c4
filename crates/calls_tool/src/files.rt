//! The calls of a script, run on the image that a source holds.

ghost use Rattle.std.specs.Prelude.{◌≤◌, ◌+◌, IfSome, codes};
ghost use Rattle.tool_output.specs.Sources.{ReportsOn};
ghost use Rattle.tool_objects.specs.Refusals.{ReportsRefusal};
ghost use Rattle.calls_tool.specs.Files.{calls_file_report, calls_asks};

use crate::runs::show_calls;
use elf_calls_script::Call;
use elf_outside::{Sink, Source};
use elf_types::ElfError;
use std::alloc::Global;
use tool_objects::begin_image;
use tool_output::{FileName, Message, Outputs, Stop};

/// Rejects what is no image, or stops where the error is no refusal.
pub fn refuse_image<O: Sink, E: Sink>(
    name: &FileName<'_>,
    e: ElfError,
    outputs: &mut Outputs<'_, O, E>,
) -> Result<bool, Stop>
    ensures { ReportsRefusal O.Sink E.Sink
        (codes "calls") name.now e result outputs.old outputs.new }
{
    let message = Message {
        command: "calls",
        name,
        text: e,
    };
    outputs.refuse_by(&message, e)
}

/// Runs calls on the image that a source holds, under a name, writes the line of each result, and
/// hands the source back. What has no headers of an image, and an archive, has the message that
/// says why. It stops by `Read` only where a read of the source failed.
pub fn show_calls_on<S: Source, O: Sink, E: Sink>(
    alloc: Global,
    src: S,
    calls: &[Call],
    name: &FileName<'_>,
    outputs: &mut Outputs<'_, O, E>,
) -> (S, Result<bool, Stop>)
    ensures reports { ReportsOn S.Source O.Sink E.Sink (calls_file_report calls.now name.now)
        result.1 src result.0 outputs.old outputs.new }
    ensures asks { IfSome (S.holds src) (λ image.
        S.taken result.0 ≤ S.taken src + calls_asks calls.now image) }
{
    match begin_image(alloc, src) {
        Ok(mut elf) => {
            let shown = show_calls(&mut elf, calls, outputs);
            (elf.end(), shown)
        }
        Err((src, e)) => {
            let refused = refuse_image(name, e, outputs);
            (src, refused)
        }
    }
}

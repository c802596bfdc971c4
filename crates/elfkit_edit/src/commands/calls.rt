//! calls: the calls of a script, run on an image.

ghost use Rattle.std.specs.Prelude.{◌≡◌, IsTrue, codes, Some};
ghost use Rattle.tool_output.specs.Files.{LeavesFiles};
ghost use Rattle.tool_output.specs.Statuses.{refused_status};
ghost use Rattle.tool_output.specs.Outcomes.{Does};
ghost use Rattle.calls_tool.specs.Files.{calls_file_report, calls_asks};
ghost use Rattle.elfkit_edit.specs.Calls.{ReadsCalls, calls_file_asks, calls_outcome};

use calls_tool::{refuse_script, show_calls_on, tell_script};
use elf_calls_script::{Call, Calls};
use elf_outside::{Files, OpenFault, Sink, Source};
use elfkit_read::{FileTool, one_file};
use std::alloc::Global;
use tool_output::{FileName, Outputs, Stop};
use tool_text::Text;

/// The calls of a script, as a tool over files.
#[derive(Drop)]
struct CallsTool<'a> {
    /// The calls.
    calls: &'a [Call],
}

impl FileTool for CallsTool<'_> {
    ghost command = { λ _. codes "calls" };

    ghost report = { λ t. calls_file_report t.calls.now };

    ghost asks = { λ t. calls_file_asks t.calls.now };

    fn command(&self) -> &'static str {
        "calls"
    }

    fn show<S: Source, O: Sink, E: Sink>(
        &self,
        alloc: Global,
        src: S,
        name: &[u8],
        outputs: &mut Outputs<'_, O, E>,
    ) -> (S, Result<bool, Stop>) {
        show_calls_on(alloc, src, self.calls, &FileName::of(name), outputs)
    }
}

/// Opens a script, reads its calls and closes it. A script that is not there, and one with a bad
/// line, has its message: then there are no calls.
pub fn calls_of_script<F: Files, O: Sink, E: Sink>(
    alloc: Global,
    script: &str,
    files: &mut F,
    outputs: &mut Outputs<'_, O, E>,
) -> Result<Option<Calls>, Stop>
    ensures { ReadsCalls F.Files O.Sink E.Sink script.now
        result files.old files.new outputs.old outputs.new }
{
    let name = FileName::of(script.as_bytes());
    let mut source = match files.open(alloc, script) {
        Ok(source) => source,
        Err(OpenFault::NotThere) => return refuse_script(&name, "not found", outputs),
        Err(OpenFault::Failed) => return Err(Stop::Read),
        Err(OpenFault::Memory) => return Err(Stop::Memory),
    };
    let read = tell_script(alloc, &mut source, &name, outputs);
    files.close(script, source);
    read
}

/// The command calls: the script is read whole, and then its calls are run on the image, one after
/// another, each with the line of its result. Without calls the file is not opened. It returns
/// whether the script, the image or a call was rejected.
pub fn calls<F: Files, O: Sink, E: Sink>(
    alloc: Global,
    file: &Text,
    script: &Text,
    files: &mut F,
    outputs: &mut Outputs<'_, O, E>,
) -> Result<bool, Stop>
    ensures does { IsTrue (F.tells files.old) → Does F.Files O.Sink E.Sink refused_status
        (calls_outcome file.now script.now (F.named files.old))
        result files.old files.new outputs.old outputs.new }
    ensures given { F.given files.new ≡ F.given files.old }
    ensures leaves { LeavesFiles F.Files O.Sink E.Sink
        result files.old files.new outputs.old outputs.new }
{
    let read = calls_of_script(alloc, script.as_str(), files, outputs)?;
    match read {
        Some(calls) => {
            let tool = CallsTool {
                calls: calls.as_slice(),
            };
            one_file(alloc, &tool, file.as_str(), files, outputs)
        }
        None => Ok(true),
    }
}

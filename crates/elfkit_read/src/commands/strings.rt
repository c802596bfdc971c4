//! strings: the printable runs of each file that it names.

ghost use Rattle.std.specs.Prelude.{◌≡◌, IsTrue, Some, codes};
ghost use Rattle.tool_output.specs.Files.{LeavesFiles};
ghost use Rattle.tool_output.specs.Statuses.{refused_status};
ghost use Rattle.tool_output.specs.Outcomes.{Does};
ghost use Rattle.strings_tool.specs.Tool.{strings_report, strings_asks};
ghost use Rattle.elfkit_read.specs.Strings.{strings_outcome};

use crate::files::{FileTool, each_file};
use elf_outside::{Files, Sink, Source};
use std::alloc::Global;
use strings_tool::{StringsOptions, show_strings};
use tool_output::{FileName, Outputs, Stop};
use tool_text::Args;

/// The tool of the command strings, which speaks of files and of no objects.
#[derive(Clone, Copy)]
struct StringsTool<'a> {
    /// The options.
    options: &'a StringsOptions,
}

impl FileTool for StringsTool<'_> {
    ghost command = { λ _. codes "strings" };

    ghost report = { λ t. strings_report t.options.now };

    ghost asks = { λ t bytes. Some (strings_asks t.options.now bytes) };

    fn command(&self) -> &'static str {
        "strings"
    }

    fn show<S: Source, O: Sink, E: Sink>(
        &self,
        alloc: Global,
        mut src: S,
        name: &[u8],
        outputs: &mut Outputs<'_, O, E>,
    ) -> (S, Result<bool, Stop>) {
        let shown = show_strings(alloc, &mut src, self.options, &FileName::of(name), outputs);
        (src, shown)
    }
}

/// The command strings: the printable runs of each file, in the order of the names. It returns
/// whether something was rejected.
pub fn run_strings<F: Files, O: Sink, E: Sink>(
    alloc: Global,
    options: &StringsOptions,
    names: &Args,
    files: &mut F,
    outputs: &mut Outputs<'_, O, E>,
) -> Result<bool, Stop>
    ensures does { IsTrue (F.tells files.old) → Does F.Files O.Sink E.Sink refused_status
        (strings_outcome options.now names.now (F.named files.old))
        result files.old files.new outputs.old outputs.new }
    ensures given { F.given files.new ≡ F.given files.old }
    ensures leaves { LeavesFiles F.Files O.Sink E.Sink
        result files.old files.new outputs.old outputs.new }
{
    let tool = StringsTool { options };
    each_file(alloc, &tool, names.as_slice(), files, outputs)
}

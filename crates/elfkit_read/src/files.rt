//! Files by name, one after another, each given to a tool while it is open.

ghost use Rattle.std.specs.Prelude.{◌≡◌, ℕ, List, Option, map, IfSome, IsTrue, OnOk};
ghost use Rattle.tool_output.specs.Names.{Name, file_name};
ghost use Rattle.tool_output.specs.Files.{report_on, asks_on, all_bounds, IsWithin, ReportsFiles};
ghost use Rattle.tool_output.specs.Reports.{Report, reports_of};
ghost use Rattle.tool_output.specs.Sources.{ReportsOn};

use elf_outside::{Files, OpenFault, Sink, Source};
use std::alloc::Global;
use tool_output::{FileName, Message, Outputs, Stop};
use tool_text::Text;

/// What a command does with each of the files that it names.
///
/// - `command` is its name, which is before its messages.
/// - `report` is what it says of a file, by the name and the bytes.
/// - `asks` is how many bytes it reads at most, by the bytes, where that is promised.
pub trait FileTool {
    ghost command: { Self → List ℕ };

    ghost report: { Self → Name → List ℕ → Report };

    ghost asks: { Self → List ℕ → Option ℕ };

    /// The command's name.
    fn command(&self) -> &'static str
        ensures { result.now ≡ command self.now };

    /// Gives the report on what a file holds, under its name, and hands the file back. It stops by
    /// `Read` only where a read of the file failed, and leaves what the file holds.
    fn show<S: Source, O: Sink, E: Sink>(
        &self,
        alloc: Global,
        src: S,
        name: &[u8],
        outputs: &mut Outputs<'_, O, E>,
    ) -> (S, Result<bool, Stop>)
        ensures reports { ReportsOn S.Source O.Sink E.Sink (report self.now (file_name name.now))
            result.1 src result.0 outputs.old outputs.new }
        ensures asks { OnOk result.1 (IfSome (S.holds src)
            (λ image. IsWithin (asks self.now image) (S.taken src) (S.taken result.0))) };
}

/// Opens a file, gives it to a tool, and closes it; only then is the tool's result looked at. A
/// name that is not there has its message.
pub fn one_file<T: FileTool, F: Files, O: Sink, E: Sink>(
    alloc: Global,
    tool: &T,
    file_name: &str,
    files: &mut F,
    outputs: &mut Outputs<'_, O, E>,
) -> Result<bool, Stop>
    ensures reports { ReportsFiles F.Files O.Sink E.Sink
        (λ named. report_on (T.command tool.now) (T.report tool.now) named file_name.now)
        result files.old files.new outputs.old outputs.new }
    ensures asks { IsTrue (F.tells files.old) → OnOk result
        (IsWithin (asks_on (T.asks tool.now) (F.named files.old) file_name.now)
        (F.taken files.old) (F.taken files.new)) }
{
    let name = file_name.as_bytes();
    let file = match files.open(alloc, file_name) {
        Ok(file) => file,
        Err(OpenFault::NotThere) => {
            return outputs.refuse(&Message {
                command: tool.command(),
                name: &FileName::of(name),
                text: "not found",
            });
        }
        Err(OpenFault::Failed) => return Err(Stop::Read),
        Err(OpenFault::Memory) => return Err(Stop::Memory),
    };
    let (file, shown) = tool.show(alloc, file, name, outputs);
    files.close(file_name, file);
    shown
}

/// Gives each file to a tool, in the order of their names. It returns whether one was rejected.
pub fn each_file<T: FileTool, F: Files, O: Sink, E: Sink>(
    alloc: Global,
    tool: &T,
    names: &[Text],
    files: &mut F,
    outputs: &mut Outputs<'_, O, E>,
) -> Result<bool, Stop>
    ensures reports { ReportsFiles F.Files O.Sink E.Sink
        (λ named. reports_of (report_on (T.command tool.now) (T.report tool.now) named) names.now)
        result files.old files.new outputs.old outputs.new }
    ensures asks { IsTrue (F.tells files.old) → OnOk result
        (IsWithin (all_bounds (map (asks_on (T.asks tool.now) (F.named files.old)) names.now))
        (F.taken files.old) (F.taken files.new)) }
{
    let mut refused = false;
    for name in names {
        let was_refused = one_file(alloc, tool, name.as_str(), files, outputs)?;
        refused = refused | was_refused;
    }
    Ok(refused)
}

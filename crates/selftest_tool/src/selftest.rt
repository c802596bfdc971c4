//! The command: a file is made of the image, and then told of.

ghost use Rattle.std.specs.Prelude.{◌≡◌, ◌≤◌, [], ◌∷◌, IsTrue};
ghost use Rattle.elf_calls_generate.specs.Stages.{StandsFor};
ghost use Rattle.elf_object.specs.Image.{image};
ghost use Rattle.rebuild_model.specs.Generated.{generated_and_shifted};
ghost use Rattle.tool_output.specs.Files.{LeavesFiles, LeavesFilesBy};
ghost use Rattle.tool_output.specs.Made.{made_file, outcome_with};
ghost use Rattle.tool_output.specs.Outcomes.{Does};
ghost use Rattle.tool_output.specs.Reports.{no_report};
ghost use Rattle.tool_output.specs.Statuses.{refused_status};
ghost use Rattle.elfkit_outcomes.specs.Selftest.{selftest_outcome};

use crate::making::make;
use crate::telling::Told;
use elf_calls_generate::prelude::Elf;
use elf_outside::{Files, NoSource, Sink};
use law_files::commands::laws::selftest_law;
use std::alloc::Global;
use tool_files::{edit_file, write_image};
use tool_output::{Outputs, Stop};
use tool_text::Text;

/// Writes the self test's object, which was made, to a file. It reads nothing.
fn write_shifted<F: Files, O: Sink, E: Sink>(
    alloc: Global,
    mut elf: Elf<NoSource>,
    out: &str,
    n: u32,
    files: &mut F,
    outputs: &mut Outputs<'_, O, E>,
) -> Result<bool, Stop>
    requires bounded { (1 ≤ n) × (n ≤ 60000) }
    requires made { StandsFor (generated_and_shifted n) elf }
    ensures does { IsTrue (F.tells files.old) → Does F.Files O.Sink E.Sink refused_status
        (outcome_with no_report (made_file out.now (image (generated_and_shifted n)) ∷ []))
        result files.old files.new outputs.old outputs.new }
    ensures leaves { LeavesFilesBy F.Files O.Sink E.Sink ⊥
        result files.old files.new outputs.old outputs.new }
{
    selftest_law();
    write_image(alloc, &mut elf, out, files, outputs)
}

/// Makes the file of the self test's object. It reads nothing.
fn write_made<F: Files, O: Sink, E: Sink>(
    alloc: Global,
    out: &str,
    n: u32,
    files: &mut F,
    outputs: &mut Outputs<'_, O, E>,
) -> Result<bool, Stop>
    requires { (1 ≤ n) × (n ≤ 60000) }
    ensures does { IsTrue (F.tells files.old) → Does F.Files O.Sink E.Sink refused_status
        (outcome_with no_report (made_file out.now (image (generated_and_shifted n)) ∷ []))
        result files.old files.new outputs.old outputs.new }
    ensures leaves { LeavesFilesBy F.Files O.Sink E.Sink ⊥
        result files.old files.new outputs.old outputs.new }
{
    match make(alloc, n) {
        Ok(elf) => write_shifted(alloc, elf, out, n, files, outputs),
        Err(e) => Err(Stop::want_of(e)),
    }
}

/// Makes the file under a name, opens it again and tells of it.
fn make_and_tell<F: Files, O: Sink, E: Sink>(
    alloc: Global,
    out: &str,
    n: u32,
    files: &mut F,
    outputs: &mut Outputs<'_, O, E>,
) -> Result<bool, Stop>
    requires { (1 ≤ n) × (n ≤ 60000) }
    ensures does { IsTrue (F.tells files.old) → Does F.Files O.Sink E.Sink refused_status
        (selftest_outcome out.now n)
        result files.old files.new outputs.old outputs.new }
    ensures leaves { LeavesFiles F.Files O.Sink E.Sink
        result files.old files.new outputs.old outputs.new }
{
    selftest_law();
    if let Err(stop) = write_made(alloc, out, n, files, outputs) {
        return Err(stop);
    }
    edit_file(alloc, &Told { count: n as u16 }, out, files, outputs)
}

/// Makes the file of an image of so many sections, each with a symbol, and closes it. Then it opens
/// the file again, and shows five lines of what it holds: how many sections, how many symbols, how
/// many bytes, the sum of the symbols' values, and the index of the last symbol, which is looked up
/// by its name. A file that is not there then, is no image, or has no such symbols, as where
/// somebody else changed it, has its message. It returns whether it has.
///
/// It stops by `Write` where a put or a write of the file failed, then the file holds what it held
/// or a prefix of the image; by `Read` where the file is not handed out again or a read of it
/// failed, and then it holds the image; and by `Memory`.
pub fn write_and_tell<F: Files, O: Sink, E: Sink>(
    alloc: Global,
    out: &Text,
    n: u32,
    files: &mut F,
    outputs: &mut Outputs<'_, O, E>,
) -> Result<bool, Stop>
    requires { (1 ≤ n) × (n ≤ 60000) }
    ensures does { IsTrue (F.tells files.old) → Does F.Files O.Sink E.Sink refused_status
        (selftest_outcome out.now n)
        result files.old files.new outputs.old outputs.new }
    ensures leaves { LeavesFiles F.Files O.Sink E.Sink
        result files.old files.new outputs.old outputs.new }
{
    make_and_tell(alloc, out.as_str(), n, files, outputs)
}

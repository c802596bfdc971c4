//! The commands by their arguments, and those that rebuild an image, one file each.

ghost use Rattle.std.specs.Prelude.{◌≡◌, false, IsTrue};
ghost use Rattle.tool_output.specs.Files.{LeavesFiles};
ghost use Rattle.tool_output.specs.Statuses.{refused_status};
ghost use Rattle.tool_output.specs.Outcomes.{Does};
ghost use Rattle.elfkit_edit.specs.calls_tool.Update.Outputs.{IsOutputApart};
ghost use Rattle.elfkit_words.specs.Forms.{IsWellFormed};
ghost use Rattle.elfkit_run.specs.Program.{command_outcome, writes_files};

pub mod copy;
pub mod selftest;
pub mod split;
pub mod strip;
pub mod unstrip;

use copy::copy;
use elf_outside::{Files, Sink};
use elfkit_edit::prelude::{run_elflint, run_lines, run_nm, run_readelf, run_size, run_strings};
use elfkit_edit::{calls, calls_into, run_rehash};
use elfkit_words::Command;
use elfkit_words::prelude::CallsOutput;
use selftest::selftest;
use split::strip_by_debug;
use std::alloc::Global;
use tool_output::{Outputs, Stop};
use tool_text::Text;
use unstrip::run_unstrip;

/// Runs calls, and writes the image that they leave where it is to go.
fn calls_by_output<F: Files, O: Sink, E: Sink>(
    alloc: Global,
    output: &Option<CallsOutput>,
    file: &Text,
    script: &Text,
    files: &mut F,
    outputs: &mut Outputs<'_, O, E>,
) -> Result<bool, Stop>
    requires { IsOutputApart output.now file.now script.now }
    ensures does { IsTrue (F.tells files.old) → Does F.Files O.Sink E.Sink refused_status
        (command_outcome (Command.Calls output.now file.now script.now) (F.named files.old))
        result files.old files.new outputs.old outputs.new }
    ensures given { writes_files (Command.Calls output.now file.now script.now) ≡ false →
        F.given files.new ≡ F.given files.old }
    ensures leaves { LeavesFiles F.Files O.Sink E.Sink
        result files.old files.new outputs.old outputs.new }
{
    match output {
        None => calls(alloc, file, script, files, outputs),
        Some(output) => calls_into(alloc, output, file, script, files, outputs),
    }
}

/// Runs a command that was read.
#[tactic(auto, unfolding(crate::specs::Program::command_outcome, crate::specs::Program::writes_files))]
pub fn run_command<F: Files, O: Sink, E: Sink>(
    alloc: Global,
    command: &Command,
    files: &mut F,
    outputs: &mut Outputs<'_, O, E>,
) -> Result<bool, Stop>
    requires { IsWellFormed command.now }
    ensures does { IsTrue (F.tells files.old) → Does F.Files O.Sink E.Sink refused_status
        (command_outcome command.now (F.named files.old))
        result files.old files.new outputs.old outputs.new }
    ensures given { writes_files command.now ≡ false →
        F.given files.new ≡ F.given files.old }
    ensures leaves { LeavesFiles F.Files O.Sink E.Sink
        result files.old files.new outputs.old outputs.new }
{
    match command {
        Command::Readelf {
            parts,
            files: names,
        } => run_readelf(alloc, parts, names, files, outputs),
        Command::Nm {
            options,
            files: names,
        } => run_nm(alloc, options, names, files, outputs),
        Command::Size { files: names } => run_size(alloc, names, files, outputs),
        Command::Strings {
            options,
            files: names,
        } => run_strings(alloc, options, names, files, outputs),
        Command::Strip { options, file } => strip_by_debug(alloc, options, file, files, outputs),
        Command::Elflint { files: names } => run_elflint(alloc, names, files, outputs),
        Command::Calls {
            output,
            file,
            script,
        } => calls_by_output(alloc, output, file, script, files, outputs),
        Command::Selftest { out, count } => selftest(alloc, out, *count, files, outputs),
        Command::Rehash { out, file } => run_rehash(alloc, out, file, files, outputs),
        Command::Copy { changes, out, file } => copy(alloc, changes, out, file, files, outputs),
        Command::Unstrip {
            out,
            stripped,
            debug,
        } => run_unstrip(alloc, out, stripped, debug, files, outputs),
        Command::Lines { files: names } => run_lines(alloc, names, files, outputs),
    }
}

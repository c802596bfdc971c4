//! The program, from its arguments to its status.

ghost use Rattle.std.specs.Prelude.{false, ◌≡◌, IfOk, IsErr, IsTrue};
ghost use Rattle.elfkit_words.specs.Forms.{IsGoodRequest};
ghost use Rattle.elfkit_words.specs.Reading.{request_of_words};
ghost use Rattle.tool_output.specs.Outcomes.{Does, Delivers, Costs, RunLeaves};
ghost use Rattle.tool_output.specs.Statuses.{status_code};
ghost use Rattle.tool_output.specs.Steps.{OnRead};
ghost use Rattle.tool_output.specs.Files.{LeavesFiles};
ghost use Rattle.elfkit_run.specs.Program.{needs_files, needs_writes, opens_files, hands_to_writes, request_outcome, program, AreTold, IsStatusOf, IsStatusOfRequest};

use crate::commands::run_command;
use crate::sentences::{say, tell};
use elf_outside::{Files, Sink};
use elf_types::Octets;
use elfkit_words::{Request, WordsFault, read_words};
use std::alloc::Global;
use tool_output::{Outputs, Status, Stop};
use tool_text::Args;

/// Runs the command that the arguments ask for, or tells what they ask for.
#[tactic(auto, unfolding(crate::specs::Program::needs_files, crate::specs::Program::needs_writes))]
fn run_request<F: Files, O: Sink, E: Sink>(
    alloc: Global,
    request: &Request,
    files: &mut F,
    outputs: &mut Outputs<'_, O, E>,
) -> Result<Status, Stop>
    requires { IsGoodRequest request.now }
    ensures does { (IsTrue (needs_files request.now) → IsTrue (F.tells files.old)) →
        Does F.Files O.Sink E.Sink status_code (request_outcome request.now (F.named files.old))
        result files.old files.new outputs.old outputs.new }
    ensures status { IfOk result (IsStatusOfRequest request.now) }
    ensures given { needs_writes request.now ≡ false →
        F.given files.new ≡ F.given files.old }
    ensures untouched { needs_files request.now ≡ false →
        (files.new ≡ files.old) × OnRead result ⊥ }
    ensures leaves { LeavesFiles F.Files O.Sink E.Sink
        result files.old files.new outputs.old outputs.new }
{
    match request {
        Request::Run(command) => {
            let refused = run_command(alloc, command, files, outputs)?;
            Ok(Status::of_refused(refused))
        }
        Request::Tell(notice) => {
            tell(outputs, notice.text())?;
            Ok(Status::Done)
        }
    }
}

/// Reads the arguments and does what they ask for, or says how they are to be.
fn run_words<F: Files, O: Sink, E: Sink>(
    alloc: Global,
    words: &Args,
    files: &mut F,
    outputs: &mut Outputs<'_, O, E>,
) -> Result<Status, Stop>
    ensures does { AreTold words.now (F.tells files.old) →
        Does F.Files O.Sink E.Sink status_code (program words.now (F.named files.old))
        result files.old files.new outputs.old outputs.new }
    ensures status { IfOk result (IsStatusOf (request_of_words words.now)) }
    ensures untouched { opens_files (request_of_words words.now) ≡ false →
        (files.new ≡ files.old) × OnRead result ⊥ }
    ensures given { hands_to_writes (request_of_words words.now) ≡ false →
        F.given files.new ≡ F.given files.old }
    ensures leaves { LeavesFiles F.Files O.Sink E.Sink
        result files.old files.new outputs.old outputs.new }
{
    match read_words(alloc, words) {
        Ok(request) => {
            let ended = run_request(alloc, &request, files, outputs);
            drop(request);
            ended
        }
        Err(WordsFault::Usage(usage)) => {
            say(outputs, usage.line())?;
            Ok(Status::BadWords)
        }
        Err(WordsFault::Memory) => Err(Stop::Memory),
    }
}

/// Runs elfkit on the arguments after the program's name, over a set of files and the two outputs:
///
/// - `Done`: nothing was rejected;
/// - `Refused`: something was rejected;
/// - `BadWords`: the arguments are rejected, with their usage line on `err`;
/// - `ReadFailed`, `WriteFailed`, `NoMemory`: a read failed; a write of a file, of `out` or of
///   `err` failed; there was no memory.
///
/// With the last three the run stopped on the way: both outputs have gained what was written up to
/// one point, and nothing after it. Each file that was opened is closed again. Words that are
/// rejected, or that ask for help or for the version, open no file. A command that writes no file
/// hands nothing to writes, also over files that do not tell their bytes.
pub fn run<F: Files, O: Sink, E: Sink>(
    alloc: Global,
    words: &Args,
    files: &mut F,
    out: &mut O,
    err: &mut E,
) -> Status
    ensures delivers { AreTold words.now (F.tells files.old) →
        Delivers (program words.now (F.named files.old)) (status_code result)
        (O.wrote out.old) (O.wrote out.new) (E.wrote err.old) (E.wrote err.new)
        (F.named files.old) (F.named files.new) }
    ensures costs { AreTold words.now (F.tells files.old) →
        Costs (program words.now (F.named files.old)) (status_code result)
        (F.taken files.old) (F.taken files.new) (F.given files.old) (F.given files.new) }
    ensures given { hands_to_writes (request_of_words words.now) ≡ false →
        F.given files.new ≡ F.given files.old }
    ensures used { result ≡ Status.BadWords → IsErr (request_of_words words.now) }
    ensures untouched { opens_files (request_of_words words.now) ≡ false →
        (files.new ≡ files.old) × ¬ (result ≡ Status.ReadFailed) }
    ensures leaves { RunLeaves F.Files O.Sink E.Sink (status_code result)
        files.old files.new out.old out.new err.old err.new }
{
    let mut page = Octets::new(alloc);
    let mut outputs = Outputs::new(out, err, &mut page);
    let ended = run_words(alloc, words, files, &mut outputs);
    Status::of(outputs.end(ended))
}

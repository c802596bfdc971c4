//! A file that stays open while other files are made of it.

ghost use Rattle.std.specs.Prelude.{◌≡◌, ℕ, List, None, IsTrue};
ghost use Rattle.tool_output.specs.Files.{LeavesFiles};
ghost use Rattle.tool_output.specs.Outcomes.{Outcome, write_of, Does};
ghost use Rattle.tool_output.specs.Statuses.{refused_status};
ghost use Rattle.tool_files.specs.Edits.{EditsFile, EditsAndCloses, edited_outcome};

use crate::opening::refuse_opening;
use std::alloc::Global;
use tool_output::prelude::{Files, Sink, Source};
use tool_output::{Outputs, Stop};

/// What a command does with the file that it is given, while that is open: it reads it, and makes
/// other files.
///
/// - `command` is its name, which is before its messages.
/// - `outcome` is what it does, by the name of the file and its bytes.
pub trait FileEdit {
    ghost command: { Self → List ℕ };

    ghost outcome: { Self → List ℕ → List ℕ → Outcome };

    /// The command's name.
    fn command(&self) -> &'static str
        ensures { result.now ≡ command self.now };

    /// Does what is stated with the file that a source holds, and hands the source back as it was.
    /// It stops by `Read` only where a read of the source failed.
    fn edit<S: Source, F: Files, O: Sink, E: Sink>(
        &self,
        alloc: Global,
        src: S,
        name: &[u8],
        files: &mut F,
        outputs: &mut Outputs<'_, O, E>,
    ) -> (S, Result<bool, Stop>)
        ensures { EditsFile S.Source F.Files O.Sink E.Sink (outcome self.now name.now) result.1
            src result.0 files.old files.new outputs.old outputs.new };
}

/// Does with an open file what a command does, and closes it.
fn edit_open<T: FileEdit, F: Files, O: Sink, E: Sink>(
    alloc: Global,
    edit: &T,
    file: F::File,
    file_name: &str,
    files: &mut F,
    outputs: &mut Outputs<'_, O, E>,
) -> Result<bool, Stop>
    ensures { EditsAndCloses F.File.Source F.File.Device.own F.Files O.Sink E.Sink
        (T.outcome edit.now file_name.now) file_name.now result file
        files.old files.new outputs.old outputs.new }
{
    let (file, edited) = edit.edit(alloc, file, file_name.as_bytes(), files, outputs);
    files.close(file_name, file);
    edited
}

/// Opens a file for reading, does with it what a command does, and closes it once all that is made
/// of it is closed; only then is the result looked at. A name that is not there has its message.
/// The command writes no file of that name.
pub fn edit_file<T: FileEdit, F: Files, O: Sink, E: Sink>(
    alloc: Global,
    edit: &T,
    file_name: &str,
    files: &mut F,
    outputs: &mut Outputs<'_, O, E>,
) -> Result<bool, Stop>
    requires { (bytes : List ℕ) →
        write_of (T.outcome edit.now file_name.now bytes).writes file_name.now ≡ None }
    ensures does { IsTrue (F.tells files.old) → Does F.Files O.Sink E.Sink refused_status
        (edited_outcome (T.command edit.now) (T.outcome edit.now) file_name.now
        (F.named files.old))
        result files.old files.new outputs.old outputs.new }
    ensures leaves { LeavesFiles F.Files O.Sink E.Sink
        result files.old files.new outputs.old outputs.new }
{
    match files.open(alloc, file_name) {
        Ok(file) => edit_open(alloc, edit, file, file_name, files, outputs),
        Err(fault) => refuse_opening(edit.command(), file_name, fault, outputs),
    }
}

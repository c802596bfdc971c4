//! A file that is changed in place.

ghost use Rattle.std.specs.Prelude.{◌≡◌, ◌≢◌, ℕ, List, None, IsTrue};
ghost use Rattle.tool_output.specs.Files.{LeavesFiles};
ghost use Rattle.tool_output.specs.Outcomes.{Outcome, write_of, Does};
ghost use Rattle.tool_output.specs.Statuses.{refused_status};
ghost use Rattle.tool_files.specs.Edits.{edited_outcome};
ghost use Rattle.tool_files.specs.Changes.{ChangesFile, ChangesAndCloses};

use crate::opening::refuse_opening;
use std::alloc::Global;
use tool_output::prelude::{Device, Files, Sink};
use tool_output::{Outputs, Stop};

/// What a command does with the file that it is given, in place: it reads it and writes it.
///
/// - `command` is its name, which is before its messages.
/// - `outcome` is what it does, by the name of the file and its bytes.
pub trait FileChange {
    ghost command: { Self → List ℕ };

    ghost outcome: { Self → List ℕ → List ℕ → Outcome };

    /// The command's name.
    fn command(&self) -> &'static str
        ensures { result.now ≡ command self.now };

    /// Does what is stated with the file that a device holds, and hands the device back. It stops
    /// by `Read` only where a read of the device failed, and by `Write` only where a write of the
    /// device or a put to the outputs did. Where it stops the device holds what `MayHold` says: by
    /// `Read` what it held, by `Memory` that or all that is stated, and by `Write` at each place
    /// the byte of one of these.
    fn change<D: Device, O: Sink, E: Sink>(
        &self,
        alloc: Global,
        device: D,
        name: &[u8],
        outputs: &mut Outputs<'_, O, E>,
    ) -> (D, Result<bool, Stop>)
        ensures { ChangesFile D.Source D.Device.own O.Sink E.Sink
            (outcome self.now name.now) name.now result.1
            device result.0 outputs.old outputs.new };
}

/// Does with an open file what a command does, in place, and closes it.
fn change_open<T: FileChange, F: Files, O: Sink, E: Sink>(
    alloc: Global,
    change: &T,
    file: F::File,
    file_name: &str,
    files: &mut F,
    outputs: &mut Outputs<'_, O, E>,
) -> Result<bool, Stop>
    ensures { ChangesAndCloses F.File.Source F.File.Device.own F.Files O.Sink E.Sink
        (T.outcome change.now file_name.now) file_name.now result file
        files.old files.new outputs.old outputs.new }
{
    let (file, changed) = change.change(alloc, file, file_name.as_bytes(), outputs);
    files.close(file_name, file);
    changed
}

/// Opens a file for reading and writing, does with it what a command does, and closes it; only then
/// is the result looked at. A name that is not there has its message. The command writes no file of
/// another name.
pub fn change_file<T: FileChange, F: Files, O: Sink, E: Sink>(
    alloc: Global,
    change: &T,
    file_name: &str,
    files: &mut F,
    outputs: &mut Outputs<'_, O, E>,
) -> Result<bool, Stop>
    requires { (bytes other : List ℕ) → other ≢ file_name.now →
        write_of (T.outcome change.now file_name.now bytes).writes other ≡ None }
    ensures does { IsTrue (F.tells files.old) → Does F.Files O.Sink E.Sink refused_status
        (edited_outcome (T.command change.now) (T.outcome change.now) file_name.now
        (F.named files.old))
        result files.old files.new outputs.old outputs.new }
    ensures leaves { LeavesFiles F.Files O.Sink E.Sink
        result files.old files.new outputs.old outputs.new }
{
    match files.edit(alloc, file_name) {
        Ok(file) => change_open(alloc, change, file, file_name, files, outputs),
        Err(fault) => refuse_opening(change.command(), file_name, fault, outputs),
    }
}

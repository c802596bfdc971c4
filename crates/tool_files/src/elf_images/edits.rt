//! The image of an open file, and the new file that a command makes of it.

ghost use Rattle.std.specs.Prelude.{◌≡◌, ℕ, List, Result};
ghost use Rattle.elfkit_outcomes.specs.elf_object.Object.{Object};
ghost use Rattle.elfkit_outcomes.specs.tool_objects.Images.{file_object};
ghost use Rattle.tool_output.specs.Made.{Done, Complaint, written_outcome};
ghost use Rattle.tool_files.specs.ElfImages.Writes.{HasBegun, WritesFile, image_done};

use crate::FileEdit;
use crate::elf_images::refusing::refuse_for;
use elf_outside::{Files, Sink, Source};
use elf_update_plan::prelude::Elf;
use elfkit_outcomes::prelude::begin_image;
use std::alloc::Global;
use tool_output::{Outputs, Stop};

/// A command that writes a new file by the image of an open one, or says why it writes none.
///
/// - `named` is its name, which is before its messages.
/// - `done` is what it does, by the name of the open file and its object.
pub trait ImageCommand {
    ghost named: { Self → List ℕ };

    ghost done: { Self → List ℕ → Object → Result Done Complaint };

    /// The command's name.
    fn name(&self) -> &'static str
        ensures { result.now ≡ named self.now };

    /// Does what is stated with the object of the file `file`, over which a descriptor has begun,
    /// and hands the source back. It stops by `Read` only where a read of the source failed.
    fn write<S: Source, F: Files, O: Sink, E: Sink>(
        &self,
        alloc: Global,
        elf: Elf<S>,
        file: &[u8],
        files: &mut F,
        outputs: &mut Outputs<'_, O, E>,
    ) -> (S, Result<bool, Stop>)
        requires { HasBegun S.Source elf }
        ensures { WritesFile S.Source F.Files O.Sink E.Sink
            (written_outcome (named self.now) (done self.now file.now elf.o))
            result.1 elf (record elf { source = result.0 }) files.old files.new
            outputs.old outputs.new };
}

/// What such a command does with the file that it is given.
#[derive(Clone, Copy)]
pub struct ImageEdit<'a, T: ImageCommand> {
    /// The command.
    pub command: &'a T,
}

/// The command is done with the image that the file holds, while that is open. What has no headers
/// of an image, and an archive, has the message that says why: then no file is made.
impl<T: ImageCommand> FileEdit for ImageEdit<'_, T> {
    ghost command = { λ t. T.named t.command.now };

    ghost outcome = { λ t name bytes. written_outcome (T.named t.command.now)
        (image_done (T.done t.command.now) name (file_object bytes)) };

    fn command(&self) -> &'static str {
        self.command.name()
    }

    fn edit<S: Source, F: Files, O: Sink, E: Sink>(
        &self,
        alloc: Global,
        src: S,
        name: &[u8],
        files: &mut F,
        outputs: &mut Outputs<'_, O, E>,
    ) -> (S, Result<bool, Stop>) {
        match begin_image(alloc, src) {
            Ok(elf) => {
                // What a descriptor always is, a call on it tells.
                let _sound = elf.dirty();
                self.command.write(alloc, elf, name, files, outputs)
            }
            Err((src, e)) => {
                let refused = refuse_for(self.command.name(), name, e, outputs);
                (src, refused)
            }
        }
    }
}

//! The calls of a script on the image of an open file, and the new file of the image that they
//! leave.

ghost use Rattle.std.specs.Prelude.{Some, codes};
ghost use Rattle.calls_tool.specs.declared.update.outputs.CallsOutput.TheVariants.{To};
ghost use Rattle.tool_objects.specs.Images.{file_object};
ghost use Rattle.calls_tool.specs.Files.{calls_asks};
ghost use Rattle.calls_tool.specs.Update.Updates.{updated_by};

use crate::refuse_image;
use crate::update::writing::write_calls;
use elf_calls_script::Call;
use elf_outside::{Files, Sink, Source};
use std::alloc::Global;
use tool_files::FileEdit;
use tool_objects::begin_image;
use tool_output::{FileName, Outputs, Stop};

/// The calls of a script, and the name of the file that is made.
#[derive(Clone, Copy)]
pub struct CallsEdit<'a> {
    /// The calls.
    pub calls: &'a [Call],
    /// The name.
    pub out: &'a str,
}

/// The calls are run on the image that the file holds, and the image that they leave is written to
/// the new file while the first one is open. What has no headers of an image, and an archive, has
/// the message that says why: then no file is made.
impl FileEdit for CallsEdit<'_> {
    ghost command = { λ _. codes "calls" };

    ghost outcome = { λ t name bytes. updated_by (To t.out.now) t.calls.now name
        (Some (calls_asks t.calls.now bytes)) (file_object bytes) };

    fn command(&self) -> &'static str {
        "calls"
    }

    fn edit<S: Source, F: Files, O: Sink, E: Sink>(
        &self,
        alloc: Global,
        src: S,
        name: &[u8],
        files: &mut F,
        outputs: &mut Outputs<'_, O, E>,
    ) -> (S, Result<bool, Stop>) {
        match begin_image(alloc, src) {
            Ok(mut elf) => {
                let written = write_calls(alloc, &mut elf, self.calls, self.out, files, outputs);
                (elf.end(), written)
            }
            Err((src, e)) => {
                let refused = refuse_image(&FileName::of(name), e, outputs);
                (src, refused)
            }
        }
    }
}

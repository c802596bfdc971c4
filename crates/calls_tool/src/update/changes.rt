//! The calls of a script on the image of a file, and the image that they leave in its place.

ghost use Rattle.std.specs.Prelude.{Some, codes};
ghost use Rattle.calls_tool.specs.declared.update.outputs.CallsOutput.TheVariants.{InPlace};
ghost use Rattle.tool_objects.specs.Images.{file_object};
ghost use Rattle.calls_tool.specs.Files.{calls_asks};
ghost use Rattle.calls_tool.specs.Update.Updates.{updated_by};

use crate::refuse_image;
use crate::update::changing::change_calls;
use elf_calls_script::Call;
use elf_outside::{Device, Sink};
use std::alloc::Global;
use tool_files::FileChange;
use tool_objects::begin_image;
use tool_output::{FileName, Outputs, Stop};

/// The calls of a script, for a file that is changed in place.
#[derive(Clone, Copy)]
pub struct CallsChange<'a> {
    /// The calls.
    pub calls: &'a [Call],
}

/// The calls are run on the image that the file holds, and the image that they leave is written
/// into it. What has no headers of an image, and an archive, has the message that says why: then
/// nothing is written.
impl FileChange for CallsChange<'_> {
    ghost command = { λ _. codes "calls" };

    ghost outcome = { λ t name bytes. updated_by InPlace t.calls.now name
        (Some (calls_asks t.calls.now bytes)) (file_object bytes) };

    fn command(&self) -> &'static str {
        "calls"
    }

    fn change<D: Device, O: Sink, E: Sink>(
        &self,
        alloc: Global,
        device: D,
        name: &[u8],
        outputs: &mut Outputs<'_, O, E>,
    ) -> (D, Result<bool, Stop>) {
        match begin_image(alloc, device) {
            Ok(mut elf) => {
                let changed = change_calls(&mut elf, self.calls, outputs);
                (elf.end(), changed)
            }
            Err((device, e)) => {
                let refused = refuse_image(&FileName::of(name), e, outputs);
                (device, refused)
            }
        }
    }
}

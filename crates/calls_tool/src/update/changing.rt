//! The calls of a script on a descriptor over a device, and the image that they leave, in place.

ghost use Rattle.elf_object.specs.Words.{result_map};
ghost use Rattle.elf_calls_apply.specs.declared.answers.Answer.TheVariants.{Size};
ghost use Rattle.calls_tool.specs.Runs.{ShowsAnswer};
ghost use Rattle.calls_tool.specs.Update.Changes.{ChangesLeft, ChangesCalls};

use crate::{show_answer, show_calls};
use elf_calls_apply::Answer;
use elf_calls_script::Call;
use elf_outside::{Device, Sink};
use elf_types::ElfError;
use elf_update_in_place::update_in_place;
use elf_update_plan::prelude::Elf;
use tool_output::{Outputs, Stop};

/// Writes the line of what an update returned: that of the length, or of the refusal. It stops
/// where the update failed, and then nothing is written.
fn show_update<O: Sink, E: Sink>(
    updated: Result<u64, ElfError>,
    outputs: &mut Outputs<'_, O, E>,
) -> Result<bool, Stop>
    ensures { ShowsAnswer O.Sink E.Sink (result_map Size updated)
        result outputs.old outputs.new }
{
    match updated {
        Ok(size) => show_answer(&Answer::Size(size), outputs),
        Err(e) => show_answer(&Answer::Refused(e), outputs),
    }
}

/// Updates an object in place, and writes the line of its size, or that of the refusal: then the
/// device is as it was. What waits for the outputs is put before, so a write of the device that
/// fails costs none of what was said.
fn change_left<D: Device, O: Sink, E: Sink>(
    elf: &mut Elf<D>,
    outputs: &mut Outputs<'_, O, E>,
) -> Result<bool, Stop>
    ensures { ChangesLeft D.Source D.Device.own O.Sink E.Sink
        result elf.old elf.new outputs.old outputs.new }
{
    outputs.flush()?;
    let updated = update_in_place(elf);
    show_update(updated, outputs)
}

/// Runs calls on an object, in their order, each with the line of its result, and writes the image
/// that they leave in place, with the line of its size. Where the update is rejected, its line is
/// that of the refusal, and the device is as it was. It returns whether a call or the update was
/// rejected.
///
/// It stops by `Read` where a read of the device failed, which comes before the first write; by
/// `Write` where a put or a write of the device failed; and by `Memory`, which a write of the
/// device never meets. Then the lines before that stay, and the device holds what it held, or the
/// image, or after a failed write at each place the byte of one of them.
pub fn change_calls<D: Device, O: Sink, E: Sink>(
    elf: &mut Elf<D>,
    calls: &[Call],
    outputs: &mut Outputs<'_, O, E>,
) -> Result<bool, Stop>
    ensures { ChangesCalls D.Source D.Device.own O.Sink E.Sink calls.now
        result elf.old elf.new outputs.old outputs.new }
{
    let refused = show_calls(elf, calls, outputs)?;
    let updated = change_left(elf, outputs)?;
    Ok(refused | updated)
}

//! A file that is made of an image.

ghost use Rattle.std.specs.Prelude.{◌≡◌, ◌<◌, ◌-◌, ◌^◌, IfErr, IsSome};
ghost use Rattle.tool_output.specs.Stops.{stop_of};
ghost use Rattle.tool_output.specs.Made.{MakesFile};
ghost use Rattle.tool_files.specs.Making.{IsStepOf, ReadsFrom, FillsFile};

use crate::images::Image;
use elf_types::ElfError;
use std::alloc::Global;
use tool_output::Stop;
use tool_output::prelude::{Device, DeviceSink, Files, OpenFault};

/// What a call that is never rejected did, as a step of a tool.
fn as_step(done: Result<(), ElfError>) -> Result<(), Stop>
    requires { IfErr done (λ e. IsSome (stop_of e)) }
    ensures { IsStepOf done result }
{
    match done {
        Ok(()) => Ok(()),
        Err(e) => match Stop::of(&e) {
            Some(stop) => Err(stop),
            None => unreachable!(),
        },
    }
}

/// Puts an image to the end of a file, and hands the file back.
fn fill_file<I: Image, D: Device>(image: &mut I, file: D) -> (D, Result<(), Stop>)
    requires { I.ready image.old }
    ensures { FillsFile D.Source D.Device.own I.From.Source (I.bytes image.old) (I.due image.old)
        result.1 (I.source image.old) (I.source image.new) file result.0 }
{
    let mut sink = DeviceSink::new(file);
    let put = image.put_to(&mut sink);
    (sink.into_inner(), as_step(put))
}

/// Makes a file of an image, in place of one that was there, and closes it; only then is it looked
/// at how the puts ended. Where it stops, the name holds what it held or a prefix of the image, and
/// no other name changes. It stops by `Read` only where a read of what the image is read from
/// failed, by `Write` only where a write of the file failed, and by `Memory`.
pub fn make_file<I: Image, F: Files>(
    alloc: Global,
    image: &mut I,
    name: &str,
    files: &mut F,
) -> Result<(), Stop>
    requires { I.ready image.old }
    ensures makes { MakesFile F.Files name.now (I.bytes image.old) result
        (I.From.faults (I.source image.old)) (I.From.faults (I.source image.new))
        files.old files.new }
    ensures source { ReadsFrom I.From.Source (I.source image.old) (I.source image.new)
        (I.due image.old) }
    ensures taken { F.taken files.new ≡ F.taken files.old }
    ensures live { F.live files.old < 2 ^ 64 - 2 → F.live files.new ≡ F.live files.old }
{
    match files.create(alloc, name) {
        Ok(file) => {
            let (file, filled) = fill_file(image, file);
            files.close(name, file);
            filled
        }
        Err(OpenFault::Failed) => Err(Stop::Write),
        Err(OpenFault::Memory) => Err(Stop::Memory),
        Err(OpenFault::NotThere) => unreachable!(),
    }
}

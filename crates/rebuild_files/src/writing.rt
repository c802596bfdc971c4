//! The new file of a plan.

ghost use Rattle.std.specs.Prelude.{◌≡◌};
ghost use Rattle.rebuild_files.specs.Writing.{MakesPlan, WritesImage, image_text, plan_text, refuses_nothing};

use elf_outside::{Files, Sink, Source};
use rebuild_plan::RangedPlan;
use rebuild_plan::prelude::{RangedImage, RangedParts};
use std::alloc::Global;
use tool_files::prelude::make_file;
use tool_output::{Outputs, Stop};

/// Makes the new file of an image of ranges, where each range lies in its bytes and the parts are
/// one after the other; one of which that is not so is not begun, and the step stops by `Memory`.
fn make_ready<S: Source, F: Files>(
    alloc: Global,
    image: &mut RangedImage<S>,
    name: &str,
    files: &mut F,
) -> Result<(), Stop>
    ensures { MakesPlan S.Source F.Files name.now (image_text S.Source image.old) result
        image.old.parts.source image.new.parts.source files.old files.new }
{
    if !image.is_ready() {
        return Err(Stop::Memory);
    }
    make_file(alloc, image, name, files)
}

/// Makes the new file of the image of a plan, which is copied out of a source, and hands that back.
/// It stops by `Read` where a read of the source failed, by `Write` where a write of the file
/// failed, and by `Memory`, which is also what a plan gives that cannot be written. Then the name
/// of the file holds what it held or a prefix of the image.
pub fn make_plan<S: Source, F: Files>(
    alloc: Global,
    src: S,
    plan: RangedPlan,
    name: &str,
    files: &mut F,
) -> (S, Result<(), Stop>)
    ensures { MakesPlan S.Source F.Files name.now (plan_text S.Source src plan) result.1
        src result.0 files.old files.new }
{
    let mut image = RangedImage {
        parts: RangedParts {
            source: src,
            held: plan.held,
            ranges: plan.ranges,
            kept: plan.kept,
        },
        plan: plan.plan,
        end: plan.end,
        alloc,
    };
    let made = make_ready(alloc, &mut image, name, files);
    (image.parts.source, made)
}

/// The result of a command whose files were made, or which stopped: it rejects nothing.
pub fn not_refused(made: Result<(), Stop>) -> Result<bool, Stop>
    ensures { result ≡ refuses_nothing made }
{
    match made {
        Ok(()) => Ok(false),
        Err(stop) => Err(stop),
    }
}

/// Writes the image of a plan to the new file `out`, copied out of a source, and hands that back.
/// What waits for the outputs is put before. It rejects nothing, and stops as `make_plan` does, and
/// by `Write` where a put failed.
pub fn write_plan<S: Source, F: Files, O: Sink, E: Sink>(
    alloc: Global,
    src: S,
    plan: RangedPlan,
    out: &str,
    files: &mut F,
    outputs: &mut Outputs<'_, O, E>,
) -> (S, Result<bool, Stop>)
    ensures { WritesImage S.Source F.Files O.Sink E.Sink out.now (plan_text S.Source src plan)
        result.1 src result.0 files.old files.new outputs.old outputs.new }
{
    if let Err(stop) = outputs.flush() {
        return (src, Err(stop));
    }
    let (src, made) = make_plan(alloc, src, plan, out, files);
    (src, not_refused(made))
}

//! The new files of the plans of two halves, and that of the plan of what two files are halves of.

ghost use Rattle.std.specs.Prelude.{◌+◌, ◌^◌, ◌<◌};
ghost use Rattle.unstrip_tool.specs.Copies.{MakesBoth, WritesHalves, WritesPair};

use crate::names::HalfNames;
use crate::plans::SplitPlans;
use elf_outside::{Files, Sink, Source};
use rebuild_debug::prelude::RangedPlan;
use rebuild_files::{make_plan, not_refused, write_plan};
use rebuild_join::pair::SourcePair;
use std::alloc::Global;
use tool_output::{Outputs, Stop};

/// Makes the two files, the debug half last, copied out of a source, and hands that back.
fn make_both<S: Source, F: Files>(
    alloc: Global,
    src: S,
    plans: SplitPlans,
    names: &HalfNames<'_>,
    files: &mut F,
) -> (S, Result<(), Stop>)
    ensures { MakesBoth S.Source F.Files names.now plans result.1 src result.0
        files.old files.new }
{
    let (src, made) = make_plan(alloc, src, plans.stripped, names.stripped, files);
    match made {
        Ok(()) => make_plan(alloc, src, plans.debug, names.debug, files),
        Err(stop) => (src, Err(stop)),
    }
}

/// Writes the images of two plans to two new files, the debug half last, copied out of a source,
/// and hands that back. What waits for the outputs is put before. It rejects nothing. While the
/// first is made the name of the second holds what it held, and while the second is made the first
/// holds its image.
pub(crate) fn write_plans<S: Source, F: Files, O: Sink, E: Sink>(
    alloc: Global,
    src: S,
    plans: SplitPlans,
    names: &HalfNames<'_>,
    files: &mut F,
    outputs: &mut Outputs<'_, O, E>,
) -> (S, Result<bool, Stop>)
    ensures { WritesHalves S.Source F.Files O.Sink E.Sink names.now plans result.1 src result.0
        files.old files.new outputs.old outputs.new }
{
    if let Err(stop) = outputs.flush() {
        return (src, Err(stop));
    }
    let (src, made) = make_both(alloc, src, plans, names, files);
    (src, not_refused(made))
}

/// Writes the image of a plan to the new file `out`, copied out of the bytes of one source and
/// after them those of another, and hands both back. What waits for the outputs is put before. It
/// rejects nothing, and stops as `write_plan` does.
pub(crate) fn write_pair<S: Source, T: Source, F: Files, O: Sink, E: Sink>(
    alloc: Global,
    stripped: S,
    debug: T,
    plan: RangedPlan,
    out: &str,
    files: &mut F,
    outputs: &mut Outputs<'_, O, E>,
) -> ((S, T), Result<bool, Stop>)
    requires { S.size stripped + T.size debug < 2 ^ 64 }
    ensures { WritesPair S.Source T.Source F.Files O.Sink E.Sink out.now plan result.1
        stripped result.0.0 debug result.0.1 files.old files.new outputs.old outputs.new }
{
    let pair = SourcePair::new(stripped, debug);
    let (pair, written) = write_plan(alloc, pair, plan, out, files, outputs);
    (pair.into_parts(), written)
}

//! Two halves, of which both files are open, and the new file of what they are halves of.

ghost use Rattle.std.specs.Prelude.{◌≡◌, ◌⊎◌, ◌<◌, false, IsTrue, IsSome};
ghost use Rattle.elf_outside.specs.Asks.{Leaves};
ghost use Rattle.elf_object.specs.Object.{is_dirty};
ghost use Rattle.elf_object.specs.Valid.{IsTied};
ghost use Rattle.rebuild_debug.specs.law_rebuild.Strip.Made.{FitsClass};
ghost use Rattle.rebuild_files.specs.Writing.{IsOverSource};
ghost use Rattle.unstrip_tool.specs.Joins.{objects_done, debug_done, WritesBeside};

use crate::copying::write_pair;
use crate::names::HalfNames;
use crate::refusing::{refuse_fault, refuse_half};
use elf_outside::{Files, Sink, Source};
use rebuild_files::prelude::begin_image;
use rebuild_join::plan_joined;
use rebuild_join::prelude::Elf;
use std::alloc::Global;
use tool_output::{Outputs, Stop};

/// Writes the image of what two objects, in which nothing is dirty, are halves of to the new file
/// `out`, range by range of their files, and hands the sources back. Where they are not joined, and
/// where the update is rejected, the message says why, and no file is made. It returns whether it
/// was rejected.
fn write_joined<S: Source, T: Source, F: Files, O: Sink, E: Sink>(
    alloc: Global,
    stripped: Elf<S>,
    debug: Elf<T>,
    out: &str,
    names: &HalfNames<'_>,
    files: &mut F,
    outputs: &mut Outputs<'_, O, E>,
) -> ((S, T), Result<bool, Stop>)
    requires over { IsOverSource S.Source stripped × IsOverSource T.Source debug }
    requires stripped { is_dirty stripped.o ≡ false }
    requires debug { is_dirty debug.o ≡ false }
    requires tied { (IsTrue stripped.told → IsTied stripped.o)
        × (IsTrue debug.told → IsTied debug.o) }
    requires fits { FitsClass stripped.o }
    ensures writes { WritesBeside F.Files O.Sink E.Sink 1
        ((0 < S.faults result.0.0) ⊎ (0 < T.faults result.0.1))
        (IsTrue stripped.told × IsTrue debug.told)
        (objects_done out.now names.now stripped.o debug.o)
        result.1 files.old files.new outputs.old outputs.new }
    ensures leaves_stripped { Leaves S.Source stripped.source result.0.0 }
    ensures leaves_debug { Leaves T.Source debug.source result.0.1 }
{
    match plan_joined(alloc, &stripped, &debug) {
        Ok(plan) => {
            let first = stripped.end();
            let second = debug.end();
            write_pair(alloc, first, second, plan, out, files, outputs)
        }
        Err(fault) => {
            let refused = refuse_fault(names, fault, outputs);
            ((stripped.end(), debug.end()), refused)
        }
    }
}

/// Joins an object to the file of the debug half, which is open. What has no headers of an image,
/// and an archive, has the message that says why: then no file is made.
pub(crate) fn join_debug<S: Source, T: Source, F: Files, O: Sink, E: Sink>(
    alloc: Global,
    stripped: Elf<S>,
    src: T,
    out: &str,
    names: &HalfNames<'_>,
    files: &mut F,
    outputs: &mut Outputs<'_, O, E>,
) -> ((S, T), Result<bool, Stop>)
    requires over { IsOverSource S.Source stripped }
    requires clean { is_dirty stripped.o ≡ false }
    requires tied { IsTrue stripped.told → IsTied stripped.o }
    requires fits { FitsClass stripped.o }
    ensures writes { WritesBeside F.Files O.Sink E.Sink 1
        ((0 < S.faults result.0.0) ⊎ (0 < T.faults result.0.1))
        (IsTrue stripped.told × IsSome (T.holds src))
        (debug_done out.now names.now (T.holds src) stripped.o)
        result.1 files.old files.new outputs.old outputs.new }
    ensures leaves_stripped { Leaves S.Source stripped.source result.0.0 }
    ensures leaves_debug { Leaves T.Source src result.0.1 }
{
    match begin_image(alloc, src) {
        Ok(debug) => {
            let _sound = debug.dirty();
            write_joined(alloc, stripped, debug, out, names, files, outputs)
        }
        Err((src, e)) => {
            let refused = refuse_half(names.debug, e, outputs);
            ((stripped.end(), src), refused)
        }
    }
}

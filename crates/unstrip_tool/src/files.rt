//! Two files that are opened, one after another, and what they are halves of.

ghost use Rattle.std.specs.Prelude.{◌≡◌, ◌≢◌, ◌⊎◌, ◌<◌, false, IsTrue, IsSome};
ghost use Rattle.elf_outside.specs.Asks.{Leaves};
ghost use Rattle.elf_outside.specs.Counts.{Rose};
ghost use Rattle.elf_object.specs.Object.{is_dirty};
ghost use Rattle.elf_object.specs.Valid.{IsTied};
ghost use Rattle.rebuild_debug.specs.law_rebuild.Strip.Made.{FitsClass};
ghost use Rattle.rebuild_files.specs.Writing.{IsOverSource};
ghost use Rattle.tool_output.specs.Files.{LeavesFiles};
ghost use Rattle.tool_output.specs.Outcomes.{Does};
ghost use Rattle.tool_output.specs.Statuses.{refused_status};
ghost use Rattle.rebuild_files.specs.elfkit_outcomes.Strip.{unstrip_outcome};
ghost use Rattle.unstrip_tool.specs.Joins.{debug_done, halves_joined, WritesBeside};

use crate::joining::join_debug;
use crate::names::HalfNames;
use crate::refusing::{refuse_half, refuse_unopened};
use elf_outside::{Files, Sink, Source};
use rebuild_files::prelude::begin_image;
use rebuild_join::prelude::Elf;
use std::alloc::Global;
use tool_output::{Outputs, Stop};

/// Opens the file of the debug half, joins it to the object of the other half, in which nothing is
/// dirty, and closes it; only then is the result looked at. The other file is handed back.
fn join_named<S: Source, F: Files, O: Sink, E: Sink>(
    alloc: Global,
    stripped: Elf<S>,
    out: &str,
    names: &HalfNames<'_>,
    files: &mut F,
    outputs: &mut Outputs<'_, O, E>,
) -> (S, Result<bool, Stop>)
    requires apart { out.now ≢ names.now.debug.now }
    requires over { IsOverSource S.Source stripped }
    requires clean { is_dirty stripped.o ≡ false }
    requires tied { IsTrue stripped.told → IsTied stripped.o }
    requires fits { FitsClass stripped.o }
    ensures writes { WritesBeside F.Files O.Sink E.Sink 2
        (Rose (F.read_faults files.old) (F.read_faults files.new) ⊎ (0 < S.faults result.0))
        (IsTrue stripped.told)
        (debug_done out.now names.now (F.named files.old names.now.debug.now) stripped.o)
        result.1 files.old files.new outputs.old outputs.new }
    ensures leaves_stripped { Leaves S.Source stripped.source result.0 }
{
    match files.open(alloc, names.debug) {
        Ok(file) => {
            let ((stripped, file), joined) = join_debug(
                alloc, stripped, file, out, names, files, outputs,
            );
            files.close(names.debug, file);
            (stripped, joined)
        }
        Err(fault) => {
            let refused = refuse_unopened(names.debug, fault, outputs);
            (stripped.end(), refused)
        }
    }
}

/// Joins the file of the stripped half, which is open and is handed back, to that of the debug
/// half. What has no headers of an image, and an archive, has the message that says why: then the
/// other file is not opened.
fn join_stripped<S: Source, F: Files, O: Sink, E: Sink>(
    alloc: Global,
    src: S,
    out: &str,
    names: &HalfNames<'_>,
    files: &mut F,
    outputs: &mut Outputs<'_, O, E>,
) -> (S, Result<bool, Stop>)
    requires { out.now ≢ names.now.debug.now }
    ensures writes { WritesBeside F.Files O.Sink E.Sink 2
        (Rose (F.read_faults files.old) (F.read_faults files.new) ⊎ (0 < S.faults result.0))
        (IsSome (S.holds src))
        (halves_joined out.now names.now (S.holds src) (F.named files.old names.now.debug.now))
        result.1 files.old files.new outputs.old outputs.new }
    ensures leaves_stripped { Leaves S.Source src result.0 }
{
    match begin_image(alloc, src) {
        Ok(stripped) => {
            let _sound = stripped.dirty();
            join_named(alloc, stripped, out, names, files, outputs)
        }
        Err((src, e)) => {
            let refused = refuse_half(names.stripped, e, outputs);
            (src, refused)
        }
    }
}

/// Opens the two files of the halves of a program, the stripped half first, and writes the image of
/// what they are halves of to the new file `out`, while both are open; then it closes them. The
/// first of them that is not there, or has no headers of an image, or is an archive, has its
/// message; then files that do not match, and what `unstrip` and the update reject. Then no file is
/// made. It returns whether it was rejected. The new file has a name of its own.
///
/// It stops by `Read` where a file was not handed out or a read of one failed, by `Write` where a
/// put or a write of the new file failed, and by `Memory`. Then its name holds what it held or a
/// prefix of the image.
///
/// Source: eu-unstrip(1).
pub fn join_files<F: Files, O: Sink, E: Sink>(
    alloc: Global,
    out: &str,
    names: &HalfNames<'_>,
    files: &mut F,
    outputs: &mut Outputs<'_, O, E>,
) -> Result<bool, Stop>
    requires stripped { out.now ≢ names.now.stripped.now }
    requires debug { out.now ≢ names.now.debug.now }
    ensures does { IsTrue (F.tells files.old) → Does F.Files O.Sink E.Sink refused_status
        (unstrip_outcome (F.named files.old) out.now names.now.stripped.now names.now.debug.now)
        result files.old files.new outputs.old outputs.new }
    ensures leaves { LeavesFiles F.Files O.Sink E.Sink
        result files.old files.new outputs.old outputs.new }
{
    match files.open(alloc, names.stripped) {
        Ok(file) => {
            let (file, joined) = join_stripped(alloc, file, out, names, files, outputs);
            files.close(names.stripped, file);
            joined
        }
        Err(fault) => refuse_unopened(names.stripped, fault, outputs),
    }
}

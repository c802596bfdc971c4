//! The two files of the halves of an image.

ghost use Rattle.std.specs.Prelude.{◌≡◌, false, codes};
ghost use Rattle.elf_object.specs.Object.{is_dirty};
ghost use Rattle.rebuild_files.specs.elfkit_outcomes.Strip.{strip_split};
ghost use Rattle.tool_output.specs.Made.{written_outcome};
ghost use Rattle.rebuild_files.specs.tool_files.ElfImages.Writes.{WritesFile};
ghost use Rattle.rebuild_join.specs.rebuild_select.Steps.{IsRemovable};
ghost use Rattle.rebuild_files.specs.Writing.{IsOverSource};
ghost use Rattle.unstrip_tool.specs.Splitting.{split_file_bytes};
ghost use Rattle.unstrip_tool.specs.Writes.{split_done, object_split};

use crate::allocated::{first_allocated, refuse_allocated};
use crate::commands::SplitCommand;
use crate::copying::write_plans;
use crate::names::HalfNames;
use crate::planning::plan_split;
use elf_outside::{Files, Sink, Source};
use rebuild_files::prelude::refuse_for;
use rebuild_join::prelude::{Elf, SectionSet, removed};
use std::alloc::Global;
use tool_output::{Outputs, Stop};

/// Splits an image, and writes its halves to two new files; what is not rebuilt is copied range by
/// range. Where a half or its update is rejected, the message says so, and neither file is made.
fn write_split<S: Source, F: Files, O: Sink, E: Sink>(
    alloc: Global,
    elf: Elf<S>,
    removed: &SectionSet,
    names: &HalfNames<'_>,
    file: &[u8],
    files: &mut F,
    outputs: &mut Outputs<'_, O, E>,
) -> (S, Result<bool, Stop>)
    requires over { IsOverSource S.Source elf }
    requires clean { is_dirty elf.o ≡ false }
    requires removable { IsRemovable elf.o removed.now }
    ensures { WritesFile S.Source F.Files O.Sink E.Sink
        (written_outcome (codes "strip")
        (split_done file.now names.now (split_file_bytes elf.o removed.now)))
        result.1 elf (record elf { source = result.0 }) files.old files.new
        outputs.old outputs.new }
{
    let mut elf = elf;
    match plan_split(alloc, &mut elf, removed) {
        Ok(plans) => write_plans(alloc, elf.end(), plans, names, files, outputs),
        Err(e) => {
            let refused = refuse_for("strip", file, e, outputs);
            (elf.end(), refused)
        }
    }
}

/// Splits an image and writes its halves, or shows the message of the first section that is removed
/// and allocated: its bytes would be in neither half.
fn write_unless_lost<S: Source, F: Files, O: Sink, E: Sink>(
    alloc: Global,
    elf: Elf<S>,
    removed: &SectionSet,
    names: &HalfNames<'_>,
    file: &[u8],
    files: &mut F,
    outputs: &mut Outputs<'_, O, E>,
) -> (S, Result<bool, Stop>)
    requires over { IsOverSource S.Source elf }
    requires clean { is_dirty elf.o ≡ false }
    requires removable { IsRemovable elf.o removed.now }
    ensures { WritesFile S.Source F.Files O.Sink E.Sink
        (written_outcome (codes "strip") (strip_split elf.o removed.now
        names.now.stripped.now names.now.debug.now file.now))
        result.1 elf (record elf { source = result.0 }) files.old files.new
        outputs.old outputs.new }
{
    match first_allocated(&elf, removed) {
        Some(s) => {
            let refused = refuse_allocated(file, s, outputs);
            (elf.end(), refused)
        }
        None => write_split(alloc, elf, removed, names, file, files, outputs),
    }
}

/// Does the command with the object of the file `file`, of which nothing is dirty and whose base is
/// that file, and hands the source back. What is rejected has the message that says why: then no
/// file is made. It stops by `Read` only where a read of the source failed.
pub(crate) fn write_halves<S: Source, F: Files, O: Sink, E: Sink>(
    command: &SplitCommand<'_>,
    alloc: Global,
    elf: Elf<S>,
    file: &[u8],
    files: &mut F,
    outputs: &mut Outputs<'_, O, E>,
) -> (S, Result<bool, Stop>)
    requires over { IsOverSource S.Source elf }
    requires clean { is_dirty elf.o ≡ false }
    ensures { WritesFile S.Source F.Files O.Sink E.Sink
        (written_outcome (codes "strip") (object_split command.now.debug_only
        command.now.names.now command.now.halves.now file.now elf.o))
        result.1 elf (record elf { source = result.0 }) files.old files.new
        outputs.old outputs.new }
{
    let mut elf = elf;
    match removed(alloc, &mut elf, command.debug_only, command.names) {
        Ok(set) => write_unless_lost(alloc, elf, &set, command.halves, file, files, outputs),
        Err(e) => {
            let refused = refuse_for("strip", file, e, outputs);
            (elf.end(), refused)
        }
    }
}

//! The new file of an open one, with changes.

ghost use Rattle.std.specs.Prelude.{◌≡◌, codes, false};
ghost use Rattle.elf_object.specs.Object.{is_dirty};
ghost use Rattle.rebuild_files.specs.Writing.{IsOverSource};
ghost use Rattle.tool_output.specs.Made.{written_outcome};
ghost use Rattle.rebuild_files.specs.tool_files.ElfImages.Writes.{WritesFile};
ghost use Rattle.rebuild_changes.specs.Stated.{stated_changes, HasPlainNames};
ghost use Rattle.copy_tool.specs.Writes.{copied_done};

use crate::faults::refuse_fault;
use elf_outside::{Files, Sink, Source};
use rebuild_changes::ChangeLists;
use rebuild_copy::plan_copied;
use rebuild_files::prelude::Elf;
use rebuild_files::write_plan;
use std::alloc::Global;
use tool_output::{Outputs, Stop};

/// Writes the image with changes of an object in which nothing is dirty, and whose base is its
/// source, to a new file, and hands the source back. What is not changed is copied range by range
/// of the source. Where it is rejected, the message says why, and no file is made. It returns
/// whether it was rejected.
///
/// It stops by `Read` where a read of the source failed, by `Write` where a put or a write of the
/// file failed, and by `Memory`. Then the name of the file holds what it held or a prefix of the
/// image.
pub fn write_copied<S: Source, F: Files, O: Sink, E: Sink>(
    alloc: Global,
    elf: Elf<S>,
    changes: &ChangeLists,
    file: &[u8],
    out: &str,
    files: &mut F,
    outputs: &mut Outputs<'_, O, E>,
) -> (S, Result<bool, Stop>)
    requires over { IsOverSource S.Source elf }
    requires clean { is_dirty elf.o ≡ false }
    requires names { HasPlainNames changes.now }
    ensures { WritesFile S.Source F.Files O.Sink E.Sink
        (written_outcome (codes "copy")
        (copied_done (stated_changes changes.now) file.now out.now elf.o))
        result.1 elf (record elf { source = result.0 }) files.old files.new
        outputs.old outputs.new }
{
    let mut elf = elf;
    match plan_copied(alloc, &mut elf, changes) {
        Ok(plan) => write_plan(alloc, elf.end(), plan, out, files, outputs),
        Err(fault) => {
            let refused = refuse_fault(file, &fault, outputs);
            (elf.end(), refused)
        }
    }
}

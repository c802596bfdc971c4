//! The messages of unstrip.

ghost use Rattle.std.specs.Prelude.{codes};
ghost use Rattle.tool_output.specs.Names.{file_name};
ghost use Rattle.rebuild_files.specs.tool_objects.Refusals.{ReportsRefusal};
ghost use Rattle.unstrip_tool.specs.Refusing.{RefusesWith, RefusesUnopened, RefusesFault};

use crate::names::HalfNames;
use elf_outside::{OpenFault, Sink};
use elf_types::ElfError;
use rebuild_files::prelude::refuse_for;
use rebuild_join::joined::UnstripFault;
use tool_output::{FileName, Message, Outputs, Stop};

/// Rejects a file by a text.
fn refuse_with<O: Sink, E: Sink>(
    name: &str,
    text: &str,
    outputs: &mut Outputs<'_, O, E>,
) -> Result<bool, Stop>
    ensures { RefusesWith O.Sink E.Sink name.now text.now result outputs.old outputs.new }
{
    let file = name.as_bytes();
    outputs.refuse(&Message {
        command: "unstrip",
        name: &FileName::of(file),
        text,
    })
}

/// Rejects a file for an error of the library, or stops where the error is no refusal.
pub(crate) fn refuse_half<O: Sink, E: Sink>(
    name: &str,
    e: ElfError,
    outputs: &mut Outputs<'_, O, E>,
) -> Result<bool, Stop>
    ensures { ReportsRefusal O.Sink E.Sink (codes "unstrip") (file_name name.now) e result
        outputs.old outputs.new }
{
    refuse_for("unstrip", name.as_bytes(), e, outputs)
}

/// Rejects a file that is not there, or stops where it was not handed out.
pub(crate) fn refuse_unopened<O: Sink, E: Sink>(
    name: &str,
    fault: OpenFault,
    outputs: &mut Outputs<'_, O, E>,
) -> Result<bool, Stop>
    ensures { RefusesUnopened O.Sink E.Sink name.now fault result outputs.old outputs.new }
{
    match fault {
        OpenFault::NotThere => refuse_with(name, "not found", outputs),
        OpenFault::Failed => Err(Stop::Read),
        OpenFault::Memory => Err(Stop::Memory),
    }
}

/// Rejects two files that are not joined, under the name of the one that the fault is of: what is
/// wrong with what is made, and files that do not match, under that of the stripped half.
pub(crate) fn refuse_fault<O: Sink, E: Sink>(
    names: &HalfNames<'_>,
    fault: UnstripFault,
    outputs: &mut Outputs<'_, O, E>,
) -> Result<bool, Stop>
    ensures { RefusesFault O.Sink E.Sink names.now fault result outputs.old outputs.new }
{
    match fault {
        UnstripFault::Elf(e) => refuse_half(names.stripped, e, outputs),
        UnstripFault::Debug(e) => refuse_half(names.debug, e, outputs),
        UnstripFault::Mismatch => refuse_with(names.stripped, "files do not match", outputs),
    }
}

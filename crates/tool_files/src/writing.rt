//! The files of a command, made of images.

ghost use Rattle.std.specs.Prelude.{◌≡◌, ◌≢◌, ◌⊎◌, ◌<◌, ◌-◌, ◌^◌, ◌∷◌, [], IfSome, IsTrue};
ghost use Rattle.tool_output.specs.elf_outside.Counts.{Rose};
ghost use Rattle.tool_output.specs.Files.{LeavesFilesBy};
ghost use Rattle.tool_output.specs.Made.{made_file, outcome_with};
ghost use Rattle.tool_output.specs.Outcomes.{Does};
ghost use Rattle.tool_output.specs.Reports.{no_report};
ghost use Rattle.tool_output.specs.Statuses.{refused_status};
ghost use Rattle.tool_files.specs.Making.{ReadsFrom, InOrder, MakesFiles};

use crate::images::Image;
use crate::making::make_file;
use std::alloc::Global;
use tool_output::prelude::{Files, Sink};
use tool_output::{Outputs, Stop};

/// Makes the file of a command of an image. What waits for the outputs is put before, so a write
/// that fails costs none of what was said. It rejects nothing, and stops as `make_file` does, and
/// where a put to the outputs failed.
pub fn write_image<I: Image, F: Files, O: Sink, E: Sink>(
    alloc: Global,
    image: &mut I,
    name: &str,
    files: &mut F,
    outputs: &mut Outputs<'_, O, E>,
) -> Result<bool, Stop>
    requires { I.ready image.old }
    ensures does { IsTrue (F.tells files.old) → IfSome (I.bytes image.old) (λ bytes.
        Does F.Files O.Sink E.Sink refused_status
        (outcome_with no_report (made_file name.now bytes ∷ []))
        result files.old files.new outputs.old outputs.new) }
    ensures leaves { LeavesFilesBy F.Files O.Sink E.Sink
        (Rose (I.From.faults (I.source image.old)) (I.From.faults (I.source image.new)))
        result files.old files.new outputs.old outputs.new }
    ensures source { ReadsFrom I.From.Source (I.source image.old) (I.source image.new)
        (I.due image.old) }
    ensures taken { F.taken files.new ≡ F.taken files.old }
    ensures live { F.live files.old < 2 ^ 64 - 2 → F.live files.new ≡ F.live files.old }
{
    outputs.flush()?;
    make_file(alloc, image, name, files)?;
    Ok(false)
}

/// Makes two files, one after another.
fn make_files<I: Image, J: Image, F: Files>(
    alloc: Global,
    first: &mut I,
    first_name: &str,
    second: &mut J,
    second_name: &str,
    files: &mut F,
) -> Result<(), Stop>
    requires first { I.ready first.old }
    requires second { J.ready second.old }
    ensures makes { MakesFiles F.Files first_name.now second_name.now
        (I.bytes first.old) (J.bytes second.old) result
        (I.From.faults (I.source first.old)) (I.From.faults (I.source first.new))
        (J.From.faults (J.source second.old)) (J.From.faults (J.source second.new))
        files.old files.new }
    ensures live { F.live files.old < 2 ^ 64 - 2 → F.live files.new ≡ F.live files.old }
{
    make_file(alloc, first, first_name, files)?;
    make_file(alloc, second, second_name, files)
}

/// Makes the two files of a command, one after another. It stops as `write_image` does: while the
/// first is made the name of the second holds what it held, and while the second is made the first
/// holds its image.
pub fn write_images<I: Image, J: Image, F: Files, O: Sink, E: Sink>(
    alloc: Global,
    first: &mut I,
    first_name: &str,
    second: &mut J,
    second_name: &str,
    files: &mut F,
    outputs: &mut Outputs<'_, O, E>,
) -> Result<bool, Stop>
    requires first { I.ready first.old }
    requires second { J.ready second.old }
    requires differ { first_name.now ≢ second_name.now }
    ensures does { IsTrue (F.tells files.old) → IfSome (I.bytes first.old) (λ bytes.
        IfSome (J.bytes second.old) (λ others.
        Does F.Files O.Sink E.Sink refused_status
        (outcome_with no_report
        (made_file first_name.now bytes ∷ made_file second_name.now others ∷ []))
        result files.old files.new outputs.old outputs.new)) }
    ensures order { InOrder F.Files first_name.now second_name.now (I.bytes first.old)
        result files.old files.new }
    ensures leaves { LeavesFilesBy F.Files O.Sink E.Sink
        (Rose (I.From.faults (I.source first.old)) (I.From.faults (I.source first.new))
        ⊎ Rose (J.From.faults (J.source second.old)) (J.From.faults (J.source second.new)))
        result files.old files.new outputs.old outputs.new }
    ensures live { F.live files.old < 2 ^ 64 - 2 → F.live files.new ≡ F.live files.old }
{
    outputs.flush()?;
    make_files(alloc, first, first_name, second, second_name, files)?;
    Ok(false)
}

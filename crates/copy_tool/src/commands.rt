//! The command of copy: its files are read, and then the image of the file that it names is copied
//! with the changes.

ghost use Rattle.std.specs.Prelude.{◌≡◌, ◌≢◌, codes, IsTrue};
ghost use Rattle.rebuild_changes.specs.Names.{HasNames};
ghost use Rattle.tool_output.specs.Files.{LeavesFiles};
ghost use Rattle.tool_output.specs.Made.{written_outcome};
ghost use Rattle.tool_output.specs.Outcomes.{Does};
ghost use Rattle.tool_output.specs.Statuses.{refused_status};
ghost use Rattle.rebuild_files.specs.elfkit_outcomes.Copy.{copy_outcome};
ghost use Rattle.rebuild_files.specs.tool_files.ElfImages.Writes.{named_done};
ghost use Rattle.rebuild_changes.specs.Stated.{stated_changes, HasPlainNames};
ghost use Rattle.copy_tool.specs.Writes.{copying_of, copied_done};

use crate::reading::read_changes;
use crate::writing::write_copied;
use elf_outside::{Files, Sink, Source};
use rebuild_changes::{ChangeLists, CopyChanges};
use rebuild_files::prelude::{Elf, ImageCommand, edit_named};
use std::alloc::Global;
use std::marker::Model;
use tool_output::{Outputs, Stop};

/// The changes that are made, and the name of the file that is made. No name in them that a section
/// gets holds a NUL byte.
#[derive(Drop)]
pub struct CopyCommand<'a> {
    changes: &'a ChangeLists,
    out: &'a str,
}

impl<'a> Model for CopyCommand<'a> {
    ghost use Rattle.rebuild_changes.specs.Stated.{stated_changes, HasPlainNames};
    ghost use Rattle.copy_tool.specs.Writes.{Copying, copying_of};

    ghost Value = { Copying };

    ghost view = { λ c. copying_of (stated_changes c.changes.now) c.out.now };

    ghost invariant = { λ c. HasPlainNames c.changes.now };
}

impl<'a> CopyCommand<'a> {
    /// The command of these changes and this file.
    pub fn new(changes: &'a ChangeLists, out: &'a str) -> CopyCommand<'a>
        requires { HasPlainNames changes.now }
        ensures { result ≡ copying_of (stated_changes changes.now) out.now }
    {
        CopyCommand { changes, out }
    }
}

/// The image with the changes is written to the new file, while the old one is open: what is not
/// changed is copied range by range. What is rejected has the message that says why: then no file
/// is made.
impl ImageCommand for CopyCommand<'_> {
    ghost named = { λ _. codes "copy" };

    ghost done = { λ t file o. copied_done t.changes file t.out o };

    fn name(&self) -> &'static str {
        "copy"
    }

    fn write<S: Source, F: Files, O: Sink, E: Sink>(
        &self,
        alloc: Global,
        elf: Elf<S>,
        file: &[u8],
        files: &mut F,
        outputs: &mut Outputs<'_, O, E>,
    ) -> (S, Result<bool, Stop>) {
        write_copied(alloc, elf, self.changes, file, self.out, files, outputs)
    }
}

/// Opens a file, writes its image with the changes to a new file of another name, and closes it.
fn copy_named<F: Files, O: Sink, E: Sink>(
    alloc: Global,
    changes: &ChangeLists,
    file: &str,
    out: &str,
    files: &mut F,
    outputs: &mut Outputs<'_, O, E>,
) -> Result<bool, Stop>
    requires names { HasPlainNames changes.now }
    requires apart { out.now ≢ file.now }
    ensures does { IsTrue (F.tells files.old) → Does F.Files O.Sink E.Sink refused_status
        (written_outcome (codes "copy") (named_done
        (λ name o. copied_done (stated_changes changes.now) name out.now o)
        (F.named files.old) file.now))
        result files.old files.new outputs.old outputs.new }
    ensures leaves { LeavesFiles F.Files O.Sink E.Sink
        result files.old files.new outputs.old outputs.new }
{
    let command = CopyCommand::new(changes, out);
    edit_named(alloc, &command, file, files, outputs)
}

/// Reads the files of the changes, and then writes the image of a file with the changes to a new
/// file of another name. A file that is not there, and what is rejected, has its message: then no
/// file is made. The files of `-u` come first, then those of `-a`, then the file itself, and the
/// first that is not there ends it. It returns whether something was rejected.
///
/// It stops by `Read` where a read failed, by `Write` where a put or a write of the file failed,
/// and by `Memory`. Then the name of the new file holds what it held or a prefix of the image. The
/// bytes of the files of `-u` and `-a` are held meanwhile, and the tables that change.
pub fn copy_file<F: Files, O: Sink, E: Sink>(
    alloc: Global,
    words: &CopyChanges,
    file: &str,
    out: &str,
    files: &mut F,
    outputs: &mut Outputs<'_, O, E>,
) -> Result<bool, Stop>
    requires names { HasNames words.now }
    requires apart { out.now ≢ file.now }
    ensures does { IsTrue (F.tells files.old) → Does F.Files O.Sink E.Sink refused_status
        (copy_outcome words.now (F.named files.old) out.now file.now)
        result files.old files.new outputs.old outputs.new }
    ensures leaves { LeavesFiles F.Files O.Sink E.Sink
        result files.old files.new outputs.old outputs.new }
{
    match read_changes(alloc, words, files, outputs) {
        Ok(Some(changes)) => copy_named(alloc, &changes, file, out, files, outputs),
        Ok(None) => Ok(true),
        Err(stop) => Err(stop),
    }
}

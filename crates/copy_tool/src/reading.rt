//! What is read before the file itself is opened: the files of `-u`, and then those of `-a`.

ghost use Rattle.std.specs.Prelude.{◌≡◌, Some, Ok, IfOk, IfErr, IfSome, OnOk};
ghost use Rattle.rebuild_changes.specs.Names.{HasNames};
ghost use Rattle.rebuild_files.specs.elfkit_outcomes.Copy.{changes_with};
ghost use Rattle.rebuild_changes.specs.Stated.{stated_changes, HasPlainNames};
ghost use Rattle.copy_tool.specs.Files.{ReadsFiles, lengths_named, pairs, byte_names, file_names, seen_in};
ghost use Rattle.copy_tool.specs.Words.{added_changes, word_changes, words_due};

use crate::changes::changes_of;
use crate::files::read_files;
use elf_outside::{Files, Sink};
use elf_types::List;
use rebuild_changes::{ChangeLists, CopyChanges, NameBytes};
use std::alloc::Global;
use tool_output::{Outputs, Stop};

/// The changes of the arguments, where all their files are there. It stops by `Memory` alone.
fn all_changes(
    alloc: Global,
    words: &CopyChanges,
    update: List<NameBytes>,
    add: List<NameBytes>,
) -> Result<Option<ChangeLists>, Stop>
    requires names { HasNames words.now }
    requires added { byte_names add ≡ file_names words.now.add }
    ensures ok { OnOk result (seen_in stated_changes result
        ≡ Ok (Some (changes_with words.now (pairs update) (pairs add)))) }
    ensures plain { IfOk result (λ changes. IfSome changes HasPlainNames) }
    ensures stop { IfErr result (λ stop. stop ≡ Stop.Memory) }
{
    match changes_of(alloc, words, update, add) {
        Ok(changes) => Ok(Some(changes)),
        Err(e) => Err(Stop::want_of(e)),
    }
}

/// Reads the files of `-a`, after those of `-u`.
fn read_added<F: Files, O: Sink, E: Sink>(
    alloc: Global,
    words: &CopyChanges,
    update: List<NameBytes>,
    files: &mut F,
    outputs: &mut Outputs<'_, O, E>,
) -> Result<Option<ChangeLists>, Stop>
    requires { HasNames words.now }
    ensures reads { ReadsFiles F.Files O.Sink E.Sink (added_changes words.now (pairs update))
        (λ map. lengths_named map words.now.add)
        (seen_in stated_changes result) files.old files.new outputs.old outputs.new }
    ensures plain { IfOk result (λ changes. IfSome changes HasPlainNames) }
{
    match read_files(alloc, words.add.as_slice(), files, outputs) {
        Ok(Some(add)) => all_changes(alloc, words, update, add),
        Ok(None) => Ok(None),
        Err(stop) => Err(stop),
    }
}

/// Reads the files of `-u` and then those of `-a`, each whole and once: the changes with their
/// bytes, or none where one is not there. That one has its message, and no file after it is opened.
/// No name in the changes that a section gets holds a NUL byte. It stops by `Read` where a read
/// failed, by `Write` where the message could not be written, and by `Memory`.
pub fn read_changes<F: Files, O: Sink, E: Sink>(
    alloc: Global,
    words: &CopyChanges,
    files: &mut F,
    outputs: &mut Outputs<'_, O, E>,
) -> Result<Option<ChangeLists>, Stop>
    requires { HasNames words.now }
    ensures reads { ReadsFiles F.Files O.Sink E.Sink (word_changes words.now) (words_due words.now)
        (seen_in stated_changes result) files.old files.new outputs.old outputs.new }
    ensures plain { IfOk result (λ changes. IfSome changes HasPlainNames) }
{
    match read_files(alloc, words.update.as_slice(), files, outputs) {
        Ok(Some(update)) => read_added(alloc, words, update, files, outputs),
        Ok(None) => Ok(None),
        Err(stop) => Err(stop),
    }
}

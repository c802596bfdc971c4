//! What the commands that write give on small files, computed by proof. The values were worked
//! out by hand.
#![tactic(auto, unfolding(crate::proofs::Computing::all_words))]

ghost use Rattle.std.specs.Prelude.{◌≡◌, [], ◌∷◌, codes, true, false, None, Some, Result};
ghost use Rattle.tool_objects.specs.elf_outside.declared.file_sets.OpenFault.{OpenFault};
ghost use Rattle.tool_objects.specs.elf_outside.declared.memory.device.MemDevice.{MemDevice};
ghost use Rattle.tool_objects.specs.elf_outside.declared.memory.files.MemFiles.{MemFiles};
ghost use Rattle.rebuild_model.specs.elf_object.Samples.{small64};
ghost use Rattle.tool_objects.specs.tool_output.Marks.{said};
ghost use Rattle.rebuild_model.specs.Samples.{one_section64};
ghost use Rattle.rebuild_model.specs.Executable.{stripped_executable64, debug_executable64, combined_executable64};
ghost use Rattle.tool_objects.specs.tool_output.Made.{made_file};
ghost use Rattle.tool_objects.specs.tool_output.declared.outputs.Side.TheVariants.{Out};
ghost use Rattle.elfkit_outcomes.specs.Strip.{strip_outcome, unstrip_outcome};
ghost use Rattle.elfkit_outcomes.specs.Copy.{copy_outcome, rehash_outcome};
ghost use Rattle.elfkit_outcomes.specs.Selftest.{selftest_outcome};
ghost use Rattle.elfkit_outcomes.specs.OpenedAgain.{OpensAgain, SecondOpenFails, StopsUnread};
ghost use Rattle.elfkit_outcomes.specs.Samples.{some_files, split_files, executable_files, half_files, stripping, strip_of, updating_missing, adding_missing, adding_section, ends_with, refused_with, succeeds_with_files, written_lengths};

use crate::laws::stops_where_unread;

/// strip makes one file, or two, or none with a message.
fn strip_gives_files_or_a_message()
    ensures all { written_lengths (strip_of false None (codes "J")) ≡ (codes "O", 200) ∷ [] }
    ensures unnamed { written_lengths (strip_of false None (codes "F")) ≡ (codes "O", 128) ∷ [] }
    ensures debug_only { strip_of true None (codes "J")
        ≡ succeeds_with_files (made_file (codes "O") small64 ∷ []) }
    ensures split { written_lengths (strip_of false (Some (codes "D")) (codes "J"))
        ≡ (codes "O", 200) ∷ (codes "D", 312) ∷ [] }
    ensures missing { strip_of false None (codes "N")
        ≡ refused_with (codes "strip: N: not found\n") }
    ensures archive { strip_of false None (codes "A")
        ≡ refused_with (codes "strip: A: not an ELF image\n") }
    ensures short { strip_of false None (codes "G") ≡ refused_with (codes "strip: G: too short\n") }
{}

/// What was split combines again, byte for byte.
fn split_files_are_combined()
    ensures debug { split_files (codes "D") ≡ Some small64 }
    ensures whole { unstrip_outcome split_files (codes "X") (codes "O") (codes "D")
        ≡ succeeds_with_files (made_file (codes "X") small64 ∷ []) }
{}

/// A whole executable is split and combined again: status 0 both times.
fn executables_are_split_and_combined()
    ensures split { strip_outcome (stripping false (Some (codes "D"))) executable_files (codes "U")
        ≡ succeeds_with_files
        (made_file (codes "O") stripped_executable64
        ∷ made_file (codes "D") debug_executable64
        ∷ []) }
    ensures whole { unstrip_outcome half_files (codes "X") (codes "O") (codes "D")
        ≡ succeeds_with_files (made_file (codes "X") combined_executable64 ∷ []) }
{}

/// A section is added to an image whose table of names is alone.
fn copy_gives_a_file()
    ensures files { written_lengths (copy_outcome adding_section some_files (codes "O") (codes "K"))
        ≡ (codes "O", 384) ∷ [] }
    ensures status { (copy_outcome adding_section some_files (codes "O") (codes "K")).status ≡ 0 }
{}

/// The messages of the other commands.
fn commands_say_why_they_write_nothing()
    ensures rehash { rehash_outcome some_files (codes "O") (codes "J")
        ≡ refused_with (codes "rehash: J: no dynamic hash\n") }
    ensures copy_name { copy_outcome updating_missing some_files (codes "O") (codes "J")
        ≡ refused_with (codes "copy: J: no section .q\n") }
    ensures copy_file { copy_outcome adding_missing some_files (codes "O") (codes "M")
        ≡ refused_with (codes "copy: N: not found\n") }
    ensures copy_table { copy_outcome adding_section some_files (codes "O") (codes "J")
        ≡ refused_with (codes "copy: J: no name table of its own\n") }
    ensures unstrip { unstrip_outcome some_files (codes "X") (codes "H") (codes "J")
        ≡ refused_with (codes "unstrip: H: files do not match\n") }
{}

/// The self test shows five lines and makes its file.
fn selftest_shows_five_lines()
    ensures { selftest_outcome (codes "O") 1
        ≡ ends_with
        (said Out (codes "sections 5\nsymbols 2\nbytes 480\nvalue sum 5\nfound 1\n"))
        0
        (made_file (codes "O") one_section64 ∷ []) }
{}

/// Where opening the file again fails, the self test ends with status 3, no output, and makes the
/// same image.
fn selftest_stops_where_its_file_is_not_opened()
    ensures { (old new : MemFiles) (answer : Result MemDevice OpenFault)
        → SecondOpenFails old → OpensAgain old new (codes "O") one_section64 answer
        → StopsUnread (selftest_outcome (codes "O") 1) old new (codes "O") one_section64 answer }
{
    stops_where_unread();
}

#[test]
fn outcomes_compute_on_small_files() {
    strip_gives_files_or_a_message();
    split_files_are_combined();
    executables_are_split_and_combined();
    copy_gives_a_file();
    commands_say_why_they_write_nothing();
    selftest_shows_five_lines();
    selftest_stops_where_its_file_is_not_opened();
}

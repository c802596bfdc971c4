//! What strip, the debug half and unstrip make of a whole executable, computed by proof. The values
//! were worked out by hand.
#![tactic(auto, unfolding(crate::proofs::Computing::all_words))]

ghost use Rattle.std.specs.Prelude.{◌≡◌, [], ◌∷◌, take, drop, length, map, false, Ok, None};
ghost use Rattle.hash_model.specs.elf_object.Object.{section_at};
ghost use Rattle.hash_model.specs.elf_object.Answers.{items_at};
ghost use Rattle.hash_model.specs.elf_object.Due.{all_sections};
ghost use Rattle.rebuild_model.specs.Removed.{removed_sections};
ghost use Rattle.rebuild_model.specs.Rebuilt.{stripped};
ghost use Rattle.rebuild_model.specs.Split.{debug_half, debug_refusal, removed_allocated, unstripped};
ghost use Rattle.rebuild_model.specs.Files.{file_of, file_made};
ghost use Rattle.rebuild_model.specs.KeepingLaws.{SameButPlaces};
ghost use Rattle.rebuild_model.specs.Samples.{made_or_none};
ghost use Rattle.rebuild_model.specs.Executable.{executable64, stripped_executable64, debug_executable64, combined_executable64, executable, stripped_executable, debug_executable, combined_executable};

/// Symbols and their names go, and each byte that is loaded stays, but for `e_shoff`, `e_shnum` and
/// `e_shstrndx`.
fn executables_are_stripped()
    ensures size { length executable64 ≡ 3696 }
    ensures removed { removed_sections false [] executable ≡ 28 ∷ 29 ∷ [] }
    ensures image { file_made (stripped false [] executable) ≡ Ok stripped_executable64 }
    ensures count { length stripped_executable.sections ≡ 29 }
    ensures before_e_shoff { take 40 stripped_executable64 ≡ take 40 executable64 }
    ensures between { take 12 (drop 48 stripped_executable64) ≡ take 12 (drop 48 executable64) }
    ensures loaded { take 1272 (drop 64 stripped_executable64)
        ≡ take 1272 (drop 64 executable64) }
{}

/// The debug half has what is not loaded, and both halves combine to the executable with what is
/// not loaded at other places.
fn executables_are_split()
    ensures allocated { removed_allocated executable (28 ∷ 29 ∷ []) ≡ None }
    ensures debug { debug_refusal executable ≡ None }
    ensures half { file_of (debug_half executable) ≡ Ok debug_executable64 }
    ensures whole { made_or_none (unstripped stripped_executable debug_executable)
        ≡ combined_executable64 }
{}

/// What both halves of the executable combine to has the same headers, raw bytes and items.
fn executables_combine_again()
    ensures same { SameButPlaces executable combined_executable }
    ensures items { map (λ s. items_at combined_executable s 0) (all_sections executable)
        ≡ map (λ s. items_at executable s 0) (all_sections executable) }
{}

#[test]
fn commands_compute_on_an_executable() {
    executables_are_stripped();
    executables_are_split();
    executables_combine_again();
}

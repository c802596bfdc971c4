//! What strip makes of small images, computed by proof. The values were worked out by hand.
#![tactic(auto, unfolding(crate::proofs::Computing::all_words))]

ghost use Rattle.std.specs.Prelude.{◌≡◌, [], ◌∷◌, take, drop, length, ◌^◌, codes, true, false, Ok, Err, Some, None};
ghost use Rattle.elf_types.specs.Answers.{err_of};
ghost use Rattle.elf_types.specs.declared.errors.ElfError.TheVariants.{OutOfFile, Ragged, NoSection, TooLarge};
ghost use Rattle.hash_model.specs.elf_object.Object.{header_of, section_at};
ghost use Rattle.hash_model.specs.elf_object.Calls.{step};
ghost use Rattle.hash_model.specs.elf_object.Runs.{set_shdr};
ghost use Rattle.hash_model.specs.elf_object.Samples.{small64, small32, symbols64, symbols32, missing, ragged, addralign_set};
ghost use Rattle.rebuild_model.specs.Removed.{removed_sections};
ghost use Rattle.rebuild_model.specs.Rebuilt.{rebuilt, stripped};
ghost use Rattle.rebuild_model.specs.Files.{file_made};
ghost use Rattle.rebuild_model.specs.Samples.{unnamed64, misnamed64, stripped32, stripped64, stripped_unnamed64};
ghost use Rattle.rebuild_model.specs.Programs.{a_small_program};

/// Strip removes the symbol table; the table of the names is rebuilt, and is alone.
fn symbols_are_removed()
    ensures removed { removed_sections false [] symbols64 ≡ 2 ∷ [] }
    ensures size { length stripped64.base ≡ 200 }
    ensures names { take 1 (drop 64 stripped64.base) ≡ 0 ∷ [] }
    ensures table { (header_of stripped64).shoff ≡ 72 }
    ensures count { (header_of stripped64).shnum ≡ 2 }
    ensures index { (header_of stripped64).shstrndx ≡ 1 }
    ensures place { (section_at stripped64 1).home.at ≡ 64 }
    ensures length { (section_at stripped64 1).home.len ≡ 1 }
{}

/// Where only debug data goes, the image stays.
fn symbols_stay_with_debug_only()
    ensures removed { removed_sections true [] symbols64 ≡ [] }
    ensures image { file_made (stripped true [] symbols64) ≡ Ok small64 }
{}

/// Strip removes the symbols in class 32, greatest byte first.
fn symbols_are_removed_in_class_32()
    ensures size { length stripped32.base ≡ 136 }
    ensures names { take 1 (drop 52 stripped32.base) ≡ 0 ∷ [] }
    ensures table { (header_of stripped32).shoff ≡ 56 }
    ensures image { file_made (stripped true [] symbols32) ≡ Ok small32 }
{}

/// Without a section of names both sections go, and section 0 stays alone.
fn section_0_stays_alone()
    ensures removed { removed_sections false [] unnamed64 ≡ 1 ∷ 2 ∷ [] }
    ensures size { length stripped_unnamed64.base ≡ 128 }
    ensures table { (header_of stripped_unnamed64).shoff ≡ 64 }
    ensures count { (header_of stripped_unnamed64).shnum ≡ 1 }
    ensures index { (header_of stripped_unnamed64).shstrndx ≡ 0 }
{}

/// Refusals in their order: a kept section's bytes and items, the string index, and the places.
fn strip_is_refused()
    ensures missing { stripped true [] missing ≡ Err (OutOfFile 2) }
    ensures ragged { stripped true [] ragged ≡ Err (Ragged 2) }
    ensures not_ragged { err_of (stripped false [] ragged) ≡ None }
    ensures kept_count { stripped false [] misnamed64 ≡ Err (NoSection 7 1) }
    ensures whole_count { stripped true [] misnamed64 ≡ Err (NoSection 7 3) }
    ensures places { rebuilt (step (set_shdr 3 (addralign_set (2 ^ 41))) a_small_program) []
        ≡ Err TooLarge }
{}

#[test]
fn strip_computes_on_small_images() {
    symbols_are_removed();
    symbols_stay_with_debug_only();
    symbols_are_removed_in_class_32();
    section_0_stays_alone();
    strip_is_refused();
}

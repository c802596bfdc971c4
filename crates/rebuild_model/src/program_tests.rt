//! What the commands make of a small program, computed by proof. The values were worked out by
//! hand.
#![tactic(auto, unfolding(crate::proofs::Computing::all_words))]

ghost use Rattle.std.specs.Prelude.{◌≡◌, [], ◌∷◌, take, drop, length, map, codes, true, false, Ok, Err, None, Some};
ghost use Rattle.hash_model.specs.elf_object.Object.{header_of, section_at};
ghost use Rattle.hash_model.specs.elf_object.Answers.{items_at, words_of, syms_of};
ghost use Rattle.hash_model.specs.elf_object.Strings.{section_name};
ghost use Rattle.rebuild_model.specs.Removed.{removed_sections, removed_by_name};
ghost use Rattle.rebuild_model.specs.Followed.{followed_word, followed_extended};
ghost use Rattle.rebuild_model.specs.Copied.{copied};
ghost use Rattle.rebuild_model.specs.Copied.CopyFault.{Allocated, Fixed, NoBytes};
ghost use Rattle.rebuild_model.specs.Split.{removed_allocated, unstripped};
ghost use Rattle.rebuild_model.specs.Samples.{made_or_none, no_changes};
ghost use Rattle.rebuild_model.specs.Programs.{program_file, many_but_2, symbol_in, a_program, a_grouped, again, stripped_program, debug_only_program, debug_program, updating, flagging, renaming, copied_again, small_file, a_small_program, small_stripped, small_debug, two_names, text_name, bss_name, note_name, grouped_again};

/// Each step removes by what the steps before it removed; a group keeps its symbol table.
fn steps_remove_what_nothing_needs()
    ensures all { removed_sections false [] a_program ≡ 3 ∷ 4 ∷ 6 ∷ 7 ∷ 9 ∷ [] }
    ensures debug_only { removed_sections true [] a_program ≡ 3 ∷ 4 ∷ [] }
    ensures grouped { removed_sections false [] a_grouped ≡ 3 ∷ 4 ∷ [] }
    ensures named { removed_sections true two_names a_program ≡ 1 ∷ 3 ∷ 4 ∷ [] }
    ensures by_name { removed_by_name (codes ".tab" ∷ []) a_program ≡ 6 ∷ 7 ∷ 9 ∷ [] }
    ensures allocated { removed_allocated a_program (1 ∷ 3 ∷ 4 ∷ []) ≡ Some 1 }
    ensures not_allocated { removed_allocated a_program (3 ∷ 4 ∷ []) ≡ None }
{}

/// What is loaded keeps its place, and the rest follows after it.
fn programs_keep_what_is_loaded()
    ensures size { length stripped_program.base ≡ 472 }
    ensures loaded { (section_at stripped_program 1).home.at ≡ 120 }
    ensures nobits { (section_at stripped_program 2).home.at ≡ 124 }
    ensures behind { (section_at stripped_program 3).home.at ≡ 124 }
    ensures names { (section_at stripped_program 4).home.at ≡ 127 }
    ensures table { (header_of stripped_program).shoff ≡ 152 }
    ensures index { (header_of stripped_program).shstrndx ≡ 4 }
    ensures name { section_name stripped_program 3 ≡ Some (codes ".note") }
    ensures bytes { take 4 (drop 120 stripped_program.base) ≡ 1 ∷ 2 ∷ 3 ∷ 4 ∷ [] }
    ensures before_e_shoff { take 40 stripped_program.base ≡ take 40 program_file }
    ensures between { take 12 (drop 48 stripped_program.base) ≡ take 12 (drop 48 program_file) }
    ensures behind_header { take 60 (drop 64 stripped_program.base)
        ≡ take 60 (drop 64 program_file) }
{}

/// Links, symbols and extended indexes follow the new numbers.
fn numbers_follow()
    ensures sections { map (λ x. x.shndx) (syms_of (items_at debug_only_program 4 0))
        ≡ 0 ∷ 1 ∷ 0 ∷ 3 ∷ 0 ∷ 3 ∷ 0xfff1 ∷ [] }
    ensures values { map (λ x. x.value) (syms_of (items_at debug_only_program 4 0))
        ≡ 0 ∷ 7 ∷ 0 ∷ 7 ∷ 0 ∷ 7 ∷ 7 ∷ [] }
    ensures words { words_of (items_at debug_only_program 7 0) ≡ 0 ∷ 0 ∷ 0 ∷ 0 ∷ 0 ∷ 0 ∷ 0 ∷ [] }
    ensures strings { (section_at debug_only_program 4).header.link ≡ 5 }
    ensures symbols { (section_at debug_only_program 7).header.link ≡ 4 }
    ensures members { words_of (items_at grouped_again 8 0) ≡ 1 ∷ 1 ∷ 3 ∷ 99 ∷ [] }
{}

/// Section 2 of so many is removed. An extended index that need not change stays; a number that
/// fits now is in the symbol, and another one in the word.
fn extended_indexes_follow()
    ensures same_word { followed_word many_but_2 1 ≡ 1 }
    ensures same_symbol { followed_extended many_but_2 1 (symbol_in 0xffff) ≡ symbol_in 0xffff }
    ensures removed_word { followed_word many_but_2 2 ≡ 0 }
    ensures fitting_word { followed_word many_but_2 0xff00 ≡ 0 }
    ensures fitting_symbol { followed_extended many_but_2 0xff00 (symbol_in 0xffff)
        ≡ symbol_in 0xfeff }
    ensures great_word { followed_word many_but_2 0xff01 ≡ 0xff00 }
    ensures great_symbol { followed_extended many_but_2 0xff01 (symbol_in 0xffff)
        ≡ symbol_in 0xffff }
{}

/// The two halves of a program combine to what it was.
fn programs_are_combined()
    ensures removed { removed_sections false (codes ".note" ∷ []) a_small_program ≡ 3 ∷ [] }
    ensures type_of_loaded { (section_at debug_program 1).header.stype ≡ 8 }
    ensures size_of_loaded { (section_at debug_program 1).header.size ≡ 4 }
    ensures same { made_or_none (unstripped small_stripped small_debug) ≡ small_file }
{}

/// Changes that a program rejects.
fn programs_refuse_changes()
    ensures allocated { copied (updating text_name (1 ∷ [])) a_small_program
        ≡ Err (Allocated text_name) }
    ensures no_bytes { copied (updating bss_name []) a_small_program ≡ Err (NoBytes bss_name) }
    ensures fixed { copied (flagging note_name 2) a_small_program ≡ Err (Fixed note_name) }
{}

/// A new name counts for the changes after it.
fn programs_take_changes()
    ensures renamed { section_name (copied_again renaming a_small_program) 3 ≡ Some (codes ".n") }
    ensures flagged { (section_at (copied_again renaming a_small_program) 3).header.flags ≡ 0x30 }
{}

/// Without changes a program stays as it is.
fn programs_stay_without_changes()
    ensures same { made_or_none (copied no_changes a_small_program) ≡ small_file }
{}

#[test]
fn commands_compute_on_a_program() {
    steps_remove_what_nothing_needs();
    programs_keep_what_is_loaded();
    numbers_follow();
    extended_indexes_follow();
    programs_are_combined();
    programs_refuse_changes();
    programs_take_changes();
    programs_stay_without_changes();
}

//! What copy, the debug half and the self test make of small images, computed by proof. The values
//! were worked out by hand.
#![tactic(auto, unfolding(crate::proofs::Computing::all_words))]

ghost use Rattle.std.specs.Prelude.{◌≡◌, [], ◌∷◌, take, drop, length, codes, Ok, Err, None};
ghost use Rattle.hash_model.specs.elf_object.Object.{header_of, section_at};
ghost use Rattle.hash_model.specs.elf_object.Samples.{small64, header64, symbols64, object_in};
ghost use Rattle.rebuild_model.specs.Files.{file_of};
ghost use Rattle.rebuild_model.specs.Copied.{copied};
ghost use Rattle.rebuild_model.specs.Copied.CopyFault.{NoSection, NoTable};
ghost use Rattle.rebuild_model.specs.Split.{debug_half, debug_refusal, unstripped};
ghost use Rattle.rebuild_model.specs.Split.UnstripFault.{Mismatch};
ghost use Rattle.rebuild_model.specs.Generated.{generated_and_shifted, told_lines};
ghost use Rattle.rebuild_model.specs.Samples.{made_or_none, unlinked64, two_letters, with_new_section, stripped64, debug64, updating_none, adding, one_section64, selftest_again};

/// A section is added after the others, and its name goes into the table.
fn sections_are_added()
    ensures size { length (with_new_section unlinked64) ≡ 384 }
    ensures names { take 4 (drop 64 (with_new_section unlinked64)) ≡ 0 ∷ 0x2e ∷ 0x78 ∷ 0 ∷ [] }
    ensures bytes { take 2 (drop 120 (with_new_section unlinked64)) ≡ two_letters }
    ensures count { (header_of (object_in (with_new_section unlinked64))).shnum ≡ 4 }
    ensures table { (header_of (object_in (with_new_section unlinked64))).shoff ≡ 128 }
    ensures first { (section_at (object_in (with_new_section unlinked64)) 1).home.at ≡ 64 }
    ensures second { (section_at (object_in (with_new_section unlinked64)) 2).home.at ≡ 72 }
    ensures place { (section_at (object_in (with_new_section unlinked64)) 3).home.at ≡ 120 }
    ensures length { (section_at (object_in (with_new_section unlinked64)) 3).header.size ≡ 2 }
    ensures name { (section_at (object_in (with_new_section unlinked64)) 3).header.name ≡ 1 }
{}

/// A name that no section has, and a section of names that is not its own.
fn changes_are_refused()
    ensures no_section { copied updating_none symbols64 ≡ Err (NoSection (codes ".q")) }
    ensures no_table { copied adding symbols64 ≡ Err NoTable }
{}

/// An object without allocated sections is its own debug half, from which the stripped one is
/// made whole again.
fn halves_are_combined()
    ensures debug { debug_refusal symbols64 ≡ None }
    ensures half { file_of (debug_half symbols64) ≡ Ok small64 }
    ensures whole { made_or_none (unstripped stripped64 debug64) ≡ small64 }
    ensures mismatch { unstripped (object_in header64) symbols64 ≡ Err Mismatch }
{}

/// The self test's image with one section.
fn one_section_is_generated()
    ensures bytes { file_of (generated_and_shifted 1) ≡ Ok one_section64 }
    ensures size { length one_section64 ≡ 480 }
    ensures lines { told_lines 1 (selftest_again 1)
        ≡ Ok (codes "sections 5\nsymbols 2\nbytes 480\nvalue sum 5\nfound 1\n") }
{}

/// The self test's image with eight sections: lengths begin again after seven.
fn eight_sections_are_generated()
    ensures lines { told_lines 8 (selftest_again 8)
        ≡ Ok (codes "sections 12\nsymbols 9\nbytes 1168\nvalue sum 180\nfound 8\n") }
{}

#[test]
fn copies_compute_on_small_images() {
    sections_are_added();
    changes_are_refused();
    halves_are_combined();
    one_section_is_generated();
    eight_sections_are_generated();
}

//! The hash sections of a small symbol table, computed by proof. The values were worked out by
//! hand from the gABI.
#![tactic(auto, unfolding(crate::proofs::Computing::all_words))]

ghost use Rattle.std.specs.Prelude.{◌≡◌, [], ◌∷◌, map, codes, true, false, Ok, Err, Some, None};
ghost use Rattle.hash_model.specs.elf_object.Samples.{symbols32, symbols64, hex};
ghost use Rattle.hash_model.specs.elf_object.Answers.{items_at, bytes_of, halves_of, words_of, relas_of};
ghost use Rattle.elf_types.specs.declared.errors.ElfError.TheVariants.{Unsorted};
ghost use Rattle.rebuild_model.specs.Programs.{a_shared_object, rehashed_again, small_shape, small_hash, two_buckets, two_buckets_hash, has_whole_sysv, has_whole_gnu, has_whole_gnu_32, words_32};
ghost use Rattle.hash_model.specs.elf_object.Due.{all_sections};
ghost use Rattle.hash_model.specs.HashSections.{is_whole_sysv};
ghost use Rattle.hash_model.specs.Hashes.{elf_hash, gnu_hash};
ghost use Rattle.hash_model.specs.Listed.{listed_names, find_linear_answer};
ghost use Rattle.hash_model.specs.BuiltHashes.{build_sysv_answer, build_gnu_answer, gnu_order_answer};
ghost use Rattle.hash_model.specs.Reordered.{reordered, reorder_refusal};
ghost use Rattle.rebuild_model.specs.Rehashed.{rehashed};
ghost use Rattle.rebuild_model.specs.Rehashed.RehashFault.{NoDynamicHash};

/// Both hashes of some names.
fn names_have_hashes()
    ensures elf_empty { elf_hash [] ≡ 0 }
    ensures elf_exit { elf_hash (codes "exit") ≡ 0x6cf04 }
    ensures elf_printf { elf_hash (codes "printf") ≡ 0x77905a6 }
    ensures elf_printfx { elf_hash (codes "printfx") ≡ 0x7905aa8 }
    ensures gnu_empty { gnu_hash [] ≡ 0x1505 }
    ensures gnu_a { gnu_hash (codes "a") ≡ 0x2b606 }
{}

/// A symbol is listed by its name, and both sections find it.
fn hash_sections_are_built()
    ensures listed { listed_names symbols64 2 ≡ None ∷ Some (codes "a") ∷ [] }
    ensures found { find_linear_answer symbols64 2 (codes "a") ≡ Ok (Some 1) }
    ensures not_found { find_linear_answer symbols64 2 (codes "b") ≡ Ok None }
    ensures sysv { build_sysv_answer symbols64 2 1 ≡ Ok (1 ∷ 2 ∷ 1 ∷ 0 ∷ 0 ∷ []) }
    ensures gnu { build_gnu_answer symbols64 2 small_shape ≡ Ok (hex small_hash) }
    ensures order { gnu_order_answer symbols64 2 1 ≡ Ok (0 ∷ 1 ∷ []) }
    ensures reorder { reorder_refusal symbols64 2 ≡ None }
    ensures reordered { map (λ s. items_at (reordered symbols64 2 (0 ∷ 1 ∷ [])) s 0)
        (all_sections symbols64) ≡ map (λ s. items_at symbols64 s 0) (all_sections symbols64) }
    ensures no_hash { rehashed symbols64 ≡ Err NoDynamicHash }
{}

/// Symbols come in the order that the GNU section needs, and what goes by them moves along.
fn symbols_are_reordered()
    ensures order { gnu_order_answer a_shared_object 1 2 ≡ Ok (0 ∷ 2 ∷ 3 ∷ 1 ∷ []) }
    ensures unsorted { build_gnu_answer a_shared_object 1 two_buckets ≡ Err (Unsorted 2) }
    ensures names { listed_names rehashed_again 1
        ≡ None ∷ None ∷ Some (codes "a") ∷ Some (codes "b") ∷ [] }
    ensures versions { halves_of (items_at rehashed_again 3 0) ≡ 0 ∷ 12 ∷ 13 ∷ 11 ∷ 14 ∷ [] }
    ensures relocations { map (λ r. r.sym) (relas_of (items_at rehashed_again 4 0)) ≡ 3 ∷ 9 ∷ [] }
    ensures gnu { bytes_of (items_at rehashed_again 5 0) ≡ hex two_buckets_hash }
    ensures sysv { words_of (items_at rehashed_again 6 0) ≡ 2 ∷ 4 ∷ 3 ∷ 2 ∷ 0 ∷ 0 ∷ 0 ∷ 0 ∷ [] }
    ensures found { find_linear_answer rehashed_again 1 (codes "b") ≡ Ok (Some 3) }
{}

/// The sections were not whole, and those that were built are.
fn built_sections_are_whole()
    ensures sysv_before { has_whole_sysv a_shared_object ≡ false }
    ensures gnu_before { has_whole_gnu a_shared_object ≡ false }
    ensures sysv { has_whole_sysv rehashed_again ≡ true }
    ensures gnu { has_whole_gnu rehashed_again ≡ true }
    ensures gnu_32 { has_whole_gnu_32 ≡ true }
    ensures sysv_32 { is_whole_sysv words_32 (listed_names symbols32 2) ≡ true }
{}

#[test]
fn hashes_compute_on_small_images() {
    names_have_hashes();
    hash_sections_are_built();
    symbols_are_reordered();
    built_sections_are_whole();
}

//! Layout, refusals of an update and what an update or a call may read, computed on small images by
//! proof.
#![tactic(auto, unfolding(crate::proofs::Computing::all_words))]

ghost use Rattle.std.specs.Prelude.{[], ◌≡◌, ◌+◌, ◌-◌, ◌^◌, ◌∷◌, length, slice_set, true, Some, None};
ghost use Rattle.elf_types.specs.declared.errors.ElfError.TheVariants.{OutOfFile, TooLarge, TooMany};
ghost use Rattle.elf_types.specs.declared.records.Part.TheVariants as part;
ghost use Rattle.elf_object.specs.Object.{new_section};
ghost use Rattle.elf_object.specs.Joined.{file_bytes};
ghost use Rattle.elf_object.specs.Layout.{placed};
ghost use Rattle.elf_object.specs.Image.{image};
ghost use Rattle.elf_object.specs.Refusal.{refusal, too_many};
ghost use Rattle.elf_object.specs.Due.{update_in_place_due, update_to_due};
ghost use Rattle.elf_object.specs.Calls.{step, shdr_answer, newdata, flag, update_null};
ghost use Rattle.elf_object.specs.Runs.{left_by};
ghost use Rattle.elf_object.specs.Samples.{small32, symbols64, symbols32, tailed, missing, filled_section, shifted32, laid, hollow, two_bytes, third, typed_shdr, with_segments, with_copies, typed_and_aligned, at_place};

/// `SHT_NULL` keeps its header, `SHT_NOBITS` gets a place, and neither moves what follows.
fn sections_without_bytes_take_no_room()
    ensures size { update_null.answer hollow ≡ Ok 472 }
    ensures null { shdr_answer (step update_null hollow) 3
        ≡ Ok (typed_shdr 0 80 8 8) }
    ensures nobits { shdr_answer (step update_null hollow) 4
        ≡ Ok (typed_shdr 8 80 8 8) }
    ensures next { shdr_answer (step update_null hollow) 5
        ≡ Ok (typed_shdr 1 80 8 8) }
    ensures table { (placed hollow).header.shoff ≡ 88 }
    ensures bytes { file_bytes hollow 3 ≡ [] }
{}

/// The image of class 32, greatest byte first: 16 added to each symbol's value changes one byte of
/// each.
fn images_of_class_32_are_written()
    ensures size { update_null.answer shifted32 ≡ Ok 208 }
    ensures bytes { image shifted32 ≡ slice_set (slice_set small32 63 0x10) 79 0x10 }
{}

/// With `ELF_F_LAYOUT` an image may reach its greatest length, and not a byte further.
fn images_may_not_pass_their_limit()
    ensures at_limit { update_null.answer (at_place (2 ^ 40 - 48) symbols64)
        ≡ Ok (2 ^ 40) }
    ensures above { update_null.answer (at_place (2 ^ 40 - 47) symbols64)
        ≡ Err TooLarge }
    ensures at_limit_32 { update_null.answer (at_place (2 ^ 32 - 33) symbols32)
        ≡ Ok (2 ^ 32 - 1) }
    ensures above_32 { update_null.answer (at_place (2 ^ 32 - 32) symbols32)
        ≡ Err TooLarge }
{}

/// Without `ELF_F_LAYOUT` the place of `SHT_NOBITS`, which adds nothing to the length, may not pass
/// it either.
fn places_may_not_pass_the_limit()
    ensures at_limit { update_null.answer (left_by (typed_and_aligned 2 8 (2 ^ 40)) symbols64)
        ≡ Ok 264 }
    ensures above { update_null.answer (left_by (typed_and_aligned 2 8 (2 ^ 41)) symbols64)
        ≡ Err TooLarge }
{}

/// A number that the ELF header does not hold needs a section 0 without bytes of its own.
fn numbers_need_section_0()
    ensures no_section { refusal (with_segments 0xffff)
        ≡ Some TooMany }
    ensures below { too_many (with_segments 0xfffe)
        ≡ None }
    ensures filled { refusal (with_copies 0xff00 filled_section)
        ≡ Some TooMany }
    ensures filled_below { too_many (with_copies 0xfeff filled_section)
        ≡ None }
    ensures null { too_many (with_copies 0xff00 new_section)
        ≡ None }
{}

/// An update that is rejected for a home out of the file reads nothing.
fn refused_updates_are_due_nothing()
    ensures refused { update_null.answer (step (newdata 1 two_bytes) missing) ≡ Err (OutOfFile 2) }
    ensures to { update_to_due (step (newdata 1 two_bytes) missing) [] ≡ 0 }
    ensures in_place { update_in_place_due (step (newdata 1 two_bytes) missing) [] ≡ 0 }
{}

/// An update to a sink is due the homes that are not loaded, and with `ELF_F_LAYOUT` what stays of
/// the base.
fn updates_are_due_what_stays()
    ensures clean { update_to_due tailed [] ≡ 317 }
    ensures ordered { update_to_due (step (flag part.Header true 1) tailed) [] ≡ 3 + 48 }
    ensures laid { update_to_due (step (flag part.Header true 1) (laid tailed)) [] ≡ 3 + 48 + 10 }
    ensures loaded { update_to_due (step (flag part.Header true 1) (laid tailed)) third
        ≡ 3 + 10 }
{}

#[test]
fn updates_compute_on_small_images() {
    sections_without_bytes_take_no_room();
    images_of_class_32_are_written();
    images_may_not_pass_their_limit();
    places_may_not_pass_the_limit();
    numbers_need_section_0();
    refused_updates_are_due_nothing();
    updates_are_due_what_stays();
}

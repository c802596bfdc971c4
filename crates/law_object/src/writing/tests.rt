//! The words for writers, computed by proof: on three blocks, and on small images.
#![tactic(auto, unfolding(crate::proofs::writing::Computed::words))]

ghost use Rattle.std.specs.Prelude.{◌≡◌, ◌+◌, [], ◌∷◌};
ghost use Rattle.law_object.specs.Writing.Lines.{gap_places, in_line, patched};
ghost use Rattle.law_object.specs.Writing.Plan.{base_gaps, fill_between, in_order, plan, written_blocks};
ghost use Rattle.law_object.specs.Writing.Examples.{extents, three_blocks, two_in_order};
ghost use Rattle.elf_object.specs.Samples.{shifted32};

/// Blocks that are not empty by their places, what lies between them, and the bytes of both.
fn blocks_stand_in_a_line()
    ensures order { in_order three_blocks ≡ two_in_order }
    ensures gaps { gap_places 9 0 two_in_order ≡ 0 ∷ 2 ∷ 3 ∷ 4 ∷ 5 ∷ 8 ∷ [] }
    ensures bytes { in_line 9 (λ k. 10 + k) 0 two_in_order
        ≡ 10 ∷ 9 ∷ 12 ∷ 13 ∷ 14 ∷ 15 ∷ 1 ∷ 2 ∷ 18 ∷ [] }
{}

/// Of the gaps, what is below 3 is the base's, and the rest is filled.
fn gaps_are_filled_behind_the_base()
    ensures base { base_gaps 3 9 0 two_in_order ≡ 2 }
    ensures fill { extents (fill_between 3 7 9 0 two_in_order) ≡ (3, 0) ∷ (3, 3) ∷ (8, 1) ∷ [] }
{}

/// Blocks over a device of two bytes, at a length of nine.
fn a_device_is_patched()
    ensures bytes { patched 9 three_blocks (5 ∷ 6 ∷ []) ≡ 5 ∷ 9 ∷ 0 ∷ 0 ∷ 0 ∷ 0 ∷ 1 ∷ 2 ∷ 0 ∷ [] }
{}

/// Where a symbol table alone is edited, it alone is written, and the gap before it filled; the
/// other gaps are empty.
fn what_is_edited_is_written()
    ensures plan { extents (plan shifted32) ≡ (0, 52) ∷ (52, 3) ∷ (56, 32) ∷ (88, 120) ∷ [] }
    ensures written { extents (written_blocks shifted32)
        ≡ (56, 32) ∷ (0, 0) ∷ (52, 0) ∷ (55, 1) ∷ (88, 0) ∷ (208, 0) ∷ [] }
{}

#[test]
fn words_for_writers_compute() {
    blocks_stand_in_a_line();
    gaps_are_filled_behind_the_base();
    a_device_is_patched();
    what_is_edited_is_written();
}

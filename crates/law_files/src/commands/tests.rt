//! What the self test gives, computed by proof. The values were worked out by hand.
#![tactic(auto, unfolding(crate::proofs::commands::Computing::all_words))]

ghost use Rattle.std.specs.Prelude.{◌≡◌, [], ◌∷◌, length, codes};
ghost use Rattle.elfkit_outcomes.specs.elf_object.Image.{image};
ghost use Rattle.tool_output.specs.Marks.{said};
ghost use Rattle.tool_output.specs.declared.outputs.Side.TheVariants.{Out};
ghost use Rattle.elfkit_outcomes.specs.rebuild_model.Generated.{generated_and_shifted};
ghost use Rattle.tool_output.specs.Made.{made_file};
ghost use Rattle.elfkit_outcomes.specs.Selftest.{selftest_outcome};
ghost use Rattle.elfkit_outcomes.specs.Samples.{ends_with};
ghost use Rattle.law_files.specs.Commands.Samples.{greatest_lines};
ghost use Rattle.law_files.specs.Commands.SelftestSizes.{selftest_bytes, selftest_sum, selftest_lines};

use crate::commands::laws::selftest_law;

/// The closed forms at one, eight and ten sections, and at the greatest number of them.
fn sizes_are_computed()
    ensures bytes_1 { selftest_bytes 1 ≡ 480 }
    ensures sum_1 { selftest_sum 1 ≡ 5 }
    ensures bytes_8 { selftest_bytes 8 ≡ 1168 }
    ensures sum_8 { selftest_sum 8 ≡ 180 }
    ensures lines { selftest_lines 60000 ≡ greatest_lines }
{}

/// The greatest self test: five lines, status 0, and an image of 6,398,160 bytes.
fn greatest_self_test_is_known()
    ensures outcome { selftest_outcome (codes "O") 60000
        ≡ ends_with
        (said Out greatest_lines)
        0
        (made_file (codes "O") (image (generated_and_shifted 60000)) ∷ []) }
    ensures bytes { length (image (generated_and_shifted 60000)) ≡ 6398160 }
{
    selftest_law();
}

#[test]
fn self_tests_compute() {
    sizes_are_computed();
    greatest_self_test_is_known();
}

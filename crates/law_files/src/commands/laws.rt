//! Theorems on what the commands make and give. Each is the contract of a function that does
//! nothing: what it ensures holds, and is proved.

ghost use Rattle.law_files.specs.Commands.SelftestLaw.{SelftestLaw};
ghost use Rattle.elfkit_outcomes.specs.rebuild_model.Laws.{SortedAreBuilt};

use elfkit_outcomes::prelude::{reopen_law, settling_keeps_items};

/// For each number of sections from 1 to 60,000, what the self test generates is an object, its
/// update is not rejected, and the command gives status 0, the image, and five lines. The image's
/// length and the lines are in closed form.
pub fn selftest_law()
    ensures { SelftestLaw }
{
    reopen_law();
    settling_keeps_items();
}

/// GNU's hash section is rejected as unsorted exactly where the symbols are not in the order that
/// it needs.
#[tactic(auto, using(crate::proofs::commands::SortedLemmas::sorted_are_built))]
pub fn sorted_are_built()
    ensures { SortedAreBuilt }
{}

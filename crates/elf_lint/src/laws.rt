//! What the findings on hash sections tell of lookups. The contract of a function that does
//! nothing: what it ensures holds of every image, and is proved.

ghost use Rattle.elf_lint.specs.Reach.{FoundAsListed};

/// By a hash section in which no rule finds anything, each name finds what it finds among all
/// symbols of the table to which the section links, or is not found as there.
#[tactic(auto, using(crate::proofs::ReachLaws::found_as_listed))]
pub fn found_as_listed()
    ensures { FoundAsListed }
{}

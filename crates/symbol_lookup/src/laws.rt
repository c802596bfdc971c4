//! What the two ways to look a symbol up have in common. The contract of a function that does
//! nothing: what it ensures holds of every object, and is proved.

ghost use Rattle.symbol_lookup.specs.Laws.{HashReach};

/// In a hash section that is whole, each name finds what it finds among all symbols of the table to
/// which the section links, or is not found as there.
#[tactic(auto, using(crate::proofs::ReachLaws::hash_reach))]
pub fn hash_reach()
    ensures { HashReach }
{}

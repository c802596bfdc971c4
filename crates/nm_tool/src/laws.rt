//! A theorem on the order of the rows: the contract of a function that does nothing.

ghost use Rattle.nm_tool.specs.Order.{OrderLaw};

/// The entries in order are a permutation of the list in which none comes before an earlier one,
/// and no other list is one: equal names are told apart by the indexes.
#[tactic(auto, using(crate::proofs::Sorting::order_law))]
pub fn order_law()
    ensures { OrderLaw }
{}

//! The writes of an update.

use crate::lent::KeptWrite;
use elf_types::List;

/// The writes of an update in place, which C is to do in their order.
#[derive(Drop)]
pub struct PlannedWrites {
    /// The writes.
    pub list: List<KeptWrite>,
}

//! The writes of an update in place, for C: which they are, and how each is handed over.

mod planning;
mod records;
mod writes;

pub use planning::plan_writes;
pub use records::WriteRecord;
pub use writes::{give_write, give_write_bytes};

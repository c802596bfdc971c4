//! The object of a plan, in memory: its headers as the plan lists them, over the base up to the
//! plan's tail, and in each section the bytes of its range, read as items of its kind.
//!
//! `object_of` creates it from any plan that `is_ready` accepts, and `rebuild` from the plan of an
//! object without some sections.
#![tactic(auto)]

mod filling;
mod fitting;
mod headers;
pub mod laws;
mod making;
pub mod prelude;
mod reading;
mod rebuilding;

pub use fitting::is_ready;
pub use making::object_of;
pub use rebuilding::rebuild;

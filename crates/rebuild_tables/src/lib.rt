//! Symbol tables, and the extended indexes of their symbols, as strip rebuilds them: read from the
//! base of an open object some rows at a time, with the new section numbers, and held in their file
//! form. So no more is held of a table than what is made of it.
#![tactic(auto)]

mod finding;
mod holding;
mod homes;
pub mod prelude;
mod reading;
mod rows;

pub use finding::find_rows;
pub use holding::hold_rows;
pub use homes::{extent, is_home_out};
pub use rows::{FollowedRows, TableAt};

//! What becomes of each section that is kept: its links, group members, symbols and extended indexes
//! follow the new numbers, and the names may be rebuilt. And where the base of a program ends.
#![tactic(auto)]

mod homes;
mod keepers;
mod keeping;
mod lists;
mod making;
mod naming;
mod numbers;
pub mod prelude;
mod rebuilding;
mod tails;

pub use homes::bytes_at_home;
pub use keepers::Keeper;
pub use keeping::keep_sections;
pub use naming::{Names, check_names};
pub use numbers::kept_numbers;
pub use rebuilding::Rebuilt;
pub use tails::tail_of;

//! The image of the self test: so many sections with data, a symbol for each, and the tables of
//! their names, made by the library's own calls.
#![tactic(auto)]

mod generating;
mod names;
pub mod prelude;
mod sections;
mod symbols;
mod tables;

pub use generating::generate;
pub use names::numbered_name;

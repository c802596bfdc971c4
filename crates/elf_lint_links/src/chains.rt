//! The rules of elflint on notes and version records, which are in chains.

mod by_chain;
mod entries;
mod notes;
mod reach;
mod versions;

pub use notes::bad_notes;
pub use versions::bad_versions;

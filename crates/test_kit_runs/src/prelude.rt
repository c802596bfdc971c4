//! What `test_kit_runs` passes on of the crates below it.

pub use elfkit_run::prelude::{NmOptions, ReadelfParts, StringsOptions};

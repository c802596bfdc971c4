//! What `law_rebuild` passes on of the crates below it.

pub use hash_model::prelude::occupies_file;
pub use law_object::prelude::{reopen_law, settling_keeps_items};

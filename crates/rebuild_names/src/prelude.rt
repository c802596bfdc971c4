//! What `rebuild_names` passes on of the crates below it.

pub use rebuild_numbers::kept::{
    extended_tables, is_group, is_kept, is_symbol_table, renews_names,
};
pub use strtab_shared::bytes::SharedBytes;
pub use strtab_shared::prelude::{Items, XlateError, ehdr_size, phdr_size, to_memory};
pub use strtab_shared::{NOWHERE, SharedStrings};

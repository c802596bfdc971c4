//! What strip keeps of an object, as it looks at it: the extended indexes of each symbol table, and
//! whether the table of the names is rebuilt.
//!
//! All is told by the section headers. Each call is a pass over them, and reads nothing.

mod headers;
mod kept;
mod names;
mod tables;

pub use headers::{is_group, is_index_table, is_symbol_table};
pub use kept::is_kept;
pub use names::renews_names;
pub use tables::extended_tables;

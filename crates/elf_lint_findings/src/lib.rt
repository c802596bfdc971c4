//! What the rules of elflint share: findings with their places and lines, what the rules look at,
//! and the forms of a rule that looks at each section or each segment.
#![tactic(auto)]

pub mod by_header;
pub mod by_section;
pub mod by_segment;
pub mod data;
pub mod findings;
pub mod looking;
pub mod places;
pub mod prelude;

pub use by_header::{HeaderRule, each_header_by};
pub use by_section::{SectionRule, each_section_by};
pub use by_segment::{SegmentRule, each_segment};
pub use data::item_at;
pub use findings::{FindingLine, NoFindings, find, find_if};
pub use looking::{
    info_is_section, is_allocated_section, is_intact, is_looked_at, is_plain, is_plain_of,
    is_ragged, is_relocation_section, is_string_table, is_symbol_table_header, linked_header,
    object_class,
};
pub use places::Place;

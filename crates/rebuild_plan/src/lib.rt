//! The plan of an image with the kept sections, range by range of an open file: a section that
//! stays as it is is a range of the file and is not read; the headers, the tables and the items
//! that follow are made and held.
//!
//! `plan_rebuilt` returns where each part is and where its bytes are. It has two steps,
//! `arrange_rebuilt` and `plan_arranged`; a caller may check more between them. Other images whose
//! sections are ranges are made by the same `Contents`.
#![tactic(auto)]

mod arranged;
mod arranging;
mod checks;
mod contents;
mod homes;
mod keeping;
mod planning;
mod plans;
pub mod prelude;
mod ranges;
mod rebuilding;
mod segments;

pub use arranged::Arranged;
pub use arranging::arrange_to;
pub use checks::{check_index, check_segments};
pub use contents::Contents;
pub use homes::home_range;
pub use keeping::keep_contents;
pub use planning::{arrange_contents, plan_arranged};
pub use plans::RangedPlan;
pub use rebuilding::{arrange_rebuilt, plan_rebuilt};

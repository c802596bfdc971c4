//! The sections of an object: their headers, their marks and their cells.
//!
//! [`Sections`] makes the cell of a section when it is first lent. Until then the section's header
//! tells the cell, which takes 4 bytes. The headers are those of the table that was opened, a
//! [`HeaderTable`], and are copied once one of them changes. So an image of many sections is
//! opened, and dropped, in the time in which its headers are read.
#![tactic(auto)]

mod at;
mod headers;
mod lists;
mod making;
pub mod prelude;
mod sections;
mod tables;

pub use at::CellAt;
pub use sections::Sections;
pub use tables::HeaderTable;

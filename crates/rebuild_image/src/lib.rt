//! What an image is written from that is copied out of FILE range by range: the headers, tables and
//! items that are made are held in their file form, and a section that stays as it is is a range of
//! FILE. The places after the base of a program are found from headers and sizes alone.
//!
//! - `listed`: the layout of an image by its headers: where its parts are, and the headers with
//!   these places; of the sections only the sizes are needed.
//! - `ranges`: an image that is copied and not held: each part, and what is between parts, is a
//!   range of a source or of held bytes.
#![tactic(auto)]

mod arranging;
mod fronts;
mod holding;
mod items;
pub mod laws;
pub mod listed;
mod places;
mod planning;
pub mod prelude;
pub mod ranges;
mod streaming;

pub use arranging::arrange_listed;
pub use fronts::{hold_header, hold_sections, hold_segments};
pub use holding::{FrontRanges, hold_front};
pub use items::{hold_items, hold_shared};
pub use planning::plan_listed;
pub use streaming::{Streamed, stream_listed};

//! Tools over objects: what a step over a descriptor and the two outputs does, and what a tool says
//! of an image.
//!
//! A command that speaks of objects is an `ObjectTool`; `show_file` shows its report on the image
//! that a file holds, or on each member of an archive, `show_object` on an open descriptor. What it
//! says of each section, or of each section of a name, is a `SectionTool`. A command that takes no
//! archive begins by `begin_image`.
//!
//! - `at_hand`: the bytes of sections that are loaded and not edited: strings and items are read
//!   from them alone.
#![tactic(auto)]

pub mod archives;
pub mod at_hand;
pub mod crowded;
pub mod files;
pub mod images;
pub mod items;
pub mod names;
pub mod prelude;
pub mod sections;
pub mod symbols;
pub mod tools;

pub use archives::show_archive;
pub use crowded::{is_crowded, is_out};
pub use files::show_file;
pub use images::begin_image;
pub use items::{item_there, phdr_at, stop_for};
pub use names::{Bracketed, each_section_named, has_section_name, section_name_or_stop, string_at};
pub use sections::{SectionTool, each_section, section_header};
pub use symbols::symbol_place_or_stop;
pub use tools::{ObjectTool, refuse, show_object};

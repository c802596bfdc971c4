//! What changes of copy are made of: marks of the sections that get new names, a new table of all
//! sections' names, the header of an added section, and the definitions of a step of copy.
//!
//! - `begin_table` begins the table; `place_text`, `place_found` and `place_added` add names to it;
//!   `finish_names` ends it. Each name is held once, in order of first use, and each section has
//!   the place of its name.
//! - `mark_of` and `new_name` tell which new name a section has by its mark.
//! - specs/Edits says what a step finds (`Finds`), which object it leaves (`Alters`), and which
//!   fault it returns.
#![tactic(auto)]

mod building;
mod marks;
mod naming;
mod placing;
pub mod prelude;
mod sections;

pub use building::{begin_table, changes_names, finish_names, place_added};
pub use marks::{mark_of, new_name, no_marks, set_mark};
pub use naming::{Naming, NewNameTable, place_at};
pub use placing::{Making, hold_names, place_found, place_text};
pub use sections::{added_header, changes_allocation, or_no_section};

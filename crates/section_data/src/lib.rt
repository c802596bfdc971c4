//! One section's data: its home in the image as opened, the home's bytes once they are read, and
//! its pieces.
//!
//! A [`Cell`] reads its home at the first use and translates it once. Items of kind `Bytes` are the
//! home's bytes themselves, held once; the cell reserves memory for a copy, so that a later loan
//! for writing takes none. A piece becomes own by an edit or a loan for writing. Most callers use
//! an `Elf` of elf_descriptor, which holds a cell for each section.
//!
//! - `Cell::unread`: the cell of a section by its header; it reads nothing.
//! - `Cell::load`: reads the home, once.
//! - `Cell::item`: an item of a piece, by value.
//! - `Cell::lend_list`: the items of a piece for writing; it makes the piece own.
//! - `Cell::unload`: frees what can be read again.
//!
//! From `test_descriptor`:
//!
//! ```text
//! fn half_at(
//!     cell: &mut Cell,
//!     source: &mut MemSource,
//!     form: ClassAndOrder,
//!     i: u64,
//! ) -> Result<u16, ElfError>
//!     requires { LiesIn cell.old (length source.old.bytes) }
//! {
//!     cell.load(source)?;
//!     cell.check_lend(0, Kind::Half, form.0)?;
//!     cell.item::<u16>(0, i, form.0, form.1)
//! }
//! ```
#![tactic(auto)]

mod blocks;
mod cell;
mod first;
mod held;
mod home;
mod item;
mod kept;
mod listed;
mod others;
mod piece;
pub mod prelude;
mod raw;
mod room;
mod spans;
mod storable;
mod used;

pub use cell::Cell;
pub use first::FirstPieces;
pub use home::Home;
pub use item::Item;
pub use listed::Listed;
pub use piece::Piece;
pub use raw::ended_len;
pub use storable::Storable;

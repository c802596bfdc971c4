//! The bytes of sections that are loaded and not edited.
//!
//! The bytes of a section of strings are given up to its last NUL: no string that begins after it
//! can be read, and so none is looked for there. The bytes of items are read item by item, or
//! searched for items that pass a test.

pub mod held;
pub mod items;
pub mod scans;
pub mod strings;

pub use held::{held_bytes, load};
pub use items::{ItemBytes, Span, item_bytes, item_of, items_at_hand, most_items};
pub use scans::{ItemTest, next_found};
pub use strings::{is_past, string_bytes, strings_end, table_string_from, up_to_last_nul};

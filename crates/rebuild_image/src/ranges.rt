//! An image that is copied and not held: each of its parts is a range of the bytes of a source, or
//! of bytes that are held besides, and so is what is between the parts. Whoever makes a large image
//! of another one holds only what is new in it.

mod checks;
pub mod images;
pub mod laws;
pub mod parts;
pub mod ranges;

pub use images::RangedImage;
pub use parts::RangedParts;
pub use ranges::{ByteRange, PartRanges};

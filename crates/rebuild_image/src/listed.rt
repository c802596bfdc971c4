//! The layout of an image by its headers: where its parts are, and the headers with these places.
//! What is in the sections need not be held for it, only how much it is.

mod listed;
mod parts;
mod stored;

pub use listed::HeaderListing;
pub use parts::list_parts;
pub use stored::store_places;

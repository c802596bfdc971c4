//! Two sources as one: the bytes of the first, and after them those of the second. What is copied
//! out of two files goes through such a pair.

pub mod pairs;
mod reading;

pub use pairs::SourcePair;

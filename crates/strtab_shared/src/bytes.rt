//! Bytes that are held once and may be at many places: ranges of a text, one after another.
//! Contracts see them as the bytes that they are. Whoever makes long bytes of a text holds the text
//! and where the ranges are in it, and not what they make.

mod bytes;
mod comparing;
mod copying;
mod parts;
mod pieces;
mod sharing;
mod stretches;
mod texts;

pub use bytes::SharedBytes;

//! Edits of an object, which read nothing.

mod flags;
mod headers;
mod pieces;
mod sections;
mod segments;

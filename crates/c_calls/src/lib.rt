//! The calls of the library for C, over open objects and archives: each is the call of the plain
//! object, its value goes into C's memory, and its error becomes a number.
//!
//! - `reading`: calls that read an object.
//! - `editing`: calls that edit an object, which stays as it was where a call is rejected.
//! - `updating`: the update of an object: its parts are placed, and its image goes into C's memory.
//! - `writes`: the writes of an update in place: which they are, and how each is handed over.
//! - `layout`: the layout of an image by its headers: where each part is, and the headers' bytes.
//! - `archives`: calls on an archive.
//! - `translation`: translation between the two byte orders, in C's own buffer.
#![tactic(auto)]

pub mod archives;
pub mod editing;
pub mod layout;
pub mod reading;
pub mod translation;
pub mod updating;
pub mod writes;

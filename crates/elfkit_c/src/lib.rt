//! The exports for C: functions `elfkit_..` over the calls of the plain object or of an archive;
//! capi/ makes libelf's names of them, and rust/elfkit its crate.
//!
//! An object, an archive, the writes of an update or the layout of an image are a handle, one
//! pointer, and the image is bytes that C lends and gets back. Each call returns a number, 0 where it is not rejected, and
//! gives its value in C's memory.
//!
//! What C owes at each call: a pointer that is a parameter is not null and is aligned, and what it
//! points to is C's, of that length, and used by nobody else until the call returns; a handle is
//! all zeros, or what a call of this library left there, and one thread at a time uses it.
#![tactic(auto)]

mod archives;
mod editing;
mod hashes;
mod headers;
mod items;
mod layout;
mod opening;
mod strings;
mod translation;
mod updating;
mod versions;
mod writes;

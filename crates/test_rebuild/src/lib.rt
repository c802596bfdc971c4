//! Tests of what strip, copy, strip -f and unstrip are made of. They demand values, since a call
//! that always ran out of memory would meet the contracts too.
//!
//! - `strip`: which sections strip removes, and what follows in those that stay.
//! - `copy`: what copy makes, and why it makes nothing.
//! - `split`: the debug half of a program, and halves that are merged.
//! - `making`: the parts by which commands make an object.
//! - `stream`: listed headers and the places of their parts, what is held in its file form, and
//!   bytes that share a text.
//! - `range`: images whose parts are ranges of bytes.
#![tactic(auto)]

pub mod copy;
pub mod making;
pub mod range;
pub mod split;
pub mod stream;
pub mod strip;

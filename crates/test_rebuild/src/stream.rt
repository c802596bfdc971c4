//! Tests of listed headers and of the places of their parts, of what is held in its file form, and
//! of bytes that share a text. They demand values, since a call that always ran out of memory would
//! meet the contracts too.

#[cfg(test)]
mod behind;
#[cfg(test)]
mod forms;
#[cfg(test)]
mod listing;
#[cfg(test)]
pub mod sharing;
#[cfg(test)]
mod streaming;

//! Tests of lookups by name.

#[cfg(test)]
mod chains;
#[cfg(test)]
mod hashes;
#[cfg(test)]
mod linear;
#[cfg(test)]
mod questions;
#[cfg(test)]
mod small;

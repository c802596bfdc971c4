//! Tests of updates in place. They demand that an update ends where it should, since one that
//! always ran out of memory would meet the contracts too.

#[cfg(test)]
mod edits;
#[cfg(test)]
mod endings;
#[cfg(test)]
mod files;
#[cfg(test)]
mod reads;
#[cfg(test)]
mod refusals;
#[cfg(test)]
mod rows;
#[cfg(test)]
mod tasks;
#[cfg(test)]
mod writes;

//! Tests of the debug half of a program and of halves that are merged. They demand that each ends,
//! since one that always ran out of memory would meet the contracts too.

#[cfg(test)]
mod answers;
#[cfg(test)]
mod halves;
#[cfg(test)]
mod images;
#[cfg(test)]
mod joins;
#[cfg(test)]
mod mismatches;
#[cfg(test)]
mod refusals;

//! Tests of calls -i, over files and outputs in memory: what it writes into a file, and what it
//! leaves of one where something is rejected or a call fails.

#[cfg(test)]
mod edits;
#[cfg(test)]
mod faults;
#[cfg(test)]
mod images;
#[cfg(test)]
mod refusals;

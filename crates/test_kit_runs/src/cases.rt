//! Runs of elfkit as rows of a table: the files that a run finds, the calls that fail, how it ends
//! and what it leaves. What checks a row is here, over calls without a clause, so that a test of a
//! command is a table and one call.

mod cases;
mod failures;
mod files;
mod images;

pub use cases::{Case, HeldAfter, RUN, are_so, are_so_in_all_forms, is_so, left_by};
pub use failures::{FailingCall, Outcome, State, fail_so};
pub use files::{Earlier, FileFaults, FoundFile, GOOD, Portion, Stored, bytes_of};
pub use images::{EIGHT, FIVE, GROWN};

//! Runs of elfkit and of its tools over files, objects and outputs in memory, for the tests of the
//! commands.
//!
//! No call here has a clause. So what a test proves holds nothing of the definitions that the
//! program's clauses cite, which are many, and a test that is added proves nothing again but its
//! own crate.
//!
//! - `cases`: runs as rows of a table: the files that a run finds, the calls that fail, how it ends
//!   and what it leaves.
#![tactic(auto)]

pub mod cases;
mod objects;
pub mod prelude;
mod runs;

pub use objects::{
    Elflint, Lines, Nm, OwnCall, Readelf, Said, Size, asked, asked_by_elflint, readelf_of, said_by,
    strings_of,
};
pub use runs::{
    Bytes, DONE, Ending, Failing, GivenFiles, NOTHING, REFUSED, Ran, RunAndFile, add_file, ends,
    numbered, refuses, run_leaving, run_line, run_words, same_file, shows,
};

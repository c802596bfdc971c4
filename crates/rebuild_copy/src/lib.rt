//! The plan of an image with the changes of copy, range by range of an open file: what is not
//! changed is a range of the file and is not read; the bytes that sections are given, and the
//! tables that change, are held.
//!
//! - `arrange_copied`: the headers with their places and where the bytes of each section are;
//!   `copy_of` of elf_copy makes the object of it.
//! - `plan_copied`: where each part of the file is, and where its bytes are; copy_tool writes it.
#![tactic(auto)]

mod adding;
mod arranging;
mod changing;
mod edits;
mod finding;
mod flags;
mod holding;
mod indexing;
mod naming;
mod planning;
mod renaming;
mod rows;
mod storing;
mod tables;
mod updating;

pub use planning::{arrange_copied, plan_copied};

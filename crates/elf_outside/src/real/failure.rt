//! What the system said when a call failed.

use std::io::Error;

/// What was tried of a file.
#[derive(Clone, Copy, Debug, PartialEq, Eq)]
pub enum Attempt {
    /// To open it.
    Open,
    /// To make it.
    Create,
    /// To read it, once it was opened.
    Read,
    /// To write it.
    Write,
}

/// A call on a file that failed.
#[derive(Drop)]
pub struct Failure {
    /// The name that the file was handed out under.
    pub name: String,
    /// What was tried.
    pub attempt: Attempt,
    /// What the system said.
    pub why: Error,
}

//! The script of `elfkit calls`, a text with a call of the library on each line: the types of
//! calls, and the reader of scripts.
//!
//! `read_script` reads a whole script before a call is made. It runs none: the calls name sections
//! and pieces by their numbers, which the object that they are run on may not have.
#![tactic(auto)]

pub mod calls;
pub mod faults;
mod fields;
mod flags;
mod lines;
mod numbers;
pub mod script;
mod sets;
mod words;

pub use calls::{Call, Calls, EhdrSet, ItemSet, PhdrSet, ShdrSet};
pub use faults::{ScriptFault, Why};
pub use script::{MAX_SCRIPT, read_script, script_constants_are};

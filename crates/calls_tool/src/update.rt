//! The command `calls` with `-o` and `-i`: the calls of a script are run on the image of a file,
//! and the image that they leave is written to a new file, or into that file in place.
//! `write_calls` and `change_calls` do so with a descriptor, `CallsEdit` and `CallsChange` with
//! what a file holds.

pub mod changes;
pub mod changing;
pub mod edits;
pub mod outputs;
pub mod writing;

pub use changes::CallsChange;
pub use changing::change_calls;
pub use edits::CallsEdit;
pub use outputs::CallsOutput;
pub use writing::write_calls;

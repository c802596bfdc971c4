//! A command that makes an object of the image of an open file, and writes it to a new file, or says
//! why it writes none. `write_object` does so with a descriptor. An `ImageCommand` is a command of
//! that form; `edit_named` opens the file for it, begins the image and closes the file, and says why
//! it does not.

pub mod edits;
pub mod named;
pub mod refusing;
pub mod writing;

pub use edits::{ImageCommand, ImageEdit};
pub use named::edit_named;
pub use refusing::refuse_for;
pub use writing::write_object;

//! Commands that make files or change them, over a set of files.
//!
//! What puts an image to a sink is an `Image`, as an object is. `make_file` makes a file of one,
//! `write_image` does so for a command, and `write_images` makes two. A command that writes while
//! it still reads its file is a `FileEdit`, and `edit_file` opens and closes that file. One that
//! changes that file in place is a `FileChange`, for `change_file`.
//!
//! - `elf_images`: a command that makes an object of the image of an open file and writes it to a
//!   new file: an `ImageCommand`.
#![tactic(auto)]

pub mod changed;
pub mod edited;
pub mod elf_images;
pub mod images;
pub mod making;
pub mod objects;
mod opening;
pub mod prelude;
pub mod writing;

pub use changed::{FileChange, change_file};
pub use edited::{FileEdit, edit_file};
pub use images::Image;
pub use making::make_file;
pub use writing::{write_image, write_images};

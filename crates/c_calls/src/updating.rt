//! The update of an object which is open for C: its parts are placed, and its image is put into C's
//! memory.

mod layout;
mod room;
mod updates;

pub use layout::lay_out_object;
pub use updates::put_image_in_buffer;

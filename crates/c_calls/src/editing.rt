//! The calls that edit an object which is open for C: each is the call of the plain object, of what
//! C hands over, with a number for its error. The object stays open, and is as it was where the
//! call is rejected.

mod flags;
mod headers;
mod pieces;
mod records;
mod sections;

pub use flags::{set_fill, set_flags};
pub use headers::{new_phdrs, store_ehdr, store_phdr, store_shdr};
pub use pieces::{add_bytes, put_piece_bytes};
pub use records::{ehdr_from, phdr_from, shdr_from};
pub use sections::append_new_section;

//! The headers of an ELF image, read before anything else: what a file is, its ELF header, and its
//! two header tables.
//!
//! `Elf::begin` of elf_descriptor calls `read_front`. Use it alone where the headers are all that
//! is needed.
//!
//! - `kind_of_source`: whether a source is an ELF image, an archive or another file, by at most
//!   eight bytes.
//! - `read_head`: the ELF header and the true counts, after extended numbering; it takes no memory.
//! - `read_front`: these and both tables of headers, as a `Front`.
//!
//! From `test_formats`:
//!
//! ```text
//! fn is_read(rt: &HostRuntime, src: &mut MemSource, shape: Shape, header: &Ehdr) -> bool {
//!     match read_front(rt.alloc(), src) {
//!         Ok(front) => {
//!             is_front(rt, &front, shape, header)
//!                 && same(rt, &src.asked(), &size_of_front(shape, header.class))
//!         }
//!         Err(e) => failed(rt, e),
//!     }
//! }
//! ```
#![tactic(auto)]

mod counts;
mod file_kinds;
mod fronts;
mod headers;
pub mod prelude;
mod tables;

pub use counts::Counts;
pub use file_kinds::{FileKind, kind_of_source};
pub use fronts::{Front, Head, read_front, read_head};

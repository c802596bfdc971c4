//! Archives in the format of `ar` (ar.h, and the forms of System V and GNU): a walk over the
//! members, with their long names resolved, a source over the body of each, and the table of
//! symbols.
//!
//! An archive is only read.
//!
//! - `Ar::begin`: opens an archive over a source; with an error it hands the source back.
//! - `Ar::next`: the header of the next member, or None at the end.
//! - `Ar::body`: a source over the body of a member, by its header; `into_inner` returns the
//!   archive.
//! - `Ar::member`: a source over the body of a member, by the place of its header.
//! - `Ar::arsym`: the symbols that the archive lists, each with the place of its member.
//!
//! From `test_formats`:
//!
//! ```text
//! fn next_is<S: Source>(rt: &HostRuntime, archive: &mut Ar<S>, member: Member) -> bool {
//!     match archive.next() {
//!         Ok(Some(header)) => is_placed(rt, &header, member) && is_owned(rt, &header),
//!         Ok(None) => other(rt, &"the end of the archive", "a member"),
//!         Err(e) => failed(rt, e),
//!     }
//! }
//! ```
#![tactic(auto)]

mod archive;
mod entries;
mod headers;
mod names;
mod numbers;
mod symbols;
mod walk;

pub use archive::Ar;
pub use headers::{ArHdr, constants_are};
pub use symbols::{ArSym, ArSyms};

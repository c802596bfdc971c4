//! Where the parts of an ELF image are: one after another, or where the caller puts them, and which
//! of them share a byte.
//!
//! An update places its parts by `place`; elflint looks for parts that overlap by `overlap`.
//!
//! - `place`: the places of all parts and the length of the image, or `Overlap` or `TooLarge`.
//! - `overlap`: the first part that a later one meets, and the next one after it.
//! - `ranks_by_position`: the parts in the order of their places.
//! - `rounded_within`: a place rounded up to an alignment, or None above a limit.
//!
//! From `elf_update_plan`:
//!
//! ```text
//! fn place_listed<S: Source>(elf: &Elf<S>, parts: Parts) -> Result<PlacedParts, ElfError>
//!     ensures ok { IfOk result (λ placed. placing parts elf.now.o.layout (length elf.now.o.base)
//!         elf.now.o.header.class ≡ Ok placed.places) }
//!     ensures parts { IfOk result (λ placed. placed.parts ≡ parts) }
//!     ensures err { IfErr result (IsUnplaced (placing parts elf.now.o.layout
//!         (length elf.now.o.base) elf.now.o.header.class)) }
//! {
//!     let class = elf.ehdr().class;
//!     match place(elf.alloc(), &parts, has_layout(elf), elf.base_len(), class) {
//!         Ok(places) => Ok(PlacedParts { parts, places }),
//!         Err(e) => Err(e),
//!     }
//! }
//! ```
#![tactic(auto)]

mod caller;
mod capping;
mod meeting;
mod order;
mod parts;
mod placing;
mod rounding;

pub use capping::capping_law;
pub use meeting::{overlap, ranks_by_position};
pub use parts::{PartAt, Parts, Places};
pub use placing::place;
pub use rounding::rounded_within;

//! Writing an image (elf_update of elf(3E)): its parts in the order of their places, and the fill
//! between them.
#![tactic(auto)]

mod copies;
mod data;
mod descriptors;
pub mod entries;
mod fronts;
mod items;
mod pages;
mod parts;
pub mod prelude;
mod puts;
mod rows;
mod updates;
mod walks;

pub use copies::copy_at_hand;
pub use elf_update_plan::update_null;
pub use pages::{PAGE_SIZE, Page, page_bytes};
pub use parts::{ImageParts, Origin, PieceExtent};
pub use puts::{put_fill, put_range};
pub use updates::{PlannedParts, ground_of, plan_update, update_to};
pub use walks::{Ground, put_image};

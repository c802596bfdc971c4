//! The rules of elflint on hash sections: whether each is whole.
#![tactic(auto)]

mod gnu;
mod gnu_sections;
mod hashes;
mod listed;
mod paths;
mod sysv;
mod words;

pub use hashes::{gnu_hashes_not_whole, hashes_not_whole};

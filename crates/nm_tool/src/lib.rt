//! The tool nm: its options, which symbols are listed and in what order, and their rows (POSIX nm).
//!
//! - `options`: the record of the options, which elfkit_words fills from the command line.
//! - `listed`: which symbols are listed; `order`: in what order.
//! - `rows`: a symbol as a row, in each of the forms.
//! - `tool`: nm of an object, and of the objects of an archive.
//! - `laws`: theorems on the order of the rows; no code.
#![tactic(auto)]

mod at_hand;
mod copied;
mod form;
mod front;
mod headers;
mod kept;
mod laws;
mod letters;
mod listed;
mod options;
mod order;
mod ordered;
mod pools;
mod ranked;
mod rows;
mod symbols;
mod tool;

pub use laws::order_law;
pub use options::NmOptions;
pub use tool::{NmTool, nm};

//! The rules of elflint on what a section links to, and on what is in string tables, dynamic
//! sections, and chains of notes and version records.
//!
//! A rule here follows a link or reads bytes; a rule on a section's header alone is in
//! elf_lint_headers.
//!
//! - `chains`: the rules on notes and version records, which are in chains.
#![tactic(auto)]

pub mod chains;
mod dynamic;
mod links;
mod string_tables;

pub use dynamic::dynamic_without_end;
pub use links::{
    dynamic_without_strings, hashes_without_symbols, is_linked_wrongly,
    relocations_without_symbols, symbols_without_strings,
};
pub use string_tables::{tables_without_first_nul, tables_without_last_nul};

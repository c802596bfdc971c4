//! Where an image holds its symbols and their names, by its headers alone: what nm reads of an
//! image for which no descriptor is begun.
#![tactic(auto)]

mod tables;

pub use tables::{FrontSymbols, PlainTable, front_symbols, symbol_count};

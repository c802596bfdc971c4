//! The rules of elflint on symbols and relocations.
#![tactic(auto)]

mod by_relocation;
mod by_symbol;
mod relocations;
mod scans;
mod sound;
mod symbols;

pub use relocations::relocations_by_no_symbol;
pub use sound::all_symbols_sound;
pub use symbols::{
    local_symbols_among_the_others, other_symbols_among_the_local, symbol_0_in_use,
    symbols_of_no_section, unreadable_symbol_names,
};

//! String tables: the bytes of one (gABI chapter 4, "String Table") are built from names, each name
//! once and in order of first use.
//!
//! strtab_shared builds tables from names of an older table, and holds what they share once.
//!
//! - `Strings::new`: the table without names; it takes no memory.
//! - `Strings::add`: the place of a name, which is appended where it is new.
//! - `Strings::finish`: the bytes of the table.
//! - `uses_have_places`: a theorem for callers: a name keeps its place while more names are added.
//!
//! From `elf_calls_generate`:
//!
//! ```text
//! pub(crate) fn make_symbols(alloc: Global, n: u32) -> Result<(Syms, Octets), ElfError>
//!     requires { n ≤ 60000 }
//!     ensures symbols { IfOk result (λ both. both.0 ≡ symbols_to n n) }
//!     ensures strings { IfOk result (λ both. both.1 ≡ table (generated_symbol_names n)) }
//!     ensures err { IfErr result (λ e. e ≡ ElfError.Memory) }
//! {
//!     let mut strings = Strings::new(alloc);
//!     let mut symbols = Syms::new(alloc);
//!     if let Err(e) = symbols.push(NULL_SYMBOL) {
//!         return Err(e);
//!     }
//!     if let Err(e) = add_symbols(alloc, &mut symbols, &mut strings, n) {
//!         return Err(e);
//!     }
//!     match strings.finish() {
//!         Ok(table) => Ok((symbols, table)),
//!         Err(e) => Err(e),
//!     }
//! }
//! ```
#![tactic(auto)]

mod entries;
mod laws;
mod strings;

pub use laws::uses_have_places;
pub use strings::Strings;

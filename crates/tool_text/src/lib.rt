//! Texts and lists of them, as a command line has them, and the radix of numbers.
//!
//! A text is bytes to a contract. elfkit_words reads the arguments of a command line as a command.
//!
//! - `Args::new`: an empty list of texts; `copy_of` copies texts.
//! - `Args::add`: appends a copy of a text, or returns `Memory`.
//! - `Args::get`: the text at an index; `as_slice` lends all.
//! - `Text::copy_of`: a text of its own; `as_str` and `as_bytes` lend it.
//! - `Radix`: decimal, octal or hexadecimal, as `-t` names it.
//!
//! From `test_kit_runs`:
//!
//! ```text
//! fn words_of(alloc: Global, line: &str) -> Result<Args, ElfError> {
//!     let mut words = Args::new(alloc);
//!     for word in line.split(' ') {
//!         words.add(word)?;
//!     }
//!     Ok(words)
//! }
//! ```
#![tactic(auto)]

pub mod arguments;
pub mod radixes;
pub mod texts;

pub use arguments::Args;
pub use radixes::Radix;
pub use texts::Text;

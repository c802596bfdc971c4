//! The command line of elfkit: how its arguments are read as a command with options and operands,
//! by the utility conventions of POSIX.1-2017 (base definitions, chapter 12), or as a question for
//! help or for the version; the option letters of each command, the usage lines and help texts.
//!
//! A new option is a letter in `usages`, a field in `reading` and a line in `notices`, each with
//! its file of specs/; the record of a tool's options is in the tool's crate, src/options.rt. The
//! manual pages and completions/ name it too.
#![tactic(auto)]

pub mod commands;
mod faults;
pub mod notices;
pub mod numbers;
mod option_arguments;
pub mod prelude;
pub mod reading;
pub mod rules;
mod splitting;
pub mod usages;
mod values;

pub use commands::{Command, Request, WordsFault};
pub use notices::Notice;
pub use numbers::{script_number, word_number};
pub use reading::read_words;
pub use usages::Usage;

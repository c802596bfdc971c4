//! The commands `calls` and `rehash`, which edit the image of a file while it is open: calls shows
//! the results of a script's calls, and with `-o` or `-i` writes the image that they leave.
#![tactic(auto)]

mod commands;
pub mod prelude;

pub use commands::calls::calls;
pub use commands::calls_into::calls_into;
pub use commands::rehash::run_rehash;

//! How the text of a tool goes out: names, lines and messages, the two outputs and their buffer,
//! and why a tool stops. Its definitions say what a tool reports, and how a run of the program
//! ends.
//!
//! - `columns`: numbers in columns: digits in a radix, with spaces or zeros before them; bytes as
//!   two hexadecimal digits each.
#![tactic(auto)]

pub mod columns;
pub mod lines;
pub mod messages;
pub mod names;
pub mod outputs;
pub mod prelude;
pub mod statuses;
pub mod stops;

pub use lines::Line;
pub use messages::{InSection, Message};
pub use names::{FileName, NameEx};
pub use outputs::{OUTPUT_BUFFER_SIZE, Outputs, Side};
pub use statuses::Status;
pub use stops::Stop;

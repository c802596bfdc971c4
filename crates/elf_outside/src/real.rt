//! The outside of the system: its files and streams. None of them tells its bytes.

pub mod failure;
pub mod files;
pub mod open_files;
pub mod read_ahead;
pub mod sink;
pub mod streams;
pub mod system_file;
pub mod transfers;

pub use failure::{Attempt, Failure};
pub use files::RealFiles;
use read_ahead::ReadAhead;
pub use sink::RealSink;
pub use streams::take_streams;
use system_file::SystemFile;

/// A file of the system whose small reads are served from a window. It tells no bytes. Its length
/// is that of the file as it was opened, and as the writes through it changed it since.
pub type RealFile = ReadAhead<SystemFile>;

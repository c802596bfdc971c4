//! The outside in memory: it holds its bytes, tells them, and fails at the calls that it is told.

pub mod calls;
pub mod device;
pub mod files;
pub mod sink;
pub mod source;

pub use device::MemDevice;
pub use files::MemFiles;
pub use sink::MemSink;
pub use source::MemSource;

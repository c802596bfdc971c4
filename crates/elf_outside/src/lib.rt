//! The outside of elfkit: sources, devices, sinks and sets of files, as traits whose contracts say
//! what each call leaves, takes and may have done when it fails.
//!
//! Each trait comes over the system (`RealFiles`, `RealFile`, `RealSink`) and over memory
//! (`MemFiles`, `MemSource`, `MemDevice`, `MemSink`), so a program is tested without a file.
//! docs/OUTSIDE.md describes them.
//!
//! - `Files::open`: a file for reading; `edit` opens one for writing too, `create` makes one,
//!   `close` closes it.
//! - `Source::read_at`: fills a buffer from a place on; `reads::read_range` returns the bytes.
//! - `Sink::put`: appends bytes.
//! - `DeviceSink::new`: makes a sink of a device, such as a new file; `into_inner` returns the
//!   device.
//! - `Window::new`: a source over a range of another one.
//!
//! From `bench_lookup`:
//!
//! ```text
//! fn over_file<F: Files>(
//!     alloc: Global,
//!     files: &mut F,
//!     work: &LookupTask,
//!     rounds: u32,
//! ) -> Option<u64> {
//!     let file = files.open(alloc, work.file.as_str()).ok()?;
//!     let (file, sum) = over(alloc, file, work, rounds);
//!     files.close(work.file.as_str(), file);
//!     sum
//! }
//! ```
#![tactic(auto)]

pub mod device_sink;
pub mod devices;
pub mod file_sets;
pub mod memory;
pub mod no_source;
pub(crate) mod ranges;
pub mod reads;
pub mod real;
pub mod sinks;
pub mod sources;
pub mod window;
pub mod writes;

pub use device_sink::DeviceSink;
pub use devices::Device;
pub use file_sets::{Files, OpenFault};
pub use memory::{MemDevice, MemFiles, MemSink, MemSource};
pub use no_source::NoSource;
pub use real::{Attempt, Failure, RealFile, RealFiles, RealSink, take_streams};
pub use sinks::Sink;
pub use sources::{Failed, Source};
pub use window::Window;

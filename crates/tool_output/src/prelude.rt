//! What `tool_output` passes on of the crates below it.

pub use elf_outside::{Device, DeviceSink, Files, OpenFault, Sink, Source};

//! The changes that copy makes (objcopy(1) of the development tools), and why it makes none.
#![tactic(auto)]

mod changes;
mod faulting;
mod faults;
mod options;

pub use changes::{ChangeLists, NameBits, NameBytes};
pub use faulting::{fault_allocated, fault_fixed, fault_no_bytes, fault_no_section};
pub use faults::CopyFault;
pub use options::{CopyChanges, NamedBits, NamedFile, Renaming};

//! Descriptors for tests: two that should return the same, and work that is done with one over a
//! device in memory beside another one over a source.
#![tactic(auto)]

mod alike;
mod beginning;
mod works;

pub use alike::{
    all_agree, all_but_bases_agree, all_but_marks_agree, all_marks_agree, is_as_opened,
};
pub use works::{
    DescriptorWork, DeviceFaults, NONE, Setting, are_done, done_over, front_size, is_done,
    is_done_by, is_done_in,
};

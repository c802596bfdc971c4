//! What the options of strings ask for.

use tool_text::Radix;

/// The options of strings.
#[derive(Clone, Copy, PartialEq, Eq)]
pub struct StringsOptions {
    /// `-a`: the whole file is read.
    pub all: bool,
    /// `-n`: the least length of a run, in bytes, from 1 to 4096.
    pub least: u32,
    /// `-t`: the radix in which a run's place is before it.
    pub place: Option<Radix>,
}

//! What the options of strip ask for.

use tool_text::{Args, Text};

/// The options of strip.
#[derive(Drop)]
pub struct StripOptions {
    /// `-g`: only what serves debugging is removed.
    pub debug_only: bool,
    /// `-R`: the names of sections to remove, in the order of the arguments.
    pub names: Args,
    /// `-f`: where what is removed goes.
    pub debug: Option<Text>,
    /// `-o`: the output.
    pub out: Text,
}

//! What the options of nm ask for.

use tool_text::Radix;

/// The options of nm.
#[derive(Clone, Copy, PartialEq, Eq)]
pub struct NmOptions {
    /// `-A`: the file's name is before each row.
    pub name_each: bool,
    /// `-g`: only symbols whose binding is not LOCAL.
    pub globals: bool,
    /// `-u`: only undefined symbols.
    pub undefined: bool,
    /// `-v`: rows in the order of the values.
    pub by_value: bool,
    /// `-P`: the portable format.
    pub portable: bool,
    /// `-t`: the radix of values and sizes.
    pub radix: Radix,
}

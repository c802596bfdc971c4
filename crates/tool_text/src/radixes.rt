//! The radix of numbers.

/// The radix in which numbers are shown: `-t d`, `-t o` and `-t x`.
#[derive(Clone, Copy, PartialEq, Eq)]
pub enum Radix {
    /// Ten.
    Decimal,
    /// Eight.
    Octal,
    /// Sixteen.
    Hex,
}

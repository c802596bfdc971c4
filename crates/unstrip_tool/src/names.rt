//! The names of the files of two halves.

ghost use Rattle.std.specs.Prelude.{◌≢◌};

/// The names of the files of two halves, which are two words.
#[derive(Clone, Copy)]
pub struct HalfNames<'a> {
    /// The file of the half with what is loaded.
    pub stripped: &'a str,
    /// The file of the half for debugging.
    pub debug: &'a str,
    ghost apart: { stripped.now ≢ debug.now },
}

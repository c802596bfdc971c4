//! What is read and written in place.

ghost use Rattle.std.specs.Prelude.{◌≡◌, ℕ, ◌+◌, ◌≤◌, ◌∷◌, [], List, length, replicate, OnOk, OnErr};
ghost use Rattle.elf_outside.specs.Counts.{HasCause, RaisedBy, RaisedAtMost};
ghost use Rattle.elf_outside.specs.Writes.{WritesOver, TearsOver, Resizes, ResizesOrNot, Lengthens, LengthensByFront};

use crate::sources::{Failed, Source};

/// A source that can be written.
///
/// - `write_faults` counts the writes that failed, and `given` the bytes handed to writes, by the
///   rules by which `faults` and `taken` of [`Source`] count for reads.
/// - `rest_after` is what the device's `rest` holds after the list of these two numbers.
///
/// The writes leave `faults`, `taken` and `rest_after`; a read leaves `given` and `write_faults`,
/// since they are in `rest`.
pub trait Device: Source {
    ghost write_faults: { Self → ℕ };

    ghost given: { Self → ℕ };

    ghost rest_after: { Self → List (List ℕ) };

    /// Puts `buf` over the bytes from the place `at` on. The range lies in the device. `Failed`
    /// comes only where the count of failed writes increased; then each byte of the range is the
    /// old one or the new one, and all else is as before.
    fn write_at(&mut self, at: u64, buf: &[u8]) -> Result<(), Failed>
        requires { at + length buf.now ≤ Self.size self.old }
        ensures len { Self.size self.new ≡ Self.size self.old }
        ensures ok { OnOk result
            (WritesOver (Self.holds self.old) (Self.holds self.new) at buf.now) }
        ensures err { OnErr result
            (TearsOver (Self.holds self.old) (Self.holds self.new) at buf.now) }
        ensures cause { HasCause (write_faults self.old) (write_faults self.new) result }
        ensures given { RaisedBy (given self.old) (given self.new) (length buf.now) }
        ensures faults { Self.faults self.new ≡ Self.faults self.old }
        ensures taken { Self.taken self.new ≡ Self.taken self.old }
        ensures rest_after { rest_after self.new ≡ rest_after self.old };

    /// Cuts the device to `n` bytes, or lengthens it to `n` by zero bytes. `Failed` comes only
    /// where the count of failed writes increased; then the length is the old one or the new one,
    /// and the bytes are those that belong to it.
    fn set_len(&mut self, n: u64) -> Result<(), Failed>
        ensures ok { OnOk result (Resizes (Self.size self.old) (Self.size self.new)
            (Self.holds self.old) (Self.holds self.new) n) }
        ensures err { OnErr result (ResizesOrNot (Self.size self.old) (Self.size self.new)
            (Self.holds self.old) (Self.holds self.new) n) }
        ensures cause { HasCause (write_faults self.old) (write_faults self.new) result }
        ensures given { given self.new ≡ given self.old }
        ensures faults { Self.faults self.new ≡ Self.faults self.old }
        ensures taken { Self.taken self.new ≡ Self.taken self.old }
        ensures rest_after { rest_after self.new ≡ rest_after self.old };

    /// Puts `buf` after the last byte. `Failed` comes only where the count of failed writes
    /// increased; then a prefix of `buf` is there, and all else is as before.
    fn append(&mut self, buf: &[u8]) -> Result<(), Failed>
        ensures ok { OnOk result (Lengthens (Self.size self.old) (Self.size self.new)
            (Self.holds self.old) (Self.holds self.new) buf.now) }
        ensures err { OnErr result (LengthensByFront (Self.size self.old) (Self.size self.new)
            (Self.holds self.old) (Self.holds self.new) buf.now) }
        ensures cause { HasCause (write_faults self.old) (write_faults self.new) result }
        ensures given { RaisedBy (given self.old) (given self.new) (length buf.now) }
        ensures faults { Self.faults self.new ≡ Self.faults self.old }
        ensures taken { Self.taken self.new ≡ Self.taken self.old }
        ensures rest_after { rest_after self.new ≡ rest_after self.old };

    /// Puts `n` zero bytes after the last byte, as `append` puts a buffer that holds them. They
    /// count in `given` where they are handed to writes, and not where the device is lengthened.
    fn append_zeros(&mut self, n: u64) -> Result<(), Failed>
        ensures ok { OnOk result (Lengthens (Self.size self.old) (Self.size self.new)
            (Self.holds self.old) (Self.holds self.new) (replicate n 0)) }
        ensures err { OnErr result (LengthensByFront (Self.size self.old) (Self.size self.new)
            (Self.holds self.old) (Self.holds self.new) (replicate n 0)) }
        ensures cause { HasCause (write_faults self.old) (write_faults self.new) result }
        ensures given { RaisedAtMost (given self.old) (given self.new) n }
        ensures faults { Self.faults self.new ≡ Self.faults self.old }
        ensures taken { Self.taken self.new ≡ Self.taken self.old }
        ensures rest_after { rest_after self.new ≡ rest_after self.old };

    /// The rest begins with the list of `given` and `write_faults`.
    ghost rest_begins: { (d : Self) →
        Self.rest d ≡ (given d ∷ write_faults d ∷ []) ∷ rest_after d };
}

//! What is read.

ghost use Rattle.std.specs.Prelude.{◌≡◌, ℕ, ◌+◌, ◌^◌, ◌<◌, ◌≤◌, List, Option, All, length, take, drop, IfSome, OnOk};
ghost use Rattle.elf_outside.specs.Counts.{HasCause, RaisedBy};
ghost use Rattle.elf_outside.specs.Leaves.{LeavesBy};

/// A call of the outside failed. The object's count of faults shows it.
#[derive(Clone, Copy, Debug, PartialEq, Eq)]
pub struct Failed;

/// A sequence of bytes that is read by place and length.
///
/// - `size` is the number of bytes; every source tells it.
/// - `holds` is the bytes, where the source tells them: a source in memory does, a file does not.
/// - `rest` is what the object keeps besides; it is empty where nothing else is said.
/// - `faults` counts the reads that failed: it never falls, and a read fails only where it
///   increased, or is at 2^64 - 1.
/// - `taken` counts the bytes that were asked for: a read raises it by the length of its buffer, by
///   exactly that while the sum stays below 2^64, and never by more.
///
/// A read leaves `size`, `holds` and `rest`.
pub trait Source {
    ghost size: { Self → ℕ };

    ghost holds: { Self → Option (List ℕ) };

    ghost rest: { Self → List (List ℕ) };

    ghost faults: { Self → ℕ };

    ghost taken: { Self → ℕ };

    /// The number of bytes. What the source tells is bytes, each below 2^8.
    fn len(&self) -> u64
        ensures size { result ≡ size self.now }
        ensures ranged { IfSome (holds self.now) (λ bytes. All (λ n. n < 2 ^ 8) bytes) };

    /// Reads the bytes from the place `at` into the whole of `buf`. The range lies in the source.
    /// `Failed` comes only where the count of faults increased; the buffer then holds anything.
    fn read_at(&mut self, at: u64, buf: &mut [u8]) -> Result<(), Failed>
        requires { at + length buf.old ≤ size self.old }
        ensures leaves { LeavesBy size holds rest self.old self.new }
        ensures bytes { OnOk result
            (IfSome (holds self.old) (λ bytes. buf.new ≡ take (length buf.old) (drop at bytes))) }
        ensures cause { HasCause (faults self.old) (faults self.new) result }
        ensures taken { RaisedBy (taken self.old) (taken self.new) (length buf.old) };

    /// Where the bytes are told, there are `size` many.
    ghost sized: { (s : Self) → IfSome (holds s) (λ bytes. length bytes ≡ size s) };
}

//! What is written from its beginning to its end.

ghost use Rattle.std.specs.Prelude.{◌≡◌, ℕ, List, Option, replicate, OnOk, OnErr};
ghost use Rattle.elf_outside.specs.Counts.{HasCause};
ghost use Rattle.elf_outside.specs.Writes.{Appends, AppendsFront};

use crate::sources::Failed;

/// A sequence of bytes that only grows at its end.
///
/// - `wrote` is the bytes so far, where the sink tells them.
/// - `faults` counts the puts that failed: it never falls, and a put fails only where it increased,
///   or is at 2^64 - 1.
/// - `rest` is what the object keeps besides; it is empty where nothing else is said.
pub trait Sink {
    ghost wrote: { Self → Option (List ℕ) };

    ghost faults: { Self → ℕ };

    ghost rest: { Self → List (List ℕ) };

    /// Appends `buf`. `Failed` comes only where the count of faults increased; then a prefix of
    /// `buf` was appended.
    fn put(&mut self, buf: &[u8]) -> Result<(), Failed>
        ensures ok { OnOk result (Appends (wrote self.old) (wrote self.new) buf.now) }
        ensures err { OnErr result (AppendsFront (wrote self.old) (wrote self.new) buf.now) }
        ensures leaves { rest self.new ≡ rest self.old }
        ensures cause { HasCause (faults self.old) (faults self.new) result };

    /// Appends `n` zero bytes, as `put` appends a buffer that holds them.
    fn put_zeros(&mut self, n: u64) -> Result<(), Failed>
        ensures ok { OnOk result
            (Appends (wrote self.old) (wrote self.new) (replicate n 0)) }
        ensures err { OnErr result
            (AppendsFront (wrote self.old) (wrote self.new) (replicate n 0)) }
        ensures leaves { rest self.new ≡ rest self.old }
        ensures cause { HasCause (faults self.old) (faults self.new) result };
}

//! What is known of every slice of bytes.

ghost use Rattle.std.specs.Prelude.{◌<◌, ◌^◌, length};
ghost use Rattle.elf_types.specs.Lists.{AreBytes};

/// What a slice of bytes has are bytes, and they can be counted: it is for the proofs of callers,
/// and does nothing.
pub fn bytes_are_ranged(_bytes: &[u8])
    ensures bytes { AreBytes _bytes.now }
    ensures length { length _bytes.now < 2 ^ 64 }
{}

//! Ranges of bytes in memory.

ghost use Rattle.std.specs.Prelude.{◌≡◌, ◌+◌, ◌≤◌, length, take, drop};
ghost use Rattle.elf_outside.specs.Writes.{written_over};

/// Fills `buf` with the bytes from a place on. The range lies in them.
pub(crate) fn copy_range(bytes: &[u8], at: usize, buf: &mut [u8])
    requires { at + length buf.old ≤ length bytes.now }
    ensures { buf.new ≡ take (length buf.old) (drop at bytes.now) }
{
    let (_, from_place) = bytes.split_at(at);
    let (wanted, _) = from_place.split_at(buf.len());
    buf.copy_from_slice(wanted);
}

/// Puts a piece over the bytes from a place on. The range lies in them.
pub(crate) fn put_over(bytes: &mut [u8], at: usize, piece: &[u8])
    requires { at + length piece.now ≤ length bytes.old }
    ensures { bytes.new ≡ written_over bytes.old at piece.now }
{
    bytes[at..at + piece.len()].copy_from_slice(piece);
}

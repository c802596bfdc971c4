//! The record of a write as C lays it out.

ghost use Rattle.std.specs.Prelude.{◌≡◌};
ghost use Rattle.c_calls.specs.Writes.Plans.{write_record};

use c_handles::lent::KeptWrite;

/// A write: the length that the file has from then on, and where bytes are put over it. The bytes
/// are asked for by themselves.
#[repr(C)]
#[derive(Clone, Copy)]
pub struct WriteRecord {
    /// The length of the file, to which it is cut or lengthened by zeros.
    pub size: u64,
    /// The place of the bytes in the file.
    pub at: u64,
    /// The number of bytes.
    pub len: u64,
}

impl WriteRecord {
    /// The record of it.
    pub fn of(x: &KeptWrite) -> WriteRecord
        ensures { result ≡ write_record x.now }
    {
        WriteRecord {
            size: x.size,
            at: x.at,
            len: x.bytes.len(),
        }
    }
}

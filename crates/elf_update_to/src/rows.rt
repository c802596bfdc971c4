//! Rows of one size that are written one by one, as entries.

ghost use Rattle.std.specs.Prelude.{◌≡◌, ◌+◌, ◌*◌, ◌^◌, ◌≤◌, ◌<◌, ℕ, List, length, take, drop};

use crate::entries::{Entries, copy_entries};

/// Rows of one size, each of which is written by itself.
///
/// - `ready` says that they can be written.
/// - `bytes` is the file form of all of them.
/// - `size` is the number of bytes of each.
/// - `count` is their number.
pub trait WritableRows {
    ghost ready: { Self → Type 0 };

    ghost bytes: { Self → List ℕ };

    ghost size: { Self → ℕ };

    ghost count: { Self → ℕ };

    /// The number of bytes of a row, at least 1 and at most 64.
    fn row_size(&self) -> usize
        requires { ready self.now }
        ensures size { result ≡ size self.now }
        ensures some { 0 < result }
        ensures few { result ≤ 64 }
        ensures fits { count self.now < 2 ^ 64 }
        ensures all { length (bytes self.now) ≡ size self.now * count self.now };

    /// Writes a row. `out` has just as many bytes as it has.
    fn put_row(&self, i: u64, out: &mut [u8])
        requires ready { ready self.now }
        requires room { length out.old ≡ size self.now }
        requires there { i < count self.now }
        ensures { out.new ≡ take (size self.now) (drop (size self.now * i) (bytes self.now)) };
}

/// Writes rows from an index on, one after the other.
fn put_rows<R: WritableRows>(rows: &R, from: u64, some: u64, out: &mut [u8])
    requires ready { R.ready rows.now }
    requires room { length out.old ≡ R.size rows.now * some }
    requires there { from + some ≤ R.count rows.now }
    ensures { out.new ≡ take (R.size rows.now * some)
        (drop (R.size rows.now * from) (R.bytes rows.now)) }
{
    let size = rows.row_size();
    for i in 0..some as usize {
        let at = i * size;
        rows.put_row(from + i as u64, &mut out[at..at + size]);
    }
}

/// Rows as entries.
#[derive(Drop)]
struct RowsForm<'a, R: WritableRows> {
    rows: &'a R,
}

impl<R: WritableRows> Entries for RowsForm<'_, R> {
    ghost ready = { λ f. R.ready f.rows.now };

    ghost bytes = { λ f. R.bytes f.rows.now };

    ghost size = { λ f. R.size f.rows.now };

    ghost count = { λ f. R.count f.rows.now };

    fn entry_size(&self) -> usize {
        self.rows.row_size()
    }

    fn put_entries(&self, from: u64, some: u64, out: &mut [u8]) {
        put_rows(self.rows, from, some, out);
    }
}

/// Writes bytes of rows from the place `from` on into the whole of `buf`.
pub fn copy_rows<R: WritableRows>(rows: &R, from: u64, buf: &mut [u8])
    requires ready { R.ready rows.now }
    requires there { from + length buf.old ≤ length (R.bytes rows.now) }
    requires small { from + length buf.old < 2 ^ 64 }
    ensures { buf.new ≡ take (length buf.old) (drop from (R.bytes rows.now)) }
{
    copy_entries(&RowsForm { rows }, from, buf);
}

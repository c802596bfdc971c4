//! Bytes that are encoded entry by entry: a range of them is written without all of them.

ghost use Rattle.std.specs.Prelude.{◌≡◌, ◌+◌, ◌*◌, ◌^◌, ◌≤◌, ◌<◌, ℕ, List, length, take, drop};

/// Entries of one size in their file form.
///
/// - `ready` says that they can be written.
/// - `bytes` is the file form of all of them.
/// - `size` is the number of bytes of each.
/// - `count` is their number.
pub trait Entries {
    ghost ready: { Self → Type 0 };

    ghost bytes: { Self → List ℕ };

    ghost size: { Self → ℕ };

    ghost count: { Self → ℕ };

    /// The number of bytes of an entry, at least 1 and at most 64.
    fn entry_size(&self) -> usize
        requires { ready self.now }
        ensures size { result ≡ size self.now }
        ensures some { 0 < result }
        ensures few { result ≤ 64 }
        ensures all { length (bytes self.now) ≡ size self.now * count self.now };

    /// Writes so many entries from an index on. `out` has just as many bytes as they have.
    fn put_entries(&self, from: u64, some: u64, out: &mut [u8])
        requires ready { ready self.now }
        requires room { length out.old ≡ size self.now * some }
        requires there { from + some ≤ count self.now }
        ensures { out.new ≡ take (size self.now * some) (drop (size self.now * from)
            (bytes self.now)) };
}

/// Copies the bytes from the place `at` on into the whole of `buf`.
pub(crate) fn copy_range(bytes: &[u8], at: u64, buf: &mut [u8])
    requires { at + length buf.old ≤ length bytes.now }
    ensures { buf.new ≡ take (length buf.old) (drop at bytes.now) }
{
    let start = at as usize;
    let range = &bytes[start..start + buf.len()];
    buf.copy_from_slice(range);
}

/// Writes bytes of one entry, from a place in it on. `whole` has just as many bytes as the entry.
fn copy_of_one<E: Entries>(entries: &E, index: u64, skip: usize, whole: &mut [u8], out: &mut [u8])
    requires ready { E.ready entries.now }
    requires whole { length whole.old ≡ E.size entries.now }
    requires inside { skip + length out.old ≤ E.size entries.now }
    requires there { index < E.count entries.now }
    ensures { out.new ≡ take (length out.old)
        (drop (E.size entries.now * index + skip) (E.bytes entries.now)) }
{
    entries.put_entries(index, 1, whole);
    copy_range(whole, skip as u64, out);
}

/// Writes bytes of one entry, or of none where `out` is empty, from a place in it on.
fn copy_of_entry<E: Entries>(entries: &E, index: u64, skip: usize, out: &mut [u8])
    requires ready { E.ready entries.now }
    requires inside { skip + length out.old ≤ E.size entries.now }
    requires there { 0 < length out.old → index < E.count entries.now }
    ensures { out.new ≡ take (length out.old)
        (drop (E.size entries.now * index + skip) (E.bytes entries.now)) }
{
    if out.is_empty() {
        return;
    }
    let size = entries.entry_size();
    let mut whole = [0; 64];
    copy_of_one(entries, index, skip, &mut whole[..size], out);
}

/// Writes bytes from the beginning of an entry on: whole entries, and then the beginning of one.
fn copy_from_entry<E: Entries>(entries: &E, index: u64, out: &mut [u8])
    requires ready { E.ready entries.now }
    requires there { E.size entries.now * index + length out.old
        ≤ length (E.bytes entries.now) }
    requires small { index + length out.old < 2 ^ 64 }
    ensures { out.new ≡ take (length out.old)
        (drop (E.size entries.now * index) (E.bytes entries.now)) }
{
    let size = entries.entry_size();
    let some = out.len() / size;
    let (whole, begun) = out.split_at_mut(some * size);
    entries.put_entries(index, some as u64, whole);
    copy_of_entry(entries, index + some as u64, 0, begun);
}

/// Writes the bytes of entries from the place `from` on into the whole of `buf`: the rest of the
/// entry that is there, whole entries, and the beginning of one.
pub fn copy_entries<E: Entries>(entries: &E, from: u64, buf: &mut [u8])
    requires ready { E.ready entries.now }
    requires there { from + length buf.old ≤ length (E.bytes entries.now) }
    requires small { from + length buf.old < 2 ^ 64 }
    ensures { buf.new ≡ take (length buf.old) (drop from (E.bytes entries.now)) }
{
    if buf.is_empty() {
        return;
    }
    let size = entries.entry_size() as u64;
    let (index, skip) = (from / size, from % size);
    let first = (size - skip).min(buf.len() as u64) as usize;
    let (head, rest) = buf.split_at_mut(first);
    copy_of_entry(entries, index, skip as usize, head);
    if !rest.is_empty() {
        copy_from_entry(entries, index + 1, rest);
    }
}

//! A read of a range of two sources, one after the other.

ghost use Rattle.std.specs.Prelude.{◌≡◌, ◌+◌, ◌≤◌, length};
ghost use Rattle.rebuild_join.specs.Pair.Reads.{both_answers, ReadsPair};

use elf_outside::{Failed, Source};

/// The result of two reads of which both were done.
fn answer_of_both(one: Result<(), Failed>, other: Result<(), Failed>) -> Result<(), Failed>
    ensures { result ≡ both_answers one other }
{
    match one {
        Ok(()) => other,
        Err(failed) => Err(failed),
    }
}

/// Reads a range that begins in the first source and ends in the second. Both are read, the second
/// too where the read of the first failed: so many bytes are asked for as the buffer has.
fn read_across<S: Source, T: Source>(
    first: &mut S,
    second: &mut T,
    at: u64,
    buf: &mut [u8],
) -> Result<(), Failed>
    requires begins { at ≤ S.size first.old }
    requires ends { S.size first.old ≤ at + length buf.old }
    requires inside { at + length buf.old ≤ S.size first.old + T.size second.old }
    ensures { ReadsPair S.Source T.Source at result first.old first.new second.old second.new
        buf.old buf.new }
{
    let end = first.len();
    let front = (end - at) as usize;
    let (here, there) = buf.split_at_mut(front);
    let one = first.read_at(at, here);
    let other = second.read_at(0, there);
    answer_of_both(one, other)
}

/// Reads the bytes from the place `at` on into the whole of `buf`, of the bytes of the first source
/// and after them those of the second. The range lies in them.
pub(crate) fn read_pair<S: Source, T: Source>(
    first: &mut S,
    second: &mut T,
    at: u64,
    buf: &mut [u8],
) -> Result<(), Failed>
    requires { at + length buf.old ≤ S.size first.old + T.size second.old }
    ensures { ReadsPair S.Source T.Source at result first.old first.new second.old second.new
        buf.old buf.new }
{
    let end = first.len();
    if end <= at {
        return second.read_at(at - end, buf);
    }
    if buf.len() as u64 <= end - at {
        return first.read_at(at, buf);
    }
    read_across(first, second, at, buf)
}

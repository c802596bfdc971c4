//! Strings, each of which a NUL ends.

ghost use Rattle.std.specs.Prelude.{◌≡◌, ◌==◌, ◌+◌, ◌-◌, drop, false, length, slice_get, take, true, Some};
ghost use Rattle.std.specs.Option.{option_copied, option_map_or};
ghost use Rattle.elf_descriptor.specs.elf_object.Strings.{has_nul, is_name};
ghost use Rattle.gelf_view.specs.Records.{first_bytes_of, shorter_than, string_front};

use memchr::memchr;

/// The string with which bytes begin, without its NUL, or None exactly where no NUL follows. It
/// takes no memory.
///
/// Source: gABI chapter 4, "String Table"; elf_strptr of elf(3E).
#[tactic(auto, using(crate::proofs::Rules::string), unfolding(crate::specs::Records::string_front))]
pub fn string_in(bytes: &[u8]) -> Option<&[u8]>
    ensures { option_copied result ≡ string_front bytes.now }
{
    let end = memchr(0, bytes)?;
    Some(&bytes[..end])
}

/// The string that begins at a place of bytes, without its NUL, or None exactly where no NUL
/// follows. It takes no memory.
pub fn string_from(bytes: &[u8], place: u64) -> Option<&[u8]>
    ensures { option_copied result ≡ string_front (drop place bytes.now) }
{
    let at = place as usize;
    if bytes.len() < at {
        return None;
    }
    string_in(&bytes[at..])
}

/// The first `count` bytes of a list and one more, or all where there are fewer.
fn front_bytes(bytes: &[u8], count: usize) -> &[u8]
    ensures { result.now ≡ take (count + 1) bytes.now }
{
    if count < bytes.len() {
        return &bytes[..count + 1];
    }
    bytes
}

/// The string with which bytes begin, without its NUL, where it has at most `longest` bytes; None
/// exactly where it has more, or no NUL follows. It looks at so many bytes and one more, and takes
/// no memory.
///
/// Source: gABI chapter 4, "String Table".
pub fn short_string(bytes: &[u8], longest: usize) -> Option<&[u8]>
    ensures { option_copied result ≡ shorter_than (longest + 1) (string_front bytes.now) }
{
    string_in(front_bytes(bytes, longest))
}

/// Whether a NUL is the last of bytes.
fn end_in_nul(bytes: &[u8]) -> bool
    ensures { result ≡ option_map_or (λ b. b == 0)
        (slice_get bytes.now (length bytes.now - 1)) false }
{
    match bytes.last() {
        Some(last) => *last == 0,
        None => false,
    }
}

/// The first `longest + 1` bytes of the string with which bytes begin, in which a NUL follows; all
/// of it where it has no more. It looks at so many bytes.
fn front_of_ended(bytes: &[u8], longest: usize) -> &[u8]
    requires { has_nul bytes.now ≡ true }
    ensures { Some result.now ≡ first_bytes_of (longest + 1) (string_front bytes.now) }
{
    let front = front_bytes(bytes, longest);
    match string_in(front) {
        Some(string) => string,
        None => front,
    }
}

/// The first `longest + 1` bytes of a string that was found, if one was.
pub fn front_of_found(found: Option<&[u8]>, longest: usize) -> Option<&[u8]>
    ensures { option_copied result ≡ first_bytes_of (longest + 1) (option_copied found.entry) }
{
    match found {
        Some(string) => Some(front_bytes(string, longest)),
        None => None,
    }
}

/// The first `longest + 1` bytes of the string with which bytes begin, or None exactly where no NUL
/// follows.
fn front_of_string(bytes: &[u8], longest: usize) -> Option<&[u8]>
    ensures { option_copied result ≡ first_bytes_of (longest + 1) (string_front bytes.now) }
{
    if end_in_nul(bytes) {
        return Some(front_of_ended(bytes, longest));
    }
    front_of_found(string_in(bytes), longest)
}

/// The first `longest + 1` bytes of the string that begins at a place of bytes, or all of it where
/// it has no more; None exactly where no NUL follows. Where a NUL is the last of the bytes it looks
/// at no more than so many and at that one. It takes no memory.
///
/// Source: gABI chapter 4, "String Table".
pub fn front_of_string_at(bytes: &[u8], place: u64, longest: usize) -> Option<&[u8]>
    ensures { option_copied result
        ≡ first_bytes_of (longest + 1) (string_front (drop place bytes.now)) }
{
    let at = place as usize;
    if bytes.len() < at {
        return None;
    }
    front_of_string(&bytes[at..], longest)
}

/// Whether a name that was found is this one; one that is none is no other. It takes no memory.
pub fn is_called(found: Option<&[u8]>, name: &[u8]) -> bool
    ensures { result ≡ is_name name.now (option_copied found.entry) }
{
    match found {
        Some(found) => found == name,
        None => false,
    }
}

/// Whether the string that begins at a place of bytes is this one. It looks at as many bytes as
/// that has and at one more, and takes no memory.
///
/// Source: gABI chapter 4, "String Table".
pub fn is_string_at(bytes: &[u8], place: u64, name: &[u8]) -> bool
    ensures { result ≡ is_name name.now (string_front (drop place bytes.now)) }
{
    let at = place as usize;
    if bytes.len() < at {
        return false;
    }
    is_called(short_string(&bytes[at..], name.len()), name)
}

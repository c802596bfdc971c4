//! The name of a member.

ghost use Rattle.std.specs.Prelude.{◌≡◌, ◌≤◌, length};
ghost use Rattle.std.specs.Option.{option_copied};
ghost use Rattle.ar_members.specs.Names.{trimmed_of, up_to_end, kind_of_name, short_name_of, long_name_of};

use crate::numbers::number;
use byte_search::find_byte;

/// The name of the table of symbols.
const SYMBOLS: &[u8] = b"/";

/// The name of the table of long names.
const LONG_NAMES: &[u8] = b"//";

/// The name of the table of symbols with offsets of eight bytes.
const SYMBOLS_64: &[u8] = b"/SYM64/";

/// What ends a long name.
const NAME_END: &[u8] = b"/\n";

/// What the name field of a header says.
#[derive(Clone, Copy, Debug, PartialEq, Eq)]
pub enum NameKind {
    /// `/`: the table of symbols.
    Symbols,
    /// `//`: the table of long names.
    LongNames,
    /// `/SYM64/`: the table of symbols with offsets of eight bytes.
    Symbols64,
    /// A slash and a number: the name at that offset in the table of long names.
    Long(u64),
    /// The name is in the field.
    Short,
}

/// A field without its trailing spaces.
#[tactic(auto, unfolding(crate::specs::Names::trimmed_of))]
pub fn trimmed(field: &[u8]) -> &[u8]
    ensures value { result.now ≡ trimmed_of field.now }
    ensures shorter { length result.now ≤ length field.now }
{
    let mut end = field.len();
    while end > 0 && field[end - 1] == b' ' {
        end -= 1;
    }
    &field[..end]
}

/// The kind of a name. None where it begins with a slash and is none of the four kinds that do.
#[tactic(auto, unfolding(crate::specs::Names::kind_of_name))]
pub fn name_kind(field: &[u8]) -> Option<NameKind>
    requires { length field.now ≤ 16 }
    ensures { result ≡ kind_of_name field.now }
{
    let name = trimmed(field);
    if name == SYMBOLS {
        return Some(NameKind::Symbols);
    }
    if name == LONG_NAMES {
        return Some(NameKind::LongNames);
    }
    if name == SYMBOLS_64 {
        return Some(NameKind::Symbols64);
    }
    if name.starts_with(b"/") {
        return number(&name[1..], 10).map(NameKind::Long);
    }
    Some(NameKind::Short)
}

/// The name that is in a field: up to its first slash, or without trailing spaces where there is
/// none. One that begins with `#1/`, which says where BSD keeps the name, is whole.
#[tactic(auto, unfolding(crate::specs::Names::short_name_of))]
pub fn short_name(field: &[u8]) -> &[u8]
    ensures { result.now ≡ short_name_of field.now }
{
    let name = trimmed(field);
    if name.starts_with(b"#1/") {
        return name;
    }
    match find_byte(name, b'/') {
        Some(end) => &name[..end],
        None => name,
    }
}

/// What is before the first slash that a newline follows. None where there is none.
#[tactic(auto, unfolding(crate::specs::Names::ends_name))]
fn up_to_end(text: &[u8]) -> Option<&[u8]>
    ensures { option_copied result ≡ up_to_end text.now }
{
    for i in 0..text.len() {
        if text[i..].starts_with(NAME_END) {
            return Some(&text[..i]);
        }
    }
    None
}

/// The name at an offset in the table of long names, which a slash and a newline end. None where it
/// does not end in the table.
#[tactic(auto, using(crate::proofs::Words::past), unfolding(crate::specs::Names::long_name_of))]
pub fn long_name(names: &[u8], from: u64) -> Option<&[u8]>
    ensures { option_copied result ≡ long_name_of names.now from }
{
    up_to_end(names.get(from as usize..)?)
}

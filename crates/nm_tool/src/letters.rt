//! The letter of a symbol. Nothing here takes memory.

ghost use Rattle.std.specs.Prelude.{◌≡◌, ◌<◌, Some};
ghost use Rattle.elf_object.specs.Object.{Object};
ghost use Rattle.nm_tool.specs.Letters.{is_undefined, section_letter, special_letter, place_letter, cased, letter_by, symbol_letter, HasHeaders};

use crate::headers::ObjectHeaders;
use elf_types::constants::{
    SHF_ALLOC, SHF_EXECINSTR, SHF_WRITE, SHN_ABS, SHN_COMMON, SHN_UNDEF, SHT_NOBITS,
    STB_GNU_UNIQUE, STB_WEAK, STT_GNU_IFUNC, STT_OBJECT,
};
use elf_types::{Shdr, Sym, has_bind, has_flag, has_type, is_local};
use tool_objects::prelude::SymPlace;

/// Whether a symbol whose place this is is undefined.
pub fn is_undefined(place: Option<SymPlace>) -> bool
    ensures { result ≡ is_undefined place }
{
    match place {
        None => false,
        Some(SymPlace::Special(_)) => false,
        Some(SymPlace::Section(n)) => n == SHN_UNDEF,
    }
}

/// The letter of a section that holds a symbol.
#[tactic(auto, unfolding(crate::specs::Letters::section_letter))]
fn section_letter(h: &Shdr) -> u8
    ensures letter { result ≡ section_letter h.now }
    ensures small { result < 128 }
{
    if has_flag(h, SHF_EXECINSTR) {
        return b'T';
    }
    let alloc = has_flag(h, SHF_ALLOC);
    if alloc && h.stype == SHT_NOBITS {
        return b'B';
    }
    if alloc && has_flag(h, SHF_WRITE) {
        return b'D';
    }
    if alloc {
        return b'R';
    }
    b'N'
}

/// The letter of a reserved index.
#[tactic(auto, unfolding(crate::specs::Letters::special_letter))]
fn special_letter(n: u32) -> u8
    ensures letter { result ≡ special_letter n }
    ensures small { result < 128 }
{
    if n == SHN_ABS {
        return b'A';
    }
    if n == SHN_COMMON {
        return b'C';
    }
    b'?'
}

/// The letter of a section by its number, or a question mark where there is none.
fn numbered_letter<H: ObjectHeaders>(headers: &H, n: u32) -> u8
    ensures letter { (o : Object) → HasHeaders o (H.class headers.now) (H.headers headers.now)
        → result ≡ place_letter o (Some (SymPlace.Section n)) }
    ensures small { result < 128 }
{
    match headers.header(n) {
        Some(header) => section_letter(&header),
        None => b'?',
    }
}

/// The letter of the place of a symbol.
#[tactic(auto, unfolding(crate::specs::Letters::place_letter))]
fn place_letter<H: ObjectHeaders>(headers: &H, place: Option<SymPlace>) -> u8
    ensures letter { (o : Object) → HasHeaders o (H.class headers.now) (H.headers headers.now)
        → result ≡ place_letter o place }
    ensures small { result < 128 }
{
    match place {
        None => b'?',
        Some(SymPlace::Special(n)) => special_letter(u32::from(n)),
        Some(SymPlace::Section(n)) => numbered_letter(headers, n),
    }
}

/// A letter, small for a local symbol; a question mark stays.
#[tactic(auto, unfolding(crate::specs::Letters::cased))]
fn cased(local: bool, letter: u8) -> u8
    requires { letter < 128 }
    ensures { result ≡ cased local letter }
{
    if local && letter != b'?' {
        letter + 32
    } else {
        letter
    }
}

/// The letter of a symbol whose place this is, and of its place: the first of its tests that holds
/// tells it.
#[tactic(auto, unfolding(crate::specs::Letters::letter_by))]
fn letter_by(x: &Sym, place: Option<SymPlace>, letter: u8) -> u8
    requires { letter < 128 }
    ensures { result ≡ letter_by x.now place letter }
{
    let undefined = is_undefined(place);
    let weak = has_bind(x, STB_WEAK);
    let object = has_type(x, STT_OBJECT);
    if undefined && (weak && object) {
        return b'v';
    }
    if undefined && weak {
        return b'w';
    }
    if undefined {
        return b'U';
    }
    if has_bind(x, STB_GNU_UNIQUE) {
        return b'u';
    }
    if has_type(x, STT_GNU_IFUNC) {
        return b'i';
    }
    if weak && object {
        return b'V';
    }
    if weak {
        return b'W';
    }
    cased(is_local(x), letter)
}

/// The letter of a symbol whose place this is, of an object that has these headers.
pub fn symbol_letter<H: ObjectHeaders>(headers: &H, x: &Sym, place: Option<SymPlace>) -> u8
    ensures { (o : Object) → HasHeaders o (H.class headers.now) (H.headers headers.now)
        → result ≡ symbol_letter o x.now place }
{
    let letter = place_letter(headers, place);
    letter_by(x, place, letter)
}

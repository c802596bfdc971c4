//! Whether a symbol is listed by a name.

ghost use Rattle.std.specs.Prelude.{◌≡◌, ◌==◌, ◌&&◌, not, IsTrue, None, Ok, if◌then◌else◌, false};
ghost use Rattle.elf_types.specs.Answers.{Follows};
ghost use Rattle.elf_types.specs.declared.records.Kind.TheVariants as kinds;
ghost use Rattle.hash_model.specs.elf_object.Answers.{lend_refusal};
ghost use Rattle.hash_model.specs.elf_object.Strings.{is_name, readable, string_answer};
ghost use Rattle.hash_model.specs.Listed.{is_defined_global, not_empty};
ghost use Rattle.symbol_lookup.specs.Lookups.{is_match, link_of, no_match, Needs};
ghost use Rattle.symbol_lookup.specs.Searches.{HasStrings, HasTable, Searches, ObjectStays};

use elf_types::constants::{SHN_UNDEF, STB_LOCAL};
use elf_types::{DataId, ElfError, ScnId, Sym};
use gelf_view::prelude::Elf;
use gelf_view::{strptr, sym};
use hash_model::prelude::Source;

/// What a symbol, or a string, that is rejected tells: that it is no match, unless memory ran out
/// or a read failed.
#[tactic(auto, unfolding(crate::specs::Lookups::no_match))]
fn no_match(e: ElfError) -> Result<bool, ElfError>
    ensures { result ≡ no_match e }
{
    match e {
        ElfError::Memory => Err(ElfError::Memory),
        ElfError::Read => Err(ElfError::Read),
        _ => Ok(false),
    }
}

/// Whether the string at an offset of a section is a name. A string that cannot be read is none.
fn is_string<S: Source>(
    elf: &mut Elf<S>,
    strings: ScnId,
    offset: u64,
    name: &[u8],
) -> Result<bool, ElfError>
    ensures follows { IsTrue elf.old.told → Follows result
        (Ok (is_name name.now (readable (string_answer elf.old.o strings.0 offset)))) }
    ensures stays { ObjectStays elf.old elf.new }
    ensures searches { (n : Needs) → HasStrings n elf.old.o strings.0
        → Searches S.Source n result elf.old elf.new }
{
    match strptr(elf, strings, offset) {
        Ok(string) => Ok(string == name),
        Err(e) => no_match(e),
    }
}

/// Whether a symbol is not local, and defined.
#[inline(always)]
pub fn is_defined_global(x: Sym) -> bool
    ensures { result ≡ is_defined_global x }
{
    x.info / 16 != STB_LOCAL && u32::from(x.shndx) != SHN_UNDEF
}

/// Whether symbol `i` may be listed: it is not the first one, not local, and defined.
fn may_be_listed(i: u64, x: Sym) -> bool
    ensures { result ≡ (not (i == 0) && is_defined_global x) }
{
    i != 0 && is_defined_global(x)
}

/// Whether symbol `i`, which was looked at, is listed by a name.
fn is_listed_as<S: Source>(
    elf: &mut Elf<S>,
    strings: ScnId,
    i: u64,
    x: Sym,
    name: &[u8],
) -> Result<bool, ElfError>
    ensures follows { IsTrue elf.old.told → Follows result (Ok
        (is_name name.now (if not (i == 0) && is_defined_global x
        then not_empty (readable (string_answer elf.old.o strings.0 x.name)) else None))) }
    ensures stays { ObjectStays elf.old elf.new }
    ensures searches { (n : Needs) → HasStrings n elf.old.o strings.0
        → Searches S.Source n result elf.old elf.new }
{
    if !may_be_listed(i, x) || name.is_empty() {
        return Ok(false);
    }
    is_string(elf, strings, u64::from(x.name), name)
}

/// Whether symbol `i` of a table is listed by a name: it is not local, it is defined, and that is
/// its name. The first symbol and one that is not there are not, and none is listed by the empty
/// name.
pub fn is_match<S: Source>(
    elf: &mut Elf<S>,
    s: ScnId,
    strings: ScnId,
    i: u64,
    name: &[u8],
) -> Result<bool, ElfError>
    requires passed { lend_refusal elf.old.o kinds.Sym s.0 0 ≡ None }
    requires strings { strings.0 ≡ link_of elf.old.o s.0 }
    ensures follows { IsTrue elf.old.told
        → Follows result (Ok (is_match elf.old.o s.0 name.now i)) }
    ensures stays { ObjectStays elf.old elf.new }
    ensures searches { (n : Needs) → HasTable n elf.old.o s.0
        → Searches S.Source n result elf.old elf.new }
{
    let d = DataId {
        section: s.0,
        piece: 0,
    };
    match sym(elf, d, i) {
        Ok(x) => is_listed_as(elf, strings, i, x, name),
        Err(e) => no_match(e),
    }
}

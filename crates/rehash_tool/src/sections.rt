//! The sections that rehash looks for.

ghost use Rattle.std.specs.Prelude.{◌≡◌, ◌<◌, ◌==◌, ◌&&◌, length, position, IfSome};
ghost use Rattle.elf_types.specs.declared.constants.TheConstants.{SHT_HASH};
ghost use Rattle.elf_types.specs.declared.records.Kind.TheVariants as kinds;
ghost use Rattle.elf_object.specs.Answers.{same_kind};
ghost use Rattle.elf_object.specs.Sections.{is_of};
ghost use Rattle.rebuild_model.specs.Rehashed.{dynamic_symbols, gnu_section, sysv_section};
ghost use Rattle.rehash_tool.specs.Sections.{is_matching_section};

use elf_outside::Source;
use elf_types::constants::{SHT_DYNSYM, SHT_GNU_HASH, SHT_HASH};
use elf_types::{Class, Kind, ScnId, Shdr, kind_of};
use tool_files::prelude::Elf;

/// A section that rehash looks for.
#[derive(Clone, Copy)]
pub enum Sought {
    /// The table of dynamic symbols.
    Symbols,
    /// GNU's hash section that links to a table.
    Gnu(u32),
    /// The hash section of words that links to a table.
    Words(u32),
}

/// Whether items are words.
#[tactic(auto, unfolding(elf_object::specs::Answers::kind_code))]
fn are_words(kind: Kind) -> bool
    ensures { result ≡ same_kind kind kinds.Word }
{
    matches!(kind, Kind::Word)
}

/// Whether a section is a hash section of words.
#[tactic(auto, unfolding(elf_object::specs::Sections::is_of))]
fn is_word_hash(h: &Shdr) -> bool
    ensures { result ≡ is_of SHT_HASH kinds.Word h.now }
{
    h.stype == SHT_HASH && are_words(kind_of(Class::C64, h))
}

/// Whether a section is the one that is looked for.
fn is_sought(h: &Shdr, sought: Sought) -> bool
    ensures { result ≡ is_matching_section sought h.now }
{
    match sought {
        Sought::Symbols => h.stype == SHT_DYNSYM,
        Sought::Gnu(s) => h.stype == SHT_GNU_HASH && h.link == s,
        Sought::Words(s) => is_word_hash(h) && h.link == s,
    }
}

/// The first section that is looked for. It takes no memory.
fn first_section<S: Source>(elf: &Elf<S>, sought: Sought) -> Option<u32>
    ensures { result ≡ position (λ c. is_matching_section sought c.header) elf.now.o.sections }
{
    let shnum = elf.shnum();
    for n in 0..shnum {
        let header = elf.section_header(ScnId(n));
        if is_sought(&header, sought) {
            return Some(n);
        }
    }
    None
}

/// The first table of dynamic symbols. It takes no memory.
#[tactic(auto, unfolding(rebuild_model::specs::Rehashed::dynamic_symbols))]
pub fn dynamic_symbols<S: Source>(elf: &Elf<S>) -> Option<u32>
    ensures { result ≡ dynamic_symbols elf.now.o }
{
    first_section(elf, Sought::Symbols)
}

/// The first GNU hash section that links to a table. It takes no memory.
#[tactic(auto, unfolding(rebuild_model::specs::Rehashed::gnu_section))]
pub fn gnu_section<S: Source>(elf: &Elf<S>, s: u32) -> Option<u32>
    ensures { result ≡ gnu_section elf.now.o s }
{
    first_section(elf, Sought::Gnu(s))
}

/// The first hash section of words that links to a table. It takes no memory.
#[tactic(auto, unfolding(rebuild_model::specs::Rehashed::sysv_section))]
pub fn sysv_section<S: Source>(elf: &Elf<S>, s: u32) -> Option<u32>
    ensures { result ≡ sysv_section elf.now.o s }
{
    first_section(elf, Sought::Words(s))
}

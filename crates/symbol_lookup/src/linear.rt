//! Looking a symbol up among all symbols of a table.

ghost use Rattle.std.specs.Prelude.{◌≡◌, ◌<◌, IsTrue, IfOk, IfSome, None};
ghost use Rattle.std.specs.List.{position};
ghost use Rattle.elf_types.specs.Answers.{Follows};
ghost use Rattle.elf_types.specs.declared.records.Kind.TheVariants as kinds;
ghost use Rattle.hash_model.specs.elf_object.Words.{Answers};
ghost use Rattle.hash_model.specs.elf_object.Answers.{count_at, lend_refusal, no_section};
ghost use Rattle.hash_model.specs.elf_object.Strings.{is_name};
ghost use Rattle.gelf_view.specs.elf_descriptor.Reads.{Looks, wanted};
ghost use Rattle.hash_model.specs.Listed.{listed_names};
ghost use Rattle.symbol_lookup.specs.Lookups as calls;
ghost use Rattle.symbol_lookup.specs.Lookups.{linear_needs, link_of};
ghost use Rattle.symbol_lookup.specs.Searches.{Searches};

use crate::matching::is_match;
use crate::passing::pass_over;
use elf_types::{DataId, ElfError, ScnId, Sym};
use gelf_view::item_count;
use gelf_view::prelude::Elf;
use hash_model::prelude::Source;

/// The section to which a section that is there links.
#[tactic(auto, unfolding(hash_model::specs::Passed::shdr_answer))]
pub fn link<S: Source>(elf: &Elf<S>, s: ScnId) -> ScnId
    requires { no_section elf.now.o s.0 ≡ None }
    ensures { result.0 ≡ link_of elf.now.o s.0 }
{
    match elf.shdr(s) {
        Ok(header) => ScnId(header.link),
        Err(_) => unreachable!(),
    }
}

/// The first of so many symbols that is listed by a name. Those that surely are not are passed over
/// where their bytes are.
fn first_match<S: Source>(
    elf: &mut Elf<S>,
    s: ScnId,
    count: u64,
    name: &[u8],
) -> Result<Option<u64>, ElfError>
    requires passed { lend_refusal elf.old.o kinds.Sym s.0 0 ≡ None }
    requires count { count ≡ count_at elf.old.o s.0 0 }
    ensures follows { IsTrue elf.old.told → Follows result
        (Ok (position (is_name name.now) (listed_names elf.old.o s.0))) }
    ensures searches { Searches S.Source (linear_needs elf.old.o s.0) result elf.old elf.new }
    ensures below { IfOk result (λ found. IfSome found (λ i. i < count)) }
{
    let strings = link(elf, s);
    let mut next = 0;
    while next < count {
        let i = pass_over(elf, s, strings, name, next, count);
        if i >= count {
            return Ok(None);
        }
        if is_match(elf, s, strings, i, name)? {
            return Ok(Some(i));
        }
        next = i + 1;
    }
    Ok(None)
}

/// The least index of a symbol in piece 0 of a symbol table whose binding is not `STB_LOCAL`, which
/// is defined and whose name is `name`. Symbol 0 and the empty name are never found, and a symbol
/// whose name cannot be read matches nothing. It fails as a lend of the symbols, in this order:
/// `NoSection`, `NoData`, `WrongKind`, and for the clean home piece `OutOfFile` and `Ragged`; then
/// `Memory` or `Read`, at any read. It reads the table and its strings at the first use, each once,
/// and marks nothing dirty.
///
/// Source: gABI chapter 4, "Symbol Table" and "String Table".
pub fn find_linear<S: Source>(
    elf: &mut Elf<S>,
    s: ScnId,
    name: &[u8],
) -> Result<Option<u64>, ElfError>
    ensures answer { Answers elf.old.told (wanted (calls.find_linear s.0 name.now) elf.old) result
        ((calls.find_linear s.0 name.now).answer elf.old.o) }
    ensures looks { Looks S.Source (calls.find_linear s.0 name.now) result elf.old elf.new }
    ensures below { IfOk result (λ found. IfSome found (λ i. i < count_at elf.old.o s.0 0)) }
{
    let d = DataId {
        section: s.0,
        piece: 0,
    };
    match item_count::<S, Sym>(elf, d) {
        Ok(count) => first_match(elf, s, count, name),
        Err(e) => Err(e),
    }
}

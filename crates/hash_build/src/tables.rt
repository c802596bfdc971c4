//! Symbol tables for which hash sections are built.

ghost use Rattle.std.specs.Prelude.{◌≡◌, IfOk, IfErr, None, Some};
ghost use Rattle.elf_types.specs.Answers.{IsRefusal};
ghost use Rattle.elf_types.specs.declared.records.Kind.TheVariants as kinds;
ghost use Rattle.symbol_lookup.specs.elf_object.Answers.{count_at, lend_refusal};
ghost use Rattle.symbol_lookup.specs.hash_model.BuiltHashes.{hash_refusal};
ghost use Rattle.hash_build.specs.Tables.{IsSymbolTable};

use elf_outside::Source;
use elf_types::{Class, DataId, ElfError, Order, ScnId, Sym};
use symbol_lookup::prelude::{Elf, item_count};

/// The number of symbols that a hash section can not tell: its words have 32 bits.
const TOO_MANY: u64 = 0x1_0000_0000;

/// A symbol table whose symbols can be told.
#[derive(Clone, Copy)]
pub struct SymbolTable {
    /// The section.
    pub section: ScnId,
    /// The section of their names.
    pub strings: ScnId,
    /// How many symbols it has.
    pub count: u64,
}

/// The table of a section that has so many symbols; else `TooMany`.
fn table_with<S: Source>(elf: &Elf<S>, s: ScnId, count: u64) -> Result<SymbolTable, ElfError>
    requires passed { lend_refusal elf.now.o kinds.Sym s.0 0 ≡ None }
    requires count { count ≡ count_at elf.now.o s.0 0 }
    ensures table { IfOk result (IsSymbolTable elf.now.o) }
    ensures section { IfOk result (λ t. t.section.0 ≡ s.0) }
    ensures refused { IfErr result (λ e. hash_refusal elf.now.o s.0 ≡ Some e) }
    ensures err { IfErr result IsRefusal }
{
    if count >= TOO_MANY {
        return Err(ElfError::TooMany);
    }
    let strings = ScnId(elf.section_header(s).link);
    Ok(SymbolTable {
        section: s,
        strings,
        count,
    })
}

/// The table of a section. It fails as a lend of its symbols, and then `TooMany` where there are
/// 2^32 symbols or more. Nothing is read.
pub fn table_of<S: Source>(elf: &Elf<S>, s: ScnId) -> Result<SymbolTable, ElfError>
    ensures table { IfOk result (IsSymbolTable elf.now.o) }
    ensures section { IfOk result (λ t. t.section.0 ≡ s.0) }
    ensures refused { IfErr result (λ e. hash_refusal elf.now.o s.0 ≡ Some e) }
    ensures err { IfErr result IsRefusal }
{
    let d = DataId {
        section: s.0,
        piece: 0,
    };
    match item_count::<S, Sym>(elf, d) {
        Ok(count) => table_with(elf, s, count),
        Err(e) => Err(e),
    }
}

/// The class and the byte order of an object.
#[tactic(auto, unfolding(symbol_lookup::specs::Passed::header_of))]
pub fn form_of<S: Source>(elf: &Elf<S>) -> (Class, Order)
    ensures class { result.0 ≡ elf.now.o.header.class }
    ensures order { result.1 ≡ elf.now.o.header.order }
{
    let header = elf.ehdr();
    (header.class, header.order)
}

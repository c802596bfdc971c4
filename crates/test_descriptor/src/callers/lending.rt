//! What a caller learns of items that it was lent.

ghost use Rattle.std.specs.Prelude.{◌≡◌, ◌∷◌, ◌++◌, [], true, IfOk, OnOk, OnErr, IsTrue};
ghost use Rattle.elf_xlate.specs.declared.content.Items.TheVariants as items;
ghost use Rattle.elf_object.specs.Answers.{items_at, words_of};
ghost use Rattle.elf_object.specs.Words.{Answers};
ghost use Rattle.elf_object.specs.Calls as calls;
ghost use Rattle.elf_descriptor.specs.Reads.{wanted};

use elf_descriptor::Elf;
use elf_outside::Source;
use elf_types::{DataId, ElfError, Sym};

/// Appends a word to a piece.
pub fn push_word<S: Source>(elf: &mut Elf<S>, d: DataId, word: u32) -> Result<(), ElfError>
    ensures object { IsTrue elf.old.told → OnOk result (elf.new.o ≡ (calls.lend d.section d.piece
        (items.Word (words_of (items_at elf.old.o d.section d.piece) ++ word ∷ []))).after
        elf.old.o) }
{
    match elf.words_mut(d) {
        Ok(words) => words.push(word),
        Err(e) => Err(e),
    }
}

/// Stores the first symbol of a piece, and reads it.
pub fn store_first<S: Source>(elf: &mut Elf<S>, d: DataId, sym: Sym) -> Result<Sym, ElfError>
    ensures stored { IsTrue elf.old.told → IfOk result (λ read. read ≡ sym) }
{
    let syms = elf.syms_mut(d)?;
    if syms.is_empty() {
        return Err(ElfError::NoEntry { index: 0, count: 0 });
    }
    syms.as_mut_slice()[0] = sym;
    elf.item::<Sym>(d, 0)
}

/// Stores a symbol, as the call of the plain object states it.
pub fn update_symbol<S: Source>(
    elf: &mut Elf<S>,
    d: DataId,
    i: u64,
    sym: &Sym,
) -> Result<(), ElfError>
    ensures answer { Answers true (wanted (calls.update_sym d.section d.piece i sym.now) elf.old)
        result ((calls.update_sym d.section d.piece i sym.now).answer elf.old.o) }
    ensures object { IsTrue elf.old.told → OnOk result (elf.new.o
        ≡ (calls.update_sym d.section d.piece i sym.now).after elf.old.o) }
    ensures unchanged { OnErr result (elf.new.o ≡ elf.old.o) }
{
    elf.update_item::<Sym>(d, i, *sym)
}

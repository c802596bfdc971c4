//! Lists the names of an image's symbols: an example of code over the library, through a descriptor
//! and its views.
#![tactic(auto)]

#[cfg(test)]
mod tests;

ghost use Rattle.std.specs.Prelude.{◌≡◌};

use elf_descriptor::Elf;
use elf_outside::{Sink, Source};
use elf_types::constants::SHT_SYMTAB;
use elf_types::{DataId, ElfError, ScnId, Sym};
use gelf_view::{item_count, strptr, sym};
use std::alloc::Global;

/// Puts a name and a newline.
fn put_name<K: Sink>(out: &mut K, name: &[u8]) -> Result<(), ElfError> {
    for text in [name, b"\n"] {
        if out.put(text).is_err() {
            return Err(ElfError::Write);
        }
    }
    Ok(())
}

/// Puts the name of each symbol of a symbol table but the first, and leaves the object. A name that
/// has no end in its string table, or lies outside it, is passed over; every other refusal ends it.
fn list_table<S: Source, K: Sink>(
    elf: &mut Elf<S>,
    table: ScnId,
    out: &mut K,
) -> Result<(), ElfError>
    ensures { elf.new.o ≡ elf.old.o }
{
    let names = ScnId(elf.shdr(table)?.link);
    let symbols = DataId {
        section: table.0,
        piece: 0,
    };
    for i in 1..item_count::<S, Sym>(elf, symbols)? {
        let symbol = sym(elf, symbols, i)?;
        match strptr(elf, names, u64::from(symbol.name)) {
            Ok(name) => put_name(out, name)?,
            Err(ElfError::NoString { .. } | ElfError::Unended { .. }) => {}
            Err(e) => return Err(e),
        }
    }
    Ok(())
}

/// Puts the names of an image's symbols on a sink, a line each, and gives the source back.
pub fn list_names<S: Source, K: Sink>(
    alloc: Global,
    src: S,
    out: &mut K,
) -> (S, Result<(), ElfError>) {
    let mut elf = match Elf::begin(alloc, src) {
        Ok(elf) => elf,
        // no image, or no memory, or a failed read: nothing was changed, and the source comes back
        Err((src, e)) => return (src, Err(e)),
    };
    let mut listed = Ok(());
    for s in 0..elf.shnum() {
        if let Ok(header) = elf.shdr(ScnId(s)) {
            if header.stype == SHT_SYMTAB && listed.is_ok() {
                listed = list_table(&mut elf, ScnId(s), out);
            }
        }
    }
    (elf.end(), listed)
}

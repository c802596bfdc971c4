//! Records with one field changed.

ghost use Rattle.std.specs.Prelude.{◌≡◌};
ghost use Rattle.elf_calls_apply.specs.Fields.{ehdr_with, phdr_with, shdr_with, sym_with, rel_with, rela_with, dyn_with};

use elf_calls_script::{EhdrSet, ItemSet, PhdrSet, ShdrSet};
use elf_types::{Dyn, Ehdr, Phdr, Rel, Rela, Shdr, Sym};

/// An ELF header with one field changed.
pub(crate) fn ehdr_with(set: EhdrSet, h: Ehdr) -> Ehdr
    ensures { result ≡ ehdr_with set h }
{
    match set {
        EhdrSet::Osabi(osabi) => Ehdr { osabi, ..h },
        EhdrSet::Abiversion(abiversion) => Ehdr { abiversion, ..h },
        EhdrSet::Etype(etype) => Ehdr { etype, ..h },
        EhdrSet::Machine(machine) => Ehdr { machine, ..h },
        EhdrSet::Entry(entry) => Ehdr { entry, ..h },
        EhdrSet::Phoff(phoff) => Ehdr { phoff, ..h },
        EhdrSet::Shoff(shoff) => Ehdr { shoff, ..h },
        EhdrSet::Flags(flags) => Ehdr { flags, ..h },
        EhdrSet::Shstrndx(shstrndx) => Ehdr { shstrndx, ..h },
    }
}

/// A program header with one field changed.
pub(crate) fn phdr_with(set: PhdrSet, p: Phdr) -> Phdr
    ensures { result ≡ phdr_with set p }
{
    match set {
        PhdrSet::Ptype(ptype) => Phdr { ptype, ..p },
        PhdrSet::Flags(flags) => Phdr { flags, ..p },
        PhdrSet::Offset(offset) => Phdr { offset, ..p },
        PhdrSet::Vaddr(vaddr) => Phdr { vaddr, ..p },
        PhdrSet::Paddr(paddr) => Phdr { paddr, ..p },
        PhdrSet::Filesz(filesz) => Phdr { filesz, ..p },
        PhdrSet::Memsz(memsz) => Phdr { memsz, ..p },
        PhdrSet::Align(align) => Phdr { align, ..p },
    }
}

/// A section header with one field changed.
pub(crate) fn shdr_with(set: ShdrSet, h: Shdr) -> Shdr
    ensures { result ≡ shdr_with set h }
{
    match set {
        ShdrSet::Name(name) => Shdr { name, ..h },
        ShdrSet::Stype(stype) => Shdr { stype, ..h },
        ShdrSet::Flags(flags) => Shdr { flags, ..h },
        ShdrSet::Addr(addr) => Shdr { addr, ..h },
        ShdrSet::Offset(offset) => Shdr { offset, ..h },
        ShdrSet::Size(size) => Shdr { size, ..h },
        ShdrSet::Link(link) => Shdr { link, ..h },
        ShdrSet::Info(info) => Shdr { info, ..h },
        ShdrSet::Addralign(addralign) => Shdr { addralign, ..h },
        ShdrSet::Entsize(entsize) => Shdr { entsize, ..h },
    }
}

/// A symbol with one field changed, where that is one of a symbol.
pub(crate) fn sym_with(set: ItemSet, x: Sym) -> Sym
    ensures { result ≡ sym_with set x }
{
    match set {
        ItemSet::SymName(name) => Sym { name, ..x },
        ItemSet::SymValue(value) => Sym { value, ..x },
        ItemSet::SymSize(size) => Sym { size, ..x },
        ItemSet::SymInfo(info) => Sym { info, ..x },
        ItemSet::SymOther(other) => Sym { other, ..x },
        ItemSet::SymShndx(shndx) => Sym { shndx, ..x },
        _ => x,
    }
}

/// A relocation without an addend with one field changed, where that is one of it.
pub(crate) fn rel_with(set: ItemSet, x: Rel) -> Rel
    ensures { result ≡ rel_with set x }
{
    match set {
        ItemSet::RelOffset(offset) => Rel { offset, ..x },
        ItemSet::RelSym(sym) => Rel { sym, ..x },
        ItemSet::RelType(rtype) => Rel { rtype, ..x },
        _ => x,
    }
}

/// A relocation with an addend with one field changed, where that is one of it.
pub(crate) fn rela_with(set: ItemSet, x: Rela) -> Rela
    ensures { result ≡ rela_with set x }
{
    match set {
        ItemSet::RelaOffset(offset) => Rela { offset, ..x },
        ItemSet::RelaSym(sym) => Rela { sym, ..x },
        ItemSet::RelaType(rtype) => Rela { rtype, ..x },
        ItemSet::RelaAddend(addend) => Rela { addend, ..x },
        _ => x,
    }
}

/// An entry of the dynamic section with one field changed, where that is one of it.
pub(crate) fn dyn_with(set: ItemSet, x: Dyn) -> Dyn
    ensures { result ≡ dyn_with set x }
{
    match set {
        ItemSet::DynTag(tag) => Dyn { tag, ..x },
        ItemSet::DynVal(val) => Dyn { val, ..x },
        _ => x,
    }
}

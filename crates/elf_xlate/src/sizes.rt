//! Sizes in the file.

ghost use Rattle.std.specs.Prelude.{◌≡◌, ◌<◌, ◌^◌};
ghost use Rattle.std.specs.Option.{SomeIff};
ghost use Rattle.elf_xlate.specs.Headers.{ehdr_size, phdr_size, shdr_size};
ghost use Rattle.elf_xlate.specs.Items.{item_size};
ghost use Rattle.elf_xlate.specs.Translation.{file_size};

use elf_types::{Class, Kind};

/// The number of bytes of the ELF header of a class. It takes no memory.
///
/// Source: gABI chapter 4, "ELF Header".
pub fn ehdr_size(class: Class) -> usize
    ensures { result ≡ ehdr_size class }
{
    match class {
        Class::C32 => 52,
        Class::C64 => 64,
    }
}

/// The number of bytes of a program header of a class. It takes no memory.
///
/// Source: gABI chapter 5, "Program Header".
pub fn phdr_size(class: Class) -> usize
    ensures { result ≡ phdr_size class }
{
    match class {
        Class::C32 => 32,
        Class::C64 => 56,
    }
}

/// The number of bytes of a section header of a class. It takes no memory.
///
/// Source: gABI chapter 4, "Sections".
pub fn shdr_size(class: Class) -> usize
    ensures { result ≡ shdr_size class }
{
    match class {
        Class::C32 => 40,
        Class::C64 => 64,
    }
}

/// The number of bytes that an item of a kind takes in the file of a class. `Empty` takes none. It
/// takes no memory.
///
/// Source: gABI chapter 4, "Data Representation".
pub fn item_size(kind: Kind, class: Class) -> u64
    ensures { result ≡ item_size kind class }
{
    match (kind, class) {
        (Kind::Empty, _) => 0,
        (Kind::Bytes, _) => 1,
        (Kind::Half, _) => 2,
        (Kind::Word, _) | (Kind::Addr, Class::C32) => 4,
        (Kind::Addr, Class::C64) | (Kind::Rel, Class::C32) | (Kind::Dyn, Class::C32) => 8,
        (Kind::Rela, Class::C32) => 12,
        (Kind::Sym, Class::C32) | (Kind::Rel, Class::C64) | (Kind::Dyn, Class::C64) => 16,
        (Kind::Sym, Class::C64) | (Kind::Rela, Class::C64) => 24,
    }
}

/// The number of bytes that so many items of a kind take in the file of a class, or None exactly
/// where it passes 2^64 - 1. `Empty` takes none. It takes no memory.
///
/// Source: gelf_fsize of gelf(3E).
pub fn fsize(kind: Kind, class: Class, count: u64) -> Option<u64>
    ensures { SomeIff result (file_size kind class count < 2 ^ 64) (file_size kind class count) }
{
    item_size(kind, class).checked_mul(count)
}

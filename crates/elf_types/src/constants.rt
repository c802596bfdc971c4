//! The constants of the System V gABI under their own names, and the limits of elfkit. The
//! definitions in specs/ cite them as the code does.

ghost use Rattle.std.specs.Prelude.{◌≡◌, true};
ghost use Rattle.elf_types.specs.Constants.{are_numbers, identification, numbering, section_types, section_flags, segments, symbols, limits, part_flags, elf_magic, archive_magic};

// ---- ELF identification (gABI chapter 4, "ELF Identification")

/// The place of the class.
pub const EI_CLASS: usize = 4;
/// The place of the byte order.
pub const EI_DATA: usize = 5;
/// The place of the version.
pub const EI_VERSION: usize = 6;
/// The place of the operating system or ABI.
pub const EI_OSABI: usize = 7;
/// The place of the version of that ABI.
pub const EI_ABIVERSION: usize = 8;
/// The place of the first byte that is kept for later use.
pub const EI_PAD: usize = 9;
/// The number of bytes of the identification.
pub const EI_NIDENT: usize = 16;
/// The magic number of an ELF image.
pub const ELFMAG: [u8; 4] = [0x7f, b'E', b'L', b'F'];
/// 32-bit objects.
pub const ELFCLASS32: u8 = 1;
/// 64-bit objects.
pub const ELFCLASS64: u8 = 2;
/// The least significant byte comes first.
pub const ELFDATA2LSB: u8 = 1;
/// The most significant byte comes first.
pub const ELFDATA2MSB: u8 = 2;
/// The version of this format, in the identification and in `e_version`.
pub const EV_CURRENT: u32 = 1;

// ---- Extended numbering (gABI chapter 4, "Sections", and chapter 5, "Program Header")

/// No section: an undefined symbol, or no string table.
pub const SHN_UNDEF: u32 = 0;
/// The first reserved section index.
pub const SHN_LORESERVE: u32 = 0xff00;
/// The value is absolute.
pub const SHN_ABS: u32 = 0xfff1;
/// A common block that is not allocated yet.
pub const SHN_COMMON: u32 = 0xfff2;
/// The index does not fit: it is in `sh_link` of section 0, or in a `SHT_SYMTAB_SHNDX` section.
pub const SHN_XINDEX: u32 = 0xffff;
/// The number of program headers does not fit: it is in `sh_info` of section 0.
pub const PN_XNUM: u32 = 0xffff;

// ---- Section types (gABI chapter 4, "Sections"; the types of version and hash sections are GNU's)

/// No section has this header.
pub const SHT_NULL: u32 = 0;
/// The program's own data.
pub const SHT_PROGBITS: u32 = 1;
/// A symbol table.
pub const SHT_SYMTAB: u32 = 2;
/// A string table.
pub const SHT_STRTAB: u32 = 3;
/// Relocations with an addend.
pub const SHT_RELA: u32 = 4;
/// A hash table of symbols.
pub const SHT_HASH: u32 = 5;
/// What dynamic linking needs.
pub const SHT_DYNAMIC: u32 = 6;
/// Notes.
pub const SHT_NOTE: u32 = 7;
/// A section without bytes in the file.
pub const SHT_NOBITS: u32 = 8;
/// Relocations without an addend.
pub const SHT_REL: u32 = 9;
/// The symbols of dynamic linking.
pub const SHT_DYNSYM: u32 = 11;
/// Addresses of functions that are called at the start.
pub const SHT_INIT_ARRAY: u32 = 14;
/// Addresses of functions that are called at the end.
pub const SHT_FINI_ARRAY: u32 = 15;
/// Addresses of functions that are called before all others.
pub const SHT_PREINIT_ARRAY: u32 = 16;
/// A group of sections.
pub const SHT_GROUP: u32 = 17;
/// Extended section indexes of symbols.
pub const SHT_SYMTAB_SHNDX: u32 = 18;
/// GNU's hash table of symbols.
pub const SHT_GNU_HASH: u32 = 0x6fff_fff6;
/// Definitions of versions.
pub const SHT_GNU_VERDEF: u32 = 0x6fff_fffd;
/// Needs of versions.
pub const SHT_GNU_VERNEED: u32 = 0x6fff_fffe;
/// Versions of symbols.
pub const SHT_GNU_VERSYM: u32 = 0x6fff_ffff;

// ---- Section flags (gABI chapter 4, "Sections")

/// The section is written when the program runs.
pub const SHF_WRITE: u64 = 0x1;
/// The section is in memory when the program runs.
pub const SHF_ALLOC: u64 = 0x2;
/// The section has machine instructions.
pub const SHF_EXECINSTR: u64 = 0x4;
/// `sh_info` holds a section index.
pub const SHF_INFO_LINK: u64 = 0x40;
/// The section holds thread-local storage.
pub const SHF_TLS: u64 = 0x400;
/// The section's data is compressed.
pub const SHF_COMPRESSED: u64 = 0x800;

// ---- Segments (gABI chapter 5, "Program Header")

/// An entry that is not used.
pub const PT_NULL: u32 = 0;
/// A loadable segment.
pub const PT_LOAD: u32 = 1;
/// The segment is executed.
pub const PF_X: u32 = 0x1;
/// The segment is written.
pub const PF_W: u32 = 0x2;
/// The segment is read.
pub const PF_R: u32 = 0x4;

// ---- Symbols (gABI chapter 4, "Symbol Table"; the last two are GNU's)

/// The symbol is not seen outside its file.
pub const STB_LOCAL: u8 = 0;
/// The symbol is seen by all files.
pub const STB_GLOBAL: u8 = 1;
/// A global symbol of lower precedence.
pub const STB_WEAK: u8 = 2;
/// The symbol is of a data object.
pub const STT_OBJECT: u8 = 1;
/// The symbol is of a section.
pub const STT_SECTION: u8 = 3;
/// The symbol has the name of the source file.
pub const STT_FILE: u8 = 4;
/// A symbol of which a process has one.
pub const STB_GNU_UNIQUE: u8 = 10;
/// A function that returns the address to use.
pub const STT_GNU_IFUNC: u8 = 10;

// ---- Archives (ar.h)

/// The first line of an archive.
pub const ARMAG: [u8; 8] = *b"!<arch>\n";

// ---- Limits (those of elfkit)

/// The most bytes of an image and of an archive.
pub const MAX_IMAGE: u64 = 1 << 40;
/// The most sections of an object.
pub const MAX_SECTIONS: u64 = 1 << 20;
/// The most program headers that are read.
pub const MAX_SEGMENTS: u64 = 1 << 20;
/// The most pieces of a section.
pub const MAX_PIECES: u64 = 1 << 20;
/// The greatest alignment of a piece in its section.
pub const MAX_PIECE_ALIGN: u64 = 1 << 20;

/// Each constant is the number that is beside its name in the tables of specs/Constants. It is for
/// the reader and for proofs, and does nothing.
pub fn constants_are()
    ensures identification { are_numbers identification ≡ true }
    ensures numbering { are_numbers numbering ≡ true }
    ensures section_types { are_numbers section_types ≡ true }
    ensures section_flags { are_numbers section_flags ≡ true }
    ensures segments { are_numbers segments ≡ true }
    ensures symbols { are_numbers symbols ≡ true }
    ensures limits { are_numbers limits ≡ true }
    ensures part_flags { are_numbers part_flags ≡ true }
    ensures elf_magic { ELFMAG ≡ elf_magic }
    ensures archive_magic { ARMAG ≡ archive_magic }
{}

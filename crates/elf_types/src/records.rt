//! The records of an ELF image (gABI, chapters 4 and 5) in one form for both classes.

ghost use Rattle.std.specs.Prelude.{◌≡◌};

/// The class of an image, `e_ident[EI_CLASS]` (gABI, "ELF Identification").
#[derive(Clone, Copy, Debug, PartialEq, Eq)]
pub enum Class {
    /// 32-bit objects.
    C32,
    /// 64-bit objects.
    C64,
}

/// The byte order of an image, `e_ident[EI_DATA]`: which byte of a number comes first.
#[derive(Clone, Copy, Debug, PartialEq, Eq)]
pub enum Order {
    /// `ELFDATA2LSB`: the least significant byte.
    Least,
    /// `ELFDATA2MSB`: the most significant byte.
    Greatest,
}

/// What the data of a section consists of, `Elf_Type` of gelf(3E).
#[derive(Clone, Copy, Debug, PartialEq, Eq)]
pub enum Kind {
    /// No data in the file.
    Empty,
    /// Bytes.
    Bytes,
    /// Two-byte numbers.
    Half,
    /// Four-byte numbers.
    Word,
    /// Addresses: four or eight bytes by class.
    Addr,
    /// Symbols.
    Sym,
    /// Relocations without an addend.
    Rel,
    /// Relocations with an addend.
    Rela,
    /// Entries of the dynamic section.
    Dyn,
}

/// The number of a section: its place in the section header table.
#[derive(Clone, Copy, Debug, PartialEq, Eq)]
pub struct ScnId(pub u32);

/// A piece of a section's data: the section's number and the number of the piece in it, from 0.
#[derive(Clone, Copy, Debug, PartialEq, Eq)]
pub struct DataId {
    /// The section's number.
    pub section: u32,
    /// The piece's number in the section.
    pub piece: u32,
}

impl DataId {
    /// Piece 0 of a section, its home piece. It takes no memory.
    pub fn home(s: ScnId) -> DataId
        ensures { result ≡ record { section = s.0; piece = 0 } }
    {
        DataId {
            section: s.0,
            piece: 0,
        }
    }
}

/// A part of an object, as flags and refusals name it.
#[derive(Clone, Copy, Debug, PartialEq, Eq)]
pub enum Part {
    /// The object as a whole.
    Object,
    /// The ELF header.
    Header,
    /// The program header table.
    Segments,
    /// The section with that number.
    Section(u32),
    /// The piece of a section: the section's number, then the piece's.
    Piece(u32, u32),
    /// The section header table.
    Table,
}

/// The ELF header with its true counts and its true string index, after extended numbering
/// (gABI, "ELF Header").
#[derive(Clone, Copy, Debug, PartialEq, Eq)]
pub struct Ehdr {
    /// `e_ident[EI_CLASS]`.
    pub class: Class,
    /// `e_ident[EI_DATA]`.
    pub order: Order,
    /// `e_ident[EI_OSABI]`.
    pub osabi: u8,
    /// `e_ident[EI_ABIVERSION]`.
    pub abiversion: u8,
    /// `e_type`.
    pub etype: u16,
    /// `e_machine`.
    pub machine: u16,
    /// `e_version`.
    pub version: u32,
    /// `e_entry`.
    pub entry: u64,
    /// `e_phoff`, in bytes from the start of the image.
    pub phoff: u64,
    /// `e_shoff`, in bytes from the start of the image.
    pub shoff: u64,
    /// `e_flags`.
    pub flags: u32,
    /// `e_ehsize`, in bytes.
    pub ehsize: u16,
    /// `e_phentsize`, in bytes.
    pub phentsize: u16,
    /// The number of program headers.
    pub phnum: u32,
    /// `e_shentsize`, in bytes.
    pub shentsize: u16,
    /// The number of section headers.
    pub shnum: u32,
    /// The number of the section that holds the sections' names.
    pub shstrndx: u32,
}

/// A program header (gABI, "Program Header").
#[derive(Clone, Copy, Debug, PartialEq, Eq)]
pub struct Phdr {
    /// `p_type`.
    pub ptype: u32,
    /// `p_flags`.
    pub flags: u32,
    /// `p_offset`, in bytes from the start of the image.
    pub offset: u64,
    /// `p_vaddr`.
    pub vaddr: u64,
    /// `p_paddr`.
    pub paddr: u64,
    /// `p_filesz`, in bytes.
    pub filesz: u64,
    /// `p_memsz`, in bytes.
    pub memsz: u64,
    /// `p_align`.
    pub align: u64,
}

/// A section header (gABI, "Section Header").
#[derive(Clone, Copy, Debug, PartialEq, Eq)]
pub struct Shdr {
    /// `sh_name`, an offset into the section of the names.
    pub name: u32,
    /// `sh_type`.
    pub stype: u32,
    /// `sh_flags`.
    pub flags: u64,
    /// `sh_addr`.
    pub addr: u64,
    /// `sh_offset`, in bytes from the start of the image.
    pub offset: u64,
    /// `sh_size`, in bytes.
    pub size: u64,
    /// `sh_link`.
    pub link: u32,
    /// `sh_info`.
    pub info: u32,
    /// `sh_addralign`.
    pub addralign: u64,
    /// `sh_entsize`, in bytes.
    pub entsize: u64,
}

/// The section header of index 0, whose fields are all 0 (gABI, "Sections").
pub const NULL_SECTION: Shdr = Shdr {
    name: 0,
    stype: 0,
    flags: 0,
    addr: 0,
    offset: 0,
    size: 0,
    link: 0,
    info: 0,
    addralign: 0,
    entsize: 0,
};

/// A symbol (gABI, "Symbol Table").
#[derive(Clone, Copy, Debug, PartialEq, Eq)]
pub struct Sym {
    /// `st_name`, an offset into the linked string table.
    pub name: u32,
    /// `st_info`: the binding and the type.
    pub info: u8,
    /// `st_other`: the visibility in its two low bits.
    pub other: u8,
    /// `st_shndx`.
    pub shndx: u16,
    /// `st_value`.
    pub value: u64,
    /// `st_size`.
    pub size: u64,
}

/// A relocation without an addend (gABI, "Relocation"), its `r_info` split.
#[derive(Clone, Copy, Debug, PartialEq, Eq)]
pub struct Rel {
    /// `r_offset`.
    pub offset: u64,
    /// The symbol's index, `ELF32_R_SYM` or `ELF64_R_SYM`.
    pub sym: u32,
    /// The type, `ELF32_R_TYPE` or `ELF64_R_TYPE`.
    pub rtype: u32,
}

/// A relocation with an addend (gABI, "Relocation"), its `r_info` split.
#[derive(Clone, Copy, Debug, PartialEq, Eq)]
pub struct Rela {
    /// `r_offset`.
    pub offset: u64,
    /// The symbol's index, `ELF32_R_SYM` or `ELF64_R_SYM`.
    pub sym: u32,
    /// The type, `ELF32_R_TYPE` or `ELF64_R_TYPE`.
    pub rtype: u32,
    /// `r_addend`.
    pub addend: i64,
}

/// An entry of the dynamic section (gABI, "Dynamic Section").
#[derive(Clone, Copy, Debug, PartialEq, Eq)]
pub struct Dyn {
    /// `d_tag`.
    pub tag: i64,
    /// `d_val` or `d_ptr`.
    pub val: u64,
}

/// The flag of a part that differs from what the image holds, `ELF_F_DIRTY` of elf(3E).
pub const DIRTY: u32 = 1;

/// The flag of an object whose layout is the caller's, `ELF_F_LAYOUT` of elf(3E).
pub const LAYOUT: u32 = 4;

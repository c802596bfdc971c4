//! The calls of a script.

use elf_types::{DataId, List, Octets, Part, ScnId};

/// A field of the ELF header, with the value that it gets (gABI, "ELF Header").
#[derive(Clone, Copy)]
pub enum EhdrSet {
    /// `osabi`: `e_ident[EI_OSABI]`.
    Osabi(u8),
    /// `abiversion`: `e_ident[EI_ABIVERSION]`.
    Abiversion(u8),
    /// `type`: `e_type`.
    Etype(u16),
    /// `machine`: `e_machine`.
    Machine(u16),
    /// `entry`: `e_entry`.
    Entry(u64),
    /// `phoff`: `e_phoff`.
    Phoff(u64),
    /// `shoff`: `e_shoff`.
    Shoff(u64),
    /// `flags`: `e_flags`.
    Flags(u32),
    /// `shstrndx`: the section of the names, after extended numbering.
    Shstrndx(u32),
}

/// A field of a program header, with the value that it gets (gABI, "Program Header").
#[derive(Clone, Copy)]
pub enum PhdrSet {
    /// `type`: `p_type`.
    Ptype(u32),
    /// `flags`: `p_flags`.
    Flags(u32),
    /// `offset`: `p_offset`.
    Offset(u64),
    /// `vaddr`: `p_vaddr`.
    Vaddr(u64),
    /// `paddr`: `p_paddr`.
    Paddr(u64),
    /// `filesz`: `p_filesz`.
    Filesz(u64),
    /// `memsz`: `p_memsz`.
    Memsz(u64),
    /// `align`: `p_align`.
    Align(u64),
}

/// A field of a section header, with the value that it gets (gABI, "Section Header").
#[derive(Clone, Copy)]
pub enum ShdrSet {
    /// `name`: `sh_name`.
    Name(u32),
    /// `type`: `sh_type`.
    Stype(u32),
    /// `flags`: `sh_flags`.
    Flags(u64),
    /// `addr`: `sh_addr`.
    Addr(u64),
    /// `offset`: `sh_offset`.
    Offset(u64),
    /// `size`: `sh_size`.
    Size(u64),
    /// `link`: `sh_link`.
    Link(u32),
    /// `info`: `sh_info`.
    Info(u32),
    /// `addralign`: `sh_addralign`.
    Addralign(u64),
    /// `entsize`: `sh_entsize`.
    Entsize(u64),
}

/// A field of an item of a section, with the value that it gets. The kind of the item is that of
/// the variant.
#[derive(Clone, Copy)]
pub enum ItemSet {
    /// `half .. value`: a two-byte number.
    Half(u16),
    /// `word .. value`: a four-byte number.
    Word(u32),
    /// `addr .. value`: an address.
    Addr(u64),
    /// `sym .. name`: `st_name`.
    SymName(u32),
    /// `sym .. value`: `st_value`.
    SymValue(u64),
    /// `sym .. size`: `st_size`.
    SymSize(u64),
    /// `sym .. info`: `st_info`.
    SymInfo(u8),
    /// `sym .. other`: `st_other`.
    SymOther(u8),
    /// `sym .. shndx`: `st_shndx`.
    SymShndx(u16),
    /// `rel .. offset`: `r_offset`.
    RelOffset(u64),
    /// `rel .. sym`: the symbol of `r_info`.
    RelSym(u32),
    /// `rel .. type`: the type of `r_info`.
    RelType(u32),
    /// `rela .. offset`: `r_offset`.
    RelaOffset(u64),
    /// `rela .. sym`: the symbol of `r_info`.
    RelaSym(u32),
    /// `rela .. type`: the type of `r_info`.
    RelaType(u32),
    /// `rela .. addend`: `r_addend`.
    RelaAddend(i64),
    /// `dyn .. tag`: `d_tag`.
    DynTag(i64),
    /// `dyn .. val`: `d_val` or `d_ptr`.
    DynVal(u64),
}

/// A call of the library, which a line of a script stands for.
#[derive(Drop)]
pub enum Call {
    /// `ehdr`: shows the ELF header.
    Ehdr,
    /// `phdr I`: shows a program header.
    Phdr {
        /// Its index.
        i: u32,
    },
    /// `shdr S`: shows a section header.
    Shdr {
        /// The section.
        s: ScnId,
    },
    /// `pieces S`: counts the pieces of a section.
    Pieces {
        /// The section.
        s: ScnId,
    },
    /// `data S P`: tells the kind of a piece, and counts its items.
    Data {
        /// The piece.
        d: DataId,
    },
    /// `raw S`: shows the bytes of a section as they are in the file.
    Raw {
        /// The section.
        s: ScnId,
    },
    /// `item S P I`: shows an item of a piece.
    Item {
        /// The piece.
        d: DataId,
        /// The item's index.
        i: u64,
    },
    /// `str S OFF`: shows a string of a string table.
    Str {
        /// The section.
        s: ScnId,
        /// The string's offset, in bytes.
        off: u64,
    },
    /// `note S P AT`: shows a note.
    Note {
        /// The piece.
        d: DataId,
        /// The note's offset, in bytes.
        at: u64,
    },
    /// `find S NAME`: finds a symbol by its name.
    Find {
        /// The section of the symbols.
        s: ScnId,
        /// The name, which is not empty.
        name: Octets,
    },
    /// `set ehdr FIELD N`: sets a field of the ELF header.
    SetEhdr {
        /// The field and its value.
        set: EhdrSet,
    },
    /// `set phdr I FIELD N`: sets a field of a program header.
    SetPhdr {
        /// The header's index.
        i: u32,
        /// The field and its value.
        set: PhdrSet,
    },
    /// `set shdr S FIELD N`: sets a field of a section header.
    SetShdr {
        /// The section.
        s: ScnId,
        /// The field and its value.
        set: ShdrSet,
    },
    /// `set KIND S P I FIELD N`: sets a field of an item.
    SetItem {
        /// The piece.
        d: DataId,
        /// The item's index.
        i: u64,
        /// The item's kind, the field and its value.
        set: ItemSet,
    },
    /// `addall S P N`: adds a number to each item of a piece.
    AddAll {
        /// The piece.
        d: DataId,
        /// The number.
        n: u64,
    },
    /// `newscn`: appends a section.
    NewScn,
    /// `newphdr N`: makes a program header table.
    NewPhdr {
        /// How many program headers it has.
        n: u32,
    },
    /// `newdata S HEX`: appends a piece of bytes to a section.
    NewData {
        /// The section.
        s: ScnId,
        /// The bytes.
        bytes: Octets,
    },
    /// `newdata S HEX N`: appends a piece of bytes with an alignment of its own.
    NewDataAligned {
        /// The section.
        s: ScnId,
        /// The bytes.
        bytes: Octets,
        /// The alignment, in bytes.
        align: u64,
    },
    /// `fill N`: sets the byte that fills gaps.
    Fill {
        /// The byte.
        byte: u8,
    },
    /// `replace S P HEX`: puts bytes in the place of a piece.
    Replace {
        /// The piece.
        d: DataId,
        /// The bytes.
        bytes: Octets,
    },
    /// `flag PART set BITS` and `flag PART clear BITS`: sets or clears flags of a part.
    Flag {
        /// The part: not `Table`, which no line names.
        part: Part,
        /// Whether the flags are set; else they are cleared.
        set: bool,
        /// The flags, one bit each.
        bits: u32,
    },
    /// `null`: lays the object out, and tells the size of its image.
    Null,
}

/// The calls of a script, in the order of its lines.
pub type Calls = List<Call>;

//! The fields of an image, by their gABI names, and where each is.

use elf_types::Class;

/// A field of an image.
#[derive(Clone, Copy)]
pub enum Field {
    /// The byte of the identification at a place, as `EI_CLASS`.
    Ident(usize),
    /// A field of the ELF header.
    Header(HeaderField),
    /// A field of the program header with a number.
    Segment(u64, SegmentField),
    /// A field of the section header with a number.
    Section(u64, SectionField),
}

/// A field of the ELF header (gABI chapter 4, "ELF Header").
#[derive(Clone, Copy)]
pub enum HeaderField {
    /// `e_type`.
    Type,
    /// `e_machine`.
    Machine,
    /// `e_version`.
    Version,
    /// `e_entry`.
    Entry,
    /// `e_phoff`.
    Phoff,
    /// `e_shoff`.
    Shoff,
    /// `e_flags`.
    Flags,
    /// `e_ehsize`.
    Ehsize,
    /// `e_phentsize`.
    Phentsize,
    /// `e_phnum`.
    Phnum,
    /// `e_shentsize`.
    Shentsize,
    /// `e_shnum`.
    Shnum,
    /// `e_shstrndx`.
    Shstrndx,
}

/// A field of a program header (gABI chapter 5, "Program Header").
#[derive(Clone, Copy)]
pub enum SegmentField {
    /// `p_type`.
    Type,
    /// `p_flags`.
    Flags,
    /// `p_offset`.
    Offset,
    /// `p_vaddr`.
    Vaddr,
    /// `p_paddr`.
    Paddr,
    /// `p_filesz`.
    Filesz,
    /// `p_memsz`.
    Memsz,
    /// `p_align`.
    Align,
}

/// A field of a section header (gABI chapter 4, "Section Header").
#[derive(Clone, Copy)]
pub enum SectionField {
    /// `sh_name`.
    Name,
    /// `sh_type`.
    Type,
    /// `sh_flags`.
    Flags,
    /// `sh_addr`.
    Addr,
    /// `sh_offset`.
    Offset,
    /// `sh_size`.
    Size,
    /// `sh_link`.
    Link,
    /// `sh_info`.
    Info,
    /// `sh_addralign`.
    Addralign,
    /// `sh_entsize`.
    Entsize,
}

/// Where a field begins, and how many bytes it has.
#[derive(Clone, Copy)]
pub struct FieldExtent {
    /// The place of its first byte.
    pub at: u64,
    /// The number of its bytes.
    pub width: u64,
}

/// A place and a width by class: first those of class 32.
fn by_class(class: Class, narrow: (u64, u64), wide: (u64, u64)) -> FieldExtent {
    let (at, width) = match class {
        Class::C32 => narrow,
        Class::C64 => wide,
    };
    FieldExtent { at, width }
}

/// Where a field is in the ELF header.
pub fn in_header(class: Class, field: HeaderField) -> FieldExtent {
    match field {
        HeaderField::Type => by_class(class, (16, 2), (16, 2)),
        HeaderField::Machine => by_class(class, (18, 2), (18, 2)),
        HeaderField::Version => by_class(class, (20, 4), (20, 4)),
        HeaderField::Entry => by_class(class, (24, 4), (24, 8)),
        HeaderField::Phoff => by_class(class, (28, 4), (32, 8)),
        HeaderField::Shoff => by_class(class, (32, 4), (40, 8)),
        HeaderField::Flags => by_class(class, (36, 4), (48, 4)),
        HeaderField::Ehsize => by_class(class, (40, 2), (52, 2)),
        HeaderField::Phentsize => by_class(class, (42, 2), (54, 2)),
        HeaderField::Phnum => by_class(class, (44, 2), (56, 2)),
        HeaderField::Shentsize => by_class(class, (46, 2), (58, 2)),
        HeaderField::Shnum => by_class(class, (48, 2), (60, 2)),
        HeaderField::Shstrndx => by_class(class, (50, 2), (62, 2)),
    }
}

/// Where a field is in its program header.
pub fn in_segment(class: Class, field: SegmentField) -> FieldExtent {
    match field {
        SegmentField::Type => by_class(class, (0, 4), (0, 4)),
        SegmentField::Flags => by_class(class, (24, 4), (4, 4)),
        SegmentField::Offset => by_class(class, (4, 4), (8, 8)),
        SegmentField::Vaddr => by_class(class, (8, 4), (16, 8)),
        SegmentField::Paddr => by_class(class, (12, 4), (24, 8)),
        SegmentField::Filesz => by_class(class, (16, 4), (32, 8)),
        SegmentField::Memsz => by_class(class, (20, 4), (40, 8)),
        SegmentField::Align => by_class(class, (28, 4), (48, 8)),
    }
}

/// Where a field is in its section header.
pub fn in_section(class: Class, field: SectionField) -> FieldExtent {
    match field {
        SectionField::Name => by_class(class, (0, 4), (0, 4)),
        SectionField::Type => by_class(class, (4, 4), (4, 4)),
        SectionField::Flags => by_class(class, (8, 4), (8, 8)),
        SectionField::Addr => by_class(class, (12, 4), (16, 8)),
        SectionField::Offset => by_class(class, (16, 4), (24, 8)),
        SectionField::Size => by_class(class, (20, 4), (32, 8)),
        SectionField::Link => by_class(class, (24, 4), (40, 4)),
        SectionField::Info => by_class(class, (28, 4), (44, 4)),
        SectionField::Addralign => by_class(class, (32, 4), (48, 8)),
        SectionField::Entsize => by_class(class, (36, 4), (56, 8)),
    }
}

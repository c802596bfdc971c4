//! Headers.

ghost use Rattle.std.specs.Prelude.{◌≡◌};
ghost use Rattle.c_records.specs.Forms.{ehdr_record, phdr_record, shdr_record, extent_record, class_number, order_number, kind_number};

use elf_types::{Class, Ehdr, Kind, Order, Phdr, Shdr};

/// `ELFCLASS32` or `ELFCLASS64`.
fn class_number(class: Class) -> u8
    ensures { result ≡ class_number class }
{
    match class {
        Class::C32 => 1,
        Class::C64 => 2,
    }
}

/// `ELFDATA2LSB` or `ELFDATA2MSB`.
fn order_number(order: Order) -> u8
    ensures { result ≡ order_number order }
{
    match order {
        Order::Least => 1,
        Order::Greatest => 2,
    }
}

/// An ELF header with its true counts, after extended numbering.
///
/// Source: gABI chapter 4, "ELF Header".
#[repr(C)]
#[derive(Clone, Copy)]
pub struct EhdrRecord {
    /// `e_ident[EI_CLASS]`: 1 or 2.
    pub class: u8,
    /// `e_ident[EI_DATA]`: 1 or 2.
    pub order: u8,
    /// `e_ident[EI_OSABI]`.
    pub osabi: u8,
    /// `e_ident[EI_ABIVERSION]`.
    pub abiversion: u8,
    /// `e_type`.
    pub etype: u16,
    /// `e_machine`.
    pub machine: u16,
    /// `e_version`.
    pub version: u32,
    /// `e_entry`.
    pub entry: u64,
    /// `e_phoff`.
    pub phoff: u64,
    /// `e_shoff`.
    pub shoff: u64,
    /// `e_flags`.
    pub flags: u32,
    /// `e_ehsize`.
    pub ehsize: u16,
    /// `e_phentsize`.
    pub phentsize: u16,
    /// The number of program headers.
    pub phnum: u32,
    /// `e_shentsize`.
    pub shentsize: u16,
    /// The number of section headers.
    pub shnum: u32,
    /// The number of the section that holds the sections' names.
    pub shstrndx: u32,
}

impl EhdrRecord {
    /// The record of it.
    pub fn of(x: Ehdr) -> EhdrRecord
        ensures { result ≡ ehdr_record x }
    {
        EhdrRecord {
            class: class_number(x.class),
            order: order_number(x.order),
            osabi: x.osabi,
            abiversion: x.abiversion,
            etype: x.etype,
            machine: x.machine,
            version: x.version,
            entry: x.entry,
            phoff: x.phoff,
            shoff: x.shoff,
            flags: x.flags,
            ehsize: x.ehsize,
            phentsize: x.phentsize,
            phnum: x.phnum,
            shentsize: x.shentsize,
            shnum: x.shnum,
            shstrndx: x.shstrndx,
        }
    }
}

/// A program header, `GElf_Phdr`.
///
/// Source: gABI chapter 5, "Program Header"; gelf_getphdr of gelf(3E).
#[repr(C)]
#[derive(Clone, Copy)]
pub struct PhdrRecord {
    /// `p_type`.
    pub ptype: u32,
    /// `p_flags`.
    pub flags: u32,
    /// `p_offset`.
    pub offset: u64,
    /// `p_vaddr`.
    pub vaddr: u64,
    /// `p_paddr`.
    pub paddr: u64,
    /// `p_filesz`.
    pub filesz: u64,
    /// `p_memsz`.
    pub memsz: u64,
    /// `p_align`.
    pub align: u64,
}

impl PhdrRecord {
    /// The record of it.
    pub fn of(x: Phdr) -> PhdrRecord
        ensures { result ≡ phdr_record x }
    {
        PhdrRecord {
            ptype: x.ptype,
            flags: x.flags,
            offset: x.offset,
            vaddr: x.vaddr,
            paddr: x.paddr,
            filesz: x.filesz,
            memsz: x.memsz,
            align: x.align,
        }
    }
}

/// A section header, `GElf_Shdr`.
///
/// Source: gABI chapter 4, "Section Header"; gelf_getshdr of gelf(3E).
#[repr(C)]
#[derive(Clone, Copy)]
pub struct ShdrRecord {
    /// `sh_name`.
    pub name: u32,
    /// `sh_type`.
    pub stype: u32,
    /// `sh_flags`.
    pub flags: u64,
    /// `sh_addr`.
    pub addr: u64,
    /// `sh_offset`.
    pub offset: u64,
    /// `sh_size`.
    pub size: u64,
    /// `sh_link`.
    pub link: u32,
    /// `sh_info`.
    pub info: u32,
    /// `sh_addralign`.
    pub addralign: u64,
    /// `sh_entsize`.
    pub entsize: u64,
}

impl ShdrRecord {
    /// The record of it.
    pub fn of(x: Shdr) -> ShdrRecord
        ensures { result ≡ shdr_record x }
    {
        ShdrRecord {
            name: x.name,
            stype: x.stype,
            flags: x.flags,
            addr: x.addr,
            offset: x.offset,
            size: x.size,
            link: x.link,
            info: x.info,
            addralign: x.addralign,
            entsize: x.entsize,
        }
    }
}

/// A range of bytes.
#[repr(C)]
#[derive(Clone, Copy)]
pub struct ExtentRecord {
    /// Where it begins, in bytes from the start of the image.
    pub at: u64,
    /// Its length, in bytes.
    pub len: u64,
}

impl ExtentRecord {
    /// The record of it.
    pub fn of(home: (u64, u64)) -> ExtentRecord
        ensures { result ≡ extent_record home }
    {
        let (at, len) = home;
        ExtentRecord { at, len }
    }
}

/// What the items of a piece are, as a number.
pub fn kind_number(kind: Kind) -> u32
    ensures { result ≡ kind_number kind }
{
    match kind {
        Kind::Empty => 0,
        Kind::Bytes => 1,
        Kind::Half => 2,
        Kind::Word => 3,
        Kind::Addr => 4,
        Kind::Sym => 5,
        Kind::Rel => 6,
        Kind::Rela => 7,
        Kind::Dyn => 8,
    }
}

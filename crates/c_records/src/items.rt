//! Items.

ghost use Rattle.std.specs.Prelude.{◌≡◌, ◌+◌, ◌*◌, ◌^◌};
ghost use Rattle.c_records.specs.Forms.{sym_record, rel_record, rela_record, dyn_record};

use elf_types::{Dyn, Rel, Rela, Sym};

/// `r_info` in the form of class 64: the symbol's index in the upper half, the type in the lower.
fn info_of(sym: u32, rtype: u32) -> u64
    ensures { result ≡ sym * 2 ^ 32 + rtype }
{
    u64::from(sym) * 0x1_0000_0000 + u64::from(rtype)
}

/// A symbol, `GElf_Sym`.
///
/// Source: gABI chapter 4, "Symbol Table"; gelf_getsym of gelf(3E).
#[repr(C)]
#[derive(Clone, Copy)]
pub struct SymRecord {
    /// `st_name`.
    pub name: u32,
    /// `st_info`.
    pub info: u8,
    /// `st_other`.
    pub other: u8,
    /// `st_shndx`.
    pub shndx: u16,
    /// `st_value`.
    pub value: u64,
    /// `st_size`.
    pub size: u64,
}

impl SymRecord {
    /// The record of it.
    pub fn of(x: Sym) -> SymRecord
        ensures { result ≡ sym_record x }
    {
        SymRecord {
            name: x.name,
            info: x.info,
            other: x.other,
            shndx: x.shndx,
            value: x.value,
            size: x.size,
        }
    }
}

/// A relocation without an addend, `GElf_Rel`.
///
/// Source: gABI chapter 4, "Relocation"; gelf_getrel of gelf(3E).
#[repr(C)]
#[derive(Clone, Copy)]
pub struct RelRecord {
    /// `r_offset`.
    pub offset: u64,
    /// `r_info` in the form of class 64.
    pub info: u64,
}

impl RelRecord {
    /// The record of it.
    pub fn of(x: Rel) -> RelRecord
        ensures { result ≡ rel_record x }
    {
        RelRecord {
            offset: x.offset,
            info: info_of(x.sym, x.rtype),
        }
    }
}

/// A relocation with an addend, `GElf_Rela`.
///
/// Source: gABI chapter 4, "Relocation"; gelf_getrela of gelf(3E).
#[repr(C)]
#[derive(Clone, Copy)]
pub struct RelaRecord {
    /// `r_offset`.
    pub offset: u64,
    /// `r_info` in the form of class 64.
    pub info: u64,
    /// `r_addend`.
    pub addend: i64,
}

impl RelaRecord {
    /// The record of it.
    pub fn of(x: Rela) -> RelaRecord
        ensures { result ≡ rela_record x }
    {
        RelaRecord {
            offset: x.offset,
            info: info_of(x.sym, x.rtype),
            addend: x.addend,
        }
    }
}

/// An entry of the dynamic section, `GElf_Dyn`.
///
/// Source: gABI chapter 5, "Dynamic Section"; gelf_getdyn of gelf(3E).
#[repr(C)]
#[derive(Clone, Copy)]
pub struct DynRecord {
    /// `d_tag`.
    pub tag: i64,
    /// `d_val` or `d_ptr`.
    pub val: u64,
}

impl DynRecord {
    /// The record of it.
    pub fn of(x: Dyn) -> DynRecord
        ensures { result ≡ dyn_record x }
    {
        DynRecord {
            tag: x.tag,
            val: x.val,
        }
    }
}

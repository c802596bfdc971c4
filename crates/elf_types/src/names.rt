//! Names of the numbers of an ELF image, without the prefixes of the C constants.
#![tactic(auto, unfolding(crate::proofs::Words::names))]

ghost use Rattle.std.specs.Prelude.{◌≡◌};
ghost use Rattle.std.specs.Option.{option_copied};
ghost use Rattle.elf_types.specs.Names.{object_type_name_of, machine_name_of, section_type_name_of, segment_type_name_of, symbol_type_name_of, binding_name_of, visibility_name_of, tag_name_of};

/// The name of an object's type, `e_type`, or None exactly where the number has no
/// name. It takes no memory.
///
/// Source: gABI chapter 4, "ELF Header".
pub fn etype_name(n: u16) -> Option<&'static str>
    ensures { option_copied result ≡ object_type_name_of n }
{
    match n {
        0 => Some("NONE"),
        1 => Some("REL"),
        2 => Some("EXEC"),
        3 => Some("DYN"),
        4 => Some("CORE"),
        _ => None,
    }
}

/// The name of a machine, `e_machine`, or None exactly where the number has no
/// name. It takes no memory.
///
/// Source: gABI chapter 4, "ELF Header".
pub fn machine_name(n: u16) -> Option<&'static str>
    ensures { option_copied result ≡ machine_name_of n }
{
    match n {
        0 => Some("NONE"),
        2 => Some("SPARC"),
        3 => Some("386"),
        8 => Some("MIPS"),
        20 => Some("PPC"),
        21 => Some("PPC64"),
        22 => Some("S390"),
        40 => Some("ARM"),
        50 => Some("IA_64"),
        62 => Some("X86_64"),
        183 => Some("AARCH64"),
        243 => Some("RISCV"),
        _ => None,
    }
}

/// The name of a section's type, `sh_type`, or None exactly where the number has no
/// name. It takes no memory.
///
/// Source: gABI chapter 4, "Sections"; the last four are GNU's.
pub fn section_type_name(n: u32) -> Option<&'static str>
    ensures { option_copied result ≡ section_type_name_of n }
{
    match n {
        0 => Some("NULL"),
        1 => Some("PROGBITS"),
        2 => Some("SYMTAB"),
        3 => Some("STRTAB"),
        4 => Some("RELA"),
        5 => Some("HASH"),
        6 => Some("DYNAMIC"),
        7 => Some("NOTE"),
        8 => Some("NOBITS"),
        9 => Some("REL"),
        10 => Some("SHLIB"),
        11 => Some("DYNSYM"),
        14 => Some("INIT_ARRAY"),
        15 => Some("FINI_ARRAY"),
        16 => Some("PREINIT_ARRAY"),
        17 => Some("GROUP"),
        18 => Some("SYMTAB_SHNDX"),
        0x6ffffff6 => Some("GNU_HASH"),
        0x6ffffffd => Some("GNU_verdef"),
        0x6ffffffe => Some("GNU_verneed"),
        0x6fffffff => Some("GNU_versym"),
        _ => None,
    }
}

/// The name of a segment's type, `p_type`, or None exactly where the number has no
/// name. It takes no memory.
///
/// Source: gABI chapter 5, "Program Header"; the last four are GNU's.
pub fn segment_type_name(n: u32) -> Option<&'static str>
    ensures { option_copied result ≡ segment_type_name_of n }
{
    match n {
        0 => Some("NULL"),
        1 => Some("LOAD"),
        2 => Some("DYNAMIC"),
        3 => Some("INTERP"),
        4 => Some("NOTE"),
        5 => Some("SHLIB"),
        6 => Some("PHDR"),
        7 => Some("TLS"),
        0x6474e550 => Some("GNU_EH_FRAME"),
        0x6474e551 => Some("GNU_STACK"),
        0x6474e552 => Some("GNU_RELRO"),
        0x6474e553 => Some("GNU_PROPERTY"),
        _ => None,
    }
}

/// The name of a symbol's type, the `ST_TYPE` of `st_info`, or None exactly where the number has no
/// name. It takes no memory.
///
/// Source: gABI chapter 4, "Symbol Table"; the last one is GNU's.
pub fn symbol_type_name(n: u8) -> Option<&'static str>
    ensures { option_copied result ≡ symbol_type_name_of n }
{
    match n {
        0 => Some("NOTYPE"),
        1 => Some("OBJECT"),
        2 => Some("FUNC"),
        3 => Some("SECTION"),
        4 => Some("FILE"),
        5 => Some("COMMON"),
        6 => Some("TLS"),
        10 => Some("GNU_IFUNC"),
        _ => None,
    }
}

/// The name of a symbol's binding, the `ST_BIND` of `st_info`, or None exactly where
/// the number has no name. It takes no memory.
///
/// Source: gABI chapter 4, "Symbol Table"; the last one is GNU's.
pub fn binding_name(n: u8) -> Option<&'static str>
    ensures { option_copied result ≡ binding_name_of n }
{
    match n {
        0 => Some("LOCAL"),
        1 => Some("GLOBAL"),
        2 => Some("WEAK"),
        10 => Some("GNU_UNIQUE"),
        _ => None,
    }
}

/// The name of a symbol's visibility, the `ST_VISIBILITY` of `st_other`, or None exactly where
/// the number has no name. It takes no memory.
///
/// Source: gABI chapter 4, "Symbol Table".
pub fn visibility_name(n: u8) -> Option<&'static str>
    ensures { option_copied result ≡ visibility_name_of n }
{
    match n {
        0 => Some("DEFAULT"),
        1 => Some("INTERNAL"),
        2 => Some("HIDDEN"),
        3 => Some("PROTECTED"),
        _ => None,
    }
}

/// The name of a dynamic tag, `d_tag`, or None exactly where the number has no
/// name. It takes no memory.
///
/// Source: gABI chapter 5, "Dynamic Section".
pub fn tag_name(n: i64) -> Option<&'static str>
    ensures { option_copied result ≡ tag_name_of n }
{
    match n {
        0 => Some("NULL"),
        1 => Some("NEEDED"),
        2 => Some("PLTRELSZ"),
        3 => Some("PLTGOT"),
        4 => Some("HASH"),
        5 => Some("STRTAB"),
        6 => Some("SYMTAB"),
        7 => Some("RELA"),
        8 => Some("RELASZ"),
        9 => Some("RELAENT"),
        10 => Some("STRSZ"),
        11 => Some("SYMENT"),
        12 => Some("INIT"),
        13 => Some("FINI"),
        14 => Some("SONAME"),
        15 => Some("RPATH"),
        16 => Some("SYMBOLIC"),
        17 => Some("REL"),
        18 => Some("RELSZ"),
        19 => Some("RELENT"),
        20 => Some("PLTREL"),
        21 => Some("DEBUG"),
        22 => Some("TEXTREL"),
        23 => Some("JMPREL"),
        24 => Some("BIND_NOW"),
        25 => Some("INIT_ARRAY"),
        26 => Some("FINI_ARRAY"),
        27 => Some("INIT_ARRAYSZ"),
        28 => Some("FINI_ARRAYSZ"),
        29 => Some("RUNPATH"),
        30 => Some("FLAGS"),
        _ => None,
    }
}

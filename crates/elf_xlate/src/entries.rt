//! Symbols, relocations and entries of the dynamic section, in a byte order and a class.

ghost use Rattle.std.specs.Prelude.{◌≡◌, ◌+◌, ◌*◌, ◌/◌, ◌%◌, IsTrue};
ghost use Rattle.elf_types.specs.declared.records.Kind.TheVariants as kinds;
ghost use Rattle.elf_xlate.specs.Fields.{class_of, fits};
ghost use Rattle.elf_xlate.specs.Items.{item_size, type_range, info_fits, sym_of, sym_bytes, sym_fits, IsSym, rel_of, rel_bytes, rel_fits, IsRel, rela_of, rela_bytes, rela_fits, IsRela, dyn_of, dyn_bytes, dyn_fits, IsDyn};

use crate::byte_order::Endian;
use crate::fields::{
    get_field, get_four, get_native, get_one, get_signed, get_two, put_field, put_four, put_native,
    put_one, put_signed, put_two,
};
use crate::fitting::{Fit, class};
use crate::records::{Codec, Form};
use elf_types::{Dyn, Rel, Rela, Sym};

impl<T: Endian, const WIDE: bool> Codec<Sym> for Form<T, WIDE> {
    ghost use Rattle.std.proofs.Common.{rules};

    ghost size = { item_size kinds.Sym (class_of WIDE) };

    ghost item_of = { sym_of (class_of WIDE) T.order };

    ghost bytes_of = { sym_bytes (class_of WIDE) T.order };

    ghost in_range = { IsSym };

    ghost fitting = { sym_fits (class_of WIDE) };

    ghost is_some = { Prim.search rules };

    ghost is_small = { Prim.search rules };

    fn file_size() -> usize {
        if WIDE { 24 } else { 16 }
    }

    #[tactic(auto, unfolding(crate::proofs::Words::sym))]
    fn decode(bytes: &[u8]) -> Sym {
        Sym {
            name: get_field!(T, WIDE, bytes, 0:4, 0:4),
            info: get_field!(T, WIDE, bytes, 12:1, 4:1),
            other: get_field!(T, WIDE, bytes, 13:1, 5:1),
            shndx: get_field!(T, WIDE, bytes, 14:2, 6:2),
            value: get_field!(T, WIDE, bytes, 4:4, 8:8),
            size: get_field!(T, WIDE, bytes, 8:4, 16:8),
        }
    }

    fn fits(item: &Sym) -> bool {
        item.fits_class(class::<WIDE>())
    }

    #[tactic(auto, using(crate::proofs::Tables::sym_laid), unfolding(crate::proofs::Words::sym))]
    fn encode(item: &Sym, out: &mut [u8]) {
        put_field!(T, WIDE, out, 0:4, 0:4, item.name);
        put_field!(T, WIDE, out, 12:1, 4:1, item.info);
        put_field!(T, WIDE, out, 13:1, 5:1, item.other);
        put_field!(T, WIDE, out, 14:2, 6:2, item.shndx);
        put_field!(T, WIDE, out, 4:4, 8:8, item.value);
        put_field!(T, WIDE, out, 8:4, 16:8, item.size);
    }
}

/// The symbol's index in `r_info`, `ELF32_R_SYM` or `ELF64_R_SYM` (gABI, "Relocation").
fn info_sym<const WIDE: bool>(info: u64) -> u32
    requires { IsTrue (fits (class_of WIDE) info) }
    ensures { result ≡ info / type_range (class_of WIDE) }
{
    if WIDE {
        (info >> 32) as u32
    } else {
        (info >> 8) as u32
    }
}

/// The type in `r_info`, `ELF32_R_TYPE` or `ELF64_R_TYPE`.
fn info_type<const WIDE: bool>(info: u64) -> u32
    ensures { result ≡ info % type_range (class_of WIDE) }
{
    if WIDE {
        (info % (1 << 32)) as u32
    } else {
        (info % (1 << 8)) as u32
    }
}

/// The `r_info` of a symbol's index and a type, `ELF32_R_INFO` or `ELF64_R_INFO`.
fn info_of<const WIDE: bool>(sym: u32, rtype: u32) -> u64
    requires { IsTrue (info_fits (class_of WIDE) sym rtype) }
    ensures fits { IsTrue (fits (class_of WIDE) result) }
    ensures value { result ≡ sym * type_range (class_of WIDE) + rtype }
{
    if WIDE {
        (u64::from(sym) << 32) + u64::from(rtype)
    } else {
        (u64::from(sym) << 8) + u64::from(rtype)
    }
}

impl<T: Endian, const WIDE: bool> Codec<Rel> for Form<T, WIDE> {
    ghost use Rattle.std.proofs.Common.{rules};

    ghost size = { item_size kinds.Rel (class_of WIDE) };

    ghost item_of = { rel_of (class_of WIDE) T.order };

    ghost bytes_of = { rel_bytes (class_of WIDE) T.order };

    ghost in_range = { IsRel };

    ghost fitting = { rel_fits (class_of WIDE) };

    ghost is_some = { Prim.search rules };

    ghost is_small = { Prim.search rules };

    fn file_size() -> usize {
        if WIDE { 16 } else { 8 }
    }

    #[tactic(auto, unfolding(crate::proofs::Words::rel))]
    fn decode(bytes: &[u8]) -> Rel {
        let info = get_field!(T, WIDE, bytes, 4:4, 8:8);
        Rel {
            offset: get_field!(T, WIDE, bytes, 0:4, 0:8),
            sym: info_sym::<WIDE>(info),
            rtype: info_type::<WIDE>(info),
        }
    }

    fn fits(item: &Rel) -> bool {
        item.fits_class(class::<WIDE>())
    }

    #[tactic(auto, using(crate::proofs::Tables::rel_laid), unfolding(crate::proofs::Words::rel))]
    fn encode(item: &Rel, out: &mut [u8]) {
        let info = info_of::<WIDE>(item.sym, item.rtype);
        put_field!(T, WIDE, out, 0:4, 0:8, item.offset);
        put_field!(T, WIDE, out, 4:4, 8:8, info);
    }
}

impl<T: Endian, const WIDE: bool> Codec<Rela> for Form<T, WIDE> {
    ghost use Rattle.std.proofs.Common.{rules};

    ghost size = { item_size kinds.Rela (class_of WIDE) };

    ghost item_of = { rela_of (class_of WIDE) T.order };

    ghost bytes_of = { rela_bytes (class_of WIDE) T.order };

    ghost in_range = { IsRela };

    ghost fitting = { rela_fits (class_of WIDE) };

    ghost is_some = { Prim.search rules };

    ghost is_small = { Prim.search rules };

    fn file_size() -> usize {
        if WIDE { 24 } else { 12 }
    }

    #[tactic(auto, unfolding(crate::proofs::Words::rela))]
    fn decode(bytes: &[u8]) -> Rela {
        let info = get_field!(T, WIDE, bytes, 4:4, 8:8);
        Rela {
            offset: get_field!(T, WIDE, bytes, 0:4, 0:8),
            sym: info_sym::<WIDE>(info),
            rtype: info_type::<WIDE>(info),
            addend: get_field!(T, WIDE, bytes, 8:4 s, 16:8 s),
        }
    }

    fn fits(item: &Rela) -> bool {
        item.fits_class(class::<WIDE>())
    }

    #[tactic(auto, using(crate::proofs::Words::put_rela), unfolding(crate::proofs::Words::rela))]
    fn encode(item: &Rela, out: &mut [u8]) {
        let info = info_of::<WIDE>(item.sym, item.rtype);
        put_field!(T, WIDE, out, 0:4, 0:8, item.offset);
        put_field!(T, WIDE, out, 4:4, 8:8, info);
        put_field!(T, WIDE, out, 8:4 s, 16:8 s, item.addend);
    }
}

impl<T: Endian, const WIDE: bool> Codec<Dyn> for Form<T, WIDE> {
    ghost use Rattle.std.proofs.Common.{rules};

    ghost size = { item_size kinds.Dyn (class_of WIDE) };

    ghost item_of = { dyn_of (class_of WIDE) T.order };

    ghost bytes_of = { dyn_bytes (class_of WIDE) T.order };

    ghost in_range = { IsDyn };

    ghost fitting = { dyn_fits (class_of WIDE) };

    ghost is_some = { Prim.search rules };

    ghost is_small = { Prim.search rules };

    fn file_size() -> usize {
        if WIDE { 16 } else { 8 }
    }

    #[tactic(auto, unfolding(crate::proofs::Words::dynamic))]
    fn decode(bytes: &[u8]) -> Dyn {
        Dyn {
            tag: get_field!(T, WIDE, bytes, 0:4 s, 0:8 s),
            val: get_field!(T, WIDE, bytes, 4:4, 8:8),
        }
    }

    fn fits(item: &Dyn) -> bool {
        item.fits_class(class::<WIDE>())
    }

    #[tactic(auto, using(crate::proofs::Words::put_dyn), unfolding(crate::proofs::Words::dynamic))]
    fn encode(item: &Dyn, out: &mut [u8]) {
        put_field!(T, WIDE, out, 0:4 s, 0:8 s, item.tag);
        put_field!(T, WIDE, out, 4:4, 8:8, item.val);
    }
}

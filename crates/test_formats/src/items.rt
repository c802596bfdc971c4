//! The items of sections against bytes written by hand from the tables of the gABI.

mod turned;
mod values;

use elf_types::{Class, Dyn, ElfError, Kind, Octets, Order, Rel, Rela, Sym};
use elf_xlate::{Items, XlateError, fsize, number, put_items, to_file, to_memory, unfit};
use std::alloc::Global;
use test_kit_images::ClassAndOrder;
use test_kit_rows::{failed, failed_by, in_row, other, same, same_bytes};
use turned::{is_turned, three_stay};
use values::{Value, is_first, is_single, kind, of_two};

const NARROW_LEAST: ClassAndOrder = (Class::C32, Order::Least);

const NARROW_GREATEST: ClassAndOrder = (Class::C32, Order::Greatest);

const BROAD_LEAST: ClassAndOrder = (Class::C64, Order::Least);

const BROAD_GREATEST: ClassAndOrder = (Class::C64, Order::Greatest);

/// Whether items that fit are written as these bytes, into as many, as the range of all of them.
fn is_range(
    rt: &HostRuntime,
    items: &Items,
    form: ClassAndOrder,
    bytes: &[u8],
    out: &mut [u8],
) -> bool {
    let Some(size) = fsize(items.kind(), form.0, items.count()) else {
        return other(rt, &items.kind(), "a kind with a size");
    };
    if out.len() as u64 != size || unfit(items, form.0).is_some() {
        return other(rt, &items.count(), "items that fit");
    }
    put_items(items, form.0, form.1, 0, items.count(), out);
    same_bytes(rt, out, bytes)
}

/// So many zero bytes.
pub fn zeroed_bytes(alloc: Global, len: usize) -> Result<Vec<u8>, ElfError> {
    Ok(vec![in alloc; 0u8; len]?)
}

/// Whether items that fit are written as these bytes, into a list of as many.
fn is_range_in(rt: &HostRuntime, items: &Items, form: ClassAndOrder, bytes: &[u8]) -> bool {
    match zeroed_bytes(rt.alloc(), bytes.len()) {
        Ok(mut range) => is_range(rt, items, form, bytes, range.as_mut_slice()),
        Err(e) => failed(rt, e),
    }
}

/// Whether items are written as these bytes after a byte that stays.
fn is_appended(
    rt: &HostRuntime,
    items: &Items,
    form: ClassAndOrder,
    bytes: &[u8],
    out: &mut Octets,
) -> bool {
    let written = same(rt, &to_file(items, form.0, form.1, out), &Ok(()));
    written && same(rt, &out.as_slice().strip_prefix(&[7]), &Some(bytes))
}

/// Whether items are written as these bytes after a list of one byte.
fn is_behind(rt: &HostRuntime, items: &Items, form: ClassAndOrder, bytes: &[u8]) -> bool {
    match Octets::from_slice(rt.alloc(), &[7]) {
        Ok(mut out) => is_appended(rt, items, form, bytes, &mut out),
        Err(e) => failed(rt, e),
    }
}

/// Whether items are written as these bytes, after others and as a range.
fn is_written(rt: &HostRuntime, items: &Items, form: ClassAndOrder, bytes: &[u8]) -> bool {
    is_range_in(rt, items, form, bytes) && is_behind(rt, items, form, bytes)
}

/// A form, bytes, and the item that they hold in it.
type Row = (ClassAndOrder, &'static [u8], Value);

/// Whether items have these bytes in a form, and those of the other byte order in place of them.
fn have_bytes(rt: &HostRuntime, items: &Items, form: ClassAndOrder, bytes: &[u8]) -> bool {
    is_written(rt, items, form, bytes) && is_turned(rt, items, form, bytes)
}

/// Whether bytes hold an item in a form, in a list, and are written for it again.
fn is_held(rt: &HostRuntime, form: ClassAndOrder, bytes: &[u8], value: Value) -> bool {
    match to_memory(rt.alloc(), kind(value), form.0, form.1, bytes) {
        Ok(items) => is_first(rt, &items, value) && have_bytes(rt, &items, form, bytes),
        Err(e) => failed_by(rt, &e),
    }
}

/// Whether the bytes of each row hold its item, and hold the item alone.
fn are_held(rt: &HostRuntime, rows: &[Row]) -> bool {
    for (n, (form, bytes, value)) in rows.iter().enumerate() {
        let so = is_single(rt, *form, bytes, *value) && is_held(rt, *form, bytes, *value);
        if !in_row(rt, n, so) {
            return false;
        }
    }
    true
}

/// Whether two items are rejected in class 32 by the second, with nothing written, and fit class
/// 64.
fn is_refused(rt: &HostRuntime, items: &Items, out: &mut Octets) -> bool {
    let refused = to_file(items, Class::C32, Order::Least, out);
    same(rt, &refused, &Err(XlateError::Unfit { index: 1 }))
        && same(rt, &out.len(), &0)
        && same(rt, &unfit(items, Class::C64), &None)
}

/// Whether each of the items is rejected after one that fits.
fn are_refused(rt: &HostRuntime, good: Value, others: &[Value]) -> bool {
    for (n, other) in others.iter().enumerate() {
        if !in_row(
            rt,
            n,
            is_refused(
                rt,
                &of_two(rt.alloc(), good, *other),
                &mut Octets::new(rt.alloc()),
            ),
        ) {
            return false;
        }
    }
    true
}

/// Whether bytes hold their items in their forms, and the others are rejected after a good one.
fn are_translated(rt: &HostRuntime, rows: &[Row], good: Value, others: &[Value]) -> bool {
    are_held(rt, rows) && are_refused(rt, good, others)
}

const NARROW_SYM: Sym = Sym {
    name: 0x0102_0304,
    info: 0x12,
    other: 3,
    shndx: 0xfff1,
    value: 0xffff_ffff,
    size: 0x10,
};

const BROAD_SYM: Sym = Sym {
    name: 0x0102_0304,
    info: 0x12,
    other: 3,
    shndx: 0xfff1,
    value: 0x1122_3344_5566_7788,
    size: 0xff00_0000_0000_0001,
};

static SYMBOLS: [Row; 4] = [
    (
        NARROW_LEAST,
        b"\x04\x03\x02\x01\xff\xff\xff\xff\x10\0\0\0\x12\x03\xf1\xff",
        Value::Sym(NARROW_SYM),
    ),
    (
        NARROW_GREATEST,
        b"\x01\x02\x03\x04\xff\xff\xff\xff\0\0\0\x10\x12\x03\xff\xf1",
        Value::Sym(NARROW_SYM),
    ),
    (
        BROAD_LEAST,
        b"\x04\x03\x02\x01\x12\x03\xf1\xff\x88wfUD3\"\x11\x01\0\0\0\0\0\0\xff",
        Value::Sym(BROAD_SYM),
    ),
    (
        BROAD_GREATEST,
        b"\x01\x02\x03\x04\x12\x03\xff\xf1\x11\"3DUfw\x88\xff\0\0\0\0\0\0\x01",
        Value::Sym(BROAD_SYM),
    ),
];

static UNFIT_SYMBOLS: [Value; 2] = [
    Value::Sym(Sym {
        value: 1 << 32,
        ..NARROW_SYM
    }),
    Value::Sym(Sym {
        size: 1 << 32,
        ..NARROW_SYM
    }),
];

#[test]
fn symbols_have_these_bytes_and_wide_ones_are_refused_in_class_32(rt: HostRuntime) {
    assert!(rt; are_translated(&rt, &SYMBOLS, Value::Sym(NARROW_SYM), &UNFIT_SYMBOLS));
}

const NARROW_REL: Rel = Rel {
    offset: 0xffff_fffe,
    sym: 0x00ab_cdef,
    rtype: 0xff,
};

const BROAD_REL: Rel = Rel {
    offset: 0x0102_0304_0506_0708,
    sym: 0x89ab_cdef,
    rtype: 0xffff_fffe,
};

static RELOCATIONS: [Row; 4] = [
    (
        NARROW_LEAST,
        b"\xfe\xff\xff\xff\xff\xef\xcd\xab",
        Value::Rel(NARROW_REL),
    ),
    (
        NARROW_GREATEST,
        b"\xff\xff\xff\xfe\xab\xcd\xef\xff",
        Value::Rel(NARROW_REL),
    ),
    (
        BROAD_LEAST,
        b"\x08\x07\x06\x05\x04\x03\x02\x01\xfe\xff\xff\xff\xef\xcd\xab\x89",
        Value::Rel(BROAD_REL),
    ),
    (
        BROAD_GREATEST,
        b"\x01\x02\x03\x04\x05\x06\x07\x08\x89\xab\xcd\xef\xff\xff\xff\xfe",
        Value::Rel(BROAD_REL),
    ),
];

static UNFIT_RELOCATIONS: [Value; 3] = [
    Value::Rel(Rel {
        offset: 1 << 32,
        ..NARROW_REL
    }),
    Value::Rel(Rel {
        sym: 1 << 24,
        ..NARROW_REL
    }),
    Value::Rel(Rel {
        rtype: 1 << 8,
        ..NARROW_REL
    }),
];

#[test]
fn relocations_have_these_bytes_and_wide_ones_are_refused_in_class_32(rt: HostRuntime) {
    assert!(rt;
        are_translated(
            &rt,
            &RELOCATIONS,
            Value::Rel(NARROW_REL),
            &UNFIT_RELOCATIONS
        )
    );
}

/// A relocation of the symbol 3 and the type 2 at the place 1, with the addend 0.
const RELA: Rela = Rela {
    offset: 1,
    sym: 3,
    rtype: 2,
    addend: 0,
};

static WITH_ADDENDS: [Row; 4] = [
    (
        NARROW_LEAST,
        b"\x01\0\0\0\x02\x03\0\0\0\0\0\x80",
        Value::Rela(Rela {
            addend: -0x8000_0000,
            ..RELA
        }),
    ),
    (
        NARROW_GREATEST,
        b"\0\0\0\x01\0\0\x03\x02\x7f\xff\xff\xff",
        Value::Rela(Rela {
            addend: 0x7fff_ffff,
            ..RELA
        }),
    ),
    (
        BROAD_LEAST,
        b"\x01\0\0\0\0\0\0\0\x02\0\0\0\x03\0\0\0\0\0\0\0\0\0\0\x80",
        Value::Rela(Rela {
            addend: i64::MIN,
            ..RELA
        }),
    ),
    (
        BROAD_GREATEST,
        b"\0\0\0\0\0\0\0\x01\0\0\0\x03\0\0\0\x02\xff\xff\xff\xff\xff\xff\xff\xfe",
        Value::Rela(Rela { addend: -2, ..RELA }),
    ),
];

static UNFIT_ADDENDS: [Value; 2] = [
    Value::Rela(Rela {
        addend: -0x8000_0001,
        ..RELA
    }),
    Value::Rela(Rela {
        addend: 0x8000_0000,
        ..RELA
    }),
];

#[test]
fn addends_have_these_bytes_and_wide_ones_are_refused_in_class_32(rt: HostRuntime) {
    assert!(rt; are_translated(&rt, &WITH_ADDENDS, Value::Rela(RELA), &UNFIT_ADDENDS));
}

const NARROW_DYN: Dyn = Dyn {
    tag: 0x7fff_ffff,
    val: 0xffff_ffff,
};

static DYNAMIC: [Row; 4] = [
    (
        NARROW_LEAST,
        b"\xff\xff\xff\x7f\xff\xff\xff\xff",
        Value::Dyn(NARROW_DYN),
    ),
    (
        NARROW_GREATEST,
        b"\xff\xff\xff\xfe\0\0\0\x05",
        Value::Dyn(Dyn { tag: -2, val: 5 }),
    ),
    (
        BROAD_LEAST,
        b"\xff\xff\xff\xff\xff\xff\xff\x7f\0\0\0\0\0\0\0\x80",
        Value::Dyn(Dyn {
            tag: i64::MAX,
            val: 1 << 63,
        }),
    ),
    (
        BROAD_GREATEST,
        b"\xff\xff\xff\xff\xff\xff\xff\xff\0\0\0\0\0\0\0\x01",
        Value::Dyn(Dyn { tag: -1, val: 1 }),
    ),
];

static UNFIT_DYNAMIC: [Value; 2] = [
    Value::Dyn(Dyn {
        tag: 1 << 31,
        val: 0,
    }),
    Value::Dyn(Dyn {
        tag: 0,
        val: 1 << 32,
    }),
];

#[test]
fn dynamic_entries_have_these_bytes_and_wide_ones_are_refused_in_class_32(rt: HostRuntime) {
    assert!(rt; are_translated(&rt, &DYNAMIC, Value::Dyn(NARROW_DYN), &UNFIT_DYNAMIC));
}

static NUMBERS: [Row; 8] = [
    (NARROW_LEAST, b"\x01\x02", Value::Half(0x0201)),
    (NARROW_GREATEST, b"\x01\x02", Value::Half(0x0102)),
    (NARROW_LEAST, b"\xff\0\0\x80", Value::Word(0x8000_00ff)),
    (NARROW_GREATEST, b"\xff\0\0\x80", Value::Word(0xff00_0080)),
    (NARROW_LEAST, b"\xff\0\0\x80", Value::Addr(0x8000_00ff)),
    (NARROW_GREATEST, b"\xff\0\0\x80", Value::Addr(0xff00_0080)),
    (
        BROAD_LEAST,
        b"\x01\x02\x03\x04\xff\0\0\x80",
        Value::Addr(0x8000_00ff_0403_0201),
    ),
    (
        BROAD_GREATEST,
        b"\x01\x02\x03\x04\xff\0\0\x80",
        Value::Addr(0x0102_0304_ff00_0080),
    ),
];

static UNFIT_ADDRESSES: [Value; 2] = [Value::Addr(1 << 32), Value::Addr(u64::MAX)];

#[test]
fn numbers_have_these_bytes_and_wide_ones_are_refused_in_class_32(rt: HostRuntime) {
    let good = Value::Addr(0xffff_ffff);
    assert!(rt; are_translated(&rt, &NUMBERS, good, &UNFIT_ADDRESSES));
}

/// The numbers that three bytes hold in the two orders.
fn both_of_three() -> (u64, u64) {
    let bytes = b"\x01\x02\x03";
    (number(Order::Least, bytes), number(Order::Greatest, bytes))
}

#[test]
fn three_bytes_are_a_number_in_both_orders(rt: HostRuntime) {
    assert!(rt; same(&rt, &both_of_three(), &(0x03_0201, 0x01_0203)));
}

/// A kind, and the size of an item in class 32 and in class 64.
static SIZES: [(Kind, u64, u64); 7] = [
    (Kind::Half, 2, 2),
    (Kind::Word, 4, 4),
    (Kind::Addr, 4, 8),
    (Kind::Sym, 16, 24),
    (Kind::Rel, 8, 16),
    (Kind::Rela, 12, 24),
    (Kind::Dyn, 8, 16),
];

/// How many items of a kind three bytes hold in class 64.
fn count_in_three(alloc: Global, kind: Kind) -> Result<u64, XlateError> {
    match to_memory(alloc, kind, Class::C64, Order::Least, b"odd") {
        Ok(items) => Ok(items.count()),
        Err(e) => Err(e),
    }
}

/// Whether the items of a kind have these sizes, and are not read of fewer bytes.
fn has_sizes(rt: &HostRuntime, kind: Kind, narrow: u64, broad: u64) -> bool {
    let sizes = same(
        rt,
        &fsize(kind, Class::C32, 3),
        &Some(narrow.wrapping_mul(3)),
    ) && same(rt, &fsize(kind, Class::C64, 1), &Some(broad));
    sizes
        && three_stay(rt, kind)
        && same(
            rt,
            &count_in_three(rt.alloc(), kind),
            &Err(XlateError::Ragged),
        )
}

/// Whether the kinds have those sizes.
fn sizes_are_told(rt: &HostRuntime, sizes: &[(Kind, u64, u64)]) -> bool {
    for (n, (kind, narrow, broad)) in sizes.iter().enumerate() {
        if !in_row(rt, n, has_sizes(rt, *kind, *narrow, *broad)) {
            return false;
        }
    }
    same(rt, &fsize(Kind::Half, Class::C64, 1 << 63), &None)
        && same(rt, &count_in_three(rt.alloc(), Kind::Empty), &Ok(0))
}

#[test]
fn each_kind_has_its_size_in_both_classes(rt: HostRuntime) {
    assert!(rt; sizes_are_told(&rt, &SIZES));
}

/// Errors and their texts.
static TEXTS: [(XlateError, &str); 3] = [
    (XlateError::Memory, "out of memory"),
    (XlateError::Ragged, "ragged"),
    (XlateError::Unfit { index: 12 }, "unfit index 12"),
];

/// Whether an error has a text.
fn has_text(rt: &HostRuntime, error: &XlateError, text: &str) -> bool {
    match format!(in rt.alloc(); "{error}") {
        Ok(shown) => same_bytes(rt, shown.as_bytes(), text.as_bytes()),
        Err(e) => failed_by(rt, &e),
    }
}

/// Whether the errors have those texts.
fn texts_are_shown(rt: &HostRuntime, texts: &[(XlateError, &str)]) -> bool {
    for (n, (error, text)) in texts.iter().enumerate() {
        if !in_row(rt, n, has_text(rt, error, text)) {
            return false;
        }
    }
    true
}

#[test]
fn each_error_has_its_text(rt: HostRuntime) {
    assert!(rt; texts_are_shown(&rt, &TEXTS));
}

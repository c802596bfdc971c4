//! Images with symbols and room for both kinds of hash sections, and questions on them, put to
//! descriptors over sources that tell their bytes and over those that do not.

use elf_descriptor::Elf;
use elf_outside::{MemSource, Source};
use elf_types::constants::{
    SHN_ABS, SHT_GNU_HASH, SHT_HASH, SHT_STRTAB, SHT_SYMTAB, STB_GLOBAL, STB_LOCAL, STB_WEAK,
};
use elf_types::{DataId, ElfError, NULL_SECTION, Octets, ScnId, Shdr, Sym};
use test_kit_images::{ClassAndOrder, Content, ImageStart, Put, Recipe, WIDE, image_in, image_of};
use test_kit_rows::{failed, other, same};
use test_kit_sources::{Sparse, source};

/// The section of the symbols.
pub const SYMBOLS: ScnId = ScnId(2);

/// The section of type `SHT_HASH`.
pub const SYSV: ScnId = ScnId(3);

/// GNU's hash section.
pub const GNU: ScnId = ScnId(4);

/// Whether a result is that refusal.
pub fn is_refusal<T>(rt: &HostRuntime, answer: &Result<T, ElfError>, refusal: ElfError) -> bool {
    match answer {
        Ok(_) => other(rt, &"an answer", "a refusal"),
        Err(e) => same(rt, e, &refusal),
    }
}

/// The first piece of a section.
pub fn first_piece(s: ScnId) -> DataId {
    DataId {
        section: s.0,
        piece: 0,
    }
}

/// A local symbol that lies in no section.
const LOCAL: Sym = Sym {
    name: 0,
    info: STB_LOCAL * 16,
    other: 0,
    shndx: SHN_ABS as u16,
    value: 0,
    size: 0,
};

/// A global one.
const GLOBAL: Sym = Sym {
    info: STB_GLOBAL * 16,
    ..LOCAL
};

/// A weak one.
const WEAK: Sym = Sym {
    info: STB_WEAK * 16,
    ..LOCAL
};

/// A global symbol that is undefined.
const UNDEFINED: Sym = Sym { shndx: 0, ..GLOBAL };

/// The symbol with which a table begins.
const ZERO: Sym = Sym { shndx: 0, ..LOCAL };

/// The names of the symbols. No NUL ends the last one.
pub const STRINGS: &[u8] = b"\0a\0b\0printf\0exit\0hidden\0missing\0tail";

/// Symbols in the order of two buckets: of the first are `a` and `printf`, of the second `exit` and
/// `b`. Symbol 1 is local, 2 is undefined, 3 has an empty name, the name of 4 has no end, and that
/// of 5 is none of the strings.
const IN_ORDER: &[Sym] = &[
    ZERO,
    Sym { name: 17, ..LOCAL },
    Sym {
        name: 24,
        ..UNDEFINED
    },
    GLOBAL,
    Sym { name: 32, ..GLOBAL },
    Sym {
        name: 900,
        ..GLOBAL
    },
    Sym { name: 1, ..GLOBAL },
    Sym { name: 5, ..WEAK },
    Sym { name: 12, ..GLOBAL },
    Sym { name: 3, ..GLOBAL },
];

/// Symbols out of it: `b`, `a`, one that is undefined, and `printf`.
pub const OUT_OF_ORDER: &[Sym] = &[
    ZERO,
    Sym { name: 3, ..GLOBAL },
    Sym { name: 1, ..GLOBAL },
    Sym {
        name: 24,
        ..UNDEFINED
    },
    Sym { name: 5, ..GLOBAL },
];

/// The strings, the symbols and the two hash sections.
const SECTIONS: &[Shdr] = &[
    NULL_SECTION,
    Shdr {
        stype: SHT_STRTAB,
        ..NULL_SECTION
    },
    Shdr {
        stype: SHT_SYMTAB,
        link: 1,
        ..NULL_SECTION
    },
    Shdr {
        stype: SHT_HASH,
        link: 2,
        ..NULL_SECTION
    },
    Shdr {
        stype: SHT_GNU_HASH,
        link: 2,
        ..NULL_SECTION
    },
];

/// An image with symbols in the order of two buckets.
pub static SORTED: Recipe = Recipe {
    form: WIDE,
    start: ImageStart::Table(64, 5, 0),
    puts: &[
        Put::Sections(SECTIONS),
        Put::Home(1, Content::Bytes(STRINGS)),
        Put::Home(2, Content::Syms(IN_ORDER)),
        Put::Home(3, Content::Words(&[0])),
        Put::Home(4, Content::Bytes(&[0; 4])),
    ],
};

/// One with symbols out of it.
pub static UNSORTED: Recipe = Recipe {
    form: WIDE,
    start: ImageStart::Table(64, 5, 0),
    puts: &[
        Put::Sections(SECTIONS),
        Put::Home(1, Content::Bytes(STRINGS)),
        Put::Home(2, Content::Syms(OUT_OF_ORDER)),
        Put::Home(3, Content::Words(&[0])),
        Put::Home(4, Content::Bytes(&[0; 4])),
    ],
};

/// A question on an image, with its result.
pub trait Question {
    /// Whether the descriptor that began over it behaves as it should.
    fn is_answered<S: Source>(&self, rt: &HostRuntime, elf: &mut Elf<S>) -> bool;
}

/// Whether a question is answered over a source, which is given back.
fn is_answered_over<Q: Question, S: Source>(rt: &HostRuntime, q: &Q, src: S) -> (S, bool) {
    match Elf::begin(rt.alloc(), src) {
        Ok(mut elf) => {
            let answered = q.is_answered(rt, &mut elf);
            (elf.end(), answered)
        }
        Err((src, e)) => (src, failed(rt, e)),
    }
}

/// Whether a question is answered over a source of a length that begins with these bytes and does
/// not tell them.
fn is_answered_untold<Q: Question>(rt: &HostRuntime, q: &Q, bytes: Octets, len: u64) -> bool {
    is_answered_over(rt, q, Sparse::new(bytes, len)).1
}

/// Whether a question is answered over a source that begins with an image.
pub fn is_answered_within<Q: Question>(rt: &HostRuntime, q: &Q, recipe: &Recipe, len: u64) -> bool {
    match image_of(rt.alloc(), recipe) {
        Ok(image) => is_answered_untold(rt, q, image.bytes, len),
        Err(e) => failed(rt, e),
    }
}

/// How many bytes of a source in memory were asked for once a question was answered; none where it
/// was not.
fn asked_of<Q: Question>(rt: &HostRuntime, q: &Q, src: MemSource) -> Option<u64> {
    let (src, answered) = is_answered_over(rt, q, src);
    if answered { Some(src.asked()) } else { None }
}

/// How many bytes of a source over these bytes were read once a question was answered.
fn asked_in<Q: Question>(rt: &HostRuntime, q: &Q, bytes: Octets) -> Option<u64> {
    match source(rt.alloc(), bytes, 0) {
        Ok(src) => asked_of(rt, q, src),
        Err(e) => {
            let _said = failed(rt, e);
            None
        }
    }
}

/// How many bytes of an image in a form were read once a question was answered.
pub fn bytes_requested<Q: Question>(
    rt: &HostRuntime,
    q: &Q,
    form: ClassAndOrder,
    recipe: &Recipe,
) -> Option<u64> {
    match image_in(rt.alloc(), form, recipe) {
        Ok(image) => asked_in(rt, q, image.bytes),
        Err(e) => {
            let _said = failed(rt, e);
            None
        }
    }
}

/// Whether a question is answered over an image in a form, by a source that does not tell its
/// bytes.
fn is_answered_hidden<Q: Question>(
    rt: &HostRuntime,
    q: &Q,
    form: ClassAndOrder,
    recipe: &Recipe,
) -> bool {
    match image_in(rt.alloc(), form, recipe) {
        Ok(image) => {
            let len = image.bytes.len();
            is_answered_untold(rt, q, image.bytes, len)
        }
        Err(e) => failed(rt, e),
    }
}

/// Whether a question is answered over an image in a form, by either source.
pub fn is_answered<Q: Question>(
    rt: &HostRuntime,
    q: &Q,
    form: ClassAndOrder,
    recipe: &Recipe,
) -> bool {
    bytes_requested(rt, q, form, recipe).is_some() && is_answered_hidden(rt, q, form, recipe)
}

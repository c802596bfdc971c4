//! Version records in a piece.

use crate::questions::{Question, add_octets, is_answered};
use elf_descriptor::Elf;
use elf_outside::Source;
use elf_types::{DataId, ElfError};
use gelf_view::{
    AuxPlace, Verdaux, Verdef, Vernaux, Verneed, first_entry, next_verdaux, verdaux, verdef,
    vernaux, verneed,
};
use test_kit_rows::{failed, same};

/// A definition at 0 with one name, which is at 20.
static DEFINITION: [u8; 28] = [
    1, 0, 0, 0, 1, 0, 1, 0, 0xcf, 0x6c, 0, 0, 20, 0, 0, 0, 0, 0, 0, 0, 1, 0, 0, 0, 0, 0, 0, 0,
];

/// The definition at 0.
const BASE: Verdef = Verdef {
    version: 1,
    flags: 0,
    ndx: 1,
    cnt: 1,
    hash: 0x6ccf,
    aux: 20,
    next: 0,
};

/// Its name.
const NAME: Verdaux = Verdaux { name: 1, next: 0 };

/// The definition with two names.
const TWO_NAMES: Verdef = Verdef { cnt: 2, ..BASE };

/// The definition with a distance that is meant to point backwards.
const BACK: Verdef = Verdef {
    next: u32::MAX - 19,
    ..BASE
};

/// Whether the first definition is at a place.
fn begins_at<S: Source>(rt: &HostRuntime, elf: &mut Elf<S>, d: DataId, want: Option<u64>) -> bool {
    same(rt, &first_entry(elf, d), &Ok(want))
}

/// Whether a definition is at a place.
fn is_definition<S: Source>(
    rt: &HostRuntime,
    elf: &mut Elf<S>,
    d: DataId,
    at: u64,
    want: Result<Verdef, ElfError>,
) -> bool {
    same(rt, &verdef(elf, d, at), &want)
}

/// Whether the name at a place of a piece is answered so.
fn is_name<S: Source>(
    rt: &HostRuntime,
    elf: &mut Elf<S>,
    d: DataId,
    at: u64,
    want: Result<Verdaux, ElfError>,
) -> bool {
    same(rt, &verdaux(elf, d, at), &want)
}

/// Whether the next name of a walk is found, or why not.
fn next_name<S: Source>(
    elf: &mut Elf<S>,
    d: DataId,
    place: &mut AuxPlace,
) -> Result<bool, ElfError> {
    match next_verdaux(elf, d, place) {
        Ok(found) => Ok(found.is_some()),
        Err(e) => Err(e),
    }
}

/// Whether no second name is found after one that says that it is the last.
fn last_name_is_last<S: Source>(rt: &HostRuntime, elf: &mut Elf<S>, d: DataId) -> bool {
    let mut place = TWO_NAMES.first_aux(0);
    same(rt, &next_name(elf, d, &mut place), &Ok(true))
        && same(
            rt,
            &next_name(elf, d, &mut place),
            &Err(ElfError::BadChain { at: 20 }),
        )
}

/// Whether an entry that tells a greater distance than there is leads to none.
fn backwards_is_nowhere<S: Source>(rt: &HostRuntime, elf: &mut Elf<S>, d: DataId) -> bool {
    match BACK.next_place(20) {
        Some(at) => is_definition(rt, elf, d, at, Err(ElfError::BadChain { at })),
        None => false,
    }
}

/// The definition and its name are read, and none at another place.
struct Walk;

/// Whether the definition and its name are read in a piece.
fn is_walked<S: Source>(rt: &HostRuntime, elf: &mut Elf<S>, d: DataId) -> bool {
    begins_at(rt, elf, d, Some(0))
        && is_definition(rt, elf, d, 0, Ok(BASE))
        && is_name(rt, elf, d, 20, Ok(NAME))
        && is_definition(rt, elf, d, 9, Err(ElfError::BadChain { at: 9 }))
        && last_name_is_last(rt, elf, d)
        && backwards_is_nowhere(rt, elf, d)
}

impl Question for Walk {
    fn is_answered<S: Source>(&self, rt: &HostRuntime, elf: &mut Elf<S>) -> bool {
        match add_octets(elf, &DEFINITION) {
            Ok(d) => is_walked(rt, elf, d),
            Err(e) => failed(rt, e),
        }
    }
}

#[test]
fn versions_are_walked(rt: HostRuntime) {
    assert!(rt; is_answered(&rt, &Walk));
}

/// The need of one version of a file, at 0, and that version, at 16.
static NEED: [u8; 32] = [
    1, 0, 1, 0, 3, 0, 0, 0, 16, 0, 0, 0, 0, 0, 0, 0, 0xcf, 0x6c, 0, 0, 1, 0, 2, 0, 5, 0, 0, 0, 0,
    0, 0, 0,
];

/// The file of which a version is needed.
const FILE: Verneed = Verneed {
    version: 1,
    cnt: 1,
    file: 3,
    aux: 16,
    next: 0,
};

/// The version that is needed.
const NEEDED: Vernaux = Vernaux {
    hash: 0x6ccf,
    flags: 1,
    other: 2,
    name: 5,
    next: 0,
};

/// Whether a file of a need is at a place.
fn is_file<S: Source>(
    rt: &HostRuntime,
    elf: &mut Elf<S>,
    d: DataId,
    at: u64,
    want: Result<Verneed, ElfError>,
) -> bool {
    same(rt, &verneed(elf, d, at), &want)
}

/// Whether a version of a need is at a place.
fn is_version<S: Source>(
    rt: &HostRuntime,
    elf: &mut Elf<S>,
    d: DataId,
    at: u64,
    want: Result<Vernaux, ElfError>,
) -> bool {
    same(rt, &vernaux(elf, d, at), &want)
}

/// The file and the version are read, and none that passes the end.
struct Needs;

/// Whether the file and the version are read in a piece.
fn is_needed<S: Source>(rt: &HostRuntime, elf: &mut Elf<S>, d: DataId) -> bool {
    is_file(rt, elf, d, 0, Ok(FILE))
        && is_file(rt, elf, d, 17, Err(ElfError::BadChain { at: 17 }))
        && is_version(rt, elf, d, 16, Ok(NEEDED))
        && is_version(rt, elf, d, 17, Err(ElfError::BadChain { at: 17 }))
}

impl Question for Needs {
    fn is_answered<S: Source>(&self, rt: &HostRuntime, elf: &mut Elf<S>) -> bool {
        match add_octets(elf, &NEED) {
            Ok(d) => is_needed(rt, elf, d),
            Err(e) => failed(rt, e),
        }
    }
}

#[test]
fn needs_and_their_versions_are_read(rt: HostRuntime) {
    assert!(rt; is_answered(&rt, &Needs));
}

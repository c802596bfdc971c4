//! GNU's hash section of an object, and whether it is whole.

ghost use Rattle.std.specs.Prelude.{◌≡◌, ◌<◌, length, true, IfOk, IfSome, IsTrue};
ghost use Rattle.hash_model.specs.HashSections.{is_whole_gnu};
ghost use Rattle.hash_model.specs.Listed.{listed_names};
ghost use Rattle.tool_objects.specs.Steps.{Learns, ReadsElf};
ghost use Rattle.tool_objects.specs.AtHand.Strings.{EndsAt};
ghost use Rattle.elf_lint_findings.specs.Looking.{data_bytes};
ghost use Rattle.elf_lint_hashes.specs.Gnu as gnu;
ghost use Rattle.elf_lint_hashes.specs.Gnu.{gnu_section_of, IsSoundIn, GnuTableFitsIn};
ghost use Rattle.elf_lint_hashes.specs.Listed.{listed_hash, AreListed};

use crate::gnu::{GnuTable, run_after, sound_in};
use crate::listed::{LinkedSymbolTable, NameHash, end_of_names, listed_hash};
use elf_lint_findings::object_class;
use elf_outside::Source;
use elf_types::{DataId, Order, ScnId};
use tool_objects::prelude::{Elf, bytes};
use tool_output::Stop;

/// The byte order of an object.
#[tactic(auto, unfolding(hash_model::specs::Passed::header_of))]
fn order<S: Source>(elf: &Elf<S>) -> Order
    ensures { result ≡ elf.now.o.header.order }
{
    elf.ehdr().order
}

/// The table of GNU's hash section for so many symbols, where its bloom and buckets lie in it and
/// the chain of each bucket has an end, or None.
fn table_of<S: Source>(elf: &mut Elf<S>, s: ScnId, count: u64) -> Result<Option<GnuTable>, Stop>
    ensures is { IsTrue elf.old.told → IfOk result
        (IsSoundIn elf.old.o.header.class elf.old.o.header.order (data_bytes elf.old.o s.0) count) }
    ensures lies { IfOk result
        (λ found. IfSome found (GnuTableFitsIn (length (data_bytes elf.old.o s.0)))) }
    ensures count { IfOk result (λ found. IfSome found (λ t. t.count ≡ count)) }
    ensures reads { ReadsElf S.Source result elf.old elf.new }
{
    let of_class = object_class(elf);
    let of_order = order(elf);
    let d = DataId {
        section: s.0,
        piece: 0,
    };
    match bytes(elf, d) {
        Ok(bytes) => Ok(sound_in(bytes, of_class, of_order, count)),
        Err(e) => match Stop::of(&e) {
            Some(stop) => Err(stop),
            None => Ok(None),
        },
    }
}

/// Where the run of the symbol after `i` begins, or None where symbol `i` is listed by a hash and
/// is not found.
fn run_by<S: Source>(
    elf: &mut Elf<S>,
    s: ScnId,
    t: GnuTable,
    start: u64,
    i: u64,
    listed: Option<u32>,
) -> Result<Option<u64>, Stop>
    requires lies { GnuTableFitsIn (length (data_bytes elf.old.o s.0)) t }
    requires there { i < t.count }
    ensures { Learns S.Source (λ o. gnu.run_after t.class
        (gnu_section_of t (data_bytes o s.0)) t.count
        start i listed) result elf.old elf.new }
{
    let d = DataId {
        section: s.0,
        piece: 0,
    };
    match bytes(elf, d) {
        Ok(bytes) => Ok(run_after(bytes, &t, start, i, listed)),
        Err(e) => match Stop::of(&e) {
            Some(stop) => Err(stop),
            None => Ok(None),
        },
    }
}

/// Where the run of the symbol after `i` begins, by the name of symbol `i` where that is listed.
fn run_behind<S: Source>(
    elf: &mut Elf<S>,
    s: ScnId,
    t: GnuTable,
    l: LinkedSymbolTable,
    end: Option<u64>,
    start: u64,
    i: u64,
) -> Result<Option<u64>, Stop>
    requires lies { GnuTableFitsIn (length (data_bytes elf.old.o s.0)) t }
    requires there { i < t.count }
    requires listed { AreListed elf.old.o l }
    requires end { IsTrue elf.old.told → IfSome end (EndsAt elf.old.o l.strings.0) }
    ensures { Learns S.Source (λ o. gnu.run_after t.class
        (gnu_section_of t (data_bytes o s.0)) t.count
        start i (listed_hash NameHash.Gnu o l.section.0 i)) result elf.old elf.new }
{
    match listed_hash(elf, NameHash::Gnu, l, end, i) {
        Ok(listed) => run_by(elf, s, t, start, i, listed),
        Err(stop) => Err(stop),
    }
}

/// Whether each listed symbol passes the bloom and is on the chain of its name's bucket, in a
/// section in which the chain of each bucket has an end; the names end there where that is known.
fn all_are_found<S: Source>(
    elf: &mut Elf<S>,
    s: ScnId,
    t: GnuTable,
    l: LinkedSymbolTable,
    end: Option<u64>,
) -> Result<bool, Stop>
    requires lies { GnuTableFitsIn (length (data_bytes elf.old.o s.0)) t }
    requires count { t.count ≡ l.count }
    requires listed { AreListed elf.old.o l }
    requires end { IsTrue elf.old.told → IfSome end (EndsAt elf.old.o l.strings.0) }
    requires ends { IsTrue elf.old.told
        → gnu.chains_end (gnu_section_of t (data_bytes elf.old.o s.0)) t.count ≡ true }
    ensures { Learns S.Source (λ o. gnu.all_are_found t.class (gnu_section_of t (data_bytes o s.0))
        t.count (listed_names o l.section.0)) result elf.old elf.new }
{
    let mut start = 1;
    for i in 1..l.count {
        match run_behind(elf, s, t, l, end, start, i) {
            Ok(Some(next)) => start = next,
            Ok(None) => return Ok(false),
            Err(stop) => return Err(stop),
        }
    }
    Ok(true)
}

/// Whether each listed symbol is found, once the end of the names is looked for.
fn each_is_found<S: Source>(
    elf: &mut Elf<S>,
    s: ScnId,
    t: GnuTable,
    l: LinkedSymbolTable,
) -> Result<bool, Stop>
    requires lies { GnuTableFitsIn (length (data_bytes elf.old.o s.0)) t }
    requires count { t.count ≡ l.count }
    requires listed { AreListed elf.old.o l }
    requires ends { IsTrue elf.old.told
        → gnu.chains_end (gnu_section_of t (data_bytes elf.old.o s.0)) t.count ≡ true }
    ensures { Learns S.Source (λ o. gnu.all_are_found t.class (gnu_section_of t (data_bytes o s.0))
        t.count (listed_names o l.section.0)) result elf.old elf.new }
{
    match end_of_names(elf, l) {
        Ok(end) => all_are_found(elf, s, t, l, end),
        Err(stop) => Err(stop),
    }
}

/// Whether GNU's hash section is whole: it has a bucket and a bloom word at least, the bloom and
/// the buckets lie in it, the chain of each bucket ends, and each listed symbol passes the bloom
/// and is on the chain of its name's bucket, with a chain word equal to its hash but for the low
/// bit. It stops by `Read` where a read of the source failed, and by `Memory`.
///
/// Source: GNU's hash section, which is no part of the gABI.
pub fn is_whole<S: Source>(elf: &mut Elf<S>, s: ScnId, l: LinkedSymbolTable) -> Result<bool, Stop>
    requires { AreListed elf.old.o l }
    ensures { Learns S.Source (λ o. is_whole_gnu o.header.class o.header.order
        (data_bytes o s.0) (listed_names o l.section.0)) result elf.old elf.new }
{
    match table_of(elf, s, l.count) {
        Ok(Some(t)) => each_is_found(elf, s, t, l),
        Ok(None) => Ok(false),
        Err(stop) => Err(stop),
    }
}

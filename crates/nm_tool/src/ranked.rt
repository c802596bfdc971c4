//! Kept symbols in the order of their rows, by names that are in bytes that are in memory: they are
//! compared where they are, and none is copied. By value each symbol has its value as its key. By
//! name it has eight bytes of its name, those after what all names share; the symbols of one key
//! are put in order in the same way, by the bytes after what their names share, and few of them by
//! comparing the names.

ghost use Rattle.std.specs.Prelude.{◌≡◌, ◌+◌, ◌<◌, ◌≤◌, ◌^◌, ◌%◌, ◌==◌, ◌||◌, ℕ, List, All, true, false, drop, filter, get_or, length, map, nat_lt, slice_index_or, take, IfSome, IsTrue};
ghost use Rattle.std.specs.Int.{from_be_bytes, w64};
ghost use Rattle.std.specs.Ordering.{ordering_then, nat_cmp};
ghost use Rattle.std.specs.List.{list_all};
ghost use Rattle.std.specs.List.Sorted.{IsNonDecreasingBy};
ghost use Rattle.std.specs.Cmp.Lexicographic.{slice_cmp};
ghost use Rattle.elf_types.specs.Lists.{AreBytes};
ghost use Rattle.elf_object.specs.Strings.{has_nul};
ghost use Rattle.nm_tool.specs.declared.kept.Kept.{Kept as TheKept};
ghost use Rattle.nm_tool.specs.Order.{entries_in_order};
ghost use Rattle.nm_tool.specs.Kept.{order_of, shown_name_in, linked_shown_name, ranked_entry, kept_entries};
ghost use Rattle.nm_tool.specs.Ranked.{number_from, SharesFront, HasNoNul, kept_cmp, names_cmp, has_nonempty_name, keyed, AreKeyed};
ghost use Rattle.nm_tool.specs.Tables.{AreTables};

use crate::kept::{Kept, name_or_none};
use crate::symbols::Tables;
use elf_outside::Source;
use elf_types::{List, bytes_are_ranged};
use std::cmp::Ordering;
use tool_objects::at_hand::{string_bytes, table_string_from};
use tool_objects::prelude::Elf;

/// The name at a place of strings, as it is shown.
pub fn name_at(strings: &[u8], place: u32) -> &[u8]
    ensures { result.now ≡ shown_name_in strings.now place }
{
    name_or_none(table_string_from(strings, place))
}

/// The byte at a place, or 1 where there is none.
fn byte_or_one(strings: &[u8], place: usize) -> u8
    ensures { result ≡ slice_index_or strings.now place 1 }
{
    match strings.get(place) {
        Some(byte) => *byte,
        None => 1,
    }
}

/// Whether the name of a symbol is not empty: it does not begin with a NUL.
fn is_named(strings: &[u8], k: &Kept) -> bool
    ensures { result ≡ has_nonempty_name (shown_name_in strings.now) k.now }
{
    byte_or_one(strings, k.name as usize) != 0
}

/// The byte at a place, or 0 where there is none.
fn byte_at(name: &[u8], place: usize) -> u8
    ensures value { result ≡ slice_index_or name.now place 0 }
    ensures small { result < 256 }
{
    match name.get(place) {
        Some(byte) => *byte,
        None => 0,
    }
}

/// The number of the eight bytes of a name from a place on, byte by byte.
fn short_key(name: &[u8], place: usize) -> u64
    requires { place < 2 ^ 63 }
    ensures { result ≡ number_from place 8 name.now }
{
    let mut key = 0;
    for i in 0..8 {
        key = key * 256 + u64::from(byte_at(name, place + i));
    }
    key
}

/// The bytes of a name from a place on.
fn rest_of(name: &[u8], place: usize) -> &[u8]
    ensures { result.now ≡ drop place name.now }
{
    let at = place.min(name.len());
    let (_, rest) = name.split_at(at);
    rest
}

/// The number of the first eight bytes, where there are so many.
fn front_word(bytes: &[u8]) -> Option<u64>
    ensures { IfSome result (λ n. n ≡ from_be_bytes w64 (take 8 bytes.now)) }
{
    match bytes.first_chunk::<8>() {
        Some(first) => Some(u64::from_be_bytes(*first)),
        None => None,
    }
}

/// The number of the eight bytes of a name from a place on, of which the first counts most.
#[inline(always)]
fn key_from(name: &[u8], place: usize) -> u64
    requires { place < 2 ^ 63 }
    ensures { result ≡ number_from place 8 name.now }
{
    match front_word(rest_of(name, place)) {
        Some(key) => key,
        None => short_key(name, place),
    }
}

/// How many of the first `count` bytes of two lists are alike, up to the first that differs.
fn shared_within(first: &[u8], name: &[u8], count: usize) -> usize
    requires { count ≤ length first.now }
    ensures shares { SharesFront result first.now name.now }
    ensures within { result ≤ count }
{
    if name.starts_with(&first[..count]) {
        return count;
    }
    for i in 0..count {
        if byte_at(first, i) != byte_at(name, i) {
            return i;
        }
    }
    count
}

/// Whether bytes end with a NUL.
fn is_ended(bytes: &[u8]) -> bool
    ensures { result ≡ true → has_nul bytes.now ≡ true }
{
    let len = bytes.len();
    if len == 0 {
        return false;
    }
    bytes[len - 1] == 0
}

/// How many of the first `count` bytes of a list without a NUL are those of the name at a place of
/// strings, up to the first that differs. The end of a name that has them all is not looked for.
fn shared_at(strings: &[u8], place: u32, first: &[u8], count: usize) -> usize
    requires count { count ≤ length first.now }
    requires plain { HasNoNul first.now }
    ensures shares { SharesFront result first.now (shown_name_in strings.now place) }
    ensures within { result ≤ count }
{
    let rest = rest_of(strings, place as usize);
    if is_ended(rest) {
        if rest.starts_with(&first[..count]) {
            return count;
        }
    }
    shared_within(first, name_at(strings, place), count)
}

/// As many bytes as are looked for that all names share.
const MOST_SHARED: usize = 4096;

/// How many bytes of a list without a NUL are before the names of symbols too, in each of them.
fn shared_with(strings: &[u8], rows: &[Kept], first: &[u8]) -> usize
    requires { HasNoNul first.now }
    ensures shares { All (λ k. SharesFront result first.now (shown_name_in strings.now k.name))
        rows.now }
    ensures within { result ≤ length first.now }
{
    let mut count = first.len().min(MOST_SHARED);
    for k in rows {
        if count == 0 {
            return 0;
        }
        count = shared_at(strings, k.name, first, count);
    }
    count
}

/// How many bytes the names of symbols share, from the first byte on.
fn shared_front(strings: &[u8], rows: &[Kept]) -> usize
    ensures shares { (first : List ℕ)
        × All (λ k. SharesFront result first (shown_name_in strings.now k.name)) rows.now }
    ensures small { result < 2 ^ 63 }
{
    match rows.first() {
        Some(k) => shared_with(strings, rows, name_at(strings, k.name)),
        None => 0,
    }
}

/// Gives each symbol eight bytes of its name as its key, from a place on.
fn set_keys(strings: &[u8], rows: &mut [Kept], place: usize)
    requires { place < 2 ^ 63 }
    ensures { rows.new ≡ map (keyed (shown_name_in strings.now) place) rows.old }
{
    for k in rows.iter_mut() {
        k.key = key_from(name_at(strings, k.name), place);
    }
}

/// How two names compare by their bytes, as they are shown. That of one place is looked at by none.
#[tactic(auto, using(crate::proofs::Ranking::same_shown))]
fn compare_shown(strings: &[u8], a: u32, b: u32) -> Ordering
    ensures { result ≡ slice_cmp nat_cmp (shown_name_in strings.now a)
        (shown_name_in strings.now b) }
{
    if a == b {
        return Ordering::Equal;
    }
    name_at(strings, a).cmp(name_at(strings, b))
}

/// How two symbols compare by their names, and else by their indexes.
#[tactic(auto, unfolding(crate::specs::Ranked::names_cmp))]
#[inline(never)]
fn compare_names(strings: &[u8], a: &Kept, b: &Kept) -> Ordering
    ensures { result ≡ names_cmp (shown_name_in strings.now) a.now b.now }
{
    match compare_shown(strings, a.name, b.name) {
        Ordering::Equal => a.index.cmp(&b.index),
        Ordering::Less => Ordering::Less,
        Ordering::Greater => Ordering::Greater,
    }
}

/// How two symbols compare by their keys, and else by their names and their indexes.
#[tactic(auto, unfolding(crate::specs::Ranked::kept_cmp))]
#[inline(always)]
fn compare(strings: &[u8], a: &Kept, b: &Kept) -> Ordering
    ensures { result ≡ kept_cmp (shown_name_in strings.now) a.now b.now }
{
    match a.key.cmp(&b.key) {
        Ordering::Equal => compare_names(strings, a, b),
        Ordering::Less => Ordering::Less,
        Ordering::Greater => Ordering::Greater,
    }
}

/// Puts symbols in the order of their rows by value.
fn sort_by_values(strings: &[u8], rows: &mut [Kept])
    ensures { map (ranked_entry true (shown_name_in strings.now)) rows.new
        ≡ entries_in_order (map (ranked_entry true (shown_name_in strings.now)) rows.old) }
{
    rows.sort_unstable_by(|a, b| compare(strings, a, b));
}

/// Puts symbols in the order of their rows by name: their names are compared.
fn sort_by_names(strings: &[u8], rows: &mut [Kept])
    ensures { map (ranked_entry false (shown_name_in strings.now)) rows.new
        ≡ entries_in_order (map (ranked_entry false (shown_name_in strings.now)) rows.old) }
{
    rows.sort_unstable_by(|a, b| compare_names(strings, a, b));
}

/// Sorts symbols by their names as `sort_by_names` does, where there are two at least.
#[inline(always)]
fn sort_few(strings: &[u8], rows: &mut [Kept])
    ensures { map (ranked_entry false (shown_name_in strings.now)) rows.new
        ≡ entries_in_order (map (ranked_entry false (shown_name_in strings.now)) rows.old) }
{
    if rows.len() < 2 {
        return;
    }
    sort_by_names(strings, rows);
}

/// Gives symbols keys, eight bytes of their names from the first on that they do not share, and
/// puts them in the order of these.
fn sort_by_keys(strings: &[u8], rows: &mut [Kept])
    ensures moved { entries_in_order (map (ranked_entry false (shown_name_in strings.now)) rows.new)
        ≡ entries_in_order (map (ranked_entry false (shown_name_in strings.now)) rows.old) }
    ensures keyed { AreKeyed (shown_name_in strings.now) rows.new }
    ensures rises { IsNonDecreasingBy (λ k. k.key) rows.new }
{
    let place = shared_front(strings, rows);
    set_keys(strings, rows, place);
    rows.sort_unstable();
}

/// Where the symbols of a key end that are from a place on.
#[inline(always)]
fn run_end(rows: &[Kept], from: usize, key: u64) -> usize
    requires { from ≤ length rows.now }
    ensures same { (i : ℕ) → from ≤ i → i < result → (d : TheKept)
        → (get_or rows.now i d).key ≡ key }
    ensures other { result < length rows.now → (d : TheKept)
        → (get_or rows.now result d).key ≡ key → ⊥ }
    ensures above { from ≤ result }
    ensures within { result ≤ length rows.now }
{
    for i in from..rows.len() {
        if rows[i].key != key {
            return i;
        }
    }
    rows.len()
}

/// Fewer symbols than this are put in order by comparing their names.
const FEW: usize = 8;

/// Whether the symbols of a key are put in order by comparing their names: they are few, or their
/// names end with the key, so that all are one name.
fn are_compared(count: usize, key: u64) -> bool
    ensures { result ≡ (nat_lt count 8 || key % 256 == 0) }
{
    (count < FEW) | (key % 256 == 0)
}

/// As many times are the symbols of a key given other keys, one inside the other; then their names
/// are compared.
const LEVELS: u32 = 16;

/// Whether the names of symbols are at one place.
fn are_at(rows: &[Kept], place: u32) -> bool
    ensures { result ≡ list_all (λ k. k.name == place) rows.now }
{
    rows.iter().all(|k| k.name == place)
}

/// Whether all names are at one place: then none of them needs to be looked at.
fn stand_together(rows: &[Kept]) -> bool {
    match rows.first() {
        Some(k) => are_at(rows, k.name),
        None => true,
    }
}

/// Puts symbols in the order of their rows by name: by keys, and those of one key in the same way,
/// at most so many levels deep.
fn sort_named(strings: &[u8], rows: &mut [Kept], levels: u32)
    requires { AreBytes strings.now }
    ensures { map (ranked_entry false (shown_name_in strings.now)) rows.new
        ≡ entries_in_order (map (ranked_entry false (shown_name_in strings.now)) rows.old) }
{
    if levels == 0 {
        sort_by_names(strings, rows);
        return;
    }
    if stand_together(rows) {
        sort_by_names(strings, rows);
        return;
    }
    sort_by_keys(strings, rows);
    let count = rows.len();
    let mut at = 0;
    while at < count {
        let key = rows[at].key;
        let end = run_end(rows, at + 1, key);
        if are_compared(end - at, key) {
            sort_few(strings, &mut rows[at..end]);
        } else {
            sort_named(strings, &mut rows[at..end], levels - 1);
        }
        at = end;
    }
}

/// Puts symbols in the order of their rows.
fn sort(strings: &[u8], rows: &mut [Kept], by_value: bool)
    ensures { map (ranked_entry by_value (shown_name_in strings.now)) rows.new
        ≡ entries_in_order (map (ranked_entry by_value (shown_name_in strings.now)) rows.old) }
{
    bytes_are_ranged(strings);
    if by_value {
        sort_by_values(strings, rows);
    } else {
        sort_named(strings, rows, LEVELS);
    }
}

/// Kept symbols that have a name which is not empty, in the order of their rows.
pub fn ranked(strings: &[u8], list: List<Kept>, by_value: bool) -> List<Kept>
    ensures { map (ranked_entry by_value (shown_name_in strings.now)) result
        ≡ entries_in_order (kept_entries by_value (shown_name_in strings.now) list) }
{
    let mut rows = list.into_vec();
    rows.retain(|k| is_named(strings, k));
    let mut named = List::from_vec(rows);
    sort(strings, named.as_mut_slice(), by_value);
    named
}

/// Kept symbols that have a name which is not empty, in the order of their rows, or None where the
/// bytes of their names are not in memory. It takes no memory.
pub fn order_at_hand<S: Source>(
    elf: &Elf<S>,
    t: Tables,
    list: List<Kept>,
    by_value: bool,
) -> Option<List<Kept>>
    requires { AreTables elf.now.o t }
    ensures { IsTrue elf.now.told → IfSome result (λ l. map (λ k. k.index) l
        ≡ order_of by_value (linked_shown_name elf.now.o t.symbols.0) list) }
{
    match string_bytes(elf, t.names) {
        Some(strings) => Some(ranked(strings, list, by_value)),
        None => None,
    }
}

//! The printable runs of bytes in memory, found by lanes: many bytes are looked at together, and a
//! mask has a bit for each of them.

ghost use Rattle.std.specs.Prelude.{◌≡◌, ◌+◌, ◌-◌, ◌≤◌, ◌<◌, false, ℕ, List, length, take, drop, slice_index, IfSome, IfNone};
ghost use Rattle.std.specs.Int.{bit_at};
ghost use Rattle.std.specs.List.{prefix_len};
ghost use Rattle.strings_tool.specs.Masks.{printable_mask, AreSet, BeginRuns, ShowsBytes, IsFirstRun};
ghost use Rattle.strings_tool.specs.Runs.{is_printable};
ghost use Rattle.strings_tool.specs.Skips.{Skips};

use std::simd::prelude::*;

/// How many bytes are looked at together.
pub const LANES: usize = 64;

/// Whether a byte is shown: 0x20 to 0x7e, or a tab.
#[tactic(auto, unfolding(crate::specs::Runs::is_printable))]
#[inline(always)]
pub fn is_printable(byte: u8) -> bool
    ensures { result ≡ is_printable byte }
{
    (0x20 <= byte && byte <= 0x7e) || byte == b'\t'
}

/// The mask of the first bytes: which of them are printable.
#[inline(always)]
pub fn printable_mask(bytes: &[u8]) -> u64
    requires { LANES ≤ length bytes.now }
    ensures { result ≡ printable_mask (take LANES bytes.now) }
{
    let lanes = u8x64::from_slice(bytes);
    let above_space = lanes - u8x64::splat(b' ');
    let shown = above_space.simd_lt(u8x64::splat(0x5f)) | lanes.simd_eq(u8x64::splat(b'\t'));
    shown.to_bitmask()
}

/// The places at which four set bits begin, one after another.
#[inline(always)]
fn four_starts(mask: u64) -> u64
    ensures { BeginRuns mask 4 result }
{
    let pairs = mask & (mask >> 1);
    pairs & (pairs >> 2)
}

/// The places at which so many set bits begin, one after another. What is known of some bits is
/// joined with what is known of as many after them, so the number of steps is that of the digits of
/// `count`. Four are usual, and have no loop.
#[inline(always)]
fn run_starts(mask: u64, count: usize) -> u64
    requires { (0 < count) × (count ≤ LANES) }
    ensures { BeginRuns mask count result }
{
    if count == 4 {
        return four_starts(mask);
    }
    let mut starts = mask;
    let mut known = 1;
    while known < count {
        let more = known.min(count - known);
        starts &= starts >> more;
        known += more;
    }
    starts
}

/// How many bits are set from a place on, one after another.
#[inline(always)]
fn set_bits(mask: u64, from: usize) -> usize
    requires { from < LANES }
    ensures within { from + result ≤ LANES }
    ensures set { AreSet mask from result }
    ensures ends { from + result < LANES → bit_at mask (from + result) ≡ 0 }
{
    let clear = !(mask >> from);
    if clear == 0 {
        return LANES - from;
    }
    clear.trailing_zeros() as usize
}

/// Finds the first run of at least so many bytes that has these among those that a mask shows: its
/// place, and how many of them it has. Where they are the last ones, it may go on after them.
#[inline(always)]
pub fn run_in(mask: u64, least: usize) -> Option<(usize, usize)>
    requires { (0 < least) × (least ≤ LANES) }
    ensures none { (count : ℕ) (bytes : List ℕ) → ShowsBytes mask count bytes
        → IfNone result (Skips least bytes (count + 1 - least)) }
    ensures some { (count : ℕ) (bytes : List ℕ) → ShowsBytes mask count bytes
        → IfSome result (IsFirstRun least count bytes) }
{
    let starts = run_starts(mask, least);
    if starts == 0 {
        return None;
    }
    let from = starts.trailing_zeros() as usize;
    Some((from, set_bits(mask, from)))
}

/// Finds the first run of at least so many bytes that has these among the first bytes, as `run_in`
/// does.
#[inline(always)]
fn find_early_run(bytes: &[u8], least: usize) -> Option<(usize, usize)>
    requires room { LANES ≤ length bytes.now }
    requires least { (0 < least) × (least ≤ LANES) }
    ensures none { IfNone result (Skips least bytes.now (LANES + 1 - least)) }
    ensures some { IfSome result (IsFirstRun least LANES bytes.now) }
{
    run_in(printable_mask(bytes), least)
}

/// The first byte that is not printable, or None where the first bytes are all printable.
#[inline(always)]
fn early_end(bytes: &[u8]) -> Option<usize>
    requires { LANES ≤ length bytes.now }
    ensures all { IfNone result
        (prefix_len is_printable bytes.now ≡ LANES + prefix_len is_printable (drop LANES bytes.now)) }
    ensures end { IfSome result (λ i. (i < LANES) × (prefix_len is_printable bytes.now ≡ i)) }
{
    let clear = !printable_mask(bytes);
    if clear == 0 {
        return None;
    }
    Some(clear.trailing_zeros() as usize)
}

/// How many printable bytes are at the start.
pub fn run_len(bytes: &[u8]) -> usize
    ensures len { result ≡ prefix_len is_printable bytes.now }
    ensures within { result ≤ length bytes.now }
{
    let mut at = 0;
    'lanes: while LANES <= bytes.len() - at {
        match early_end(&bytes[at..]) {
            Some(i) => return at + i,
            None => at += LANES,
        }
    }
    'bytes: while at < bytes.len() && is_printable(bytes[at]) {
        at += 1;
    }
    at
}

/// The last byte that is not printable, or None where all are.
pub fn last_unprintable(bytes: &[u8]) -> Option<usize>
    ensures all { IfNone result (prefix_len is_printable bytes.now ≡ length bytes.now) }
    ensures last { IfSome result (λ i. (i < length bytes.now)
        × (is_printable (slice_index bytes.now i) ≡ false)) }
    ensures rest { IfSome result (λ i.
        prefix_len is_printable (drop (i + 1) bytes.now) + (i + 1) ≡ length bytes.now) }
{
    let mut i = bytes.len();
    while i > 0 {
        i -= 1;
        if !is_printable(bytes[i]) {
            return Some(i);
        }
    }
    None
}

/// Finds the first run of at least so many bytes, printable ones in a row, and gives the place
/// where it begins and its length; where there is none, a place before which none begins and after
/// which fewer bytes are. A short run is looked for by lanes. Else a byte that is not printable
/// rules out each place from which a run would have to go over it, so most bytes are not looked at.
pub fn find_run(bytes: &[u8], least: usize) -> (usize, usize)
    requires { 0 < least }
    ensures within { result.0 + result.1 ≤ length bytes.now }
    ensures skips { Skips least bytes.now result.0 }
    ensures long { result.0 + least ≤ length bytes.now → least ≤ result.1 }
    ensures len { result.0 + least ≤ length bytes.now →
        result.1 ≡ prefix_len is_printable (drop result.0 bytes.now) }
{
    let mut at = 0;
    if least <= LANES / 2 {
        'lanes: while LANES <= bytes.len() - at {
            match find_early_run(&bytes[at..], least) {
                Some((i, len)) if i + len < LANES => return (at + i, len),
                Some((i, len)) => return (at + i, len + run_len(&bytes[at + LANES..])),
                None => at += LANES + 1 - least,
            }
        }
    }
    'bytes: while bytes.len() - at >= least {
        match last_unprintable(&bytes[at..at + least]) {
            Some(i) => at += i + 1,
            None => return (at, run_len(&bytes[at..])),
        }
    }
    (at, 0)
}

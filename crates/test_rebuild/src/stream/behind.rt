//! Places after the base of a program.

use crate::stream::listing::{is_listed_at, listed};
use elf_types::ElfError;
use rebuild_image::arrange_listed;
use rebuild_image::listed::HeaderListing;
use std::alloc::Global;
use test_kit_rows::{failed, same};

/// The greatest place of class 64.
const LIMIT: u64 = 1 << 40;

/// The headers with their places after a tail.
fn arranged(alloc: Global, tail: u64) -> Result<HeaderListing, ElfError> {
    let x = listed(alloc)?;
    if x.headers.len() == 0 || x.headers.len() != x.sizes.len() {
        return Err(ElfError::Reserved);
    }
    arrange_listed(alloc, x, tail)
}

/// Whether what is not loaded follows a tail as stated.
fn stands_behind(rt: &HostRuntime, tail: u64, rows: &[(u64, u64)], table: u64) -> bool {
    match arranged(rt.alloc(), tail) {
        Ok(next) => is_listed_at(rt, &next, rows, table),
        Err(e) => failed(rt, e),
    }
}

/// Why there are no places after a tail, or None where there are.
fn refusal(alloc: Global, tail: u64) -> Option<ElfError> {
    match arranged(alloc, tail) {
        Ok(_) => None,
        Err(e) => Some(e),
    }
}

#[test]
fn what_is_not_loaded_stands_behind_the_tail(rt: HostRuntime) {
    // the loaded section keeps its place, the one without bytes takes none, and sizes stay
    assert!(rt;
        stands_behind(
            &rt,
            101,
            &[(0, 0), (80, 0), (101, 0), (128, 1000), (104, 0)],
            120
        )
    );
}

#[test]
fn a_place_above_the_limit_is_refused(rt: HostRuntime) {
    assert!(rt; same(&rt, &refusal(rt.alloc(), LIMIT), &Some(ElfError::TooLarge)));
    assert!(rt; same(&rt, &refusal(rt.alloc(), LIMIT - 100), &None));
}

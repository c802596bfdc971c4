//! The image that calls with -o makes of a script that adds sections: as many as the ELF header can
//! tell, and one more, where section 0 tells their number.

use crate::calls::SCRIPTED;
use test_kit_images::{ImageStart, Recipe, WIDE};
use test_kit_rows::{failed, holds, in_row, in_step, other, same};
use test_kit_runs::cases::{Case, Portion, Stored, left_by};
use test_kit_runs::{NOTHING, RunAndFile, run_line};
use tool_output::Status;

/// A script, how its answers end, how many bytes the image has, what is at some places of it, and
/// how the lines end that readelf shows of its header.
struct Row {
    case: Case,
    said: &'static [u8],
    size: u64,
    at: &'static [(u64, &'static [u8])],
    shown: &'static [u8],
}

/// An executable without sections, to which a script adds some.
const ADDING: Case = Case {
    file: Stored::Image(Recipe {
        form: WIDE,
        start: ImageStart::HeaderAlone,
        puts: &[],
    }),
    ..SCRIPTED
};

/// The number of sections is in `e_shnum` at 60 where it is below 0xff00, and else in the `sh_size`
/// of section 0 at 96.
static ROWS: [Row; 2] = [
    Row {
        case: Case {
            script: Stored::Portions(&[Portion::Times(b"newscn\n", 65_278)]),
            ..ADDING
        },
        said: b"section 65278\nsize 4177920\n",
        size: 4_177_920,
        at: &[(60, b"\xff\xfe"), (96, b"\0\0\0\0\0\0\0\0")],
        shown: b"  shnum: 65279\n  shstrndx: 0\n",
    },
    Row {
        case: Case {
            script: Stored::Portions(&[Portion::Times(b"newscn\n", 65_279)]),
            ..ADDING
        },
        said: b"section 65279\nsize 4177984\n",
        size: 4_177_984,
        at: &[(60, b"\0\0"), (96, b"\0\xff\0\0\0\0\0\0")],
        shown: b"  shnum: 65280\n  shstrndx: 0\n",
    },
];

/// Whether these bytes are at a place.
fn stand_at(bytes: &[u8], at: u64, wanted: &[u8]) -> bool {
    match bytes.get(at as usize..) {
        Some(rest) => rest.starts_with(wanted),
        None => false,
    }
}

/// Whether all bytes are at their places.
fn all_stand(rt: &HostRuntime, bytes: &[u8], places: &[(u64, &'static [u8])]) -> bool {
    for (n, (at, wanted)) in places.iter().enumerate() {
        let so = holds(
            rt,
            "the bytes stand at their place",
            stand_at(bytes, *at, wanted),
        );
        if !in_step(rt, n, so) {
            return false;
        }
    }
    true
}

/// Whether the run of a row ended so, and left such an image.
fn is_made(rt: &HostRuntime, left: &RunAndFile, row: &Row) -> bool {
    match &left.held {
        Some(bytes) => {
            same(rt, &left.ran.status, &Status::Done)
                && holds(
                    rt,
                    "it says so",
                    left.ran.out.as_slice().ends_with(row.said),
                )
                && same(rt, &bytes.len(), &row.size)
                && all_stand(rt, bytes.as_slice(), row.at)
        }
        None => other(rt, &"no file", "an image"),
    }
}

/// Whether readelf shows such a header of the image.
fn is_shown(rt: &HostRuntime, left: &RunAndFile, row: &Row) -> bool {
    match &left.held {
        Some(bytes) => match run_line(rt.alloc(), "readelf -h F", bytes, NOTHING) {
            Ok(ran) => same(rt, &ran.status, &Status::Done)
                && holds(
                    rt,
                    "readelf shows it",
                    ran.out.as_slice().ends_with(row.shown),
                ),
            Err(e) => failed(rt, e),
        },
        None => false,
    }
}

/// Whether the image of a row is made, and shown again.
fn is_so(rt: &HostRuntime, row: &Row) -> bool {
    match left_by(rt, &[], &row.case) {
        Some(left) => is_made(rt, &left, row) && is_shown(rt, &left, row),
        None => false,
    }
}

/// Whether each row is so.
fn are_so(rt: &HostRuntime, rows: &[Row]) -> bool {
    for (n, row) in rows.iter().enumerate() {
        if !in_row(rt, n, is_so(rt, row)) {
            return false;
        }
    }
    true
}

#[test]
fn section_0_tells_how_many_sections_there_are_from_0xff00_on(rt: HostRuntime) {
    assert!(rt; are_so(&rt, &ROWS));
}

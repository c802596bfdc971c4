//! The executable split into its halves, and joined again: every part is shown as before, and what
//! is joined is split into the same halves.

use crate::image::executable;
use elf_outside::MemFiles;
use elf_types::{ElfError, Octets};
use std::alloc::Global;
use test_kit_images::BuiltImage;
use test_kit_rows::{failed, in_row, same, same_bytes, within};
use test_kit_runs::{DONE, GivenFiles, NOTHING, Ran, add_file, run_leaving, run_line, same_file};

/// Two files, O and D.
#[derive(Drop)]
struct Halves {
    stripped: Octets,
    debug: Octets,
}

impl GivenFiles for Halves {
    fn add_to(&self, alloc: Global, files: &mut MemFiles) -> Result<(), ElfError> {
        add_file(alloc, files, "O", self.stripped.as_slice())?;
        add_file(alloc, files, "D", self.debug.as_slice())
    }
}

/// What a run that rejects nothing leaves under a name, and nothing where it does not.
pub fn made_by<G: GivenFiles>(
    rt: &HostRuntime,
    line: &str,
    given: &G,
    name: &str,
) -> Option<Octets> {
    match run_leaving(rt.alloc(), line, given, NOTHING, name) {
        Ok(left) => {
            if within(rt, &line, left.ran.is(rt, &DONE)) {
                left.held
            } else {
                None
            }
        }
        Err(e) => {
            let _said = failed(rt, e);
            None
        }
    }
}

/// The halves of an image.
fn split<G: GivenFiles>(rt: &HostRuntime, given: &G) -> Option<Halves> {
    let Some(stripped) = made_by(rt, "strip -f D -o O F", given, "O") else {
        return None;
    };
    match made_by(rt, "strip -f D -o O F", given, "D") {
        Some(debug) => Some(Halves { stripped, debug }),
        None => None,
    }
}

/// Whether two halves are the same.
fn same_halves(rt: &HostRuntime, a: &Halves, b: &Halves) -> bool {
    same_file(rt, a.stripped.as_slice(), b.stripped.as_slice())
        && same_file(rt, a.debug.as_slice(), b.debug.as_slice())
}

/// Whether an image is split into these.
fn is_split(rt: &HostRuntime, made: &Octets, halves: &Halves) -> bool {
    match split(rt, made) {
        Some(again) => same_halves(rt, &again, halves),
        None => false,
    }
}

/// Whether two runs are the same.
fn same_runs(rt: &HostRuntime, a: &Ran, b: &Ran) -> bool {
    same(rt, &a.status, &b.status)
        && same_bytes(rt, a.out.as_slice(), b.out.as_slice())
        && same_bytes(rt, a.err.as_slice(), b.err.as_slice())
}

/// Whether a command shows the same of both.
fn shows_same(rt: &HostRuntime, line: &str, image: &BuiltImage, made: &Octets) -> bool {
    let before = match run_line(rt.alloc(), line, image, NOTHING) {
        Ok(before) => before,
        Err(e) => return failed(rt, e),
    };
    match run_line(rt.alloc(), line, made, NOTHING) {
        Ok(after) => same_runs(rt, &before, &after),
        Err(e) => failed(rt, e),
    }
}

/// Commands that show no place in the file of what is not loaded.
static LINES: [&str; 6] = [
    "readelf -lsrdnV F",
    "nm F",
    "nm -p F",
    "size F",
    "strings F",
    "elflint F",
];

/// Whether each of them shows the same of both.
fn show_same(rt: &HostRuntime, image: &BuiltImage, made: &Octets) -> bool {
    for (n, line) in LINES.iter().enumerate() {
        if !in_row(rt, n, shows_same(rt, line, image, made)) {
            return false;
        }
    }
    true
}

/// Whether what the halves are joined to is shown as the image, and split into them.
fn is_joined(rt: &HostRuntime, image: &BuiltImage, halves: &Halves) -> bool {
    match made_by(rt, "unstrip -o X O D", halves, "X") {
        Some(made) => show_same(rt, image, &made) && is_split(rt, &made, halves),
        None => false,
    }
}

/// Whether the executable is.
fn is_whole(rt: &HostRuntime) -> bool {
    let image = match executable(rt.alloc()) {
        Ok(image) => image,
        Err(e) => return failed(rt, e),
    };
    match split(rt, &image) {
        Some(halves) => is_joined(rt, &image, &halves),
        None => false,
    }
}

#[test]
fn stripped_and_debug_files_of_an_executable_are_merged(rt: HostRuntime) {
    assert!(rt; is_whole(&rt));
}

//! Updates in place of real files.

use crate::in_place::rows::{FAR, FIVE_SECTIONS, UpdateRow, Which, table};
use crate::in_place::tasks::Task;
use elf_outside::{Files, RealFiles};
use std::os::unix::fs::MetadataExt;
use std::{env, fs, process};
use test_kit_descriptors::done_over;
use test_kit_images::{BuiltImage, image_of};
use test_kit_rows::{failed, failed_by, holds, in_row, same, same_bytes};

/// A path in the system's folder for files that do not last.
fn path_of(rt: &HostRuntime, name: &str) -> Option<String> {
    let Ok(folder) = env::temp_dir(rt) else {
        return None;
    };
    let id = process::id(rt.process());
    let folder = folder.to_str().unwrap_or("");
    format!(in rt.alloc(); "{folder}/in_place_tests-{name}-{id}").ok()
}

/// What is looked at once a file was updated.
#[derive(Clone, Copy)]
enum Look {
    /// It holds the image.
    Holds,
    /// It is as long as the image, and takes few blocks.
    Sparse,
}

/// The most blocks of 512 bytes that a file takes of which a few pages are written.
const FEW: u64 = 64;

/// Whether a file holds the bytes of an image.
fn has_bytes(rt: &HostRuntime, path: &str, image: &BuiltImage) -> bool {
    match fs::read(rt, path) {
        Ok(held) => same_bytes(rt, held.as_slice(), image.bytes.as_slice()),
        Err(e) => failed_by(rt, &e),
    }
}

/// Whether a file is as long as an image, and takes few blocks.
fn is_sparse(rt: &HostRuntime, path: &str, image: &BuiltImage) -> bool {
    match fs::metadata(rt, path) {
        Ok(about) => same(rt, &about.len(), &image.bytes.len())
            && holds(rt, "it takes few blocks", about.blocks() <= FEW),
        Err(e) => failed_by(rt, &e),
    }
}

/// Whether a file is as it should be.
fn is_left(rt: &HostRuntime, path: &str, image: &BuiltImage, look: Look) -> bool {
    match look {
        Look::Holds => has_bytes(rt, path, image),
        Look::Sparse => is_sparse(rt, path, image),
    }
}

/// Whether a row's update of the file of a name ends, which has the bytes of an image; that gets
/// the bytes that the file is to have.
fn is_updated<F: Files>(
    rt: &HostRuntime,
    files: &mut F,
    path: &str,
    row: &UpdateRow,
    image: &mut BuiltImage,
) -> bool {
    match files.edit(rt.alloc(), path) {
        Ok(file) => {
            let (file, updated) = done_over(rt, &Task::Ends(*row), file, image);
            files.close(path, file);
            updated
        }
        Err(e) => failed_by(rt, &e),
    }
}

/// Whether a file of an image is as it should be after a row's update; the file goes afterwards.
fn is_left_by<F: Files>(
    rt: &HostRuntime,
    files: &mut F,
    path: &str,
    row: &UpdateRow,
    image: &mut BuiltImage,
    look: Look,
) -> bool {
    fs::write(rt, path, image.bytes.as_slice()).is_ok()
        && is_updated(rt, files, path, row, image)
        && is_left(rt, path, image, look)
        && fs::remove_file(rt, path).is_ok()
}

/// Whether a file of five sections is as it should be after a row's update.
fn is_row<F: Files>(
    rt: &HostRuntime,
    files: &mut F,
    path: &str,
    row: &UpdateRow,
    look: Look,
) -> bool {
    match image_of(rt.alloc(), &FIVE_SECTIONS) {
        Ok(mut image) => is_left_by(rt, files, path, row, &mut image, look),
        Err(e) => failed(rt, e),
    }
}

/// Whether a file is as it should be after the update of each row.
fn are_rows<F: Files>(
    rt: &HostRuntime,
    files: &mut F,
    path: &str,
    rows: &[UpdateRow],
    look: Look,
) -> bool {
    for (n, row) in rows.iter().enumerate() {
        if !in_row(rt, n, is_row(rt, files, path, row, look)) {
            return false;
        }
    }
    true
}

/// Whether a file of the system is as it should be after the update of each row.
fn are_rows_at(rt: &HostRuntime, path: &str, rows: &[UpdateRow], look: Look) -> bool {
    match rt.clone() {
        Ok(system) => are_rows(
            rt,
            &mut RealFiles::new(rt.alloc(), system),
            path,
            rows,
            look,
        ),
        Err(e) => failed_by(rt, &e),
    }
}

/// Whether a file under a name in the system's folder for files that do not last is as it should be
/// after each update.
fn are_updated(rt: &HostRuntime, name: &str, rows: &[UpdateRow], look: Look) -> bool {
    match path_of(rt, name) {
        Some(path) => are_rows_at(rt, path.as_str(), rows, look),
        None => false,
    }
}

#[test]
fn a_file_holds_the_image(rt: HostRuntime) {
    assert!(rt; are_updated(&rt, "rows", table(Which::Five).rows, Look::Holds));
}

#[test]
fn a_gap_of_zeros_behind_the_old_end_is_a_hole(rt: HostRuntime) {
    assert!(rt; are_updated(&rt, "gap", &FAR, Look::Sparse));
}

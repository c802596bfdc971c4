//! Descriptors over real files.

use crate::reading::SYMBOL_STEPS;
use crate::rows::answered_over;
use crate::shapes::{
    AS_OPENED_STEPS, COUNT_STEPS, COUNTS, OUT_OF_IMAGE, OUT_STEPS, RAGGED_STEPS, RAGGED_SYMBOLS,
};
use crate::steps::DescriptorStep;
use elf_outside::{Files, RealFiles};
use std::{env, fs, process};
use test_kit_images::{NARROW_OBJECT, OBJECT, Recipe, image_of};
use test_kit_rows::{failed, failed_by, holds, in_row};

/// An image, and the steps that a descriptor over a file of it answers.
type Row = (Recipe, &'static [DescriptorStep]);

static ROWS: [Row; 6] = [
    (OBJECT, SYMBOL_STEPS),
    (NARROW_OBJECT, SYMBOL_STEPS),
    (COUNTS, COUNT_STEPS),
    (RAGGED_SYMBOLS, RAGGED_STEPS),
    (OUT_OF_IMAGE, OUT_STEPS),
    (OBJECT, AS_OPENED_STEPS),
];

/// A path in the system's folder for files that do not last.
fn path_of(rt: &HostRuntime) -> Option<String> {
    let Ok(folder) = env::temp_dir(rt) else {
        return None;
    };
    let id = process::id(rt.process());
    let folder = folder.to_str().unwrap_or("");
    format!(in rt.alloc(); "{folder}/descriptor_tests-{id}").ok()
}

/// Whether the steps are answered over the file of a name.
fn are_answered<F: Files>(
    rt: &HostRuntime,
    files: &mut F,
    path: &str,
    steps: &[DescriptorStep],
) -> bool {
    match files.open(rt.alloc(), path) {
        Ok(file) => {
            let (file, answered) = answered_over(rt, steps, file);
            files.close(path, file);
            answered
        }
        Err(e) => failed_by(rt, &e),
    }
}

/// Whether the steps of a row are answered over a file that holds the image, and goes afterwards.
fn is_row<F: Files>(rt: &HostRuntime, files: &mut F, path: &str, row: &Row) -> bool {
    match image_of(rt.alloc(), &row.0) {
        Ok(image) => {
            holds(
                rt,
                "the file is written",
                fs::write(rt, path, image.bytes.as_slice()).is_ok(),
            ) && are_answered(rt, files, path, row.1)
                && holds(rt, "the file is removed", fs::remove_file(rt, path).is_ok())
        }
        Err(e) => failed(rt, e),
    }
}

/// Whether the steps of each row are answered over its file.
fn are_rows<F: Files>(rt: &HostRuntime, files: &mut F, path: &str, rows: &[Row]) -> bool {
    for (n, row) in rows.iter().enumerate() {
        if !in_row(rt, n, is_row(rt, files, path, row)) {
            return false;
        }
    }
    true
}

/// Whether the steps of each row are answered, over the file of a path that is not there.
fn are_rows_of(rt: &HostRuntime, path: &str, rows: &[Row]) -> bool {
    match rt.clone() {
        Ok(system) => are_rows(rt, &mut RealFiles::new(rt.alloc(), system), path, rows),
        Err(e) => failed_by(rt, &e),
    }
}

/// Whether the steps of each row are answered in the system's folder for files that do not last.
fn files_are_answered(rt: &HostRuntime, rows: &[Row]) -> bool {
    match path_of(rt) {
        Some(path) => are_rows_of(rt, path.as_str(), rows),
        None => false,
    }
}

#[test]
fn descriptors_stand_over_files(rt: HostRuntime) {
    assert!(rt; files_are_answered(&rt, &ROWS));
}

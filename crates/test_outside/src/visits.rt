//! Files that are handed out by a set of files, used, and closed.

use crate::steps::{DeviceStep, device_answers_all};
use elf_outside::{Files, OpenFault};
use std::alloc::Global;
use test_kit_rows::{other, same};

/// A call that hands out a file.
#[derive(Clone, Copy)]
pub enum OpenMode {
    /// To read.
    Open,
    /// To read and write.
    Edit,
    /// Made empty.
    Create,
}

/// The steps that a file answers that is handed out, or why none is.
pub type Told = Result<&'static [DeviceStep], OpenFault>;

/// Asks for a file.
pub fn hand_out<F: Files>(
    alloc: Global,
    files: &mut F,
    way: OpenMode,
    name: &str,
) -> Result<F::File, OpenFault> {
    match way {
        OpenMode::Open => files.open(alloc, name),
        OpenMode::Edit => files.edit(alloc, name),
        OpenMode::Create => files.create(alloc, name),
    }
}

/// Whether a file answers the steps, before it is closed.
fn answers_and_closes<F: Files>(
    rt: &HostRuntime,
    files: &mut F,
    name: &str,
    mut file: F::File,
    steps: &[DeviceStep],
) -> bool {
    let stated = device_answers_all(rt, &mut file, steps);
    files.close(name, file);
    stated
}

/// Whether a file is handed out that answers these steps before it is closed, or none is for this
/// reason.
pub fn is_visited<F: Files>(
    rt: &HostRuntime,
    files: &mut F,
    way: OpenMode,
    name: &str,
    told: Result<&[DeviceStep], OpenFault>,
) -> bool
where
    F::File: Drop,
{
    match (hand_out(rt.alloc(), files, way, name), told) {
        (Ok(file), Ok(steps)) => answers_and_closes(rt, files, name, file, steps),
        (Err(fault), Err(wanted)) => same(rt, &fault, &wanted),
        (Ok(_file), Err(wanted)) => other(rt, &wanted, "that in place of a file"),
        (Err(fault), Ok(_)) => other(rt, &fault, "a file"),
    }
}

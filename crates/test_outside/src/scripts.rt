//! Scripts over files of the system: what is done with them, and what each call should return.

use crate::steps::{PutStep, puts_all};
use crate::visits::{OpenMode, Told, is_visited};
use elf_outside::{Attempt, Failure, Files, RealFiles, RealSink};
use std::fs::Permissions;
use std::io::ErrorKind;
use std::os::unix::fs::{MetadataExt, PermissionsExt, symlink};
use std::{env, fs, process};
use test_kit_rows::{failed_by, holds, in_step, same, same_bytes};

/// Where a file is.
#[derive(Clone, Copy)]
pub enum FileLocation {
    /// In the system's folder for files that do not last, under a name that no other process gives.
    Own(&'static str),
    /// At a path.
    At(&'static str),
}

/// What is done with a file, or asked of it.
#[derive(Clone, Copy)]
pub enum Act {
    /// It is handed out, used and closed, or not handed out.
    Visit(OpenMode, Told),
    /// No call has failed yet.
    Unsaid,
    /// The last call that failed was this attempt on it, and the system said so.
    Said(Attempt, ErrorKind),
    /// It is removed.
    Remove,
    /// A folder is made there.
    MakeFolder,
    /// The folder is removed.
    RemoveFolder,
    /// It gets another name in the folder for files that do not last.
    Link(&'static str),
    /// A link of that name, in this folder, leads to it, whether it is there or not.
    Symlink(&'static str),
    /// Some of its permissions, by a mask, are these.
    Mode(u32, u32),
    /// It gets permissions.
    SetMode(u32),
    /// It has a length and takes no blocks, or hardly any.
    Hole(u64),
    /// A stream is made of it, and takes these puts.
    Stream(&'static [PutStep]),
    /// It holds these bytes.
    Holds(&'static [u8]),
}

/// A file, and what is done with it.
pub type FileStep = (FileLocation, Act);

/// Steps that are taken while a file is open, those before, and those after it was closed.
pub struct OpenFileSteps {
    pub before: &'static [FileStep],
    pub open: FileLocation,
    pub during: &'static [FileStep],
    pub after: &'static [FileStep],
}

/// A path in the system's folder for files that do not last.
fn own_path(rt: &HostRuntime, name: &str) -> Option<String> {
    let Ok(folder) = env::temp_dir(rt) else {
        return None;
    };
    let id = process::id(rt.process());
    let folder = folder.to_str().unwrap_or("");
    format!(in rt.alloc(); "{folder}/outside_tests-{id}-{name}").ok()
}

/// The path of a file.
fn path_of(rt: &HostRuntime, place: FileLocation) -> Option<String> {
    match place {
        FileLocation::Own(name) => own_path(rt, name),
        FileLocation::At(path) => String::from_str(rt.alloc(), path).ok(),
    }
}

/// Whether a failure is of this name, attempt and kind.
fn is_said(
    rt: &HostRuntime,
    kept: Option<&Failure>,
    name: &str,
    attempt: Attempt,
    said: ErrorKind,
) -> bool {
    match kept {
        Some(f) => same(rt, &f.name.as_str(), &name)
            && same(rt, &f.attempt, &attempt)
            && same(rt, &f.why.kind(), &said),
        None => false,
    }
}

/// Whether a file gets another name.
fn is_linked(rt: &HostRuntime, path: &str, name: &str) -> bool {
    match own_path(rt, name) {
        Some(other) => fs::hard_link(rt, path, other.as_str()).is_ok(),
        None => false,
    }
}

/// Whether a link is made that leads to a file.
fn is_pointed_at(rt: &HostRuntime, path: &str, name: &str) -> bool {
    match own_path(rt, name) {
        Some(link) => symlink(rt, path, link.as_str()).is_ok(),
        None => false,
    }
}

/// Whether these permissions of a file are those.
fn has_mode(rt: &HostRuntime, path: &str, of: u32, mode: u32) -> bool {
    match fs::metadata(rt, path) {
        Ok(about) => same(rt, &(about.permissions().mode() & 0o777 & of), &mode),
        Err(e) => failed_by(rt, &e),
    }
}

/// Whether a file has a length and takes few blocks.
fn is_hole(rt: &HostRuntime, path: &str, len: u64) -> bool {
    match fs::metadata(rt, path) {
        Ok(about) => same(rt, &about.len(), &len)
            && holds(rt, "it takes few blocks", about.blocks() <= 8),
        Err(e) => failed_by(rt, &e),
    }
}

/// Whether the stream of a file takes these puts.
fn is_streamed(rt: &HostRuntime, path: &str, puts: &[PutStep]) -> bool {
    match fs::File::create(rt, path) {
        Ok(file) => puts_all(rt, &mut RealSink::new(file), puts),
        Err(e) => failed_by(rt, &e),
    }
}

/// Whether a file holds these bytes.
fn has_bytes(rt: &HostRuntime, path: &str, bytes: &[u8]) -> bool {
    match fs::read(rt, path) {
        Ok(held) => same_bytes(rt, held.as_slice(), bytes),
        Err(e) => failed_by(rt, &e),
    }
}

/// Whether an act is answered by the system as it should.
fn is_done_alone(rt: &HostRuntime, path: &str, act: Act) -> bool {
    match act {
        Act::Remove => fs::remove_file(rt, path).is_ok(),
        Act::MakeFolder => fs::create_dir(rt, path).is_ok(),
        Act::RemoveFolder => fs::remove_dir(rt, path).is_ok(),
        Act::Link(name) => is_linked(rt, path, name),
        Act::Symlink(name) => is_pointed_at(rt, path, name),
        Act::Mode(of, mode) => has_mode(rt, path, of, mode),
        Act::SetMode(mode) => fs::set_permissions(rt, path, Permissions::from_mode(mode)).is_ok(),
        Act::Hole(len) => is_hole(rt, path, len),
        Act::Stream(puts) => is_streamed(rt, path, puts),
        Act::Holds(bytes) => has_bytes(rt, path, bytes),
        _ => false,
    }
}

/// Whether an act is answered as it should, by the files of the system or by the system itself.
fn is_done(rt: &HostRuntime, files: &mut RealFiles<HostRuntime>, path: &str, act: Act) -> bool {
    match act {
        Act::Visit(way, told) => is_visited(rt, files, way, path, told),
        Act::Unsaid => holds(rt, "no call has failed", files.last_failure().is_none()),
        Act::Said(attempt, said) => is_said(rt, files.last_failure(), path, attempt, said),
        _ => is_done_alone(rt, path, act),
    }
}

/// Whether a step is answered so.
fn is_taken(rt: &HostRuntime, files: &mut RealFiles<HostRuntime>, step: FileStep) -> bool {
    match path_of(rt, step.0) {
        Some(path) => is_done(rt, files, path.as_str(), step.1),
        None => false,
    }
}

/// Whether each step is taken as it should be, one after another.
fn all_are_taken(rt: &HostRuntime, files: &mut RealFiles<HostRuntime>, steps: &[FileStep]) -> bool {
    for (n, step) in steps.iter().enumerate() {
        if !in_step(rt, n, is_taken(rt, files, *step)) {
            return false;
        }
    }
    true
}

/// Whether steps are answered so while the file of a path is open.
fn are_taken_beside(
    rt: &HostRuntime,
    files: &mut RealFiles<HostRuntime>,
    path: &str,
    steps: &[FileStep],
) -> bool {
    match files.open(rt.alloc(), path) {
        Ok(file) => {
            let taken = all_are_taken(rt, files, steps);
            files.close(path, file);
            taken
        }
        Err(e) => failed_by(rt, &e),
    }
}

/// Whether the steps are answered so before, while and after a file is open.
fn is_played(rt: &HostRuntime, files: &mut RealFiles<HostRuntime>, held: &OpenFileSteps) -> bool {
    if !all_are_taken(rt, files, held.before) {
        return false;
    }
    let during = match path_of(rt, held.open) {
        Some(path) => are_taken_beside(rt, files, path.as_str(), held.during),
        None => false,
    };
    during && all_are_taken(rt, files, held.after)
}

/// Whether the steps are answered so by the files of the system.
pub fn are_taken(rt: &HostRuntime, steps: &[FileStep]) -> bool {
    match rt.clone() {
        Ok(system) => all_are_taken(rt, &mut RealFiles::new(rt.alloc(), system), steps),
        Err(e) => failed_by(rt, &e),
    }
}

/// Whether the steps are taken so while a file is open.
pub fn are_taken_while(rt: &HostRuntime, held: &OpenFileSteps) -> bool {
    match rt.clone() {
        Ok(system) => is_played(rt, &mut RealFiles::new(rt.alloc(), system), held),
        Err(e) => failed_by(rt, &e),
    }
}

//! Files that a run finds, told as data.

use crate::{Failing, GivenFiles, NOTHING, RunAndFile, add_file, numbered, run_leaving};
use elf_outside::MemFiles;
use elf_types::{Addrs, ElfError, Octets};
use std::alloc::Global;
use test_kit_images::{BuiltImage, ClassAndOrder, Put, Recipe, image_in, image_of};

/// A part of a file.
#[derive(Drop)]
pub enum Portion {
    /// These bytes.
    Bytes(&'static [u8]),
    /// An image.
    Image(Recipe),
    /// A byte, so many times.
    Fill(u8, u64),
    /// These bytes, so many times.
    Times(&'static [u8], u64),
    /// No bytes more: the one at a place becomes this one.
    Byte(u64, u8),
    /// No bytes more: the file is cut to a length.
    Length(u64),
}

/// What a file holds.
#[derive(Drop)]
pub enum Stored {
    /// There is no such file.
    Nothing,
    /// These bytes.
    Bytes(&'static [u8]),
    /// An image.
    Image(Recipe),
    /// An image with something put into it.
    Changed(Recipe, Put),
    /// Portions, one after the other.
    Portions(&'static [Portion]),
    /// What a run leaves.
    Left(Earlier),
}

/// A run over an image, the file F, and a script for it, the file S, and a name that it leaves.
#[derive(Drop)]
pub struct Earlier {
    /// The arguments.
    pub line: &'static str,
    /// The image.
    pub file: Recipe,
    /// The script.
    pub script: &'static [u8],
    /// The name.
    pub name: &'static str,
}

/// A file that a run finds.
#[derive(Drop)]
pub struct FoundFile {
    /// Its name.
    pub name: &'static str,
    /// What it holds.
    pub stored: Stored,
}

/// The calls of one file that fail, by their numbers from 1; none where there is a 0.
#[derive(Clone, Copy)]
pub struct FileFaults {
    /// The name of the file.
    pub name: &'static str,
    /// The first of eight reads.
    pub reads: u64,
    /// One read.
    pub read: u64,
    /// One write.
    pub write: u64,
}

/// No call of a file fails.
pub const GOOD: FileFaults = FileFaults {
    name: "",
    reads: 0,
    read: 0,
    write: 0,
};

// ---- Bytes

/// Appends an image.
fn append_image(bytes: &mut Octets, alloc: Global, recipe: &Recipe) -> Result<(), ElfError> {
    match image_of(alloc, recipe) {
        Ok(image) => bytes.extend(image.bytes.as_slice()),
        Err(e) => Err(e),
    }
}

/// Appends a byte, so many times.
fn append_fill(bytes: &mut Octets, byte: u8, count: u64) -> Result<(), ElfError> {
    for _ in 0..count {
        bytes.push(byte)?;
    }
    Ok(())
}

/// Appends these bytes, so many times.
fn append_times(bytes: &mut Octets, part: &[u8], count: u64) -> Result<(), ElfError> {
    for _ in 0..count {
        bytes.extend(part)?;
    }
    Ok(())
}

/// Changes a byte, where there is one, or cuts the file.
fn change(bytes: &mut Octets, portion: &Portion) {
    match portion {
        Portion::Byte(at, byte) => {
            if let Some(there) = bytes.as_mut_slice().get_mut(*at as usize) {
                *there = *byte;
            }
        }
        Portion::Length(len) => bytes.truncate(*len),
        _ => {}
    }
}

/// Appends a portion, or changes what is there.
fn append(bytes: &mut Octets, alloc: Global, portion: &Portion) -> Result<(), ElfError> {
    match portion {
        Portion::Bytes(l) => bytes.extend(l),
        Portion::Image(recipe) => append_image(bytes, alloc, recipe),
        Portion::Fill(byte, count) => append_fill(bytes, *byte, *count),
        Portion::Times(part, count) => append_times(bytes, part, *count),
        Portion::Byte(..) | Portion::Length(_) => {
            change(bytes, portion);
            Ok(())
        }
    }
}

/// Appends portions.
fn append_all(bytes: &mut Octets, alloc: Global, portions: &[Portion]) -> Result<(), ElfError> {
    for portion in portions {
        append(bytes, alloc, portion)?;
    }
    Ok(())
}

/// Portions, one after the other.
fn joined(alloc: Global, portions: &[Portion]) -> Result<Octets, ElfError> {
    let mut bytes = Octets::new(alloc);
    match append_all(&mut bytes, alloc, portions) {
        Ok(()) => Ok(bytes),
        Err(e) => Err(e),
    }
}

/// The form of an image: the one that is asked for, where there is one.
fn form_of(form: &Option<ClassAndOrder>, recipe: &Recipe) -> ClassAndOrder {
    match form {
        Some(form) => *form,
        None => recipe.form,
    }
}

/// The bytes of an image.
fn image_bytes(made: Result<BuiltImage, ElfError>) -> Result<Octets, ElfError> {
    match made {
        Ok(image) => Ok(image.bytes),
        Err(e) => Err(e),
    }
}

/// The bytes of an image with something put into it.
fn changed_bytes(made: Result<BuiltImage, ElfError>, part: &Put) -> Result<Octets, ElfError> {
    match made {
        Ok(mut image) => match image.put(part) {
            Ok(()) => Ok(image.bytes),
            Err(e) => Err(e),
        },
        Err(e) => Err(e),
    }
}

impl GivenFiles for Earlier {
    fn add_to(&self, alloc: Global, files: &mut MemFiles) -> Result<(), ElfError> {
        add_file(alloc, files, "S", self.script)?;
        match image_of(alloc, &self.file) {
            Ok(image) => add_file(alloc, files, "F", image.bytes.as_slice()),
            Err(e) => Err(e),
        }
    }
}

/// What a run leaves under its name; no bytes where that is not there.
fn left_bytes(alloc: Global, earlier: &Earlier) -> Result<Octets, ElfError> {
    match run_leaving(alloc, earlier.line, earlier, NOTHING, earlier.name) {
        Ok(left) => {
            let RunAndFile { held, .. } = left;
            match held {
                Some(bytes) => Ok(bytes),
                None => Ok(Octets::new(alloc)),
            }
        }
        Err(e) => Err(e),
    }
}

/// What a file holds, its image in a form where one is asked for. It fails with `Memory`, and
/// `Unfit` for what does not fit the class.
pub(crate) fn bytes_in(
    alloc: Global,
    form: &Option<ClassAndOrder>,
    stored: &Stored,
) -> Result<Octets, ElfError> {
    match stored {
        Stored::Nothing => Ok(Octets::new(alloc)),
        Stored::Bytes(l) => Octets::from_slice(alloc, l),
        Stored::Image(recipe) => image_bytes(image_in(alloc, form_of(form, recipe), recipe)),
        Stored::Changed(recipe, part) => {
            changed_bytes(image_in(alloc, form_of(form, recipe), recipe), part)
        }
        Stored::Portions(portions) => joined(alloc, portions),
        Stored::Left(earlier) => left_bytes(alloc, earlier),
    }
}

/// What a file holds. It fails with `Memory`, and `Unfit` for what does not fit the class of its
/// image.
pub fn bytes_of(alloc: Global, stored: &Stored) -> Result<Octets, ElfError> {
    bytes_in(alloc, &None, stored)
}

// ---- Files

/// What a run finds: two files, the first in a form where one is asked for, the files beside them,
/// and the calls that fail, of one file and others.
#[derive(Drop)]
pub(crate) struct Setting<'a> {
    pub(crate) names: (&'a str, &'a str),
    pub(crate) file: &'a Stored,
    pub(crate) script: &'a Stored,
    pub(crate) beside: &'a [FoundFile],
    pub(crate) form: Option<ClassAndOrder>,
    pub(crate) bad: FileFaults,
    pub(crate) failing: Failing,
}

/// Whether there is a file.
pub(crate) fn is_there(stored: &Stored) -> bool {
    match stored {
        Stored::Nothing => false,
        _ => true,
    }
}

/// Eight numbers from one on.
fn put_eight(list: &mut Addrs, from: u64) -> Result<(), ElfError> {
    for n in 0..8u64 {
        list.push(from.saturating_add(n))?;
    }
    Ok(())
}

/// The numbers of the reads that fail.
fn bad_reads(alloc: Global, bad: &FileFaults) -> Result<Addrs, ElfError> {
    if bad.reads == 0 {
        return numbered(alloc, bad.read);
    }
    let mut list = Addrs::new(alloc);
    match put_eight(&mut list, bad.reads) {
        Ok(()) => Ok(list),
        Err(e) => Err(e),
    }
}

/// Adds a file of which these calls fail.
fn add_bad(
    alloc: Global,
    files: &mut MemFiles,
    name: &str,
    bytes: Octets,
    bad: &FileFaults,
) -> Result<(), ElfError> {
    let reads = match bad_reads(alloc, bad) {
        Ok(reads) => reads,
        Err(e) => return Err(e),
    };
    match numbered(alloc, bad.write) {
        Ok(writes) => files.add(name, bytes, reads, writes),
        Err(e) => Err(e),
    }
}

/// Adds a file, where there is one. Its calls fail that are told of its name.
fn add(
    alloc: Global,
    files: &mut MemFiles,
    name: &str,
    stored: &Stored,
    form: &Option<ClassAndOrder>,
    bad: &FileFaults,
) -> Result<(), ElfError> {
    if !is_there(stored) {
        return Ok(());
    }
    match bytes_in(alloc, form, stored) {
        Ok(bytes) => {
            if bad.name == name {
                add_bad(alloc, files, name, bytes, bad)
            } else {
                add_bad(alloc, files, name, bytes, &GOOD)
            }
        }
        Err(e) => Err(e),
    }
}

/// Adds the files beside the two.
fn add_beside(
    alloc: Global,
    files: &mut MemFiles,
    beside: &[FoundFile],
    bad: &FileFaults,
) -> Result<(), ElfError> {
    for found in beside {
        add(alloc, files, found.name, &found.stored, &None, bad)?;
    }
    Ok(())
}

impl GivenFiles for Setting<'_> {
    fn add_to(&self, alloc: Global, files: &mut MemFiles) -> Result<(), ElfError> {
        let (first, second) = self.names;
        add(alloc, files, first, self.file, &self.form, &self.bad)?;
        add(alloc, files, second, self.script, &None, &self.bad)?;
        add_beside(alloc, files, self.beside, &self.bad)
    }
}

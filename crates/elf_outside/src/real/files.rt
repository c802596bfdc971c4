//! The files of the system.

ghost use Rattle.std.specs.Prelude.{pos, ◌≡◌, ◌≤◌, ◌≤ℤ◌, false, None, IsErrOf, IfOk, OnOk, OnErr};
ghost use Rattle.std.specs.Fd.{file_raw_fd};
ghost use Rattle.std.specs.Option.{option_copied};
ghost use Rattle.elf_outside.specs.Counts.{Rose, next_count};
ghost use Rattle.elf_outside.specs.Known.{knows, IsNoted, KeepsKnown, KnowsNone};

use crate::file_sets::{Files, OpenFault};
use crate::real::RealFile;
use crate::real::failure::{Attempt, Failure};
use crate::real::open_files::{OpenFile, OpenFiles};
use crate::real::streams::open_apart;
use crate::real::system_file::SystemFile;
use elf_types::Octets;
use std::alloc::Global;
use std::fs::{File, OpenOptions};
use std::io::{Error, ErrorKind, Read};
use std::os::unix::fs::OpenOptionsExt;
use std::{io, rt};

/// The most bytes that are held of what has no length.
const MOST_HELD: u64 = 1 << 30;

/// Who may read and write a file that is made while none is open.
const NEW_MODE: u32 = 0o666;

/// The files of the system by their paths. They tell no bytes. What is opened to be read is read to
/// its end at once where it is no regular file or tells the length 0, as a pipe or a file of /proc
/// does; so to open a directory fails.
///
/// A regular file that was handed out before is not created again, under whatever name, open or
/// not: that would take the bytes from under those who read it, or undo what was made. `create`
/// then returns `Failed`, and the file is as it was. Such a file is known by its device and its
/// number there. Where somebody else removes one meanwhile, and a new file gets its number,
/// `create` rejects that one too, so nothing is lost by it.
///
/// A file that was not there gets the permissions of the file that was opened first of those that
/// are open, as the umask leaves them, so that what is made of a program can be run; one that was
/// there keeps its own.
///
/// None gets the descriptor of a standard stream: where the system gives it one, since the program
/// was started with a stream closed, the call that would hand it out returns `Failed`.
///
/// They keep what the system said of the last call that failed. Of the calls on a file they know
/// once it was closed.
#[derive(Drop)]
pub struct RealFiles<R> {
    system: R,
    handed_out: OpenFiles,
    read_faults: u64,
    write_faults: u64,
    taken: u64,
    given: u64,
    live: u64,
    last: Option<Failure>,
}

/// Why the system handed out no file.
#[derive(Drop)]
enum Refusal {
    /// No file has that name.
    NotThere,
    /// There is no memory for the file.
    Memory,
    /// The system failed.
    Failed(Failure),
}

impl<R: rt::Files<File = File>> RealFiles<R> {
    /// The files that the system has, with all counts 0.
    pub fn new(alloc: Global, system: R) -> RealFiles<R>
        ensures faults { (result.read_faults ≡ 0) × (result.write_faults ≡ 0) }
        ensures numbers { (result.taken ≡ 0) × (result.given ≡ 0) }
        ensures live { result.live ≡ 0 }
        ensures known { KnowsNone result.handed_out }
    {
        RealFiles {
            system,
            handed_out: OpenFiles::new(alloc),
            read_faults: 0,
            write_faults: 0,
            taken: 0,
            given: 0,
            live: 0,
            last: None,
        }
    }

    /// The last call that failed, or None where none has. It takes no memory.
    pub fn last_failure(&self) -> Option<&Failure>
        ensures { option_copied result ≡ self.now.last }
    {
        self.last.as_ref()
    }

    /// Hands out a file that was opened. An error means out of memory.
    fn count_in(&mut self, file: RealFile) -> Result<RealFile, OpenFault>
        ensures file { IfOk result (λ f. f ≡ file) }
        ensures refused { ¬ IsErrOf result OpenFault.Failed }
        ensures there { ¬ IsErrOf result OpenFault.NotThere }
        ensures faults { (self.new.read_faults ≡ self.old.read_faults)
            × (self.new.write_faults ≡ self.old.write_faults) }
        ensures numbers { (self.new.taken ≡ self.old.taken) × (self.new.given ≡ self.old.given) }
        ensures live { OnOk result (self.new.live ≡ next_count self.old.live) }
        ensures not_live { OnErr result (self.new.live ≡ self.old.live) }
        ensures noted { IfOk result (λ f. IsNoted self.new.handed_out f.inner.as_opened) }
        ensures known { KeepsKnown self.old.handed_out self.new.handed_out }
    {
        if self.handed_out.add(file.inner.as_opened).is_err() {
            return Err(OpenFault::Memory);
        }
        self.live = self.live.saturating_add(1);
        Ok(file)
    }

    /// Opens a file for reading, and for writing too where that is asked.
    fn hand_out(&mut self, alloc: Global, name: &str, writes: bool) -> Result<RealFile, OpenFault>
        ensures own_faults { IfOk result (λ f. (f.faults ≡ 0) × (f.inner.write_faults ≡ 0)) }
        ensures own_numbers { IfOk result (λ f. (f.taken ≡ 0) × (f.inner.given ≡ 0)) }
        ensures failed { IsErrOf result OpenFault.Failed →
            Rose self.old.read_faults self.new.read_faults }
        ensures read_faults { self.old.read_faults ≤ self.new.read_faults }
        ensures write_faults { self.new.write_faults ≡ self.old.write_faults }
        ensures numbers { (self.new.taken ≡ self.old.taken) × (self.new.given ≡ self.old.given) }
        ensures live { OnOk result (self.new.live ≡ next_count self.old.live) }
        ensures not_live { OnErr result (self.new.live ≡ self.old.live) }
        ensures noted { IfOk result (λ f. IsNoted self.new.handed_out f.inner.as_opened) }
        ensures known { KeepsKnown self.old.handed_out self.new.handed_out }
    {
        match open_file(alloc, &self.system, name, writes) {
            Ok(file) => self.count_in(file),
            Err(Refusal::NotThere) => Err(OpenFault::NotThere),
            Err(Refusal::Memory) => Err(OpenFault::Memory),
            Err(Refusal::Failed(failure)) => {
                self.last = Some(failure);
                self.read_faults = self.read_faults.saturating_add(1);
                Err(OpenFault::Failed)
            }
        }
    }
}

impl<R: rt::Files<File = File>> Files for RealFiles<R> {
    type File = RealFile;

    ghost tells = { λ _. false };

    ghost named = { λ _ _. None };

    ghost read_faults = { λ f. f.read_faults };

    ghost write_faults = { λ f. f.write_faults };

    ghost taken = { λ f. f.taken };

    ghost given = { λ f. f.given };

    ghost live = { λ f. f.live };

    fn open(&mut self, alloc: Global, name: &str) -> Result<RealFile, OpenFault> {
        self.hand_out(alloc, name, false)
    }

    fn edit(&mut self, alloc: Global, name: &str) -> Result<RealFile, OpenFault> {
        self.hand_out(alloc, name, true)
    }

    fn create(&mut self, alloc: Global, name: &str) -> Result<RealFile, OpenFault> {
        let mode = self.handed_out.first_mode().unwrap_or(NEW_MODE);
        match create_file(alloc, &self.system, &self.handed_out, name, mode) {
            Ok(file) => self.count_in(file),
            Err(Refusal::Failed(failure)) => {
                self.last = Some(failure);
                self.write_faults = self.write_faults.saturating_add(1);
                Err(OpenFault::Failed)
            }
            Err(_) => Err(OpenFault::Memory),
        }
    }

    fn close(&mut self, _name: &str, file: RealFile) {
        self.read_faults = self.read_faults.saturating_add(file.faults);
        self.write_faults = self.write_faults.saturating_add(file.inner.write_faults);
        self.taken = self.taken.saturating_add(file.taken);
        self.given = self.given.saturating_add(file.inner.given);
        self.live = self.live.saturating_sub(1);
        self.handed_out.remove(file.inner.as_opened.inode);
        if file.faults > 0 || file.inner.write_faults > 0 {
            self.last = Some(file.into_inner().into_failure());
        }
    }
}

/// Opens a file for reading, and for writing too where that is asked.
fn open_file<R: rt::Files<File = File>>(
    alloc: Global,
    system: &R,
    name: &str,
    writes: bool,
) -> Result<RealFile, Refusal>
    ensures faults { IfOk result (λ f. (f.faults ≡ 0) × (f.inner.write_faults ≡ 0)) }
    ensures numbers { IfOk result (λ f. (f.taken ≡ 0) × (f.inner.given ≡ 0)) }
{
    let Ok(kept) = String::from_str(alloc, name) else {
        return Err(Refusal::Memory);
    };
    let mut how = OpenOptions::new();
    how.read(true).write(writes);
    match open_apart(system, &how, name) {
        Ok(file) => take_in(alloc, kept, file, writes),
        Err(e) if e.kind() == ErrorKind::NotFound => Err(Refusal::NotThere),
        Err(e) => Err(refused(kept, Attempt::Open, e)),
    }
}

/// Makes a file of the name and the permissions, or cuts the one that is there to nothing, unless
/// it is a regular file that was handed out before.
fn create_file<R: rt::Files<File = File>>(
    alloc: Global,
    system: &R,
    handed_out: &OpenFiles,
    name: &str,
    mode: u32,
) -> Result<RealFile, Refusal>
    ensures faults { IfOk result (λ f. (f.faults ≡ 0) × (f.inner.write_faults ≡ 0)) }
    ensures numbers { IfOk result (λ f. (f.taken ≡ 0) × (f.inner.given ≡ 0)) }
    ensures empty { IfOk result (λ f. f.inner.len ≡ 0) }
    ensures anew { IfOk result (λ f. knows handed_out.now f.inner.as_opened.inode ≡ false) }
{
    let Ok(kept) = String::from_str(alloc, name) else {
        return Err(Refusal::Memory);
    };
    let mut how = OpenOptions::new();
    how.read(true).write(true).create(true).mode(mode);
    let file = match open_apart(system, &how, name) {
        Ok(file) => file,
        Err(e) => return Err(refused(kept, Attempt::Create, e)),
    };
    match cut_whole(&file, handed_out) {
        Ok(as_opened) => Ok(RealFile::new(alloc, SystemFile::new(kept, file, as_opened, None, 0))),
        Err(e) => Err(refused(kept, Attempt::Create, e)),
    }
}

/// Cuts a file that was opened to nothing, where it is a regular one, unless such a file was handed
/// out before.
fn cut_whole(file: &File, handed_out: &OpenFiles) -> io::Result<OpenFile>
    ensures anew { IfOk result (λ o. knows handed_out.now o.inode ≡ false) }
{
    let about = file.metadata()?;
    let as_opened = OpenFile::of(&about);
    if handed_out.knows(as_opened.inode) {
        let why = "it is a file that this run has read or made";
        return Err(Error::new(ErrorKind::InvalidInput, why));
    }
    if as_opened.is_regular && about.len() > 0 {
        file.set_len(0)?;
    }
    Ok(as_opened)
}

/// The refusal of a call that the system failed.
fn refused(name: String, attempt: Attempt, why: Error) -> Refusal {
    Refusal::Failed(Failure { name, attempt, why })
}

/// What was opened, with its length, or with its bytes where they must be held.
fn take_in(alloc: Global, name: String, file: File, writes: bool) -> Result<RealFile, Refusal>
    requires { pos 3 ≤ℤ file_raw_fd file }
    ensures faults { IfOk result (λ f. (f.faults ≡ 0) × (f.inner.write_faults ≡ 0)) }
    ensures numbers { IfOk result (λ f. (f.taken ≡ 0) × (f.inner.given ≡ 0)) }
{
    match length_of(alloc, &file, writes) {
        Ok((as_opened, held, len)) => Ok(RealFile::new(
            alloc,
            SystemFile::new(name, file, as_opened, held, len),
        )),
        Err(e) if e.kind() == ErrorKind::OutOfMemory => Err(Refusal::Memory),
        Err(e) => Err(refused(name, Attempt::Read, e)),
    }
}

/// The length of a file that was opened, after which one it is and its bytes where they must be
/// held.
fn length_of(
    alloc: Global,
    file: &File,
    writes: bool,
) -> io::Result<(OpenFile, Option<Octets>, u64)> {
    let about = file.metadata()?;
    let as_opened = OpenFile::of(&about);
    if writes || (about.is_file() && about.len() > 0) {
        return Ok((as_opened, None, about.len()));
    }
    let held = read_whole(alloc, file)?;
    let len = held.len();
    Ok((as_opened, Some(held), len))
}

/// The bytes of a file up to its end.
fn read_whole(alloc: Global, file: &File) -> io::Result<Octets> {
    let mut bytes = Vec::new(alloc);
    let mut start = file.take(MOST_HELD + 1);
    start.read_to_end(&mut bytes)?;
    if bytes.len() as u64 > MOST_HELD {
        return Err(Error::from(ErrorKind::FileTooLarge));
    }
    Ok(Octets::from_vec(bytes))
}

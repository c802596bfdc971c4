//! A file of the system, read and written without a buffer.

ghost use Rattle.std.specs.Prelude.{refl, pos, ◌≡◌, ◌+◌, ◌-◌, ◌<◌, ◌≤◌, ◌≤ℤ◌, ◌^◌, ◌∷◌, [], None, length};
ghost use Rattle.std.specs.Fd.{file_raw_fd};

use crate::devices::Device;
use crate::ranges::copy_range;
use crate::real::failure::{Attempt, Failure};
use crate::real::open_files::OpenFile;
use crate::real::transfers::{read_from, write_from, write_zeros_from};
use crate::sources::{Failed, Source};
use elf_types::Octets;
use std::fs::File;
use std::io::{Error, ErrorKind};

/// An open file of the system. It tells its length, as it was when the file was opened and as the
/// writes through it changed it since, and no bytes. A call fails where the file fails, or gives or
/// takes nothing before the whole range is done. Where its bytes were read as it was opened, the
/// reads are served from them. Its descriptor is that of no standard stream.
///
/// It keeps its name, and what the system said of the last call that failed.
#[derive(Drop)]
pub struct SystemFile {
    name: String,
    file: File,
    pub(super) as_opened: OpenFile,
    held: Option<Octets>,
    len: u64,
    faults: u64,
    pub(super) write_faults: u64,
    taken: u64,
    pub(super) given: u64,
    attempt: Attempt,
    why: Error,
    ghost addressable: { len < 2 ^ 64 },
    ghost apart: { pos 3 ≤ℤ file_raw_fd file },
}

impl SystemFile {
    /// An open file of that name and length, whose counts are 0, with its bytes where they are
    /// held.
    pub(super) fn new(
        name: String,
        file: File,
        as_opened: OpenFile,
        held: Option<Octets>,
        len: u64,
    ) -> SystemFile
        requires { pos 3 ≤ℤ file_raw_fd file }
        ensures len { result.len ≡ len }
        ensures as_opened { result.as_opened ≡ as_opened }
        ensures faults { (result.faults ≡ 0) × (result.write_faults ≡ 0) }
        ensures numbers { (result.taken ≡ 0) × (result.given ≡ 0) }
    {
        SystemFile {
            name,
            file,
            as_opened,
            held,
            len,
            faults: 0,
            write_faults: 0,
            taken: 0,
            given: 0,
            attempt: Attempt::Read,
            why: Error::from(ErrorKind::Other),
        }
    }

    /// The last call that failed. It is asked for where one has.
    pub(super) fn into_failure(self) -> Failure
        ensures { result ≡ record { name = self.name; attempt = self.attempt; why = self.why } }
    {
        Failure {
            name: self.name,
            attempt: self.attempt,
            why: self.why,
        }
    }
}

/// Reads from a place on until the buffer is full, from the bytes where they are held, and gives
/// the number of bytes read.
fn fill(held: &Option<Octets>, file: &File, at: u64, buf: &mut [u8], why: &mut Error) -> usize
    requires { at + length buf.old < 2 ^ 64 }
    ensures { result ≤ length buf.old }
{
    match held {
        Some(bytes) => copy_held(bytes.as_slice(), at, buf, why),
        None => read_from(file, at, buf, why),
    }
}

/// Fills a buffer with the bytes from a place on, where the range lies in them.
fn copy_held(bytes: &[u8], at: u64, buf: &mut [u8], why: &mut Error) -> usize
    ensures { result ≤ length buf.old }
{
    let len = bytes.len() as u64;
    if at > len || buf.len() as u64 > len - at {
        *why = Error::from(ErrorKind::UnexpectedEof);
        return 0;
    }
    copy_range(bytes, at as usize, buf);
    buf.len()
}

/// Writes a piece after the last byte of a file, and gives the number of bytes written.
fn extend(file: &File, len: u64, piece: &[u8], why: &mut Error) -> usize
    ensures bound { result ≤ length piece.now }
    ensures end { result ≤ 2 ^ 64 - 1 - len }
{
    if piece.len() as u64 > u64::MAX - len {
        *why = Error::from(ErrorKind::FileTooLarge);
        return 0;
    }
    write_from(file, len, piece, why)
}

/// Lengthens a file by `n` zero bytes, which take no blocks of a disk, and gives their number. What
/// has no length that can be set, as a device that is no disk, gets them written.
fn lengthen(file: &File, len: u64, n: u64, why: &mut Error) -> u64
    ensures bound { result ≤ n }
    ensures end { result ≤ 2 ^ 64 - 1 - len }
{
    let Some(longer) = len.checked_add(n) else {
        *why = Error::from(ErrorKind::FileTooLarge);
        return 0;
    };
    match file.set_len(longer) {
        Ok(()) => n,
        Err(e) if e.kind() == ErrorKind::InvalidInput => write_zeros_from(file, len, n, why),
        Err(e) => {
            *why = e;
            0
        }
    }
}

impl Source for SystemFile {
    ghost size = { λ f. f.len };

    ghost holds = { λ _. None };

    ghost rest = { λ f. (f.given ∷ f.write_faults ∷ []) ∷ [] };

    ghost faults = { λ f. f.faults };

    ghost taken = { λ f. f.taken };

    fn len(&self) -> u64 {
        self.len
    }

    fn read_at(&mut self, at: u64, buf: &mut [u8]) -> Result<(), Failed> {
        self.taken = self.taken.saturating_add(buf.len() as u64);
        if fill(&self.held, &self.file, at, buf, &mut self.why) < buf.len() {
            self.faults = self.faults.saturating_add(1);
            self.attempt = Attempt::Read;
            return Err(Failed);
        }
        Ok(())
    }

    ghost sized = { λ _. tt };
}

impl Device for SystemFile {
    ghost write_faults = { λ f. f.write_faults };

    ghost given = { λ f. f.given };

    ghost rest_after = { λ _. [] };

    fn write_at(&mut self, at: u64, buf: &[u8]) -> Result<(), Failed> {
        self.given = self.given.saturating_add(buf.len() as u64);
        if write_from(&self.file, at, buf, &mut self.why) < buf.len() {
            self.write_faults = self.write_faults.saturating_add(1);
            self.attempt = Attempt::Write;
            return Err(Failed);
        }
        Ok(())
    }

    fn set_len(&mut self, n: u64) -> Result<(), Failed> {
        if let Err(e) = self.file.set_len(n) {
            self.write_faults = self.write_faults.saturating_add(1);
            self.attempt = Attempt::Write;
            self.why = e;
            return Err(Failed);
        }
        self.len = n;
        Ok(())
    }

    fn append(&mut self, buf: &[u8]) -> Result<(), Failed> {
        self.given = self.given.saturating_add(buf.len() as u64);
        let done = extend(&self.file, self.len, buf, &mut self.why);
        self.len += done as u64;
        if done < buf.len() {
            self.write_faults = self.write_faults.saturating_add(1);
            self.attempt = Attempt::Write;
            return Err(Failed);
        }
        Ok(())
    }

    fn append_zeros(&mut self, n: u64) -> Result<(), Failed> {
        let done = lengthen(&self.file, self.len, n, &mut self.why);
        self.len += done;
        if done < n {
            self.write_faults = self.write_faults.saturating_add(1);
            self.attempt = Attempt::Write;
            return Err(Failed);
        }
        Ok(())
    }

    ghost rest_begins = { λ _. refl };
}

//! Files and streams that are interrupted, and give and take little at a time.

use elf_outside::real::transfers::{
    read_from, write_from, write_to, write_zeros_from, write_zeros_to,
};
use std::cell::Cell;
use std::io;
use std::io::{Error, ErrorKind, Write};
use std::os::unix::fs::FileExt;
use std::test::Fail;
use test_kit_rows::{same, same_bytes};

/// The bytes of a file.
const BYTES: &[u8] = b"abcdefg";

/// A file that is interrupted at every other call, gives two bytes at a time, and takes three.
#[derive(Drop)]
struct Drip {
    calls: Cell<u64>,
    sum: Cell<u64>,
}

fn new_drip() -> Drip {
    Drip {
        calls: Cell::new(0),
        sum: Cell::new(0),
    }
}

impl Drip {
    /// Counts a call, and rejects every other one as interrupted.
    fn goes_on(&self) -> io::Result<()> {
        self.calls.set(self.calls.get().wrapping_add(1));
        if self.calls.get() % 2 == 0 {
            Ok(())
        } else {
            Err(Error::from(ErrorKind::Interrupted))
        }
    }
}

impl FileExt for Drip {
    fn read_at(&self, buf: &mut [u8], offset: u64) -> io::Result<usize> {
        self.goes_on()?;
        let place = BYTES.len().min(offset as usize);
        let n = buf.len().min(2).min(BYTES.len() - place);
        buf[..n].copy_from_slice(&BYTES[place..place + n]);
        Ok(n)
    }

    fn write_at(&self, buf: &[u8], offset: u64) -> io::Result<usize> {
        self.goes_on()?;
        if offset >= 7 {
            return Ok(0);
        }
        let n = buf.len().min(3);
        for b in &buf[..n] {
            self.sum.set(self.sum.get().wrapping_add(u64::from(*b)));
        }
        Ok(n)
    }
}

/// A stream that is interrupted at every other call, takes two bytes at a time, and no more than
/// seven.
#[derive(Drop)]
struct Trickle {
    bytes: Vec<u8>,
    calls: u64,
}

impl Write for Trickle {
    fn write(&mut self, buf: &[u8]) -> io::Result<usize> {
        self.calls = self.calls.wrapping_add(1);
        if self.calls % 2 == 1 {
            return Err(Error::from(ErrorKind::Interrupted));
        }
        let room = 7usize.saturating_sub(self.bytes.len());
        let n = buf.len().min(2).min(room);
        self.bytes.extend_from_slice(&buf[..n])?;
        Ok(n)
    }

    fn flush(&mut self) -> io::Result<()> {
        Ok(())
    }
}

/// What the system said before a transfer.
fn unsaid() -> Error {
    Error::from(ErrorKind::Other)
}

/// Whether the bytes from a place on are read into five, or those that there are, and what is said
/// then.
fn is_read(rt: &HostRuntime, at: u8, wanted: &[u8], said: ErrorKind) -> bool {
    let mut buf = [0u8; 5];
    let mut why = unsaid();
    let n = read_from(&new_drip(), u64::from(at), &mut buf, &mut why);
    same(rt, &n, &wanted.len()) && buf.starts_with(wanted) && same(rt, &why.kind(), &said)
}

#[test]
fn a_file_with_short_reads_is_read_whole(rt: HostRuntime) {
    assert!(rt; is_read(&rt, 1, b"bcdef", ErrorKind::Other));
    assert!(rt; is_read(&rt, 4, b"efg", ErrorKind::UnexpectedEof));
    assert!(rt; is_read(&rt, 9, b"", ErrorKind::UnexpectedEof));
}

/// Whether so many bytes of a piece are written from a place on, and have that sum, and what is
/// said then.
fn is_written(
    rt: &HostRuntime,
    at: u8,
    piece: &[u8; 5],
    done: usize,
    sum: u64,
    said: ErrorKind,
) -> bool {
    let file = new_drip();
    let mut why = unsaid();
    let n = write_from(&file, u64::from(at), piece, &mut why);
    same(rt, &n, &done) && same(rt, &file.sum.get(), &sum) && same(rt, &why.kind(), &said)
}

#[test]
fn a_file_with_short_writes_is_written_whole(rt: HostRuntime) {
    assert!(rt; is_written(&rt, 0, &[1, 2, 4, 8, 16], 5, 31, ErrorKind::Other));
    assert!(rt; is_written(&rt, 6, &[1, 2, 4, 8, 16], 3, 7, ErrorKind::WriteZero));
}

/// Whether zeros are written from a place on, of which a file takes those from places below 7.
fn zeros_are_written(rt: &HostRuntime, at: u8, n: u16, done: u64) -> bool {
    same(
        rt,
        &write_zeros_from(&new_drip(), u64::from(at), u64::from(n), &mut unsaid()),
        &done,
    )
}

#[test]
fn zeros_are_written_as_far_as_the_file_takes_them(rt: HostRuntime) {
    assert!(rt; zeros_are_written(&rt, 1, 0, 0));
    assert!(rt; zeros_are_written(&rt, 1, 5, 5));
    assert!(rt; zeros_are_written(&rt, 1, 10000, 6));
}

/// Whether a stream takes three bytes, two zeros, and then the two bytes for which there is room.
fn is_filled(rt: &HostRuntime, stream: &mut Trickle) -> bool {
    let mut why = unsaid();
    let mut stated = same(rt, &write_to(stream, b"abc", &mut why), &3);
    stated &= same(rt, &write_zeros_to(stream, 2, &mut why), &2);
    stated &= same(rt, &why.kind(), &ErrorKind::Other);
    stated &= same(rt, &write_to(stream, b"fgh", &mut why), &2);
    stated &= same(rt, &write_zeros_to(stream, 5000, &mut why), &0);
    stated &= same(rt, &why.kind(), &ErrorKind::WriteZero);
    stated && same_bytes(rt, stream.bytes.as_slice(), b"abc\0\0fg".as_slice())
}

#[test]
fn a_stream_with_short_writes_is_written_whole(rt: HostRuntime) {
    let bytes = Vec::new(rt.alloc());
    assert!(rt; is_filled(&rt, &mut Trickle { bytes, calls: 0 }));
}

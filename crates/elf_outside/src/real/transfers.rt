//! Reads and writes of whole ranges, a part at a time, as the system takes them. A call that was
//! interrupted is tried again. Where one stops early, `why` holds what the system said.

ghost use Rattle.std.specs.Prelude.{◌+◌, ◌^◌, ◌<◌, ◌≤◌, length, take, replicate};
ghost use Rattle.std.specs.Io.KnownBytes.{Appends as BytesAppend};

use std::io::{Error, ErrorKind, Write};
use std::os::unix::fs::FileExt;

/// Reads from a place on until the buffer is full, and gives the number of bytes read. It stops
/// early where the file fails or gives nothing.
pub fn read_from<F: FileExt>(file: &F, at: u64, buf: &mut [u8], why: &mut Error) -> usize
    requires { at + length buf.old < 2 ^ 64 }
    ensures { result ≤ length buf.old }
{
    let mut done = 0;
    for _ in 0..u64::MAX {
        if done == buf.len() {
            break;
        }
        match file.read_at(&mut buf[done..], at + done as u64) {
            Ok(0) => {
                *why = Error::from(ErrorKind::UnexpectedEof);
                break;
            }
            Ok(n) => done += n,
            Err(e) if e.kind() == ErrorKind::Interrupted => {}
            Err(e) => {
                *why = e;
                break;
            }
        }
    }
    done
}

/// Writes a piece from a place on, and gives the number of bytes written. It stops early where the
/// file fails or takes nothing.
pub fn write_from<F: FileExt>(file: &F, at: u64, piece: &[u8], why: &mut Error) -> usize
    requires { at + length piece.now < 2 ^ 64 }
    ensures { result ≤ length piece.now }
{
    let mut done = 0;
    for _ in 0..u64::MAX {
        if done == piece.len() {
            break;
        }
        match file.write_at(&piece[done..], at + done as u64) {
            Ok(0) => {
                *why = Error::from(ErrorKind::WriteZero);
                break;
            }
            Ok(n) => done += n,
            Err(e) if e.kind() == ErrorKind::Interrupted => {}
            Err(e) => {
                *why = e;
                break;
            }
        }
    }
    done
}

/// Writes a piece to a stream, and gives the number of bytes written. It stops early where the
/// stream fails or takes nothing.
pub fn write_to<W: Write>(stream: &mut W, piece: &[u8], why: &mut Error) -> usize
    ensures bound { result ≤ length piece.now }
    ensures bytes { BytesAppend (W.contents stream.old) (W.contents stream.new)
        (take result piece.now) }
{
    let mut done = 0;
    for _ in 0..u64::MAX {
        if done == piece.len() {
            break;
        }
        match stream.write(&piece[done..]) {
            Ok(0) => {
                *why = Error::from(ErrorKind::WriteZero);
                break;
            }
            Ok(n) => done += n,
            Err(e) if e.kind() == ErrorKind::Interrupted => {}
            Err(e) => {
                *why = e;
                break;
            }
        }
    }
    done
}

/// The zero bytes that are written at a time.
const PAGE: usize = 4096;

/// Writes `n` zero bytes from a place on, and gives the number of bytes written. It stops early
/// where the file fails or takes nothing.
pub fn write_zeros_from<F: FileExt>(file: &F, at: u64, n: u64, why: &mut Error) -> u64
    requires { at + n < 2 ^ 64 }
    ensures { result ≤ n }
{
    write_pages_from::<F, PAGE>(file, at, n, why)
}

/// Writes `n` zero bytes from a place on, at most `N` at a time.
fn write_pages_from<F: FileExt, const N: usize>(file: &F, at: u64, n: u64, why: &mut Error) -> u64
    requires size { N ≤ 2 ^ 16 }
    requires range { at + n < 2 ^ 64 }
    ensures { result ≤ n }
{
    let page = [0u8; N];
    let mut done = 0;
    for _ in 0..u64::MAX {
        if done == n {
            break;
        }
        let size = (n - done).min(N as u64) as usize;
        let put = write_from(file, at + done, &page[..size], why);
        done += put as u64;
        if put < size {
            return done;
        }
    }
    done
}

/// Writes `n` zero bytes to a stream, and gives the number of bytes written. It stops early where
/// the stream fails or takes nothing.
pub fn write_zeros_to<W: Write>(stream: &mut W, n: u64, why: &mut Error) -> u64
    ensures bound { result ≤ n }
    ensures bytes { BytesAppend (W.contents stream.old) (W.contents stream.new)
        (take result (replicate n 0)) }
{
    write_pages_to::<W, PAGE>(stream, n, why)
}

/// Writes `n` zero bytes to a stream, at most `N` at a time.
fn write_pages_to<W: Write, const N: usize>(stream: &mut W, n: u64, why: &mut Error) -> u64
    requires { N ≤ 2 ^ 16 }
    ensures bound { result ≤ n }
    ensures bytes { BytesAppend (W.contents stream.old) (W.contents stream.new)
        (take result (replicate n 0)) }
{
    let page = [0u8; N];
    let mut done = 0;
    for _ in 0..u64::MAX {
        if done == n {
            break;
        }
        let size = (n - done).min(N as u64) as usize;
        let put = write_to(stream, &page[..size], why);
        done += put as u64;
        if put < size {
            return done;
        }
    }
    done
}

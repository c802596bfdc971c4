//! The descriptors of the standard streams, of which no file may get one.

ghost use Rattle.std.specs.Prelude.{pos, ◌≤ℤ◌, IfOk};
ghost use Rattle.std.specs.Fd.{file_raw_fd};

use std::fs::{File, OpenOptions};
use std::io::{Error, ErrorKind};
use std::os::fd::{AsRawFd, IntoRawFd};
use std::{io, rt};

/// The first descriptor that is of no standard stream.
const FIRST: i32 = 3;

/// Takes each descriptor of a standard stream that is free, for as long as the program runs: a
/// program calls it before it opens anything.
///
/// The system gives a file that is opened the first free descriptor. Where the program was started
/// with a stream closed, that would be the stream's, and what is written to the stream would go
/// into the file. Each is taken by `/dev/null`, opened for reading, so a write to a stream that was
/// closed fails still. Where that cannot be opened, [`RealFiles`](super::RealFiles) hands out no
/// file that gets such a descriptor.
pub fn take_streams<R: rt::Files<File = File>>(system: &R) -> io::Result<()> {
    for _ in 0..FIRST {
        let null = File::open(system, "/dev/null")?;
        if null.as_raw_fd() >= FIRST {
            return Ok(());
        }
        let _ = null.into_raw_fd();
    }
    Ok(())
}

/// Opens a file, and rejects one that gets the descriptor of a standard stream.
pub(super) fn open_apart<R: rt::Files<File = File>>(
    system: &R,
    how: &OpenOptions,
    name: &str,
) -> io::Result<File>
    ensures apart { IfOk result (λ f. pos 3 ≤ℤ file_raw_fd f) }
{
    let file = how.open(system, name)?;
    if file.as_raw_fd() < FIRST {
        let why = "it would get the place of a standard stream that is closed";
        return Err(Error::new(ErrorKind::Other, why));
    }
    Ok(file)
}

//! A sink over a stream of the system.

ghost use Rattle.std.specs.Prelude.{◌≡◌, ◌↔◌, ℕ, [], None, take, replicate, IfSome, OnOk, OnErr};
ghost use Rattle.std.specs.Io.KnownBytes.{Appends as BytesAppend};
ghost use Rattle.elf_outside.specs.Counts.{HasCause};

use crate::real::transfers::{write_to, write_zeros_to};
use crate::sinks::Sink;
use crate::sources::Failed;
use std::io::{Error, ErrorKind, Write};

/// A stream as a sink, with no buffer of its own. It tells no bytes. A put fails where the stream
/// fails, or takes nothing before it has the whole piece.
#[derive(Drop)]
pub struct RealSink<W> {
    stream: W,
    faults: u64,
    why: Error,
}

impl<W: Write> RealSink<W> {
    /// The stream as a sink, whose count of faults is 0. It takes no memory.
    pub fn new(stream: W) -> RealSink<W>
        ensures stream { result.stream ≡ stream }
        ensures faults { result.faults ≡ 0 }
    {
        RealSink {
            stream,
            faults: 0,
            why: Error::from(ErrorKind::Other),
        }
    }

    /// What the system said of the last put that failed, or None exactly where none has. It takes
    /// no memory.
    pub fn failure(&self) -> Option<Error>
        ensures none { result ≡ None ↔ self.now.faults ≡ 0 }
        ensures said { IfSome result (λ e. e ≡ self.now.why) }
    {
        if self.faults == 0 {
            return None;
        }
        Some(self.why)
    }
}

impl<W: Write> Sink for RealSink<W> {
    ghost wrote = { λ _. None };

    ghost faults = { λ s. s.faults };

    ghost rest = { λ _. [] };

    fn put(&mut self, buf: &[u8]) -> Result<(), Failed>
        ensures cause { HasCause self.old.faults self.new.faults result }

        // what a stream that holds its bytes has got
        ensures stream { OnOk result
            (BytesAppend (W.contents self.old.stream) (W.contents self.new.stream) buf.now) }
        ensures front { OnErr result ((n : ℕ) × BytesAppend (W.contents self.old.stream)
            (W.contents self.new.stream) (take n buf.now)) }
    {
        if write_to(&mut self.stream, buf, &mut self.why) < buf.len() {
            self.faults = self.faults.saturating_add(1);
            return Err(Failed);
        }
        Ok(())
    }

    fn put_zeros(&mut self, n: u64) -> Result<(), Failed>
        ensures cause { HasCause self.old.faults self.new.faults result }

        // what a stream that holds its bytes has got
        ensures stream { OnOk result
            (BytesAppend (W.contents self.old.stream) (W.contents self.new.stream)
            (replicate n 0)) }
        ensures front { OnErr result ((k : ℕ) × BytesAppend (W.contents self.old.stream)
            (W.contents self.new.stream) (take k (replicate n 0))) }
    {
        if write_zeros_to(&mut self.stream, n, &mut self.why) < n {
            self.faults = self.faults.saturating_add(1);
            return Err(Failed);
        }
        Ok(())
    }
}

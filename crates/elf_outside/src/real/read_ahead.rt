//! A source that serves small reads from a window.

ghost use Rattle.std.specs.Prelude.{◌≡◌, ◌+◌, ◌≤◌, IsTrue, vec_len, take, drop, length};
ghost use Rattle.std.specs.Option.{ForSome, IfSome};
ghost use Rattle.elf_outside.specs.Leaves.{LeavesBy};

use crate::devices::Device;
use crate::ranges::copy_range;
use crate::sources::{Failed, Source};
use std::alloc::Global;

/// The bytes that the first window holds.
const FIRST: u64 = 4096;
/// The most bytes that a window holds.
const WINDOW: u64 = 65536;
/// How far before what is asked for a window begins, at most.
const LOOKED_BACK: u64 = 16384;

/// An inner source with a window of its bytes, from which small reads are served. A read outside
/// the window moves it there, by one read of the inner source; one of as many bytes as the window
/// would hold goes straight to the inner source. A write drops the window.
///
/// In a walk over the source the window begins where the last read was, if that is near: what a
/// walk over an archive went past, as the bytes of a member before its section headers, it looks
/// back at, and they are not read twice.
///
/// It counts the bytes that its callers asked for and the reads of theirs that failed, and not the
/// reads of the window: where the window can't be filled, for lack of memory or since the inner
/// source failed, the range asked for is read alone.
#[derive(Drop)]
pub struct ReadAhead<S: Source> {
    pub(super) inner: S,
    start: u64,
    held: Vec<u8>,
    served: u64,
    pub(super) faults: u64,
    pub(super) taken: u64,
    ghost in_range: { start + vec_len held ≤ S.size inner },
    ghost as_inner: { ForSome (S.holds inner)
        (λ bytes. held.items ≡ take (vec_len held) (drop start bytes)) },
}

impl<S: Source> ReadAhead<S> {
    /// The inner source with an empty window, whose counts are 0. It takes no memory.
    pub fn new(alloc: Global, inner: S) -> ReadAhead<S>
        ensures inner { result.inner ≡ inner }
        ensures counts { (result.faults ≡ 0) × (result.taken ≡ 0) }
    {
        ReadAhead {
            inner,
            start: 0,
            held: Vec::new(alloc),
            served: 0,
            faults: 0,
            taken: 0,
        }
    }

    /// The inner source, without the window.
    pub fn into_inner(self) -> S
        ensures { result ≡ self.inner }
    {
        self.inner
    }

    /// Empties the window.
    fn forget(&mut self)
        ensures inner { self.new.inner ≡ self.old.inner }
        ensures counts { (self.new.faults ≡ self.old.faults) × (self.new.taken ≡ self.old.taken) }
        ensures window { (self.new.start ≡ 0) × (vec_len self.new.held ≡ 0) }
    {
        self.start = 0;
        self.held.clear();
    }

    /// Whether the window holds the range.
    fn has(&self, at: u64, n: usize) -> bool
        ensures { IsTrue result →
            (self.now.start ≤ at) × (at + n ≤ self.now.start + vec_len self.now.held) }
    {
        self.start <= at
            && at - self.start <= self.held.len() as u64
            && n <= self.held.len() - (at - self.start) as usize
    }

    /// The size of a window from a place on: small at first, twice that of the last window where it
    /// begins near that one's end, as in a walk over the source, and the same where it begins so
    /// near before it, as where such a walk looks back.
    fn next_size(&self, at: u64) -> u64 {
        let last = self.held.len() as u64;
        let doubled = last.saturating_mul(2);
        let size = if at < self.start && self.start - at <= last {
            last
        } else if at >= self.start && at - self.start <= doubled {
            doubled
        } else {
            FIRST
        };
        size.max(FIRST).min(WINDOW)
    }

    /// Where a window begins that is to hold the bytes at a place: there, or where the last read
    /// was that the window served, if it is as wide as it gets and that is near.
    fn next_start(&self, at: u64) -> u64
        ensures { result ≤ at }
    {
        let is_walk = self.held.len() as u64 == WINDOW;
        if is_walk && self.served <= at && at - self.served <= LOOKED_BACK {
            self.served
        } else {
            at
        }
    }

    /// Moves the window to a place, and says whether it holds the range from there on.
    fn refill(&mut self, at: u64, n: usize) -> bool
        requires { at + n ≤ S.size self.old.inner }
        ensures leaves { LeavesBy S.size S.holds S.rest self.old.inner self.new.inner }
        ensures counts { (self.new.faults ≡ self.old.faults) × (self.new.taken ≡ self.old.taken) }
        ensures here { IsTrue result →
            (self.new.start ≤ at) × (at + n ≤ self.new.start + vec_len self.new.held) }
    {
        let from = self.next_start(at);
        let size = self.next_size(from).min(self.inner.len() - from) as usize;
        let most = (at - from) as usize + n;
        if size <= most || self.held.resize(size, 0).is_err() {
            return false;
        }
        if self.inner.read_at(from, self.held.as_mut_slice()).is_err() {
            self.held.clear();
            return false;
        }
        self.start = from;
        true
    }

    /// Whether the window holds the range, once it was moved there where it must be.
    fn reach(&mut self, at: u64, n: usize) -> bool
        requires { at + n ≤ S.size self.old.inner }
        ensures leaves { LeavesBy S.size S.holds S.rest self.old.inner self.new.inner }
        ensures counts { (self.new.faults ≡ self.old.faults) × (self.new.taken ≡ self.old.taken) }
        ensures here { IsTrue result →
            (self.new.start ≤ at) × (at + n ≤ self.new.start + vec_len self.new.held) }
    {
        self.has(at, n) || self.refill(at, n)
    }

    /// Copies a range that the window holds.
    fn serve(&self, at: u64, buf: &mut [u8])
        requires from { self.now.start ≤ at }
        requires to { at + length buf.old ≤ self.now.start + vec_len self.now.held }
        ensures { IfSome (S.holds self.now.inner)
            (λ bytes. buf.new ≡ take (length buf.old) (drop at bytes)) }
    {
        copy_range(self.held.as_slice(), (at - self.start) as usize, buf);
    }
}

impl<S: Source> Source for ReadAhead<S> {
    ghost size = { λ r. S.size r.inner };

    ghost holds = { λ r. S.holds r.inner };

    ghost rest = { λ r. S.rest r.inner };

    ghost faults = { λ r. r.faults };

    ghost taken = { λ r. r.taken };

    fn len(&self) -> u64 {
        self.inner.len()
    }

    fn read_at(&mut self, at: u64, buf: &mut [u8]) -> Result<(), Failed> {
        self.taken = self.taken.saturating_add(buf.len() as u64);
        if self.reach(at, buf.len()) {
            self.serve(at, buf);
            self.served = at;
            return Ok(());
        }
        let outcome = self.inner.read_at(at, buf);
        if outcome.is_err() {
            self.faults = self.faults.saturating_add(1);
        }
        outcome
    }

    ghost sized = { λ r. S.sized r.inner };
}

impl<D: Device> Device for ReadAhead<D> {
    ghost write_faults = { λ r. D.write_faults r.inner };

    ghost given = { λ r. D.given r.inner };

    ghost rest_after = { λ r. D.rest_after r.inner };

    fn write_at(&mut self, at: u64, buf: &[u8]) -> Result<(), Failed> {
        self.forget();
        self.inner.write_at(at, buf)
    }

    fn set_len(&mut self, n: u64) -> Result<(), Failed> {
        self.forget();
        self.inner.set_len(n)
    }

    fn append(&mut self, buf: &[u8]) -> Result<(), Failed> {
        self.forget();
        self.inner.append(buf)
    }

    fn append_zeros(&mut self, n: u64) -> Result<(), Failed> {
        self.forget();
        self.inner.append_zeros(n)
    }

    ghost rest_begins = { λ r. D.rest_begins r.inner };
}

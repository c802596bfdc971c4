//! The auxiliary records of an entry of a version section, one after another.

ghost use Rattle.std.specs.Prelude.{◌≡◌, ◌+◌, ◌<◌, ◌^◌, ◌-◌};
ghost use Rattle.gelf_view.specs.Chains.{first_aux, next_aux, next_place};

use crate::versions::{Verdef, Verneed};

/// Where the next auxiliary record of an entry is looked for.
#[derive(Clone, Copy, Debug, PartialEq, Eq)]
pub struct AuxPlace {
    /// The place, in bytes from the first byte of the piece.
    pub at: u64,
    /// How many records of the entry are left.
    pub left: u16,
    /// The record before it said that it is the last one.
    pub last: bool,
}

impl AuxPlace {
    /// The place after the record there, which tells `next`.
    pub(crate) fn behind(self, next: u32) -> AuxPlace
        requires small { self.at < 2 ^ 63 }
        requires some { 0 < self.left }
        ensures { result ≡ next_aux self next }
    {
        AuxPlace {
            at: self.at + u64::from(next),
            left: self.left - 1,
            last: next == 0,
        }
    }
}

/// The place of an entry's first auxiliary record.
fn first_of(at: u64, aux: u32, cnt: u16) -> AuxPlace
    requires { at < 2 ^ 63 }
    ensures { result ≡ first_aux at aux cnt }
{
    AuxPlace {
        at: at + u64::from(aux),
        left: cnt,
        last: false,
    }
}

/// The place of the entry after one.
fn next_of(at: u64, next: u32) -> Option<u64>
    requires { at < 2 ^ 63 }
    ensures { result ≡ next_place at next }
{
    if next == 0 {
        return None;
    }
    Some(at + u64::from(next))
}

impl Verdef {
    /// Where the names of the definition are that was read at a place.
    pub fn first_aux(&self, at: u64) -> AuxPlace
        requires { at < 2 ^ 63 }
        ensures { result ≡ first_aux at self.now.aux self.now.cnt }
    {
        first_of(at, self.aux, self.cnt)
    }

    /// The place of the definition after the one that was read at a place, or None after the last.
    pub fn next_place(&self, at: u64) -> Option<u64>
        requires { at < 2 ^ 63 }
        ensures { result ≡ next_place at self.now.next }
    {
        next_of(at, self.next)
    }
}

impl Verneed {
    /// Where the versions of the needs are that were read at a place.
    pub fn first_aux(&self, at: u64) -> AuxPlace
        requires { at < 2 ^ 63 }
        ensures { result ≡ first_aux at self.now.aux self.now.cnt }
    {
        first_of(at, self.aux, self.cnt)
    }

    /// The place of the needs after those that were read at a place, or None after the last.
    pub fn next_place(&self, at: u64) -> Option<u64>
        requires { at < 2 ^ 63 }
        ensures { result ≡ next_place at self.now.next }
    {
        next_of(at, self.next)
    }
}

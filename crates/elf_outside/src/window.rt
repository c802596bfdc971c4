//! A range of a source, as a source.

ghost use Rattle.std.specs.Prelude.{◌≡◌, ◌+◌, ◌^◌, ◌<◌, ◌≤◌, All};
ghost use Rattle.std.specs.Option.{ForSome};
ghost use Rattle.elf_outside.specs.Windows.{range_of, window_rest, range_sized};

use crate::sources::{Failed, Source};

/// The range of a length from a place on in an inner source. Its counts are the inner one's.
#[derive(Drop)]
pub struct Window<S: Source> {
    inner: S,
    at: u64,
    len: u64,
    pub ghost in_range: { at + len ≤ S.size inner },
    pub ghost addressable: { at + len < 2 ^ 64 },
    pub ghost ranged: { ForSome (range_of at len (S.holds inner))
        (λ bytes. All (λ n. n < 2 ^ 8) bytes) },
}

impl<S: Source> Window<S> {
    /// The range of `len` bytes from the place `at` on, which lies in the inner source. It takes no
    /// memory.
    pub fn new(inner: S, at: u64, len: u64) -> Window<S>
        requires { at + len ≤ S.size inner }
        ensures inner { result.inner ≡ inner }
        ensures range { (result.at ≡ at) × (result.len ≡ len) }
    {
        let _inner_len = inner.len();
        Window { inner, at, len }
    }

    /// The inner source. It takes no memory.
    pub fn into_inner(self) -> S
        ensures { result ≡ self.inner }
    {
        self.inner
    }
}

impl<S: Source> Source for Window<S> {
    ghost size = { λ w. w.len };

    ghost holds = { λ w. range_of w.at w.len (S.holds w.inner) };

    ghost rest = { λ w. window_rest w.at (S.size w.inner) (S.holds w.inner) (S.rest w.inner) };

    ghost faults = { λ w. S.faults w.inner };

    ghost taken = { λ w. S.taken w.inner };

    fn len(&self) -> u64 {
        self.len
    }

    fn read_at(&mut self, at: u64, buf: &mut [u8]) -> Result<(), Failed> {
        self.inner.read_at(self.at + at, buf)
    }

    ghost sized = { λ w. range_sized
        (S.holds w.inner) w.at w.len (S.size w.inner) w.in_range (S.sized w.inner) };
}

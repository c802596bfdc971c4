//! Two sources, one after the other, as a source.

ghost use Rattle.std.specs.Prelude.{◌≡◌, ◌+◌, ◌^◌, ◌<◌};
ghost use Rattle.rebuild_join.specs.Pair.Pairs.{bytes_of_pair, rest_of_pair, pair_sized};

use crate::pair::reading::read_pair;
use elf_outside::{Failed, Source};

/// The bytes of one source, and after them those of another one. It tells its bytes where both do,
/// and its counts are the sums of theirs.
#[derive(Drop)]
pub struct SourcePair<S: Source, T: Source> {
    first: S,
    second: T,
    pub ghost addressable: { S.size first + T.size second < 2 ^ 64 },
}

impl<S: Source, T: Source> SourcePair<S, T> {
    /// The bytes of the first source and then those of the second, which are fewer than 2^64
    /// together. It takes no memory.
    pub fn new(first: S, second: T) -> SourcePair<S, T>
        requires { S.size first + T.size second < 2 ^ 64 }
        ensures first { result.first ≡ first }
        ensures second { result.second ≡ second }
    {
        SourcePair { first, second }
    }

    /// The two sources. It takes no memory.
    pub fn into_parts(self) -> (S, T)
        ensures first { result.0 ≡ self.first }
        ensures second { result.1 ≡ self.second }
    {
        (self.first, self.second)
    }
}

impl<S: Source, T: Source> Source for SourcePair<S, T> {
    ghost size = { λ p. S.size p.first + T.size p.second };

    ghost holds = { λ p. bytes_of_pair (S.holds p.first) (T.holds p.second) };

    ghost rest = { λ p. rest_of_pair (S.size p.first) (T.size p.second)
        (S.holds p.first) (T.holds p.second) (S.rest p.first) (T.rest p.second) };

    ghost faults = { λ p. S.faults p.first + T.faults p.second };

    ghost taken = { λ p. S.taken p.first + T.taken p.second };

    fn len(&self) -> u64 {
        let first = self.first.len();
        let second = self.second.len();
        first + second
    }

    fn read_at(&mut self, at: u64, buf: &mut [u8]) -> Result<(), Failed> {
        read_pair(&mut self.first, &mut self.second, at, buf)
    }

    ghost sized = { λ p. pair_sized (S.holds p.first) (T.holds p.second)
        (S.size p.first) (T.size p.second) (S.sized p.first) (T.sized p.second) };
}

//! The source of an object that was not read.

ghost use Rattle.std.specs.Prelude.{refl, [], Some};

use crate::sources::{Failed, Source};

/// A source with no bytes. Its counts are always 0.
#[derive(Clone, Copy, Debug, PartialEq, Eq)]
pub struct NoSource;

impl Source for NoSource {
    ghost size = { λ _. 0 };

    ghost holds = { λ _. Some [] };

    ghost rest = { λ _. [] };

    ghost faults = { λ _. 0 };

    ghost taken = { λ _. 0 };

    fn len(&self) -> u64 {
        0
    }

    fn read_at(&mut self, _at: u64, _buf: &mut [u8]) -> Result<(), Failed> {
        Ok(())
    }

    ghost sized = { λ _. refl };
}

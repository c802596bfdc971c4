//! What is translated.

ghost use Rattle.std.specs.Prelude.{◌≡◌, length, IfSome};

use elf_types::Octets;
use std::alloc::Global;

/// So many bytes without a pattern, the same in each run, or None where memory runs out.
pub fn made_bytes(alloc: Global, count: u64) -> Option<Octets>
    ensures { IfSome result (λ bytes. length bytes ≡ count) }
{
    let mut bytes = Octets::with_capacity(alloc, count).ok()?;
    let mut state: u64 = 1;
    for _ in 0..count {
        state = state
            .wrapping_mul(6_364_136_223_846_793_005)
            .wrapping_add(1_442_695_040_888_963_407);
        bytes.push((state >> 56) as u8).ok()?;
    }
    Some(bytes)
}

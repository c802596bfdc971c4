//! Lengths that pass 64 bits.

ghost use Rattle.elf_layout.specs.Capping.{CappingLaw};

/// Lengths with no bound may be told to [`crate::place`] as 2^64 - 1 where they pass it: where the
/// first part is the ELF header, which is at 0, it fails in the same way, and it places the same.
/// Where nothing is rejected no length of which the image holds bytes passed.
pub fn capping_law()
    ensures { CappingLaw }
{}

//! What is rejected by counts, and of the names.

ghost use Rattle.std.specs.Prelude.{◌≡◌};
ghost use Rattle.elf_types.specs.Answers.{answered};
ghost use Rattle.law_rebuild.specs.elf_object.Calls.{newphdr_refusal};
ghost use Rattle.rebuild_plan.specs.Checks.{index_beyond, ChecksLast};

use elf_types::ElfError;
use elf_types::constants::PN_XNUM;
use rebuild_tables::prelude::{Names, check_names};

/// Rejects so many program headers that `e_phnum` does not hold their number, as `newphdr` does:
/// `TooMany`.
///
/// Source: gelf_newphdr of gelf(3E).
pub fn check_segments(n: u32) -> Result<(), ElfError>
    ensures answer { result ≡ answered (newphdr_refusal n) tt }
{
    if n >= PN_XNUM {
        return Err(ElfError::TooMany);
    }
    Ok(())
}

/// Rejects a string index that is neither 0 nor below the number of sections, as `update_ehdr`
/// does: `NoSection`.
///
/// Source: gelf_update_ehdr of gelf(3E).
pub fn check_index(s: u32, count: u32) -> Result<(), ElfError>
    ensures answer { result ≡ answered (index_beyond s count) tt }
{
    if s != 0 && s >= count {
        return Err(ElfError::NoSection { index: s, count });
    }
    Ok(())
}

/// Rejects a string index that is neither 0 nor below the number of sections, as `update_ehdr`
/// does: `NoSection`; and then names whose table would be too large: `TooLarge`.
///
/// Source: gelf_update_ehdr of gelf(3E).
pub(crate) fn check_last(names: &Names, s: u32, count: u32) -> Result<(), ElfError>
    ensures { ChecksLast names.now s count result }
{
    if let Err(e) = check_index(s, count) {
        return Err(e);
    }
    check_names(names)
}

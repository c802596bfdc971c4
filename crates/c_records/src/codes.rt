//! The numbers of refusals.

ghost use Rattle.std.specs.Prelude.{◌≡◌};
ghost use Rattle.c_records.specs.Codes.{code};

use elf_types::ElfError;

/// The number by which C is told a refusal, from 1 on in the order in which `ElfError` has them; 0
/// stands for none.
#[tactic(auto, unfolding(crate::specs::Codes::code))]
pub fn code_of(e: ElfError) -> u32
    ensures { result ≡ code e }
{
    match e {
        ElfError::Memory => 1,
        ElfError::Read => 2,
        ElfError::Write => 3,
        ElfError::Short => 4,
        ElfError::Magic => 5,
        ElfError::Class => 6,
        ElfError::Order => 7,
        ElfError::Version => 8,
        ElfError::PhTable => 9,
        ElfError::ShTable => 10,
        ElfError::NoSection { .. } => 11,
        ElfError::NoData { .. } => 12,
        ElfError::NoEntry { .. } => 13,
        ElfError::WrongKind { .. } => 14,
        ElfError::OutOfFile { .. } => 15,
        ElfError::Ragged { .. } => 16,
        ElfError::Unfit { .. } => 17,
        ElfError::Overlap { .. } => 18,
        ElfError::TooLarge => 19,
        ElfError::TooMany => 20,
        ElfError::FlagKept => 21,
        ElfError::NotStrings { .. } => 22,
        ElfError::NoString { .. } => 23,
        ElfError::Unended { .. } => 24,
        ElfError::BadMember { .. } => 25,
        ElfError::BadChain { .. } => 26,
        ElfError::Reserved => 27,
        ElfError::BadAlign { .. } => 28,
        ElfError::Unsorted { .. } => 29,
    }
}

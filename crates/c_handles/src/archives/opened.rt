//! An archive over lent bytes.

use crate::lent::LentImage;
use ar_members::{Ar, ArSyms};
use elf_types::Octets;

/// An archive that is open over lent bytes, and what it keeps for C.
#[derive(Drop)]
pub struct OpenArchive {
    /// The archive, and the walk over its members.
    pub ar: Ar<LentImage>,
    /// The name of the member that the last step of the walk gave.
    pub name: Octets,
    /// The symbols, once they were asked for.
    pub symbols: ArSyms,
}

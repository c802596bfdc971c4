//! An object over lent bytes.

ghost use Rattle.std.specs.Prelude.{◌≡◌, true};

use crate::lent::LentImage;
use elf_descriptor::Elf;

/// An object that is open over lent bytes, which it tells.
#[derive(Drop)]
pub struct OpenObject {
    /// The descriptor.
    pub elf: Elf<LentImage>,
    /// Its source tells its bytes.
    pub ghost told: { elf.told ≡ true },
}

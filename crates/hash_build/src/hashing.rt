//! The hashes of names.

ghost use Rattle.std.specs.Prelude.{◌≡◌, Some};
ghost use Rattle.std.specs.Option.{option_map};
ghost use Rattle.symbol_lookup.specs.hash_model.Listed.{not_empty};
ghost use Rattle.hash_build.specs.Hashed.{hash_with};

use symbol_lookup::prelude::{elf_hash, gnu_hash};

/// How a name is hashed.
#[derive(Clone, Copy)]
pub enum Hashing {
    /// As in a section of type `SHT_HASH`.
    Sysv,
    /// As in GNU's hash section.
    Gnu,
}

/// The hash of a name.
fn hash_name(by: Hashing, name: &[u8]) -> u32
    ensures { result ≡ hash_with by name.now }
{
    match by {
        Hashing::Sysv => elf_hash(name),
        Hashing::Gnu => gnu_hash(name),
    }
}

/// The hash of a name that is not empty.
pub fn hash_unless_empty(by: Hashing, name: &[u8]) -> Option<u32>
    ensures { result ≡ option_map (hash_with by) (not_empty (Some name.now)) }
{
    if name.is_empty() {
        None
    } else {
        Some(hash_name(by, name))
    }
}

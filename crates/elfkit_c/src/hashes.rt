//! Hashes of names.

ghost use Rattle.std.specs.Prelude.{◌≡◌};
ghost use Rattle.hash_model.specs.Hashes as hashes;

/// The hash of a name in a section of type `SHT_HASH`. It rejects nothing and takes no memory.
///
/// Source: gABI chapter 5, "Hash Table"; elf_hash of elf(3E).
#[unsafe(no_mangle)]
pub extern "C" fn elfkit_hash(name: &[u8]) -> u32
    ensures { result ≡ hashes.elf_hash name.now }
{
    symbol_hashes::elf_hash(name)
}

/// The hash of a name in GNU's hash section. It rejects nothing and takes no memory.
///
/// Source: GNU's hash section, which is no part of the gABI; elf_gnu_hash of libelf.
#[unsafe(no_mangle)]
pub extern "C" fn elfkit_gnu_hash(name: &[u8]) -> u32
    ensures { result ≡ hashes.gnu_hash name.now }
{
    symbol_hashes::gnu_hash(name)
}

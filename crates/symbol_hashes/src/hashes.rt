//! The hash of a name in the two kinds of hash sections.

ghost use Rattle.std.specs.Prelude.{◌≡◌, ◌+◌, ◌*◌, ◌%◌, ◌^◌};
ghost use Rattle.hash_model.specs.Hashes as hashes;

/// The hash with one more byte: shifted by four bits, and the byte; its top four bits go into the
/// bits 4 to 7, and are cleared.
#[tactic(auto, unfolding(hash_model::specs::Hashes::elf_hash_step))]
fn elf_hash_step(h: u32, byte: u8) -> u32
    ensures { result ≡ hashes.elf_hash_step h byte }
{
    let moved = ((16 * u64::from(h) + u64::from(byte)) % 0x1_0000_0000) as u32;
    (moved ^ (moved / 0x1000_0000 * 16)) % 0x1000_0000
}

/// The hash of a name in a section of type `SHT_HASH`. It takes no memory.
///
/// Source: gABI chapter 5, "Hash Table"; elf_hash of elf(3E).
#[tactic(auto, using(crate::proofs::HashLemmas::elf_rules))]
pub fn elf_hash(name: &[u8]) -> u32
    ensures { result ≡ hashes.elf_hash name.now }
{
    let mut h = 0;
    for byte in name {
        h = elf_hash_step(h, *byte);
    }
    h
}

/// The hash with one more byte: 33 times as much, and the byte, in 32 bits.
fn gnu_hash_step(h: u32, byte: u8) -> u32
    ensures { result ≡ (33 * h + byte) % 2 ^ 32 }
{
    ((33 * u64::from(h) + u64::from(byte)) % 0x1_0000_0000) as u32
}

/// The hash of a name in GNU's hash section. It takes no memory.
///
/// Source: GNU's hash section, which is no part of the gABI.
#[tactic(auto, using(crate::proofs::HashLemmas::gnu_rules))]
pub fn gnu_hash(name: &[u8]) -> u32
    ensures { result ≡ hashes.gnu_hash name.now }
{
    let mut h = 5381;
    for byte in name {
        h = gnu_hash_step(h, *byte);
    }
    h
}

//! Reads of a source whose failure is an error of the library.

ghost use Rattle.std.specs.Prelude.{◌≡◌, ◌⊎◌, ◌+◌, ◌<◌, ◌≤◌, length, take, drop, IfSome, IfOk, OnOk, IfErr};
ghost use Rattle.elf_outside.specs.Asks.{Asks};

use crate::sources::{Failed, Source};
use elf_types::{ElfError, Octets};
use std::alloc::Global;

/// Fills `buf` with the bytes from the place `at` on. It fails with `Read` alone and takes no
/// memory.
pub fn read<S: Source>(src: &mut S, at: u64, buf: &mut [u8]) -> Result<(), ElfError>
    requires { at + length buf.old ≤ S.size src.old }
    ensures bytes { OnOk result
        (IfSome (S.holds src.old) (λ image. buf.new ≡ take (length buf.old) (drop at image))) }
    ensures asks { Asks S.Source result src.old src.new (length buf.old) }
    ensures err { IfErr result (λ e. e ≡ ElfError.Read) }
{
    match src.read_at(at, buf) {
        Ok(()) => Ok(()),
        Err(Failed) => Err(ElfError::Read),
    }
}

/// The `len` bytes from the place `at` on. An empty range reads nothing, wherever it is. It fails
/// with `Memory`, before it reads, and `Read`.
pub fn read_range<S: Source>(
    alloc: Global,
    src: &mut S,
    at: u64,
    len: u64,
) -> Result<Octets, ElfError>
    requires { 0 < len → at + len ≤ S.size src.old }
    ensures bytes { IfOk result (λ octets.
        IfSome (S.holds src.old) (λ image. octets ≡ take len (drop at image))) }
    ensures len { IfOk result (λ octets. length octets ≡ len) }
    ensures asks { Asks S.Source result src.old src.new len }
    ensures err { IfErr result (λ e. (e ≡ ElfError.Memory) ⊎ (e ≡ ElfError.Read)) }
{
    if len == 0 {
        return Ok(Octets::new(alloc));
    }
    let mut bytes = vec![in alloc; 0u8; len as usize]?;
    read(src, at, bytes.as_mut_slice())?;
    Ok(Octets::from_vec(bytes))
}

/// The `N` bytes from the place `at` on. It fails with `Read` alone and takes no memory.
pub fn read_array<S: Source, const N: usize>(src: &mut S, at: u64) -> Result<[u8; N], ElfError>
    requires { at + N ≤ S.size src.old }
    ensures bytes { IfOk result (λ array.
        IfSome (S.holds src.old) (λ image. array ≡ take N (drop at image))) }
    ensures asks { Asks S.Source result src.old src.new N }
    ensures err { IfErr result (λ e. e ≡ ElfError.Read) }
{
    let mut array = [0u8; N];
    read(src, at, &mut array)?;
    Ok(array)
}

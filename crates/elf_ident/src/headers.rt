//! The identification and the header of an image.

ghost use Rattle.std.specs.Prelude.{◌≡◌, ℕ, ◌+◌, ◌-◌, ◌^◌, ◌<◌, ◌≤◌, All, length, OnOk, IfOk, IfErr, IfSome, Err};
ghost use Rattle.elf_types.specs.declared.records.Class.TheVariants.{C64};
ghost use Rattle.elf_types.specs.declared.constants.TheConstants.{EI_NIDENT, EI_PAD};
ghost use Rattle.elf_types.specs.Answers.{Follows, IsRefusal};
ghost use Rattle.elf_outside.specs.Asks.{Asks};
ghost use Rattle.elf_xlate.specs.Headers.{ehdr_size};
ghost use Rattle.elf_ident.specs.Reading.{HasStart, HasRest, IsStored, IsHeaderRefusal};
ghost use Rattle.elf_ident.specs.Front.{class_named, order_named, ident_in, pad_in, header_in, header_bytes};

use elf_outside::Source;
use elf_outside::reads::read;
use elf_types::constants::{
    EI_CLASS, EI_DATA, EI_NIDENT, EI_PAD, EI_VERSION, ELFCLASS32, ELFCLASS64, ELFDATA2LSB,
    ELFDATA2MSB, ELFMAG, EV_CURRENT,
};
use elf_types::{Class, Ehdr, ElfError, Order};
use elf_xlate::{ehdr_size, get_ehdr};

/// The bytes of the longest header, that of class 64.
const MAX_EHDR_SIZE: usize = 64;

/// The class that `e_ident[EI_CLASS]` names.
fn class_named(code: u8) -> Option<Class>
    ensures { result ≡ class_named code }
{
    match code {
        ELFCLASS32 => Some(Class::C32),
        ELFCLASS64 => Some(Class::C64),
        _ => None,
    }
}

/// The order that `e_ident[EI_DATA]` names.
fn order_named(code: u8) -> Option<Order>
    ensures { result ≡ order_named code }
{
    match code {
        ELFDATA2LSB => Some(Order::Least),
        ELFDATA2MSB => Some(Order::Greatest),
        _ => None,
    }
}

/// The class and the order that an identification names, or the first of `Magic`, `Class`, `Order`
/// and `Version` that it is rejected by.
#[tactic(auto, unfolding(crate::specs::Front::ident_in, crate::specs::Front::no_ident))]
fn ident(bytes: &[u8]) -> Result<(Class, Order), ElfError>
    requires { length bytes.now ≡ EI_NIDENT }
    ensures ident { result ≡ ident_in bytes.now }
    ensures err { IfErr result IsRefusal }
    ensures named { (len : ℕ) → IfErr result (IsHeaderRefusal len) }
{
    if !bytes.starts_with(&ELFMAG) {
        return Err(ElfError::Magic);
    }
    let Some(class) = class_named(bytes[EI_CLASS]) else {
        return Err(ElfError::Class);
    };
    let Some(order) = order_named(bytes[EI_DATA]) else {
        return Err(ElfError::Order);
    };
    if u32::from(bytes[EI_VERSION]) != EV_CURRENT {
        return Err(ElfError::Version);
    }
    Ok((class, order))
}

/// Reads the identification into `start`. It fails with, in this order, `Short` (fewer than 16
/// bytes), `Read`, `Magic`, `Class`, `Order`, `Version`.
fn read_ident<S: Source>(src: &mut S, start: &mut [u8]) -> Result<(Class, Order), ElfError>
    requires { length start.old ≡ EI_NIDENT }
    ensures ident { IfSome (S.holds src.old) (λ image. Follows result (ident_in image)) }
    ensures start { OnOk result (IfSome (S.holds src.old) (λ image. HasStart image start.new)) }
    ensures long { OnOk result (EI_NIDENT ≤ S.size src.old) }
    ensures asks { Asks S.Source result src.old src.new EI_NIDENT }
    ensures err { IfErr result (IsHeaderRefusal (S.size src.old)) }
    ensures short { S.size src.old < EI_NIDENT → result ≡ Err ElfError.Short }
{
    if src.len() < EI_NIDENT as u64 {
        return Err(ElfError::Short);
    }
    read(src, 0, start)?;
    ident(start)
}

/// Reads the bytes of the header after the identification into the start of `rest`. It fails with
/// `Short` (fewer bytes than the class's header), then `Read`.
fn read_rest<S: Source>(src: &mut S, class: Class, rest: &mut [u8]) -> Result<(), ElfError>
    requires len { length rest.old ≡ ehdr_size C64 - EI_NIDENT }
    requires long { EI_NIDENT ≤ S.size src.old }
    ensures rest { IfSome (S.holds src.old) (λ image. HasRest image class result rest.new) }
    ensures asks { Asks S.Source result src.old src.new (ehdr_size class - EI_NIDENT) }
    ensures err { IfErr result (IsHeaderRefusal (S.size src.old)) }
{
    let size = ehdr_size(class);
    if src.len() < size as u64 {
        return Err(ElfError::Short);
    }
    read(src, EI_NIDENT as u64, &mut rest[..size - EI_NIDENT])
}

/// Bytes 9 to 15 of an identification.
fn pad_of(bytes: &[u8]) -> [u8; 7]
    requires { EI_NIDENT ≤ length bytes.now }
    ensures pad { result ≡ pad_in bytes.now }
    ensures bytes { All (λ n. n < 2 ^ 8) result }
{
    let mut pad = [0u8; EI_NIDENT - EI_PAD];
    pad.copy_from_slice(&bytes[EI_PAD..EI_NIDENT]);
    pad
}

/// The header of an image as it is there, and bytes 9 to 15 of its identification. It fails with,
/// in this order, `Short` (fewer than 16 bytes), `Magic`, `Class`, `Order`, `Version` (of the
/// identification), `Short` (fewer bytes than the class's header), and `Read` at either of its two
/// reads, that of 16 bytes and that of the rest. It reads at most one header, and takes no memory.
///
/// Source: gABI chapter 4, "ELF Header" and "ELF Identification".
pub fn read_header<S: Source>(src: &mut S) -> Result<(Ehdr, [u8; 7]), ElfError>
    ensures header { IfSome (S.holds src.old) (λ image. Follows result (header_in image)) }
    ensures stored { IfOk result (λ h. IsStored h.0 h.1) }
    ensures asks { Asks S.Source result src.old src.new (ehdr_size C64) }
    ensures err { IfErr result (IsHeaderRefusal (S.size src.old)) }
    ensures short { S.size src.old < EI_NIDENT → result ≡ Err ElfError.Short }
    ensures bound { IfSome (S.holds src.old) (λ image.
        S.taken src.new ≤ S.taken src.old + header_bytes image) }
{
    let mut bytes = [0u8; MAX_EHDR_SIZE];
    read_header_by(src, &mut bytes)
}

/// Reads the header as `read_header` does, into a buffer.
fn read_header_by<S: Source>(src: &mut S, bytes: &mut [u8]) -> Result<(Ehdr, [u8; 7]), ElfError>
    requires { length bytes.old ≡ ehdr_size C64 }
    ensures header { IfSome (S.holds src.old) (λ image. Follows result (header_in image)) }
    ensures stored { IfOk result (λ h. IsStored h.0 h.1) }
    ensures asks { Asks S.Source result src.old src.new (ehdr_size C64) }
    ensures err { IfErr result (IsHeaderRefusal (S.size src.old)) }
    ensures short { S.size src.old < EI_NIDENT → result ≡ Err ElfError.Short }
    ensures bound { IfSome (S.holds src.old) (λ image.
        S.taken src.new ≤ S.taken src.old + header_bytes image) }
{
    let (start, others) = bytes.split_at_mut(EI_NIDENT);
    let (class, order) = read_ident(src, start)?;
    read_rest(src, class, others)?;
    let header = get_ehdr(class, order, &bytes[..ehdr_size(class)]);
    Ok((header, pad_of(bytes)))
}

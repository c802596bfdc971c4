//! The numbers of a member's header.

ghost use Rattle.std.specs.Prelude.{◌≡◌, ◌^◌, ◌<◌, ◌≤◌, length, IfSome, IfOk, IfErr};
ghost use Rattle.std.specs.List.{list_all};
ghost use Rattle.ar_members.specs.Numbers.{is_digit, is_space, number_of, field_of, fields_of, numbers_of};

use elf_types::ElfError;

/// The bytes that end a header (ar.h).
pub const ARFMAG: [u8; 2] = *b"`\n";

/// The numbers of a header (ar.h, `struct ar_hdr`).
#[derive(Clone, Copy, Debug, PartialEq, Eq)]
pub struct Numbers {
    /// The time of the last change, in seconds since 1970.
    pub date: u64,
    /// The owner's number.
    pub uid: u32,
    /// The group's number.
    pub gid: u32,
    /// The mode of the file.
    pub mode: u32,
    /// The size of the body, in bytes.
    pub size: u64,
}

/// Whether a byte is a digit of the base.
fn is_digit(b: u8, base: u8) -> bool
    requires { base ≤ 10 }
    ensures { result ≡ is_digit base b }
{
    b >= b'0' && b < b'0' + base
}

/// Whether there are spaces alone.
fn is_blank(bytes: &[u8]) -> bool
    ensures { result ≡ list_all is_space bytes.now }
{
    bytes.iter().all(|b| *b == b' ')
}

/// The number of a field: digits of the base, then spaces up to the end; 0 where it is blank. None
/// where anything else is there.
pub fn number(field: &[u8], base: u8) -> Option<u64>
    requires short { length field.now ≤ 15 }
    requires base { base ≤ 10 }
    ensures value { result ≡ number_of base field.now }
    ensures small { length field.now ≤ 8 → IfSome result (λ n. n < 2 ^ 32) }
{
    let mut value = 0u64;
    for (i, b) in field.iter().enumerate() {
        if !is_digit(*b, base) {
            return is_blank(&field[i..]).then_some(value);
        }
        value = value * u64::from(base) + u64::from(*b - b'0');
    }
    Some(value)
}

/// The number of a field of the header at a place, which is bad where it has none.
#[tactic(auto, using(crate::proofs::Refused::ok_or_is, crate::proofs::Refused::small_or))]
fn field(at: u64, bytes: &[u8], base: u8) -> Result<u64, ElfError>
    requires short { length bytes.now ≤ 15 }
    requires base { base ≤ 10 }
    ensures value { result ≡ field_of at base bytes.now }
    ensures refusals { IfErr result (λ e. e ≡ ElfError.BadMember at) }
    ensures small { length bytes.now ≤ 8 → IfOk result (λ n. n < 2 ^ 32) }
{
    number(bytes, base).ok_or(ElfError::BadMember { at })
}

/// The numbers of the header at a place, field by field. It is bad where one is no number.
#[tactic(auto, unfolding(crate::specs::Numbers::fields_of))]
fn fields(at: u64, header: &[u8]) -> Result<Numbers, ElfError>
    requires { length header.now ≡ 60 }
    ensures value { result ≡ fields_of at header.now }
    ensures refusals { IfErr result (λ e. e ≡ ElfError.BadMember at) }
{
    let date = field(at, &header[16..28], 10)?;
    let uid = field(at, &header[28..34], 10)?;
    let gid = field(at, &header[34..40], 10)?;
    let mode = field(at, &header[40..48], 8)?;
    let size = field(at, &header[48..58], 10)?;
    Ok(Numbers {
        date,
        uid: uid as u32,
        gid: gid as u32,
        mode: mode as u32,
        size,
    })
}

/// The numbers of the header at a place. It is bad where one is no number, or where the header does
/// not end as one.
#[tactic(auto, unfolding(crate::specs::Numbers::numbers_of))]
pub fn header_numbers(at: u64, header: &[u8]) -> Result<Numbers, ElfError>
    requires { length header.now ≡ 60 }
    ensures value { result ≡ numbers_of at header.now }
    ensures refusals { IfErr result (λ e. e ≡ ElfError.BadMember at) }
{
    if !header.ends_with(&ARFMAG) {
        return Err(ElfError::BadMember { at });
    }
    fields(at, header)
}

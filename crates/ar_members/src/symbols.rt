//! The table of symbols.

ghost use Rattle.std.specs.Prelude.{◌≡◌, ◌⊎◌, ◌+◌, ◌-◌, ◌*◌, ◌≤◌, [], Ok, length, IfSome, IfErr};
ghost use Rattle.elf_types.specs.Answers.{Follows};
ghost use Rattle.elf_outside.specs.Asks.{Asks};
ghost use Rattle.ar_members.specs.declared.headers.TheConstants.{FIRST};
ghost use Rattle.ar_members.specs.Due.{AsksDue};
ghost use Rattle.ar_members.specs.Headers.{BodyLies, IsBadAt};
ghost use Rattle.ar_members.specs.Symbols.{be_word, symbols_from, symbols_of, first_symbols, arsyms, first_asks, symbols_due};

use crate::headers::{FIRST, HEADER_LEN, Header, read_header};
use crate::names::{NameKind, name_kind};
use byte_search::find_byte;
use elf_outside::Source;
use elf_outside::reads::read_range;
use elf_types::{ElfError, List, Octets};
use std::alloc::Global;

/// What a bad table is rejected as: it is the first member.
const BAD_TABLE: ElfError = ElfError::BadMember { at: FIRST };

/// A symbol of the table.
#[derive(Drop)]
pub struct ArSym {
    /// The place of the header of the member that defines it, in bytes.
    pub at: u64,
    /// Its name.
    pub name: Octets,
}

/// The symbols of a table.
pub type ArSyms = List<ArSym>;

/// The big-endian number of the first four bytes.
#[tactic(auto, unfolding(crate::specs::Symbols::be_word))]
fn word(bytes: &[u8]) -> u32
    requires { 4 ≤ length bytes.now }
    ensures { result ≡ be_word bytes.now }
{
    match bytes.first_chunk::<4>() {
        Some(first) => u32::from_be_bytes(*first),
        None => unreachable!(),
    }
}

/// So many symbols, from their offsets and their names. `BadMember` comes where a name has no end.
fn named_symbols(
    alloc: Global,
    count: u32,
    offsets: &[u8],
    names: &[u8],
) -> Result<ArSyms, ElfError>
    requires { length offsets.now ≡ 4 * count }
    ensures symbols { Follows result (symbols_from count offsets.now names.now) }
    ensures refusals { IfErr result (λ e. (e ≡ ElfError.BadMember FIRST) ⊎ (e ≡ ElfError.Memory)) }
{
    let mut symbols = ArSyms::with_capacity(alloc, u64::from(count))?;
    let mut rest = names;
    for i in 0..count as usize {
        let Some(end) = find_byte(rest, 0) else {
            return Err(BAD_TABLE);
        };
        let at = u64::from(word(&offsets[4 * i..]));
        let name = Octets::from_slice(alloc, &rest[..end])?;
        symbols.push(ArSym { at, name })?;
        rest = &rest[end + 1..];
    }
    Ok(symbols)
}

/// The symbols of a table. `BadMember` comes where it does not begin with a count, so many offsets
/// and so many names.
#[tactic(auto, unfolding(crate::specs::Symbols::symbols_of))]
fn table_symbols(alloc: Global, table: &[u8]) -> Result<ArSyms, ElfError>
    ensures symbols { Follows result (symbols_of table.now) }
    ensures refusals { IfErr result (λ e. (e ≡ ElfError.BadMember FIRST) ⊎ (e ≡ ElfError.Memory)) }
{
    if table.len() < 4 {
        return Err(BAD_TABLE);
    }
    let count = word(table);
    let rest = &table[4..];
    let len = 4 * count as usize;
    if rest.len() < len {
        return Err(BAD_TABLE);
    }
    let (offsets, names) = rest.split_at(len);
    named_symbols(alloc, count, offsets, names)
}

/// The symbols of the first member, by its header. It reads the body of a table of symbols alone.
fn first_symbols<S: Source>(alloc: Global, src: &mut S, header: &Header) -> Result<ArSyms, ElfError>
    requires { BodyLies FIRST header.now.numbers.size (S.size src.old) }
    ensures symbols { IfSome (S.holds src.old)
        (λ image. Follows result (first_symbols image header.now)) }
    ensures refusals { IfErr result (IsBadAt FIRST) }
    ensures asks { Asks S.Source result src.old src.new (first_asks header.now) }
{
    match name_kind(header.name_field()) {
        None => Err(BAD_TABLE),
        Some(NameKind::Symbols) => {
            let body = FIRST + HEADER_LEN as u64;
            let table = read_range(alloc, src, body, header.numbers.size)?;
            table_symbols(alloc, table.as_slice())
        }
        Some(NameKind::LongNames) => Ok(ArSyms::new(alloc)),
        Some(NameKind::Symbols64) => Ok(ArSyms::new(alloc)),
        Some(NameKind::Long(_)) => Err(BAD_TABLE),
        Some(NameKind::Short) => Ok(ArSyms::new(alloc)),
    }
}

/// The symbols of the first member, where that is a table of symbols; else the empty list.
pub fn read_symbols<S: Source>(alloc: Global, src: &mut S) -> Result<ArSyms, ElfError>
    ensures symbols { IfSome (S.holds src.old) (λ image. Follows result (arsyms image)) }
    ensures none { S.size src.old ≤ FIRST → result ≡ Ok [] }
    ensures refusals { IfErr result (IsBadAt FIRST) }
    ensures asks { Asks S.Source result src.old src.new (S.size src.old - FIRST) }
    ensures due { AsksDue S.Source src.old src.new symbols_due }
{
    if src.len() <= FIRST {
        return Ok(ArSyms::new(alloc));
    }
    let header = read_header(src, FIRST)?;
    first_symbols(alloc, src, &header)
}

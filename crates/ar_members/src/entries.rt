//! One step of the walk over an archive.

ghost use Rattle.std.specs.Prelude.{◌≡◌, ◌≤◌, IfSome, IfOk, IfErr};
ghost use Rattle.elf_types.specs.Answers.{FollowsBy, stated_refusal};
ghost use Rattle.elf_types.specs.declared.constants.TheConstants.{MAX_IMAGE};
ghost use Rattle.elf_outside.specs.Asks.{Asks};
ghost use Rattle.ar_members.specs.Due.{AsksDue};
ghost use Rattle.ar_members.specs.Headers.{next_at, BodyLies, IsBadAt};
ghost use Rattle.ar_members.specs.Members.{named_entry, entry_at};
ghost use Rattle.ar_members.specs.Steps.{entry_of, step_entry, asked_of, body_asks, IsShaped, StepLies, step_asks, step_due};

use crate::headers::{ArHdr, HEADER_LEN, Header, next_place, read_header, shown_header};
use crate::names::{NameKind, long_name, name_kind, short_name};
use elf_outside::Source;
use elf_outside::reads::read_range;
use elf_types::{ElfError, Octets};
use std::alloc::Global;

/// What is at a place.
#[derive(Drop)]
pub enum Entry {
    /// A member.
    Member(ArHdr),
    /// The table of long names.
    LongNames(Octets),
    /// A table of symbols, which the walk passes over.
    Passed,
}

/// An entry, and the place of the header after it.
#[derive(Drop)]
pub struct Step {
    /// What is at the place.
    pub entry: Entry,
    /// The place of the next header.
    pub next: u64,
}

/// The entry of a header by its name. It reads the body of a table of long names alone.
fn named_entry<S: Source>(
    alloc: Global,
    src: &mut S,
    names: &[u8],
    at: u64,
    header: &Header,
) -> Result<Entry, ElfError>
    requires body { BodyLies at header.now.numbers.size (S.size src.old) }
    requires size { S.size src.old ≤ MAX_IMAGE }
    ensures entry { IfSome (S.holds src.old) (λ image.
        FollowsBy (entry_of names.now (next_at at header.now.numbers.size)) stated_refusal result
        (named_entry image names.now at header.now)) }
    ensures refusals { IfErr result (IsBadAt at) }
    ensures shape { IfOk result (IsShaped at header.now.numbers) }
    ensures read { IfOk result (λ entry. asked_of entry ≡ body_asks header.now) }
    ensures asks { Asks S.Source result src.old src.new (body_asks header.now) }
{
    let field = header.name_field();
    match name_kind(field) {
        None => Err(ElfError::BadMember { at }),
        Some(NameKind::Symbols) => Ok(Entry::Passed),
        Some(NameKind::Symbols64) => Ok(Entry::Passed),
        Some(NameKind::LongNames) => {
            let body = at + HEADER_LEN as u64;
            let more = read_range(alloc, src, body, header.numbers.size)?;
            Ok(Entry::LongNames(more))
        }
        Some(NameKind::Long(from)) => match long_name(names, from) {
            None => Err(ElfError::BadMember { at }),
            Some(name) => {
                let shown = shown_header(alloc, at, &header.numbers, name)?;
                Ok(Entry::Member(shown))
            }
        },
        Some(NameKind::Short) => {
            let shown = shown_header(alloc, at, &header.numbers, short_name(field))?;
            Ok(Entry::Member(shown))
        }
    }
}

/// The step at a place, after the long names before it. It reads one header and the body of a table
/// of long names.
///
/// `BadMember` comes exactly where the header is cut, has other end bytes, a bad number, a bad name
/// or a body past the end.
pub fn step_at<S: Source>(
    alloc: Global,
    src: &mut S,
    names: &[u8],
    at: u64,
) -> Result<Step, ElfError>
    requires { S.size src.old ≤ MAX_IMAGE }
    ensures entry { IfSome (S.holds src.old) (λ image.
        FollowsBy (step_entry names.now) stated_refusal result (entry_at image names.now at)) }
    ensures refusals { IfErr result (IsBadAt at) }
    ensures lies { IfOk result (StepLies at (S.size src.old)) }
    ensures asks { Asks S.Source result src.old src.new (step_asks at (S.size src.old) result) }
    ensures due { AsksDue S.Source src.old src.new
        (λ image. step_due (entry_at image names.now at)) }
{
    let header = read_header(src, at)?;
    let next = next_place(at, header.numbers.size);
    let entry = named_entry(alloc, src, names, at, &header)?;
    Ok(Step { entry, next })
}

//! The walk from one member to the next.

ghost use Rattle.std.specs.Prelude.{◌≡◌, ◌≤◌, ◌+◌, unwrap_or, None, Ok, IfSome, IfOk, IfErr};
ghost use Rattle.elf_types.specs.Answers.{FollowsBy, stated_refusal};
ghost use Rattle.elf_types.specs.declared.constants.TheConstants.{MAX_IMAGE};
ghost use Rattle.elf_outside.specs.Asks.{Asks};
ghost use Rattle.ar_members.specs.Due.{AsksDue};
ghost use Rattle.ar_members.specs.Members.{members_from, next_of, due_from, due_to_end};
ghost use Rattle.ar_members.specs.Walks.{MemberLies, RefusalLies, found_asks, found_left, found_left_due};

use crate::entries::{Entry, Step, step_at};
use crate::headers::ArHdr;
use elf_outside::Source;
use elf_types::{ElfError, Octets};
use std::alloc::Global;

/// What a walk came to.
#[derive(Drop)]
pub struct Found {
    /// The next member, or None at the end of the archive.
    pub member: Option<ArHdr>,
    /// The place of the header after it.
    pub place: u64,
    /// The last table of long names on the way, or None where there was none.
    pub names: Option<Octets>,
}

/// The long names that are known on the way: the last table that was met, or those from before.
fn known<'a>(met: &'a Option<Octets>, before: &'a [u8]) -> &'a [u8]
    ensures { result.now ≡ unwrap_or met.now before.now }
{
    match met {
        Some(names) => names.as_slice(),
        None => before,
    }
}

/// Walks from the header at `place` to the next member that is not one of the three special ones,
/// or to the end. It reads one header of 60 bytes after another, and the tables of long names.
///
/// `BadMember` comes at the first bad header, `Memory` for a name or a table of names, and `Read`
/// at any read.
pub fn walk<S: Source>(
    alloc: Global,
    src: &mut S,
    names: &[u8],
    place: u64,
) -> Result<Found, ElfError>
    requires { S.size src.old ≤ MAX_IMAGE }
    ensures members { IfSome (S.holds src.old) (λ image.
        FollowsBy (found_left image names.now) stated_refusal result
        (next_of (members_from image names.now place))) }
    ensures ended { S.size src.old ≤ place
        → (result ≡ Ok (record { member = None; place = place; names = None }))
        × (src.new ≡ src.old) }
    ensures lies { IfOk result
        (λ found. MemberLies place (S.size src.old) found.place found.member) }
    ensures refusals { IfErr result (RefusalLies place (S.size src.old)) }
    ensures asks { Asks S.Source result src.old src.new
        (found_asks place (S.size src.old) result) }
    ensures due { AsksDue S.Source src.old src.new (λ image. due_from image names.now place) }
    ensures left { IfOk result (λ found. IfSome (S.holds src.old) (λ image.
        S.taken src.new + found_left_due image names.now found
        ≤ S.taken src.old + due_to_end image names.now place)) }
{
    let size = src.len();
    let mut at = place;
    let mut met: Option<Octets> = None;
    while at < size {
        let Step { entry, next } = step_at(alloc, src, known(&met, names), at)?;
        match entry {
            Entry::Member(header) => {
                return Ok(Found {
                    member: Some(header),
                    place: next,
                    names: met,
                });
            }
            Entry::LongNames(more) => met = Some(more),
            Entry::Passed => {}
        }
        at = next;
    }
    Ok(Found {
        member: None,
        place: at,
        names: met,
    })
}

//! An archive over a source.

ghost use Rattle.std.specs.Prelude.{◌≡◌, ◌⊎◌, ◌+◌, ◌-◌, ◌≤◌, true, false, [], Ok, Err, None, IfSome, IfOk, IfErr, OnOk};
ghost use Rattle.elf_types.specs.Answers.{Follows, FollowsBy, stated_refusal};
ghost use Rattle.elf_outside.specs.Asks.{Asks};
ghost use Rattle.ar_members.specs.declared.headers.TheConstants.{FIRST};
ghost use Rattle.ar_members.specs.Due.{AsksDue};
ghost use Rattle.ar_members.specs.Magic.{IsArchiveSize, RefusesBySize};
ghost use Rattle.ar_members.specs.Archives.{first_walk, begun_walk};

use crate::headers::{ArHdr, FIRST, HEADER_LEN, read_header};
use crate::symbols::{ArSyms, read_symbols};
use crate::walk::{Found, walk};
use elf_outside::reads::read_array;
use elf_outside::{Failed, Source, Window};
use elf_types::constants::{ARMAG, MAX_IMAGE};
use elf_types::{ElfError, Octets};
use std::alloc::Global;
use std::marker::Model;
use std::mem;

/// An archive, and a walk over its members.
#[derive(Drop)]
pub struct Ar<S: Source> {
    alloc: Global,
    src: S,
    place: u64,
    names: Octets,
    stopped: bool,
}

impl<S: Source> Model for Ar<S> {
    ghost use Rattle.std.specs.Prelude.{◌≡◌, ◌<◌, ◌≤◌, true};
    ghost use Rattle.elf_types.specs.declared.constants.TheConstants.{MAX_IMAGE};
    ghost use Rattle.ar_members.specs.Archives.{Archive};

    ghost Value = { Archive S };

    ghost view = { λ a. record {
      source = a.src;
      walk = record { place = a.place; names = a.names; stopped = a.stopped };
    } };

    ghost invariant = { λ a.
        (S.size a.src ≤ MAX_IMAGE) × (a.stopped ≡ true → a.place < S.size a.src) };
}

/// Whether a source is an archive.
fn check<S: Source>(src: &mut S) -> Result<(), ElfError>
    ensures begun { IfSome (S.holds src.old)
        (λ image. FollowsBy (λ _. first_walk) stated_refusal result (begun_walk image)) }
    ensures size { OnOk result (IsArchiveSize (S.size src.old)) }
    ensures refusals { IfErr result (RefusesBySize (S.size src.old)) }
    ensures asks { Asks S.Source result src.old src.new FIRST }
{
    let size = src.len();
    if size < FIRST {
        return Err(ElfError::Short);
    }
    let line: [u8; 8] = read_array(src, 0)?;
    if !line.starts_with(&ARMAG) {
        return Err(ElfError::Magic);
    }
    if size > MAX_IMAGE {
        return Err(ElfError::TooLarge);
    }
    Ok(())
}

impl<S: Source> Ar<S> {
    ghost use Rattle.ar_members.specs.Archives.{answer_of, source_of, handed_back};
    ghost use Rattle.ar_members.specs.Archives.{members_left, Moves, NextLies, next_asks, next_due, left_due};
    ghost use Rattle.ar_members.specs.Members.{next_of};
    ghost use Rattle.ar_members.specs.declared.headers.TheConstants.{HEADER_LEN};
    ghost use Rattle.ar_members.specs.Headers.{member_at, header_asks, BodyLies, HasBody, IsBadAt};
    ghost use Rattle.ar_members.specs.Symbols.{arsyms, symbols_due};

    /// Begins a walk over an archive. It reads 8 bytes at most, and takes no memory.
    ///
    /// It fails with `Short` where there are fewer than 8 bytes, `Magic` where the first 8 are not
    /// `!<arch>` and a newline, and `TooLarge` above 2^40 bytes, in this order, and hands the
    /// source back. `Read` may come before the last two.
    pub fn begin(alloc: Global, mut src: S) -> Result<Ar<S>, (S, ElfError)>
        ensures begun { IfSome (S.holds src) (λ image. FollowsBy (λ archive. archive.walk)
            stated_refusal (answer_of result) (begun_walk image)) }
        ensures walk { IfOk result (λ archive. archive.walk ≡ first_walk) }
        ensures size { OnOk result (IsArchiveSize (S.size src)) }
        ensures refusals { IfErr result (λ back. RefusesBySize (S.size src) back.1) }
        ensures asks { Asks S.Source (answer_of result) src (source_of result) FIRST }
    {
        if let Err(e) = check(&mut src) {
            return Err((src, e));
        }
        Ok(Ar {
            alloc,
            src,
            place: FIRST,
            names: Octets::new(alloc),
            stopped: false,
        })
    }

    /// The next member that is not one of the three special ones, or None at the end. It reads one
    /// header of 60 bytes after another, and the tables of long names.
    ///
    /// `BadMember` comes exactly where the header at that place is cut, has other end bytes, a bad
    /// number, a bad name, or a body past the end; every later call then returns the same, and
    /// reads nothing. After `Memory` or `Read`, which may come at any step, the walk is where it
    /// was.
    ///
    /// Where it succeeds, what was asked for and what is left of the walk do not rise, so that a
    /// whole walk asks for each header and each table of long names once.
    pub fn next(&mut self) -> Result<Option<ArHdr>, ElfError>
        ensures members { IfSome (S.holds self.old.source) (λ image.
            FollowsBy (λ member. (member, members_left image self.new.walk)) stated_refusal result
            (next_of (members_left image self.old.walk))) }
        ensures bodies { IfSome (S.holds self.old.source)
            (λ image. IfOk result (λ member. IfSome member (HasBody image))) }
        ensures walk { Moves result self.old.walk self.new.walk }
        ensures lies { NextLies (S.size self.old.source) self.old.walk self.new.walk result }
        ensures ended { self.old.walk.stopped ≡ false
            → S.size self.old.source ≤ self.old.walk.place
            → (result ≡ Ok None) × (self.new ≡ self.old) }
        ensures repeats { self.old.walk.stopped ≡ true
            → (result ≡ Err (ElfError.BadMember self.old.walk.place)) × (self.new ≡ self.old) }
        ensures asks { Asks S.Source result self.old.source self.new.source
            (next_asks (S.size self.old.source) self.old.walk result) }
        ensures due { AsksDue S.Source self.old.source self.new.source
            (λ image. next_due image self.old.walk) }
        ensures left { OnOk result (IfSome (S.holds self.old.source) (λ image.
            S.taken self.new.source + left_due image self.new.walk
            ≤ S.taken self.old.source + left_due image self.old.walk)) }
    {
        if self.stopped {
            return Err(ElfError::BadMember { at: self.place });
        }
        match walk(self.alloc, &mut self.src, self.names.as_slice(), self.place) {
            Ok(found) => {
                let Found {
                    member,
                    place,
                    names,
                } = found;
                let before = mem::replace(&mut self.names, Octets::new(self.alloc));
                self.names = names.unwrap_or(before);
                self.place = place;
                Ok(member)
            }
            Err(ElfError::BadMember { at }) => {
                self.place = at;
                self.stopped = true;
                Err(ElfError::BadMember { at })
            }
            Err(e) => Err(e),
        }
    }

    /// The symbols of the first member, where that is the table of symbols; else the empty list. It
    /// reads the first header and that table. The walk is where it was.
    ///
    /// `BadMember { at: 8 }` comes exactly where there is a byte at place 8 and the header there is
    /// bad, or where the table does not begin with a big-endian count of four bytes, so many
    /// big-endian offsets of four bytes and so many NUL-ended names. More bytes may follow, since
    /// the usual tool pads the table. `Memory` and `Read` may come at any step.
    pub fn arsym(&mut self) -> Result<ArSyms, ElfError>
        ensures symbols { IfSome (S.holds self.old.source)
            (λ image. Follows result (arsyms image)) }
        ensures none { S.size self.old.source ≤ FIRST → result ≡ Ok [] }
        ensures refusals { IfErr result (IsBadAt FIRST) }
        ensures walk { self.new.walk ≡ self.old.walk }
        ensures asks { Asks S.Source result self.old.source self.new.source
            (S.size self.old.source - FIRST) }
        ensures due { AsksDue S.Source self.old.source self.new.source symbols_due }
    {
        read_symbols(self.alloc, &mut self.src)
    }

    /// A source over the body of the member whose header is at a place. It does not look at the
    /// name, reads 60 bytes at most, and takes no memory. The walk is where it was.
    ///
    /// `BadMember` comes exactly where the header is cut, has other end bytes, a bad number, or a
    /// body past the end; it and `Read` hand the archive back.
    pub fn member(mut self, at: u64) -> Result<Window<Ar<S>>, (Ar<S>, ElfError)>
        ensures body { IfSome (S.holds self.source) (λ image.
            FollowsBy (λ w. (w.at, w.len)) stated_refusal (answer_of result) (member_at image at)) }
        ensures range { IfOk result
            (λ w. (w.at ≡ at + HEADER_LEN) × BodyLies at w.len (S.size self.source)) }
        ensures refusals { IfErr result
            (λ back. (back.1 ≡ ElfError.BadMember at) ⊎ (back.1 ≡ ElfError.Read)) }
        ensures walk { (handed_back (λ w. w.inner) result).walk ≡ self.walk }
        ensures asks { Asks S.Source (answer_of result) self.source
            (handed_back (λ w. w.inner) result).source (header_asks (S.size self.source) at) }
    {
        match read_header(&mut self.src, at) {
            Ok(header) => {
                let body = at + HEADER_LEN as u64;
                Ok(Window::new(self, body, header.numbers.size))
            }
            Err(e) => Err((self, e)),
        }
    }

    /// A source over the body of a member whose header is known, as `next` gives it: the range that
    /// the header tells, which lies in the archive. Nothing is read, and it takes no memory. The
    /// walk is where it was.
    pub fn body(self, header: &ArHdr) -> Window<Ar<S>>
        requires { header.now.body + header.now.size ≤ S.size self.source }
        ensures inner { result.inner ≡ self }
        ensures range { (result.at ≡ header.now.body) × (result.len ≡ header.now.size) }
    {
        Window::new(self, header.body, header.size)
    }

    /// The source. It takes no memory.
    pub fn end(self) -> S
        ensures { result ≡ self.source }
    {
        self.src
    }
}

impl<S: Source> Source for Ar<S> {
    ghost use Rattle.ar_members.specs.Archives.{archive_rest};

    ghost size = { λ a. S.size a.source };

    ghost holds = { λ a. S.holds a.source };

    ghost rest = { λ a. archive_rest a.walk (S.rest a.source) };

    ghost faults = { λ a. S.faults a.source };

    ghost taken = { λ a. S.taken a.source };

    fn len(&self) -> u64 {
        self.src.len()
    }

    fn read_at(&mut self, at: u64, buf: &mut [u8]) -> Result<(), Failed> {
        self.src.read_at(at, buf)
    }

    ghost sized = { λ a. S.sized a.source };
}

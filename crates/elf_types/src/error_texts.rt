//! The texts of kinds, parts and errors, appended to a list of bytes.
//!
//! Each call fails with `Memory` alone; what the list held then stays, with some bytes after it.

ghost use Rattle.std.specs.Prelude.{◌≡◌, ◌++◌, [], OnOk, IfOk, IfErr, codes};
ghost use Rattle.elf_types.specs.Writers.{WantsMemory, Extends};
ghost use Rattle.elf_types.specs.Text.{numbered, numbered_twice, kind_text, part_text, unfit_text, overlap_text, held_text, plain_text, telling_text, error_text};

use crate::errors::ElfError;
use crate::lists::Octets;
use crate::records::{Kind, Part};
use crate::texts::{put_decimal, put_text};
use std::alloc::Global;

/// Appends a number between two texts.
#[tactic(auto, using(crate::proofs::Writers::stays), unfolding(crate::specs::Text::numbered))]
pub fn put_numbered(out: &mut Octets, before: &str, n: u64, after: &str) -> Result<(), ElfError>
    ensures ok { OnOk result (out.new ≡ out.old ++ numbered before.now n after.now) }
    ensures err { IfErr result (WantsMemory out.old out.new) }
{
    put_text(out, before)?;
    put_decimal(out, n)?;
    put_text(out, after)
}

/// Appends two numbers, each after a text.
#[tactic(auto, using(crate::proofs::Writers::stays), unfolding(crate::specs::Text::numbered_twice))]
pub fn put_numbered_twice(
    out: &mut Octets,
    before: &str,
    a: u64,
    between: &str,
    b: u64,
) -> Result<(), ElfError>
    ensures ok { OnOk result (out.new ≡ out.old ++ numbered_twice before.now a between.now b) }
    ensures err { IfErr result (WantsMemory out.old out.new) }
{
    put_text(out, before)?;
    put_decimal(out, a)?;
    put_text(out, between)?;
    put_decimal(out, b)
}

/// The name of a kind. It takes no memory.
#[tactic(auto, unfolding(crate::specs::Text::kind_text))]
pub fn kind_name(kind: Kind) -> &'static str
    ensures { result.now ≡ kind_text kind }
{
    match kind {
        Kind::Empty => "empty",
        Kind::Bytes => "bytes",
        Kind::Half => "half",
        Kind::Word => "word",
        Kind::Addr => "addr",
        Kind::Sym => "sym",
        Kind::Rel => "rel",
        Kind::Rela => "rela",
        Kind::Dyn => "dyn",
    }
}

/// Appends a part: `object`, `header`, `segments`, `section S`, `piece S P` or `table`.
#[tactic(auto, unfolding(crate::specs::Text::part_text))]
pub fn put_part(out: &mut Octets, part: Part) -> Result<(), ElfError>
    ensures ok { OnOk result (out.new ≡ out.old ++ part_text part) }
    ensures err { IfErr result (WantsMemory out.old out.new) }
{
    match part {
        Part::Object => put_text(out, "object"),
        Part::Header => put_text(out, "header"),
        Part::Segments => put_text(out, "segments"),
        Part::Section(s) => put_numbered(out, "section ", u64::from(s), ""),
        Part::Piece(s, p) => put_numbered_twice(out, "piece ", u64::from(s), " ", u64::from(p)),
        Part::Table => put_text(out, "table"),
    }
}

/// Appends a part and the index of its item that does not fit.
#[tactic(auto, using(crate::proofs::Writers::stays), unfolding(crate::specs::Text::unfit_text))]
fn put_unfit(out: &mut Octets, part: Part, index: u64) -> Result<(), ElfError>
    ensures { Extends result out.old out.new (unfit_text part index) }
{
    put_text(out, "unfit ")?;
    put_part(out, part)?;
    put_numbered(out, " index ", index, "")?;
    Ok(())
}

/// Appends two parts that meet.
#[tactic(auto, using(crate::proofs::Writers::stays), unfolding(crate::specs::Text::overlap_text))]
fn put_overlap(out: &mut Octets, a: Part, b: Part) -> Result<(), ElfError>
    ensures { Extends result out.old out.new (overlap_text a b) }
{
    put_text(out, "overlap ")?;
    put_part(out, a)?;
    put_text(out, " ")?;
    put_part(out, b)?;
    Ok(())
}

/// Appends the kind that a piece holds.
#[tactic(auto, using(crate::proofs::Writers::stays), unfolding(crate::specs::Text::held_text))]
fn put_held(out: &mut Octets, kind: Kind) -> Result<(), ElfError>
    ensures { Extends result out.old out.new (held_text kind) }
{
    put_text(out, "held kind ")?;
    put_text(out, kind_name(kind))?;
    Ok(())
}

/// Appends a number of which there are only so many: an index and a count, an offset and a size.
fn put_missing(out: &mut Octets, before: &str, index: u64, count: u64) -> Result<(), ElfError>
    ensures { Extends result out.old out.new (numbered_twice before.now index (codes " of ") count) }
{
    put_numbered_twice(out, before, index, " of ", count)
}

/// Appends the index of a section or a piece, and how many there are.
fn put_missing_index(out: &mut Octets, before: &str, index: u32, count: u32) -> Result<(), ElfError>
    ensures { Extends result out.old out.new (numbered_twice before.now index (codes " of ") count) }
{
    put_missing(out, before, u64::from(index), u64::from(count))
}

/// Appends what is wrong with a section.
fn put_section(out: &mut Octets, section: u32, fault: &str) -> Result<(), ElfError>
    ensures { Extends result out.old out.new (numbered (codes "section ") section fault.now) }
{
    put_numbered(out, "section ", u64::from(section), fault)
}

/// The text of an error that tells no number; empty for any other. It takes no memory.
#[tactic(auto, unfolding(crate::specs::Text::plain_text))]
fn plain_name(e: &ElfError) -> &'static str
    ensures { result.now ≡ plain_text e.now }
{
    match *e {
        ElfError::Memory => "out of memory",
        ElfError::Read => "read failed",
        ElfError::Write => "write failed",
        ElfError::Short => "too short",
        ElfError::Magic => "not an ELF image",
        ElfError::Class => "bad class",
        ElfError::Order => "bad byte order",
        ElfError::Version => "bad version",
        ElfError::PhTable => "bad program header table",
        ElfError::ShTable => "bad section header table",
        ElfError::TooLarge => "too large",
        ElfError::TooMany => "too many",
        ElfError::FlagKept => "flag kept",
        ElfError::Reserved => "section 0 reserved",
        _ => "",
    }
}

/// Appends the text of an error with what it tells; nothing for any other.
#[tactic(auto, unfolding(crate::specs::Text::telling_text))]
fn put_telling(out: &mut Octets, e: &ElfError) -> Result<(), ElfError>
    ensures { Extends result out.old out.new (telling_text e.now) }
{
    match *e {
        ElfError::NoSection { index, count } => put_missing_index(out, "no section ", index, count),
        ElfError::NoData { index, count } => put_missing_index(out, "no piece ", index, count),
        ElfError::NoEntry { index, count } => put_missing(out, "no entry ", index, count),
        ElfError::NoString { offset, size } => put_missing(out, "no string at ", offset, size),
        ElfError::OutOfFile { section } => put_section(out, section, " out of file"),
        ElfError::Ragged { section } => put_section(out, section, " ragged"),
        ElfError::NotStrings { section } => put_section(out, section, " not strings"),
        ElfError::Unended { offset } => put_numbered(out, "string at ", offset, " has no end"),
        ElfError::BadMember { at } => put_numbered(out, "bad member at ", at, ""),
        ElfError::BadChain { at } => put_numbered(out, "bad chain at ", at, ""),
        ElfError::BadAlign { align } => put_numbered(out, "bad alignment ", align, ""),
        ElfError::Unsorted { at } => put_numbered(out, "symbols not in order at ", at, ""),
        ElfError::WrongKind { held } => put_held(out, held),
        ElfError::Unfit { part, index } => put_unfit(out, part, index),
        ElfError::Overlap { a, b } => put_overlap(out, a, b),
        _ => Ok(()),
    }
}

/// Appends the text of an error.
#[tactic(auto, using(crate::proofs::Writers::stays), unfolding(crate::specs::Text::error_text))]
pub fn put_error(out: &mut Octets, e: &ElfError) -> Result<(), ElfError>
    ensures ok { OnOk result (out.new ≡ out.old ++ error_text e.now) }
    ensures err { IfErr result (WantsMemory out.old out.new) }
{
    put_text(out, plain_name(e))?;
    put_telling(out, e)
}

/// The text of an error. It fails with `Memory` alone.
pub fn text(alloc: Global, e: &ElfError) -> Result<Octets, ElfError>
    ensures ok { IfOk result (λ text. text ≡ error_text e.now) }
    ensures err { IfErr result (λ e. e ≡ ElfError.Memory) }
{
    let mut out = Octets::new(alloc);
    put_error(&mut out, e)?;
    Ok(out)
}

//! Steps with a descriptor: what is asked of it or done with it, and what it should return.

mod edits;
mod lends;
mod reads;
mod told;

use elf_descriptor::Elf;
use elf_outside::Source;
use elf_types::{DataId, Dyn, ElfError, Kind, Part, Rel, Rela, ScnId, Shdr, Sym};
use test_kit_rows::in_step;

/// The piece of the strings in an object with two symbols.
pub const STRINGS_PIECE: DataId = DataId {
    section: 1,
    piece: 0,
};

/// The piece of its symbols.
pub const SYMBOLS_PIECE: DataId = DataId {
    section: 2,
    piece: 0,
};

/// A field of a section header, with a number for it.
#[derive(Clone, Copy)]
pub enum Change {
    /// `sh_type`.
    Type(u32),
    /// `sh_flags`.
    Flags(u64),
    /// `sh_offset`.
    Offset(u64),
    /// `sh_size`.
    Size(u64),
}

/// Items that are given to a descriptor.
pub enum Given {
    /// Bytes.
    Bytes(&'static [u8]),
    /// Addresses.
    Addrs(&'static [u64]),
    /// Symbols.
    Syms(&'static [Sym]),
}

/// An item that is appended to the list of a piece, which is lent, and another that is then stored
/// in place of the first.
pub enum Lending {
    /// A byte, and none that is stored.
    Byte(u8),
    /// Two-byte numbers.
    Half(u16, u16),
    /// Four-byte numbers.
    Word(u32, u32),
    /// Addresses.
    Addr(u64, u64),
    /// Symbols.
    Sym(Sym, Sym),
    /// Relocations.
    Rel(Rel, Rel),
    /// Relocations with addends.
    Rela(Rela, Rela),
    /// Dynamic entries.
    Dyn(Dyn, Dyn),
}

/// A step, with its result.
pub enum DescriptorStep {
    /// How many program headers and sections there are.
    Counts(u32, u32),
    /// The counts in the header, with the number of the section of the names.
    Header(u32, u32, u32),
    /// The last bytes of the identification.
    Pad([u8; 7]),
    /// Whether something is marked.
    Dirty(bool),
    /// The fill byte.
    Fill(u8),
    /// The flags of a part.
    Flags(Part, Result<u32, ElfError>),
    /// The offsets of the two program headers.
    Offsets(u64, u64),
    /// Whether nothing is held of a piece.
    Unread(DataId, bool),
    /// The bytes that are held of a piece.
    Held(DataId, &'static [u8]),

    /// The header of a section.
    Section(u32, Result<Shdr, ElfError>),
    /// A field of the header of a section.
    Has(u32, Change),
    /// The home of a section.
    Home(u32, Result<(u64, u64), ElfError>),
    /// The home of section 2 is where its header says, as long as two symbols.
    SymbolsHome,
    /// The kind of a piece.
    Kind(DataId, Result<Kind, ElfError>),
    /// The alignment of a piece.
    Align(DataId, Result<u64, ElfError>),
    /// How many pieces a section has.
    Pieces(u32, Result<u32, ElfError>),
    /// How many bytes the data of a section have.
    Size(u32, Result<u64, ElfError>),

    /// The kind and the number of the items of a piece.
    Data(DataId, Result<(Kind, u64), ElfError>),
    /// The number of a section's bytes, and its header's size.
    Long(u32, Result<(usize, u64), ElfError>),
    /// The raw bytes of a section.
    Raw(u32, Result<&'static [u8], ElfError>),
    /// Byte 1 of the strings' data.
    Byte(u8),
    /// The first two symbols of a piece.
    FirstTwo(DataId, Sym, Sym),
    /// A symbol of a piece.
    Symbol(DataId, u64, Result<Sym, ElfError>),
    /// The first two base bytes.
    Base([u8; 2]),
    /// Memory for an update is taken.
    Reserve,
    /// Memory for the home of a section is.
    ReserveHome(u32, Result<(), ElfError>),
    /// What is held of a home is freed.
    Unload(u32, Result<(), ElfError>),

    /// Flags of a part are set or cleared.
    Flag(Part, bool, u32, Result<u32, ElfError>),
    /// Another fill byte.
    SetFill(u8),
    /// The header, with another string index and entry point.
    StoreHeader(u32, u64, Result<(), ElfError>),
    /// A program header, the first one with another offset.
    StoreSegment(u32, u64, Result<(), ElfError>),
    /// An offset in the second of the program headers, which are lent.
    PutOffset(u64),
    /// So many program headers.
    Newphdr(u32, Result<(), ElfError>),
    /// One more section.
    Newscn(Result<ScnId, ElfError>),
    /// So many sections more.
    Sections(u64),
    /// Section 0.
    Newnull(Result<(), ElfError>),
    /// The header of a section.
    Put(u32, Shdr),
    /// The header of one section with another number in a field, stored as that of another one.
    Store(u32, u32, Change, Result<(), ElfError>),

    /// A symbol of a piece is stored.
    StoreSymbol(DataId, u64, Sym, Result<(), ElfError>),
    /// A number is added to the values of the symbols, which are lent, so many.
    AddToValues(u64, Result<u64, ElfError>),
    /// 1 is added to each byte of the strings, which are lent, so many.
    AddToBytes(Result<u64, ElfError>),
    /// A piece is given other items, which come back where they are rejected.
    Replace(DataId, Given, Result<(), ElfError>),
    /// A piece is added to a section, with an alignment or without, or comes back.
    Add(u32, Option<u64>, Given, Result<DataId, ElfError>),
    /// So many pieces without bytes are added to a section.
    EmptyPieces(u32, u64),
    /// The list of the first piece of section 1 is lent.
    Lent(Lending),
}

/// Whether a step is answered so.
pub fn answers<S: Source>(rt: &HostRuntime, elf: &mut Elf<S>, step: &DescriptorStep) -> bool {
    match step {
        DescriptorStep::Counts(..)
        | DescriptorStep::Header(..)
        | DescriptorStep::Pad(_)
        | DescriptorStep::Dirty(_)
        | DescriptorStep::Fill(_)
        | DescriptorStep::Flags(..)
        | DescriptorStep::Offsets(..)
        | DescriptorStep::Unread(..)
        | DescriptorStep::Held(..) => told::is_told(rt, elf, step),
        DescriptorStep::Section(..)
        | DescriptorStep::Has(..)
        | DescriptorStep::Home(..)
        | DescriptorStep::SymbolsHome
        | DescriptorStep::Kind(..)
        | DescriptorStep::Align(..)
        | DescriptorStep::Pieces(..)
        | DescriptorStep::Size(..) => told::is_told_of_section(rt, elf, step),
        DescriptorStep::Data(..)
        | DescriptorStep::Long(..)
        | DescriptorStep::Raw(..)
        | DescriptorStep::Byte(_)
        | DescriptorStep::FirstTwo(..)
        | DescriptorStep::Symbol(..)
        | DescriptorStep::Base(_)
        | DescriptorStep::Reserve
        | DescriptorStep::ReserveHome(..)
        | DescriptorStep::Unload(..) => reads::is_read(rt, elf, step),
        DescriptorStep::StoreSymbol(..)
        | DescriptorStep::AddToValues(..)
        | DescriptorStep::AddToBytes(_)
        | DescriptorStep::Replace(..)
        | DescriptorStep::Add(..)
        | DescriptorStep::EmptyPieces(..)
        | DescriptorStep::Lent(_) => lends::is_changed(rt, elf, step),
        _ => edits::edit_step_holds(rt, elf, step),
    }
}

/// Whether the steps are answered so, one after another.
pub fn answers_all<S: Source>(
    rt: &HostRuntime,
    elf: &mut Elf<S>,
    steps: &[DescriptorStep],
) -> bool {
    for (n, step) in steps.iter().enumerate() {
        if !in_step(rt, n, answers(rt, elf, step)) {
            return false;
        }
    }
    true
}

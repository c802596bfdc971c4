//! Images that are told as data: how each begins, and what is put into it.

use crate::fields::{Field, SectionField};
use crate::image::BuiltImage;
use crate::objects::{
    filled, five_sections, header_alone, numbers_in_section_0, symbol_object, two_tables,
    with_names, with_segments,
};
use elf_types::{
    Addrs, Class, Dyn, Dyns, ElfError, Halves, Octets, Order, Phdr, Rel, Rela, Relas, Rels, Shdr,
    Sym, Syms, Words,
};
use elf_xlate::Items;
use std::alloc::Global;

/// A class and an order.
pub type ClassAndOrder = (Class, Order);

/// Class 64, and the least byte first.
pub const WIDE: ClassAndOrder = (Class::C64, Order::Least);

/// Class 32, and the greatest byte first.
pub const NARROW: ClassAndOrder = (Class::C32, Order::Greatest);

/// How an image begins.
#[derive(Drop)]
pub enum ImageStart {
    /// As [`header_alone`].
    HeaderAlone,
    /// As [`symbol_object`].
    Symbols,
    /// As [`five_sections`].
    FiveSections,
    /// As [`two_tables`].
    TwoTables,
    /// As [`numbers_in_section_0`].
    NumbersInSection0,
    /// As [`with_segments`].
    Segments(&'static [Phdr]),
    /// As the header of an object whose table of section headers is at a place, has so many entries
    /// and names the section of that number as the one of the names.
    Table(u64, u32, u32),
}

/// The content of a section, the items of one kind.
#[derive(Drop)]
pub enum Content {
    /// Nothing in the file, or what is put there by itself.
    Empty,
    /// Bytes.
    Bytes(&'static [u8]),
    /// Two-byte numbers.
    Halves(&'static [u16]),
    /// Four-byte numbers.
    Words(&'static [u32]),
    /// Addresses.
    Addrs(&'static [u64]),
    /// Symbols.
    Syms(&'static [Sym]),
    /// Relocations.
    Rels(&'static [Rel]),
    /// Relocations with addends.
    Relas(&'static [Rela]),
    /// Dynamic entries.
    Dyns(&'static [Dyn]),
}

/// What is put into an image.
#[derive(Drop)]
pub enum Put {
    /// A number into a field.
    Field(Field, u64),
    /// Bytes at a place.
    Bytes(u64, &'static [u8]),
    /// A content at a place.
    Content(u64, Content),
    /// The section header with a number.
    Section(u64, Shdr),
    /// Section headers, from number 0 on.
    Sections(&'static [Shdr]),
    /// A content after all bytes, which becomes that of the section with a number.
    Home(u64, Content),
    /// No more: the image is cut to a length.
    Length(u64),
}

/// An image.
#[derive(Drop)]
pub struct Recipe {
    /// Its form.
    pub form: ClassAndOrder,
    /// How it begins.
    pub start: ImageStart,
    /// What is put into it, one after the other.
    pub puts: &'static [Put],
}

/// The object with two symbols, class 64 and the least byte first.
pub const OBJECT: Recipe = Recipe {
    form: WIDE,
    start: ImageStart::Symbols,
    puts: &[],
};

/// `OBJECT` in class 32, the greatest byte first.
pub const NARROW_OBJECT: Recipe = Recipe {
    form: NARROW,
    ..OBJECT
};

/// The items of a content. It fails with `Memory`.
fn items_of(alloc: Global, content: &Content) -> Result<Items, ElfError> {
    match content {
        Content::Empty => Ok(Items::Empty),
        Content::Bytes(l) => Ok(Items::Bytes(Octets::from_slice(alloc, l)?)),
        Content::Halves(l) => Ok(Items::Half(Halves::from_slice(alloc, l)?)),
        Content::Words(l) => Ok(Items::Word(Words::from_slice(alloc, l)?)),
        Content::Addrs(l) => Ok(Items::Addr(Addrs::from_slice(alloc, l)?)),
        Content::Syms(l) => Ok(Items::Sym(Syms::from_slice(alloc, l)?)),
        Content::Rels(l) => Ok(Items::Rel(Rels::from_slice(alloc, l)?)),
        Content::Relas(l) => Ok(Items::Rela(Relas::from_slice(alloc, l)?)),
        Content::Dyns(l) => Ok(Items::Dyn(Dyns::from_slice(alloc, l)?)),
    }
}

impl BuiltImage {
    /// Puts a content at a place. It fails with `Memory`, and `Unfit` for an item that does not fit
    /// the class.
    pub fn put_content(&mut self, at: u64, content: &Content) -> Result<(), ElfError> {
        let items = items_of(self.alloc, content)?;
        self.put_items(at, &items)
    }

    /// Puts section headers, from number 0 on.
    fn put_sections(&mut self, sections: &[Shdr]) -> Result<(), ElfError> {
        for (i, section) in sections.iter().enumerate() {
            self.put_section(i as u64, section)?;
        }
        Ok(())
    }

    /// Puts a content after all bytes, as that of the section with a number.
    fn put_home(&mut self, number: u64, content: &Content) -> Result<(), ElfError> {
        let at = self.bytes.len();
        self.put_content(at, content)?;
        let size = self.bytes.len().saturating_sub(at);
        self.put_field(Field::Section(number, SectionField::Offset), at);
        self.put_field(Field::Section(number, SectionField::Size), size);
        Ok(())
    }

    /// Sets a field, or cuts the image.
    fn set(&mut self, part: &Put) {
        match part {
            Put::Field(field, value) => self.put_field(*field, *value),
            Put::Length(len) => self.bytes.truncate(*len),
            _ => {}
        }
    }

    /// Puts something. It fails with `Memory`, and `Unfit` for what does not fit the class.
    pub fn put(&mut self, part: &Put) -> Result<(), ElfError> {
        match part {
            Put::Bytes(at, bytes) => self.put_bytes(*at, bytes),
            Put::Content(at, content) => self.put_content(*at, content),
            Put::Section(number, section) => self.put_section(*number, section),
            Put::Sections(sections) => self.put_sections(sections),
            Put::Home(number, content) => self.put_home(*number, content),
            Put::Field(..) | Put::Length(_) => {
                self.set(part);
                Ok(())
            }
        }
    }

    /// Puts one part after the other.
    fn put_all(&mut self, parts: &[Put]) -> Result<(), ElfError> {
        for part in parts {
            self.put(part)?;
        }
        Ok(())
    }
}

/// An image that nothing was put into.
fn begun(alloc: Global, form: ClassAndOrder, start: &ImageStart) -> Result<BuiltImage, ElfError> {
    let (class, order) = form;
    match start {
        ImageStart::HeaderAlone => header_alone(alloc, class, order),
        ImageStart::Symbols => symbol_object(alloc, class, order),
        ImageStart::FiveSections => five_sections(alloc, class, order),
        ImageStart::TwoTables => two_tables(alloc, class, order),
        ImageStart::NumbersInSection0 => numbers_in_section_0(alloc, class, order),
        ImageStart::Segments(segments) => with_segments(alloc, class, order, segments),
        ImageStart::Table(shoff, shnum, shstrndx) => {
            BuiltImage::new(alloc, with_names(form, *shoff, *shnum, *shstrndx), [0; 7])
        }
    }
}

/// The image of a recipe in a form, in place of its own. It fails with `Memory`, and `Unfit` for
/// what does not fit the class.
pub fn image_in(
    alloc: Global,
    form: ClassAndOrder,
    recipe: &Recipe,
) -> Result<BuiltImage, ElfError> {
    let mut image = begun(alloc, form, &recipe.start)?;
    let put = image.put_all(recipe.puts);
    filled(image, put)
}

/// The image of a recipe. It fails with `Memory`, and `Unfit` for what does not fit the class.
pub fn image_of(alloc: Global, recipe: &Recipe) -> Result<BuiltImage, ElfError> {
    image_in(alloc, recipe.form, recipe)
}

/// The image of a recipe with something put into it.
pub fn changed_image(alloc: Global, recipe: &Recipe, part: &Put) -> Result<BuiltImage, ElfError> {
    let mut image = image_of(alloc, recipe)?;
    let put = image.put(part);
    filled(image, put)
}

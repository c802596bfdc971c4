//! ELF images for the tests of all crates, built from records, and their fields by name.
#![tactic(auto)]

mod fields;
mod image;
mod objects;
mod recipes;

pub use elf_types::NULL_SECTION;
pub use fields::{Field, HeaderField, SectionField, SegmentField};
pub use image::BuiltImage;
pub use objects::{
    EM_X86_64, ET_EXEC, ET_REL, FORMS, filled, five_sections, header_alone, header_of,
    numbers_in_section_0, symbol_object, two_tables, with_segments,
};
pub use recipes::{
    ClassAndOrder, Content, ImageStart, NARROW, NARROW_OBJECT, OBJECT, Put, Recipe, WIDE,
    changed_image, image_in, image_of,
};

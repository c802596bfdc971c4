//! A theorem on layouts.

ghost use Rattle.c_calls.specs.Layout.Images.{LayoutMakesImage};

/// Who puts each part of an object's layout at its place, and between them the bytes of the base
/// and then the fill byte, has written the object's image.
///
/// Source: elf_update with ELF_C_WRITE of elf(3E).
pub fn layout_makes_image()
    ensures { LayoutMakesImage }
{}

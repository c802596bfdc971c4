//! The debug half of an object.

ghost use Rattle.std.specs.Prelude.{◌≡◌, true, false, None, IsTrue, OnOk, IfOk, IfErr};
ghost use Rattle.elf_object.specs.Object.{is_dirty};
ghost use Rattle.elf_object.specs.Words.{result_map};
ghost use Rattle.rebuild_model.specs.Split.{debug_of, debug_refusal};
ghost use Rattle.rebuild_object.specs.rebuild_making.Refused.{UnreadBy};
ghost use Rattle.rebuild_object.specs.rebuild_keep.Answers.{RebuildAnswers};
ghost use Rattle.rebuild_object.specs.rebuild_keep.Makes.{AsksFor};
ghost use Rattle.rebuild_debug.specs.Half.{half_due};

use crate::keeping::keep_half;
use crate::planning::arrange_half;
use elf_outside::{NoSource, Source};
use elf_types::ElfError;
use rebuild_object::object_of;
use rebuild_object::prelude::Elf;
use std::alloc::Global;

/// The debug half of an object in which nothing is dirty: an object with its header, its program
/// headers and all its sections under their numbers. Sections that are allocated and have bytes in
/// the file become `SHT_NOBITS` and keep their size; all others have their bytes. It is over no
/// base, and its parts are placed again, without `LAYOUT`. It fails with, in this order: `TooMany`
/// of `newphdr`; `OutOfFile` of the first section from 1 on that keeps its bytes; `NoSection` of
/// the string index; and `Memory` and `Read`. It leaves the object, marks nothing of it dirty, and
/// reads the home of each section that keeps its bytes at most once.
///
/// Source: eu-strip(1) with -f; gABI chapter 4, "Sections", SHT_NOBITS.
pub fn debug_of<S: Source>(alloc: Global, elf: &mut Elf<S>) -> Result<Elf<NoSource>, ElfError>
    requires clean { is_dirty elf.old.o ≡ false }
    ensures answer { IsTrue elf.old.told
        → RebuildAnswers (result_map (λ half. half.o) result) (debug_of elf.old.o) }
    ensures passed { OnOk result (debug_refusal elf.old.o ≡ None) }
    ensures early { IfErr result (UnreadBy (debug_refusal elf.old.o)) }
    ensures made { IfOk result (λ half. half.told ≡ true) }
    ensures asks { AsksFor S.Source result elf.old elf.new (half_due elf.old.o) }
{
    let _sound = elf.dirty();
    let contents = match keep_half(alloc, elf) {
        Ok(contents) => contents,
        Err(e) => return Err(e),
    };
    match arrange_half(alloc, elf, contents) {
        Ok(x) => object_of(alloc, elf, &x),
        Err(e) => Err(e),
    }
}

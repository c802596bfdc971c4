//! The object of a plan.

ghost use Rattle.std.specs.Prelude.{◌≡◌, true, IsTrue, IfOk, IfErr};
ghost use Rattle.rebuild_plan.specs.rebuild_keep.Makes.{AsksFor};
ghost use Rattle.rebuild_object.specs.Fitting.{IsArrangementReady};
ghost use Rattle.rebuild_object.specs.Objects.{object_from_arranged, object_due, IsObjectRead, IsUnstated};

use crate::filling::fill_planned;
use crate::fitting::is_ready;
use elf_outside::{NoSource, Source};
use elf_types::ElfError;
use rebuild_plan::Arranged;
use rebuild_plan::prelude::{Elf, create_over_base};
use std::alloc::Global;

/// The object of a plan that it can be made of.
fn make_object<S: Source>(
    alloc: Global,
    elf: &mut Elf<S>,
    x: &Arranged,
) -> Result<Elf<NoSource>, ElfError>
    requires { IsArrangementReady elf.old.o x.now }
    ensures object { IsTrue elf.old.told
        → IfOk result (λ made. made.o ≡ object_from_arranged elf.old.o x.now) }
    ensures read { IfOk result (λ made. IsObjectRead elf.old.o x.now made.o) }
    ensures told { IfOk result (λ made. made.told ≡ true) }
    ensures err { IfErr result IsUnstated }
    ensures asks { AsksFor S.Source result elf.old elf.new (object_due x.now) }
{
    let mut made = match create_over_base(alloc, elf, x.tail) {
        Ok(made) => made,
        Err(e) => return Err(e),
    };
    let _sound = made.dirty();
    match fill_planned(alloc, elf, x, &mut made) {
        Ok(()) => Ok(made),
        Err(e) => Err(e),
    }
}

/// The object of a plan that was arranged from another object: created over the base up to the
/// tail, with the program headers of the other object and the headers of the plan. Each section
/// with bytes in the file has those of its range, read as items of its kind, as its one piece.
///
/// Over a source that does not tell its bytes the object is that of the plan over the bytes that
/// were read: as many as the base has, and maybe others at each read.
///
/// It fails with `Memory` and `Read` alone. It fails with `Memory` too where the plan is that of no
/// object, which `is_ready` tells. It reads at most the base before the tail and the ranges of the
/// base, and leaves the other object.
///
/// Source: elf_begin with ELF_C_WRITE, elf_newscn and elf_newdata of elf(3E); gelf_update_shdr and
/// gelf_update_ehdr of gelf(3E).
pub fn object_of<S: Source>(
    alloc: Global,
    elf: &mut Elf<S>,
    x: &Arranged,
) -> Result<Elf<NoSource>, ElfError>
    ensures object { IsTrue elf.old.told
        → IfOk result (λ made. made.o ≡ object_from_arranged elf.old.o x.now) }
    ensures read { IfOk result (λ made. IsObjectRead elf.old.o x.now made.o) }
    ensures told { IfOk result (λ made. made.told ≡ true) }
    ensures err { IfErr result IsUnstated }
    ensures asks { AsksFor S.Source result elf.old elf.new (object_due x.now) }
{
    if !is_ready(elf, x) {
        return Err(ElfError::Memory);
    }
    make_object(alloc, elf, x)
}

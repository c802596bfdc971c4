//! Objects that are created over the base of another one.

ghost use Rattle.std.specs.Prelude.{◌≡◌, ◌≤◌, ◌⊎◌, length, take, true, unwrap_or, IsTrue, IfSome, IfOk, IfErr};
ghost use Rattle.elf_types.specs.declared.errors.ElfError.TheVariants.{Memory, Read};
ghost use Rattle.rebuild_model.specs.elf_outside.Asks.{Asks};
ghost use Rattle.rebuild_model.specs.elf_object.Steps.{with_layout};
ghost use Rattle.rebuild_making.specs.Based.{IsMade, IsMadeOver, created_with_layout};

use elf_types::{Class, ElfError, LAYOUT, Octets, Order, Part};
use elf_update_plan::prelude::Elf;
use rebuild_model::prelude::{NoSource, Source};
use std::alloc::Global;

/// The first bytes of an object's base, so many. It fails with `Memory`, before it reads, and
/// `Read`. It loads no section.
fn copy_front<S: Source>(alloc: Global, elf: &mut Elf<S>, n: u64) -> Result<Octets, ElfError>
    requires { n ≤ length elf.old.o.base }
    ensures bytes { IsTrue elf.old.told
        → IfOk result (λ octets. octets ≡ take n elf.old.o.base) }
    ensures len { IfOk result (λ octets. length octets ≡ n) }
    ensures asks { Asks S.Source result elf.old.source elf.new.source n }
    ensures stays { elf.new ≡ record elf.old { source = elf.new.source } }
    ensures err { IfErr result (λ e. (e ≡ Memory) ⊎ (e ≡ Read)) }
{
    let mut bytes = vec![in alloc; 0u8; n as usize]?;
    elf.copy_base(0, bytes.as_mut_slice())?;
    Ok(Octets::from_vec(bytes))
}

/// The layout of an object becomes the caller's.
fn set_layout<S: Source>(elf: &mut Elf<S>)
    ensures { elf.new ≡ record elf.old { o = with_layout elf.old.o true } }
{
    match elf.flag(Part::Object, true, LAYOUT) {
        Ok(_) => {}
        Err(_) => unreachable!(),
    }
}

/// An object without sections over base bytes, which count. It rejects nothing and takes no memory.
fn create_laid_out(alloc: Global, class: Class, order: Order, base: Octets) -> Elf<NoSource>
    ensures { IsMade (created_with_layout class order base) result }
{
    let mut made = Elf::create_over(alloc, class, order, base);
    set_layout(&mut made);
    made
}

/// An object of the class and the order of another one, without sections and program headers: with
/// a tail over the bytes of the other's base before the tail, where its own parts must be at the
/// caller's places (`LAYOUT`), and else over none. The tail lies within the base. It fails with
/// `Memory`, before it reads, and `Read`, and marks and loads nothing of the other.
///
/// Source: elf_begin with ELF_C_WRITE, and ELF_F_LAYOUT, of elf(3E).
pub fn create_over_base<S: Source>(
    alloc: Global,
    elf: &mut Elf<S>,
    tail: Option<u64>,
) -> Result<Elf<NoSource>, ElfError>
    requires { IfSome tail (λ n. n ≤ length elf.old.o.base) }
    ensures made { IfOk result (IsMadeOver elf.old.told elf.old.o tail) }
    ensures asks { Asks S.Source result elf.old.source elf.new.source (unwrap_or tail 0) }
    ensures stays { elf.new ≡ record elf.old { source = elf.new.source } }
    ensures err { IfErr result (λ e. (e ≡ Memory) ⊎ (e ≡ Read)) }
{
    let header = elf.ehdr();
    match tail {
        Some(n) => match copy_front(alloc, elf, n) {
            Ok(base) => Ok(create_laid_out(alloc, header.class, header.order, base)),
            Err(e) => Err(e),
        },
        None => Ok(Elf::create(alloc, header.class, header.order)),
    }
}

//! A number that is added to each item of a piece.

ghost use Rattle.std.specs.Prelude.{◌≡◌, ℕ, false, length, map, refl};
ghost use Rattle.elf_types.specs.declared.records.Kind.TheVariants as kinds;
ghost use Rattle.elf_xlate.specs.declared.content.Items.{Items as TheItems};
ghost use Rattle.elf_xlate.specs.Translation.{items_kind};
ghost use Rattle.symbol_lookup.specs.elf_object.Answers.{kind_at, same_kind};
ghost use Rattle.symbol_lookup.specs.elf_object.Runs.{added, more, more_sym, more_rel, more_rela, more_dyn};
ghost use Rattle.elf_calls_apply.specs.Applies.{Applies, result_of};
ghost use Rattle.elf_calls_script.specs.declared.calls.Call.TheVariants as call;

use crate::answers::Answer;
use elf_outside::Source;
use elf_types::{DataId, Dyn, Kind, List, Rel, Rela, Sym};
use elf_update_plan::prelude::{Elf, section_data_Listed as Listed};

/// A type to whose items a number is added, or to one of their fields, modulo its range.
trait Adds: Listed + Copy + Drop {
    // An item and the number.
    ghost plus: { ℕ → Self → Self };

    /// Adds the number.
    fn add(&mut self, n: u64)
        ensures { self.new ≡ plus n self.old };

    // There are such items.
    ghost some: { same_kind Self.kind kinds.Empty ≡ false };
}

impl Adds for u8 {
    ghost plus = { more 8 };

    fn add(&mut self, n: u64) {
        *self = self.wrapping_add((n % 0x100) as u8);
    }

    ghost some = { refl };
}

impl Adds for u16 {
    ghost plus = { more 16 };

    fn add(&mut self, n: u64) {
        *self = self.wrapping_add((n % 0x1_0000) as u16);
    }

    ghost some = { refl };
}

impl Adds for u32 {
    ghost plus = { more 32 };

    fn add(&mut self, n: u64) {
        *self = self.wrapping_add((n % 0x1_0000_0000) as u32);
    }

    ghost some = { refl };
}

impl Adds for u64 {
    ghost plus = { more 64 };

    fn add(&mut self, n: u64) {
        *self = self.wrapping_add(n);
    }

    ghost some = { refl };
}

impl Adds for Sym {
    ghost plus = { more_sym };

    fn add(&mut self, n: u64) {
        self.value = self.value.wrapping_add(n);
    }

    ghost some = { refl };
}

impl Adds for Rel {
    ghost plus = { more_rel };

    fn add(&mut self, n: u64) {
        self.offset = self.offset.wrapping_add(n);
    }

    ghost some = { refl };
}

impl Adds for Rela {
    ghost plus = { more_rela };

    fn add(&mut self, n: u64) {
        self.offset = self.offset.wrapping_add(n);
    }

    ghost some = { refl };
}

impl Adds for Dyn {
    ghost plus = { more_dyn };

    fn add(&mut self, n: u64) {
        self.val = self.val.wrapping_add(n);
    }

    ghost some = { refl };
}

/// Adds a number to each item of a list, and returns how many there are.
fn add_to_list<T: Adds>(list: &mut List<T>, n: u64) -> u64
    ensures sums { list.new ≡ map (T.plus n) list.old }
    ensures count { result ≡ length list.old }
{
    for item in list.as_mut_slice().iter_mut() {
        item.add(n);
    }
    list.len()
}

/// Adds a number to each item of a piece of the type's kind, and returns how many there are.
fn add_to_items<S: Source, T: Adds>(elf: &mut Elf<S>, d: DataId, n: u64) -> Answer
    requires kind { kind_at elf.old.o d.section d.piece ≡ T.kind }
    requires sums { (l : TheItems) → items_kind l ≡ T.kind
        → added n l ≡ T.variant (map (T.plus n) (T.list_of l)) }
    ensures { Applies S.Source (call.AddAll d n) (result_of result) elf.old elf.new }
{
    match elf.lend::<T>(d) {
        Ok(list) => Answer::Changed(add_to_list(list, n)),
        Err(e) => Answer::Refused(e),
    }
}

/// An empty piece has no items, and is not lent; it is rejected as other pieces are.
fn add_to_none<S: Source>(elf: &mut Elf<S>, d: DataId, n: u64) -> Answer
    requires { kind_at elf.old.o d.section d.piece ≡ kinds.Empty }
    ensures { Applies S.Source (call.AddAll d n) (result_of result) elf.old elf.new }
{
    match elf.data(d) {
        Ok(items) => Answer::Changed(items.count()),
        Err(e) => Answer::Refused(e),
    }
}

/// Adds a number to each item of a piece of that kind, by the lend of the kind.
fn add_by_kind<S: Source>(elf: &mut Elf<S>, d: DataId, kind: Kind, n: u64) -> Answer
    requires { kind_at elf.old.o d.section d.piece ≡ kind }
    ensures { Applies S.Source (call.AddAll d n) (result_of result) elf.old elf.new }
{
    match kind {
        Kind::Empty => add_to_none(elf, d, n),
        Kind::Bytes => add_to_items::<S, u8>(elf, d, n),
        Kind::Half => add_to_items::<S, u16>(elf, d, n),
        Kind::Word => add_to_items::<S, u32>(elf, d, n),
        Kind::Addr => add_to_items::<S, u64>(elf, d, n),
        Kind::Sym => add_to_items::<S, Sym>(elf, d, n),
        Kind::Rel => add_to_items::<S, Rel>(elf, d, n),
        Kind::Rela => add_to_items::<S, Rela>(elf, d, n),
        Kind::Dyn => add_to_items::<S, Dyn>(elf, d, n),
    }
}

/// `addall`: adds a number to each item of a piece, modulo the range of the item or of its field,
/// by the lend of the kind that the piece holds. An empty piece is not lent and stays as it is.
pub(crate) fn add_to_all<S: Source>(elf: &mut Elf<S>, d: DataId, n: u64) -> Answer
    ensures { Applies S.Source (call.AddAll d n) (result_of result) elf.old elf.new }
{
    match elf.piece_kind(d) {
        Ok(kind) => add_by_kind(elf, d, kind, n),
        Err(e) => Answer::Refused(e),
    }
}

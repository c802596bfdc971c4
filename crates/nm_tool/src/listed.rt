//! The symbols that are listed.

ghost use Rattle.std.specs.Prelude.{◌≡◌, ◌-◌, ◌&&◌, ℕ, None, IfOk, IfErr};
ghost use Rattle.elf_object.specs.Object.{Object};
ghost use Rattle.elf_object.specs.SymbolSections.{shndx_table};
ghost use Rattle.tool_objects.specs.Steps.{Learns};
ghost use Rattle.nm_tool.specs.Listed.{is_listable_symbol, is_wanted, shown_symbol_name};
ghost use Rattle.nm_tool.specs.Pools.{if_wanted, wanted_at, pool_with_name, with_symbol, pool_of};
ghost use Rattle.nm_tool.specs.Tables.{AreTables};

use crate::letters::is_undefined;
use crate::options::NmOptions;
use crate::pools::Pool;
use crate::symbols::{Tables, plain_place, symbol_at, symbol_place_at};
use elf_outside::Source;
use elf_types::constants::{STT_FILE, STT_SECTION};
use elf_types::{Sym, has_type, is_local};
use std::alloc::Global;
use tool_objects::prelude::Elf;
use tool_objects::string_at;
use tool_output::Stop;

/// Whether a symbol is neither a section nor a file, and with `-g` not local.
#[tactic(auto, unfolding(crate::specs::Listed::is_listable_symbol))]
fn is_kept(options: &NmOptions, x: &Sym) -> bool
    ensures { result ≡ is_listable_symbol options.now x.now }
{
    if has_type(x, STT_SECTION) || has_type(x, STT_FILE) {
        return false;
    }
    !(options.globals && is_local(x))
}

/// Whether symbol `i` is undefined, where only such are asked for (`-u`).
#[tactic(auto, unfolding(crate::specs::Listed::is_wanted))]
fn is_wanted<S: Source>(
    elf: &mut Elf<S>,
    t: Tables,
    options: &NmOptions,
    i: u64,
    x: Sym,
) -> Result<bool, Stop>
    requires { AreTables elf.old.o t }
    ensures { Learns S.Source (λ o. is_wanted options.now o t.symbols.0 i x)
        result elf.old elf.new }
{
    if !options.undefined {
        return Ok(true);
    }
    match symbol_place_at(elf, t, i, x) {
        Ok(place) => Ok(is_undefined(place)),
        Err(stop) => Err(stop),
    }
}

/// Whether a symbol of a table without extended indexes is undefined, where only such are asked for
/// (`-u`).
#[tactic(auto, unfolding(crate::specs::Listed::is_wanted))]
#[inline(always)]
fn is_wanted_by(options: &NmOptions, x: &Sym) -> bool
    ensures { (o : Object) (s i : ℕ) → None ≡ shndx_table o s
        → result ≡ is_wanted options.now o s i x.now }
{
    !options.undefined | is_undefined(plain_place(x.shndx))
}

/// Whether a symbol of a table without extended indexes is wanted whatever its name.
#[inline(always)]
pub fn is_plain_wanted(options: &NmOptions, x: &Sym) -> bool
    ensures { (o : Object) (s i : ℕ) → None ≡ shndx_table o s
        → result ≡ (is_listable_symbol options.now x.now && is_wanted options.now o s i x.now) }
{
    if is_kept(options, x) {
        return is_wanted_by(options, x);
    }
    false
}

/// Symbol `i`, where it is wanted whatever its name.
fn if_wanted<S: Source>(
    elf: &mut Elf<S>,
    t: Tables,
    options: &NmOptions,
    i: u64,
    x: Sym,
) -> Result<Option<Sym>, Stop>
    requires { AreTables elf.old.o t }
    ensures { Learns S.Source (λ o. if_wanted options.now o t.symbols.0 i x)
        result elf.old elf.new }
{
    if !is_kept(options, &x) {
        return Ok(None);
    }
    match is_wanted(elf, t, options, i, x) {
        Ok(true) => Ok(Some(x)),
        Ok(false) => Ok(None),
        Err(stop) => Err(stop),
    }
}

/// Symbol `i`, where it is there and wanted whatever its name.
#[tactic(auto, unfolding(crate::specs::Pools::wanted_at))]
pub fn wanted_at<S: Source>(
    elf: &mut Elf<S>,
    t: Tables,
    options: &NmOptions,
    i: u64,
) -> Result<Option<Sym>, Stop>
    requires { AreTables elf.old.o t }
    ensures { Learns S.Source (λ o. wanted_at options.now o t.symbols.0 i)
        result elf.old elf.new }
{
    match symbol_at(elf, t, i) {
        Ok(Some(x)) => if_wanted(elf, t, options, i, x),
        Ok(None) => Ok(None),
        Err(stop) => Err(stop),
    }
}

/// A pool with one more symbol, unless its name is empty; it stops where there is no memory.
fn with_name(pool: Pool, value: u64, i: u64, name: &[u8]) -> Result<Pool, Stop>
    ensures ok { IfOk result (λ p. p ≡ pool_with_name pool value i name.now) }
    ensures err { IfErr result (λ stop. stop ≡ Stop.Memory) }
{
    match pool.with(value, i, name) {
        Ok(pool) => Ok(pool),
        Err(e) => Err(Stop::want_of(e)),
    }
}

/// A pool with symbol `i` under its name as it is shown.
#[tactic(auto, unfolding(crate::specs::Listed::shown_symbol_name, elf_object::specs::Strings::symbol_name))]
fn with_named<S: Source>(
    elf: &mut Elf<S>,
    t: Tables,
    i: u64,
    x: Sym,
    pool: Pool,
) -> Result<Pool, Stop>
    requires { AreTables elf.old.o t }
    ensures { Learns S.Source (λ o. pool_with_name pool x.value i
        (shown_symbol_name o t.symbols.0 x))
        result elf.old elf.new }
{
    match string_at(elf, t.names, u64::from(x.name)) {
        Ok(Some(name)) => with_name(pool, x.value, i, name),
        Ok(None) => with_name(pool, x.value, i, b"<none>"),
        Err(stop) => Err(stop),
    }
}

/// A pool with symbol `i`, where it is listed.
#[tactic(auto, unfolding(crate::specs::Pools::with_symbol))]
fn with_symbol<S: Source>(
    elf: &mut Elf<S>,
    t: Tables,
    options: &NmOptions,
    pool: Pool,
    i: u64,
) -> Result<Pool, Stop>
    requires { AreTables elf.old.o t }
    ensures { Learns S.Source (λ o. with_symbol options.now o t.symbols.0 pool i)
        result elf.old elf.new }
{
    match wanted_at(elf, t, options, i) {
        Ok(Some(x)) => with_named(elf, t, i, x, pool),
        Ok(None) => Ok(pool),
        Err(stop) => Err(stop),
    }
}

/// The pool of the symbols that are listed, of a table that has `count` symbols. It stops by `Read`
/// where a read of the source failed, and by `Memory`.
pub fn pool_of<S: Source>(
    alloc: Global,
    elf: &mut Elf<S>,
    t: Tables,
    options: &NmOptions,
    count: u64,
) -> Result<Pool, Stop>
    requires { AreTables elf.old.o t }
    ensures { Learns S.Source (λ o. pool_of options.now o t.symbols.0 (count - 1))
        result elf.old elf.new }
{
    let mut pool = Pool::new(alloc);
    for i in 1..count {
        pool = with_symbol(elf, t, options, pool, i)?;
    }
    Ok(pool)
}

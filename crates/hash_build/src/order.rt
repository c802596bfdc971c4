//! The order of symbols that GNU's hash section needs.

ghost use Rattle.std.specs.Prelude.{◌≡◌, ◌<◌, ◌^◌, length, map, IsTrue, IfOk, IfErr, IfSome};
ghost use Rattle.elf_types.specs.declared.errors.ElfError.TheVariants.{Memory};
ghost use Rattle.symbol_lookup.specs.elf_object.Words.{Answers};
ghost use Rattle.symbol_lookup.specs.elf_descriptor.Reads.{Looks, wanted};
ghost use Rattle.symbol_lookup.specs.hash_model.BuiltHashes.{gnu_order_of, order_key};
ghost use Rattle.symbol_lookup.specs.hash_model.Listed.{listed_names};
ghost use Rattle.hash_build.specs.Calls as calls;
ghost use Rattle.hash_build.specs.Hashed.{buckets_by};
ghost use Rattle.hash_build.specs.Rows.{order_by, bucket_rows, sorted_rows, IsOrder};
ghost use Rattle.hash_build.specs.Tables.{IsSymbolTable, ReadsTable};

use crate::hashing::Hashing;
use crate::listed::read_hashes;
use crate::tables::{SymbolTable, table_of};
use crate::words::{bucket_of, hash_at};
use elf_outside::Source;
use elf_types::{ElfError, List, ScnId, Words};
use std::alloc::Global;
use symbol_lookup::prelude::Elf;

/// A symbol as it is sorted: by its bucket, then by its index.
#[derive(Clone, Copy, PartialEq, Eq, PartialOrd, Ord)]
struct Row {
    key: u32,
    index: u32,
}

/// The key of a symbol's bucket, one of so many: a symbol that is in none comes first.
fn key_of(bucket: Option<u64>, count: u32) -> u32
    requires { IfSome bucket (λ b. b < count) }
    ensures { result ≡ order_key bucket }
{
    match bucket {
        Some(b) => b as u32 + 1,
        None => 0,
    }
}

/// The symbols, in their order. It fails with `Memory` alone.
fn rows_of(alloc: Global, hashes: &List<Option<u32>>, nbuckets: u32) -> Result<Vec<Row>, ElfError>
    requires some { 0 < nbuckets }
    requires few { length hashes.now < 2 ^ 32 }
    ensures ok { IfOk result (λ rows. rows.items ≡ bucket_rows (buckets_by nbuckets hashes.now)) }
    ensures err { IfErr result (λ e. e ≡ Memory) }
{
    let count = hashes.len();
    let mut rows = Vec::with_capacity(alloc, count as usize)?;
    for i in 0..count {
        let hash = hash_at(hashes, i);
        let bucket = bucket_of(hash, nbuckets);
        rows.push(Row {
            key: key_of(bucket, nbuckets),
            index: i as u32,
        })?;
    }
    Ok(rows)
}

/// The symbols by bucket, and those of one bucket in their order. It fails with `Memory` alone.
fn sorted_rows(
    alloc: Global,
    hashes: &List<Option<u32>>,
    nbuckets: u32,
) -> Result<Vec<Row>, ElfError>
    requires some { 0 < nbuckets }
    requires few { length hashes.now < 2 ^ 32 }
    ensures ok { IfOk result (λ rows. rows.items ≡ sorted_rows (buckets_by nbuckets hashes.now)) }
    ensures err { IfErr result (λ e. e ≡ Memory) }
{
    let mut rows = rows_of(alloc, hashes, nbuckets)?;
    rows.sort_unstable();
    Ok(rows)
}

/// The indexes of symbols. It fails with `Memory` alone.
fn indexes_of(alloc: Global, rows: &[Row]) -> Result<Words, ElfError>
    ensures ok { IfOk result (λ indexes. indexes ≡ map (λ r. r.index) rows.now) }
    ensures err { IfErr result (λ e. e ≡ Memory) }
{
    let indexes = rows.iter().map(|row| row.index).collect(alloc)?;
    Ok(List::from_vec(indexes))
}

/// The order of symbols with these hashes, for so many buckets. It fails with `Memory` alone.
fn order_of(alloc: Global, hashes: &List<Option<u32>>, nbuckets: u32) -> Result<Words, ElfError>
    requires some { 0 < nbuckets }
    requires few { length hashes.now < 2 ^ 32 }
    ensures ok { IfOk result (λ order. order ≡ order_by (buckets_by nbuckets hashes.now)) }
    ensures err { IfErr result (λ e. e ≡ Memory) }
{
    let rows = sorted_rows(alloc, hashes, nbuckets)?;
    indexes_of(alloc, &rows)
}

/// The order of the symbols of a table.
fn order_for<S: Source>(elf: &mut Elf<S>, t: SymbolTable, nbuckets: u32) -> Result<Words, ElfError>
    requires table { IsSymbolTable elf.old.o t }
    requires some { 0 < nbuckets }
    ensures told { IsTrue elf.old.told → IfOk result (λ order.
        order ≡ gnu_order_of nbuckets (listed_names elf.old.o t.section.0)) }
    ensures whole { IfOk result (λ order.
        IsOrder order (length (listed_names elf.old.o t.section.0))) }
    ensures reads { ReadsTable S.Source t.section.0 result elf.old elf.new }
{
    let alloc = elf.alloc();
    match read_hashes(elf, t, Hashing::Gnu) {
        Ok(hashes) => order_of(alloc, &hashes, nbuckets),
        Err(e) => Err(e),
    }
}

/// The order that GNU's hash section with so many buckets needs of the symbols in piece 0 of a
/// symbol table, as their present indexes: those that are not listed, in their order, and then the
/// listed ones by the bucket of their name's hash, and those of one bucket in their order. It holds
/// each index once and begins with 0, whatever the source says.
///
/// It fails as `build_sysv` does: `NoSection`, `NoData`, `WrongKind`, and for the clean home piece
/// `OutOfFile` and `Ragged`; then `TooMany` exactly where there are 2^32 symbols or more; then
/// `Memory` or `Read`, at any step. It reads the table and its strings at the first use, each once,
/// and marks nothing dirty.
///
/// Source: GNU's hash section, which is no part of the gABI.
pub fn gnu_order<S: Source>(elf: &mut Elf<S>, s: ScnId, nbuckets: u32) -> Result<Words, ElfError>
    requires { 0 < nbuckets }
    ensures answer { Answers elf.old.told (wanted (calls.gnu_order s.0 nbuckets) elf.old) result
        ((calls.gnu_order s.0 nbuckets).answer elf.old.o) }
    ensures looks { Looks S.Source (calls.gnu_order s.0 nbuckets) result elf.old elf.new }
    ensures whole { IfOk result (λ order. IsOrder order (length (listed_names elf.old.o s.0))) }
{
    match table_of(elf, s) {
        Ok(t) => order_for(elf, t, nbuckets),
        Err(e) => Err(e),
    }
}

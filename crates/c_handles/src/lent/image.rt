//! The source over lent bytes.

ghost use Rattle.std.specs.Prelude.{refl, IsErr, ◌≡◌, ◌+◌, ◌^◌, ◌<◌, ◌≤◌, ◌++◌, [], ◌∷◌, Some, length, take, drop, replicate, OnOk, OnErr, IfErr};
ghost use Rattle.elf_types.specs.Lists.{AreBytes};
ghost use Rattle.elf_outside.specs.Counts.{HasCause, RaisedBy};
ghost use Rattle.std.proofs.Common.{sym};
ghost use Rattle.c_handles.specs.Lent.Loans.{pointer_numbers};
ghost use Rattle.c_handles.specs.Lent.Writes.{with_writes, bytes_put, AreSound};

use crate::lent::loan::Loan;
use crate::lent::writes::{KeptWrite, copy_after};
use elf_outside::{Device, Failed, Source};
use elf_types::{ElfError, List, Octets};
use std::alloc::Global;

/// Lent bytes, to be read, and the writes to be done on them. It tells what they are with those
/// writes, and no read of them fails; a write fails for lack of memory alone. What it keeps besides
/// is which part of the right to them is had and where they lie, so that what comes back is what
/// was lent.
#[derive(Drop)]
pub struct LentImage {
    loan: Loan,
    alloc: Global,
    writes: List<KeptWrite>,
    size: u64,
    taken: u64,
    lost: u64,
    write_faults: u64,
    pub ghost sound: { AreSound writes },
    pub ghost sized: { size ≡ length (with_writes writes loan.bytes) },
}

/// What is lent is bytes.
fn know_bytes(bytes: &[u8])
    ensures { AreBytes bytes.now }
{}

impl LentImage {
    /// The image of a loan, of which nothing was read and to which nothing was written. It takes
    /// no memory.
    pub fn new(alloc: Global, loan: Loan) -> LentImage
        ensures loan { result.loan ≡ loan }
        ensures writes { (result.writes ≡ []) × (result.lost ≡ 0) × (result.taken ≡ 0) }
    {
        let bytes = loan.bytes();
        let size = bytes.len() as u64;
        LentImage {
            loan,
            alloc,
            writes: List::new(alloc),
            size,
            taken: 0,
            lost: 0,
            write_faults: 0,
        }
    }

    /// The loan. It takes no memory.
    pub fn into_loan(self) -> Loan
        ensures { result ≡ self.loan }
    {
        let LentImage {
            loan,
            writes: _writes,
            ..
        } = self;
        loan
    }

    /// The loan, and the writes to be done. It takes no memory.
    pub fn into_parts(self) -> (Loan, List<KeptWrite>)
        ensures { (result.0 ≡ self.loan) × (result.1 ≡ self.writes) }
    {
        let LentImage { loan, writes, .. } = self;
        (loan, writes)
    }

    /// Keeps a write, whose bytes lie in what is there then. It fails with `Memory` alone, and then
    /// nothing changes.
    fn keep(&mut self, size: u64, at: u64, bytes: &[u8]) -> Result<(), ElfError>
        requires { at + length bytes.now ≤ size }
        ensures kept { OnOk result (self.new.writes
            ≡ self.old.writes ++ (record { size = size; at = at; bytes = bytes.now }) ∷ []) }
        ensures size { OnOk result (self.new.size ≡ size) }
        ensures err { IfErr result (λ e. e ≡ ElfError.Memory) }
        ensures refused { OnErr result
            ((self.new.writes ≡ self.old.writes) × (self.new.size ≡ self.old.size)) }
        ensures leaves { (self.new.loan ≡ self.old.loan) × (self.new.taken ≡ self.old.taken)
            × (self.new.lost ≡ self.old.lost)
            × (self.new.write_faults ≡ self.old.write_faults) }
    {
        let own = Octets::from_slice(self.alloc, bytes)?;
        self.writes.push(KeptWrite {
            size,
            at,
            bytes: own,
        })?;
        self.size = size;
        Ok(())
    }

    /// Counts that a write of so many bytes failed.
    fn count(&mut self, given: u64) -> Result<(), Failed>
        ensures fails { IsErr result }
        ensures leaves { (self.new.loan ≡ self.old.loan) × (self.new.taken ≡ self.old.taken)
            × (self.new.writes ≡ self.old.writes) × (self.new.size ≡ self.old.size) }
        ensures cause { HasCause self.old.write_faults self.new.write_faults result }
        ensures lost { RaisedBy self.old.lost self.new.lost given }
    {
        self.lost = self.lost.saturating_add(given);
        self.write_faults = self.write_faults.saturating_add(1);
        Err(Failed)
    }

    /// Keeps a write, or counts that it failed, and its bytes.
    fn keep_or_count(&mut self, size: u64, at: u64, bytes: &[u8]) -> Result<(), Failed>
        requires { at + length bytes.now ≤ size }
        ensures kept { OnOk result (self.new.writes
            ≡ self.old.writes ++ (record { size = size; at = at; bytes = bytes.now }) ∷ []) }
        ensures size { OnOk result (self.new.size ≡ size) }
        ensures refused { OnErr result
            ((self.new.writes ≡ self.old.writes) × (self.new.size ≡ self.old.size)) }
        ensures leaves { (self.new.loan ≡ self.old.loan) × (self.new.taken ≡ self.old.taken) }
        ensures cause { HasCause self.old.write_faults self.new.write_faults result }
        ensures given { RaisedBy (self.old.lost + bytes_put self.old.writes)
            (self.new.lost + bytes_put self.new.writes) (length bytes.now) }
    {
        match self.keep(size, at, bytes) {
            Ok(()) => Ok(()),
            Err(_) => self.count(bytes.len() as u64),
        }
    }
}

impl Source for LentImage {
    ghost size = { λ i. i.size };

    ghost holds = { λ i. Some (with_writes i.writes i.loan.bytes) };

    ghost rest = { λ i. ((i.lost + bytes_put i.writes) ∷ i.write_faults ∷ [])
        ∷ (i.loan.part ∷ pointer_numbers i.loan.at) ∷ i.loan.bytes ∷ [] };

    ghost faults = { λ _. 0 };

    ghost taken = { λ i. i.taken };

    fn len(&self) -> u64 {
        know_bytes(self.loan.bytes());
        self.size
    }

    fn read_at(&mut self, at: u64, buf: &mut [u8]) -> Result<(), Failed> {
        let _fits = self.size;
        self.taken = self.taken.saturating_add(buf.len() as u64);
        copy_after(self.loan.bytes(), self.writes.as_slice(), at, buf);
        Ok(())
    }

    ghost sized = { λ i. sym i.sized };
}

impl Device for LentImage {
    ghost write_faults = { λ i. i.write_faults };

    ghost given = { λ i. i.lost + bytes_put i.writes };

    ghost rest_after = { λ i. (i.loan.part ∷ pointer_numbers i.loan.at) ∷ i.loan.bytes ∷ [] };

    fn write_at(&mut self, at: u64, buf: &[u8]) -> Result<(), Failed> {
        self.keep_or_count(self.size, at, buf)
    }

    fn set_len(&mut self, n: u64) -> Result<(), Failed> {
        self.keep_or_count(n, 0, &[])
    }

    fn append(&mut self, buf: &[u8]) -> Result<(), Failed> {
        match self.size.checked_add(buf.len() as u64) {
            Some(longer) => self.keep_or_count(longer, self.size, buf),
            None => self.count(buf.len() as u64),
        }
    }

    fn append_zeros(&mut self, n: u64) -> Result<(), Failed> {
        match self.size.checked_add(n) {
            Some(longer) => self.keep_or_count(longer, 0, &[]),
            None => self.count(0),
        }
    }

    ghost rest_begins = { λ _. refl };
}

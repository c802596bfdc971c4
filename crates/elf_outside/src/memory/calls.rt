//! The calls of an object in memory that are to fail.

ghost use Rattle.std.specs.Prelude.{◌≡◌, ◌↔◌, Contains, IsErr, IsTrue};
ghost use Rattle.elf_outside.specs.Counts.{HasCause, next_count, faults_after};

use crate::sources::Failed;
use elf_types::Addrs;

/// The calls of one kind, numbered from 1: `made` were made so far, and those whose number is in
/// `bad` fail.
#[derive(Drop)]
pub(crate) struct Calls {
    pub bad: Addrs,
    pub made: u64,
}

impl Calls {
    /// No call was made. It takes no memory.
    pub fn new(bad: Addrs) -> Calls
        ensures { result ≡ record { bad = bad; made = 0 } }
    {
        Calls { bad, made: 0 }
    }

    /// Counts a call, and says whether it is to fail.
    pub fn next_fails(&mut self) -> bool
        ensures number { self.new.made ≡ next_count self.old.made }
        ensures same { self.new.bad ≡ self.old.bad }
        ensures fails { IsTrue result ↔ Contains self.old.bad self.new.made }
    {
        self.made = self.made.saturating_add(1);
        self.bad.as_slice().contains(&self.made)
    }

    /// Counts a call, and rejects it where it is to fail, with one fault more.
    pub fn next(&mut self, faults: &mut u64) -> Result<(), Failed>
        ensures number { self.new.made ≡ next_count self.old.made }
        ensures same { self.new.bad ≡ self.old.bad }
        ensures fails { IsErr result ↔ Contains self.old.bad self.new.made }
        ensures counted { faults.new ≡ faults_after result faults.old }
        ensures cause { HasCause faults.old faults.new result }
    {
        if self.next_fails() {
            *faults = faults.saturating_add(1);
            return Err(Failed);
        }
        Ok(())
    }
}

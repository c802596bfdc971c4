//! Files by name.

ghost use Rattle.std.specs.Prelude.{◌≡◌, ◌⊎◌, ◌↔◌, ℕ, ◌-◌, ◌≤◌, [], Bool, List, Option, Some, None, IfOk, OnOk, OnErr, IsTrue, IsErrOf};
ghost use Rattle.elf_outside.specs.Counts.{Rose, RaisedBy, RisesWith, next_count};
ghost use Rattle.elf_outside.specs.Opens.{meanings, Opens, HandsOver};
ghost use Rattle.elf_outside.specs.Names.{SameNames, SameOthers, Closes};

use crate::devices::Device;
use std::alloc::Global;

/// Why a file was not handed out.
#[derive(Clone, Copy, Debug, PartialEq, Eq)]
pub enum OpenFault {
    /// No file has that name.
    NotThere,
    /// The outside failed. A total of faults shows it.
    Failed,
    /// There is no memory for the file.
    Memory,
}

/// A set of files.
///
/// - `tells` is whether the set tells its map from names to bytes, and `named` is that map.
/// - `read_faults`, `write_faults`, `taken` and `given` are totals over the files that were closed;
///   the first two count the calls too that hand no file out since the outside failed. None falls.
/// - `live` is the number of files that were handed out and not yet closed.
pub trait Files {
    type File: Device;

    ghost tells: { Self → Bool };

    ghost named: { Self → List ℕ → Option (List ℕ) };

    ghost read_faults: { Self → ℕ };

    ghost write_faults: { Self → ℕ };

    ghost taken: { Self → ℕ };

    ghost given: { Self → ℕ };

    ghost live: { Self → ℕ };

    /// Opens a file for reading. The file holds the bytes of the name, all its counts are 0, and no
    /// name changes. `NotThere` comes exactly where the name is not there, and `Failed` only where
    /// the total of failed reads increased.
    fn open(&mut self, alloc: Global, name: &str) -> Result<Self::File, OpenFault>
        ensures { Opens (meanings tells named read_faults write_faults taken given live)
            Self.File.Source Self.File.Device.own self.old self.new name.now result };

    /// Opens a file for reading and writing, as `open` does.
    fn edit(&mut self, alloc: Global, name: &str) -> Result<Self::File, OpenFault>
        ensures { Opens (meanings tells named read_faults write_faults taken given live)
            Self.File.Source Self.File.Device.own self.old self.new name.now result };

    /// Makes an empty file of the name, in place of one that was there. It never returns
    /// `NotThere`, and `Failed` only where the total of failed writes increased. After a refusal
    /// the name is as before or holds the empty text. No other name changes.
    fn create(&mut self, alloc: Global, name: &str) -> Result<Self::File, OpenFault>
        ensures others { SameOthers (tells self.old) (named self.old)
            (tells self.new) (named self.new) name.now }
        ensures set { IsTrue (tells self.old) → OnOk result (named self.new name.now ≡ Some []) }
        ensures refused { IsTrue (tells self.old) → OnErr result
            ((named self.new name.now ≡ named self.old name.now)
            ⊎ (named self.new name.now ≡ Some [])) }
        ensures empty { IfOk result (λ f. Self.File.size f ≡ 0) }
        ensures bytes { IfOk result (λ f. IsTrue (tells self.old) → Self.File.holds f ≡ Some []) }
        ensures there { ¬ IsErrOf result OpenFault.NotThere }
        ensures failed { IsErrOf result OpenFault.Failed →
            Rose (write_faults self.old) (write_faults self.new) }
        ensures hands { HandsOver (meanings tells named read_faults write_faults taken given live)
            Self.File.Source Self.File.Device.own self.old self.new result };

    /// Takes a file back under its name. A name that is there holds what the file holds from now
    /// on; one that is not there stays away, and no other name changes. A total of faults rises
    /// where the file's own count had risen. A total of bytes rises by the file's own number, by
    /// exactly that while the sum stays below 2^64, and never by more.
    fn close(&mut self, name: &str, file: Self::File)
        ensures names { Closes (tells self.old) (named self.old)
            (tells self.new) (named self.new) name.now (Self.File.holds file) }
        ensures read_faults { RisesWith (read_faults self.old) (read_faults self.new)
            (Self.File.faults file) }
        ensures write_faults { RisesWith (write_faults self.old) (write_faults self.new)
            (Self.File.write_faults file) }
        ensures taken { RaisedBy (taken self.old) (taken self.new) (Self.File.taken file) }
        ensures given { RaisedBy (given self.old) (given self.new) (Self.File.given file) }
        ensures live { live self.new ≡ live self.old - 1 };
}

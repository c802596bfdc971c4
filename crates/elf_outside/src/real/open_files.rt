//! Which files of the system were handed out, and which of them are open, under whatever names.

ghost use Rattle.std.specs.Prelude.{◌≡◌, true, OnOk, vec_len};
ghost use Rattle.elf_outside.specs.Known.{knows, IsNoted, KeepsKnown, KnowsNone};

use std::alloc::{AllocError, Global};
use std::collections::BTreeSet;
use std::fs::Metadata;
use std::os::unix::fs::{MetadataExt, PermissionsExt};

/// The bits of a mode that say who may read, write and run a file.
const PERMISSIONS: u32 = 0o777;

/// A file of the system, whatever its name: the device that it is on, and its number there.
#[derive(Clone, Copy, Debug, PartialEq, Eq, PartialOrd, Ord)]
pub struct Inode {
    device: u64,
    number: u64,
}

/// A file as it was when it was opened: which one it is, whether it is a regular one, and who may
/// read, write and run it.
#[derive(Clone, Copy)]
pub struct OpenFile {
    pub(super) inode: Inode,
    pub(super) is_regular: bool,
    mode: u32,
}

impl OpenFile {
    /// The file that the system told this of.
    pub fn of(about: &Metadata) -> OpenFile {
        OpenFile {
            inode: Inode {
                device: about.dev(),
                number: about.ino(),
            },
            is_regular: about.is_file(),
            mode: about.permissions().mode() & PERMISSIONS,
        }
    }
}

/// The files that were handed out and not yet closed, in the order in which they were, each as
/// often as it was; and the regular ones that were ever handed out, each once.
///
/// A file costs 16 bytes and the room of its place in a tree for as long as the run lasts, and to
/// look for one among n takes about log n steps.
#[derive(Drop)]
pub struct OpenFiles {
    files: Vec<OpenFile>,
    known: BTreeSet<Inode>,
}

impl OpenFiles {
    /// No file. It takes no memory.
    pub fn new(alloc: Global) -> OpenFiles
        ensures none { vec_len result.files ≡ 0 }
        ensures known { KnowsNone result }
    {
        OpenFiles {
            files: Vec::new(alloc),
            known: BTreeSet::new(alloc),
        }
    }

    /// Notes a file that is handed out. An error means out of memory, and then it is not open.
    pub fn add(&mut self, file: OpenFile) -> Result<(), AllocError>
        ensures noted { OnOk result (IsNoted self.new file) }
        ensures known { KeepsKnown self.old self.new }
    {
        if file.is_regular {
            if let Err(e) = self.know(file.inode) {
                return Err(e);
            }
        }
        match self.files.push(file) {
            Ok(()) => Ok(()),
            Err(_) => Err(AllocError),
        }
    }

    /// Notes that a file was handed out. An error means out of memory.
    fn know(&mut self, inode: Inode) -> Result<(), AllocError>
        ensures noted { OnOk result (knows self.new inode ≡ true) }
        ensures known { KeepsKnown self.old self.new }
    {
        match self.known.insert(inode) {
            Ok(_) => Ok(()),
            Err(_) => Err(AllocError),
        }
    }

    /// Whether a regular file was handed out, open or not.
    pub fn knows(&self, inode: Inode) -> bool
        ensures { result ≡ knows self.now inode }
    {
        self.known.contains(&inode)
    }

    /// The permissions of the first one that is open, or None where none is.
    pub fn first_mode(&self) -> Option<u32> {
        self.files.first().map(|held| held.mode)
    }

    /// Takes out a file that is closed, once. It stays known.
    pub fn remove(&mut self, inode: Inode)
        ensures known { KeepsKnown self.old self.new }
    {
        if let Some(i) = self.files.iter().position(|held| held.inode == inode) {
            self.files.remove(i);
        }
    }
}

//! The handle of an archive.

ghost use Rattle.std.specs.Prelude.{◌≡◌, Bool, true, false};
ghost use Rattle.c_handles.specs.declared.archives.opened.OpenArchive.{OpenArchive};
ghost use Rattle.c_handles.specs.Archives.Handles.{archive_owns, archive_coded};

use crate::archives::opened::OpenArchive;
use crate::objects::Loose;
use std::alloc::Global;
use std::marker::Model;
use std::mem::replace;
use std::ptr::null_mut;

/// What C holds of an archive: one pointer, of which it makes nothing but to hand it back. A null
/// pointer is the handle of nothing, with which C begins.
#[repr(C)]
#[derive(Drop)]
pub struct ArchiveHandle {
    ptr: *mut u8,
    alloc: Global,
    /// Whether there is an archive.
    pub ghost full: { Bool },
    /// The archive, where there is one.
    pub ghost held: { OpenArchive } by { archive_coded },
}

impl Model for ArchiveHandle {
    ghost also_owns = { λ h. archive_owns h.alloc h.ptr h.full h.held };
}

impl ArchiveHandle {
    /// The handle of nothing.
    fn empty(alloc: Global) -> ArchiveHandle
        ensures { result.full ≡ false }
    {
        ArchiveHandle {
            ptr: null_mut(),
            alloc,
        }
    }

    /// The handle of what a box held.
    fn closed(loose: Loose<OpenArchive, Global>) -> ArchiveHandle
        ensures { (result.full ≡ true) × (result.held ≡ loose.value) }
    {
        let Loose { at, alloc } = loose;
        ArchiveHandle {
            ptr: at as *mut u8,
            alloc,
        }
    }

    /// What the box held.
    fn opened(self) -> Loose<OpenArchive, Global>
        requires { self.full ≡ true }
        ensures { result.value ≡ self.held }
    {
        let ArchiveHandle { ptr, alloc } = self;
        Loose {
            at: ptr as *mut OpenArchive,
            alloc,
        }
    }

    /// Takes the archive, and leaves the handle of nothing.
    pub fn take(&mut self, alloc: Global) -> Box<OpenArchive>
        requires { self.old.full ≡ true }
        ensures archive { result.value ≡ self.old.held }
        ensures left { self.new.full ≡ false }
    {
        let full = replace(self, ArchiveHandle::empty(alloc));
        full.opened().into_box()
    }

    /// Puts an archive in, where there is none.
    pub fn put(&mut self, archive: Box<OpenArchive>)
        requires { self.old.full ≡ false }
        ensures { (self.new.full ≡ true) × (self.new.held ≡ archive.value) }
    {
        let _before = replace(self, ArchiveHandle::closed(Loose::of(archive)));
    }
}

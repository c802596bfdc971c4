//! The handle of writes.

ghost use Rattle.std.specs.Prelude.{◌≡◌, Bool, true, false};
ghost use Rattle.c_handles.specs.declared.writes.planned.PlannedWrites.{PlannedWrites};
ghost use Rattle.c_handles.specs.Writes.Handles.{writes_own, writes_coded};

use crate::objects::Loose;
use crate::writes::planned::PlannedWrites;
use std::alloc::Global;
use std::marker::Model;
use std::mem::replace;
use std::ptr::null_mut;

/// What C holds of writes: one pointer, of which it makes nothing but to hand it back. A null
/// pointer is the handle of nothing, with which C begins.
#[repr(C)]
#[derive(Drop)]
pub struct WritesHandle {
    ptr: *mut u8,
    alloc: Global,
    /// Whether there are writes.
    pub ghost full: { Bool },
    /// The writes, where there are.
    pub ghost held: { PlannedWrites } by { writes_coded },
}

impl Model for WritesHandle {
    ghost also_owns = { λ h. writes_own h.alloc h.ptr h.full h.held };
}

impl WritesHandle {
    /// The handle of nothing.
    fn empty(alloc: Global) -> WritesHandle
        ensures { result.full ≡ false }
    {
        WritesHandle {
            ptr: null_mut(),
            alloc,
        }
    }

    /// The handle of what a box held.
    fn closed(loose: Loose<PlannedWrites, Global>) -> WritesHandle
        ensures { (result.full ≡ true) × (result.held ≡ loose.value) }
    {
        let Loose { at, alloc } = loose;
        WritesHandle {
            ptr: at as *mut u8,
            alloc,
        }
    }

    /// What the box held.
    fn opened(self) -> Loose<PlannedWrites, Global>
        requires { self.full ≡ true }
        ensures { result.value ≡ self.held }
    {
        let WritesHandle { ptr, alloc } = self;
        Loose {
            at: ptr as *mut PlannedWrites,
            alloc,
        }
    }

    /// Takes the writes, and leaves the handle of nothing.
    pub fn take(&mut self, alloc: Global) -> Box<PlannedWrites>
        requires { self.old.full ≡ true }
        ensures writes { result.value ≡ self.old.held }
        ensures left { self.new.full ≡ false }
    {
        let full = replace(self, WritesHandle::empty(alloc));
        full.opened().into_box()
    }

    /// Puts writes in, where there are none.
    pub fn put(&mut self, writes: Box<PlannedWrites>)
        requires { self.old.full ≡ false }
        ensures { (self.new.full ≡ true) × (self.new.held ≡ writes.value) }
    {
        let _before = replace(self, WritesHandle::closed(Loose::of(writes)));
    }
}
